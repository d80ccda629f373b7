//! Image files: what the FM9001 is loaded with, read from bytes and written as bytes.
//!
//! `docs/languages/image-file.md` lists the fields and the rules by which a file is refused.
#![tactic(auto)]

mod code;
mod fault;
mod image;
mod laws;
mod limit;
mod procedure;
mod reading;
mod slot;
mod window;
mod writing;

pub use fault::ImageFault;
pub use image::{Image, bare_image, in_version_2};
pub use laws::one_spelling;
pub use limit::{MAGIC, MARKED_VERSION, UNMARKED_VERSION, is_size};
pub use procedure::{Mark, ProcInfo, VarInfo};
pub use reading::read_image;
pub use slot::Slot;
pub use writing::write_image;

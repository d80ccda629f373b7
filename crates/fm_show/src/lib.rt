//! The FM9001 as text: a word as the instruction that it is, and a machine or an image as lines.
//!
//! `docs/languages/fm9001.md` has the notation, with examples.
#![tactic(auto)]

mod digits;
mod disassembly;
mod image;
mod listing;

pub use digits::{hex_digits, push_counted, push_number};
pub use disassembly::{disassemble, name_of_condition, name_of_operation};
pub use image::show_image;
pub use listing::show_machine;

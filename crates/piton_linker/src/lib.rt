//! Linked Piton programs: the placed words of a system do on the processor what the system's steps are.
//!
//! `link` places a checked system, and that this is so is a clause of its result (`RunsOnProcessor`): from the placed
//! words, each run without an error is followed step by step, and the processor ends exactly where Piton's machine halts.
#![tactic(auto)]

mod data;
mod draft;
mod fault;
mod linking;
mod memory;
mod numbering;
mod placement;
mod sizes;
mod table;
mod words;

pub use fault::LinkFault;
pub use linking::{Linked, link};
pub use numbering::PlacedSystem;
pub use placement::Layout;
pub use sizes::{layout, layout_behind};

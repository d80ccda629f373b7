//! Piton's static rules: what keeps a system from being run, and a checked system with each name replaced by a position.
//!
//! `specs/` has the rules, the positions, what later layers know of a checked system, and words with names in place of
//! positions.
#![tactic(auto)]

mod argument;
mod checked;
mod fault;
mod laws;
mod names;
mod naming;
mod piece;
mod program;
mod resolved;
mod system;
mod word;
mod word_names;

pub use checked::{Checked, check};
pub use fault::CheckFault;
pub use laws::places_change_nothing;
pub use naming::{program_name, push_word, words_line};
pub use piece::Piece;
pub use resolved::{Resolved, ResolvedArg, ResolvedInstr, ResolvedProgram};
pub use word_names::word_operation;

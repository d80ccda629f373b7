//! Piton's words: numbers, bits, truth values and names of positions, each with its tag, and the operations on them.
//!
//! Tags and operations are this repository's profile of Piton.
#![tactic(auto)]

mod arithmetic;
mod logic;
mod op;
mod outcome;
mod row;
mod view;
mod word;

pub use op::WordOp;
pub use outcome::{Outcome, WordError};
pub use row::apply;
pub use word::Word;

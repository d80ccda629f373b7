//! The code of Piton's instructions on the FM9001: its words, and what they do.
//!
//! A program's memory has four parts: the code, areas, a control stack and a temporary stack.
//! `word` has the notation of instruction words, and `template` the templates without literals.
//! `move_rows`, `jump_rows`, `word_rows` and `test_rows` say what the words of each instruction do
//! to the frame pointer, the program counter, both stacks and the areas, and in how many steps.
//! Everything is said of numbers; how they stand for Piton's words is for the crates above.
#![tactic(auto)]

mod laws;
/// The words of the instructions whose code has no literal, as arrays.
pub mod template;
/// Instruction words, each by the operation, the target and the source that one writes.
pub mod word;

pub use laws::{jump_rows, move_rows, test_rows, word_rows};

//! The FM9001's words: its sixteen operations, its sixteen store conditions, and its instructions.
//!
//! The processor is that of Brock, Hunt and Kaufmann, "The FM9001 Microprocessor Proof"
//! (Computational Logic, Inc.). The numbers of the operations, of the conditions
//! and of the fields are this repository's, and `docs/languages/fm9001.md` lists them.
#![tactic(auto)]

mod condition;
mod field;
mod instruction;
mod operation;
mod window_limit;
mod word;

pub use condition::{Cc, Flags, holds};
pub use instruction::{Instr, Mode, OperandA, decode, encode};
pub use operation::{AluOut, Op, alu};
pub use window_limit::MOST_WINDOW;
pub use word::{is_int, is_nat, signed_of, word_of_int, wrapped};

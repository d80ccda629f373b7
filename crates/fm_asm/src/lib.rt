//! An assembler for the FM9001 and its inverse: images from text, and plain images as text.
//!
//! `docs/languages/asm.md` has the form of texts and the rules by which a text is refused.
#![tactic(auto)]

mod assembling;
mod cuts;
mod due;
mod fault;
mod instruction;
mod judging;
mod labels;
mod laws;
mod line;
mod operand;
mod printing;
mod source;
mod statement;
mod value;

pub use assembling::assemble;
pub use fault::AsmFault;
pub use laws::{assembled_as_spelled, printed_again};
pub use printing::{plain, print_asm};

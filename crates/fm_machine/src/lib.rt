//! The FM9001 as a machine: sixteen registers, four flags and a window of memory.
//!
//! The processor is that of Brock, Hunt and Kaufmann, "The FM9001 Microprocessor Proof"
//! (Computational Logic, Inc.). `docs/languages/fm9001.md` says what a step does.
#![tactic(auto)]

mod fault;
mod flag_bits;
mod forms;
mod operand;
mod processor;
mod window;

pub use fault::{NewFault, Outside};
pub use processor::{Machine, Run};

//! What Piton's instructions do: states, the rows of the instructions, steps and runs with their costs, and the laws of
//! these. `piton_machine` computes them.
//!
//! `specs/` also has Piton on the processor: the code of each instruction, the placed system, and when a machine of the
//! processor stands for a state. That the code does the steps is a law of the definitions (`placed_laws`).
#![tactic(auto)]

mod argument;
mod costs;
mod error_kind;
mod group;
mod instructions;
mod laws;
mod piece;
mod piton_instr;
mod stepped;

pub use argument::place_of;
pub use costs::{operation_cost, variables};
pub use error_kind::ErrorKind;
pub use group::{Group, group_of};
pub use instructions::instruction;
pub use laws::{placed_laws, step_laws};
pub use piece::{push_code, push_literal, word_piece};
pub use piton_instr::PitonInstr;
pub use stepped::{PitonRun, Stepped};

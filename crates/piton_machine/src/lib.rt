//! Piton's machine: a state with a temporary stack, frames and data areas, its step by the rows of the instructions, and its
//! runs.
//!
//! What it computes is defined in `piton_semantics`.
#![tactic(auto)]

mod act;
mod areas;
mod calls;
mod frames;
mod jumps;
mod moves;
mod stack;
mod state;
mod view;

pub use frames::FrameAt;
pub use piton_semantics::{ErrorKind, PitonRun, Stepped};
pub use state::State;

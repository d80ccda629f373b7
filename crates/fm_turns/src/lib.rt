//! Several images that take turns in one memory.
//!
//! The windows of the images lie side by side, and one machine has them all. In each round every running task is given a
//! number of instructions, with registers and flags of its own. A task whose run alone stays inside its own window never
//! notices the others: [`each_as_alone`] says so.
#![tactic(auto)]

mod context;
mod copying;
mod fault;
mod laws;
mod round;
mod starting;
mod task;
mod turning;
mod turns;

pub use fault::TurnsFault;
pub use laws::{each_as_alone, each_ends_as_alone};
pub use task::Task;
pub use turns::Turns;

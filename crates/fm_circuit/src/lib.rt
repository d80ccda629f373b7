//! The FM9001 as a synchronous circuit.
#![tactic(auto)]

mod circuit;
mod laws;
mod processor;
mod rows;
mod wire;

pub use circuit::{Driver, Pin, pin_width};
pub use laws::{begins, ceases, ends, faults, fitting, runs, settles, sized, steps};
pub use processor::driver;
pub use wire::{Wire, width, wires};

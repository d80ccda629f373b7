//! The circuit's words as gates, and the netlist of them.
#![tactic(auto)]

mod laws;

pub use laws::{goes_on, lowered, runs};

//! What the printed Verilog means.
#![tactic(auto)]

mod laws;

pub use laws::{goes_on, means, names, runs, written};

//! The processor's netlist as Verilog.
#![tactic(auto)]

mod bits;
mod choices;
mod lines;
mod text;

pub use text::netlist;

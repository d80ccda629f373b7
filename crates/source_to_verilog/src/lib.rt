//! From the bytes of a source to the bytes of the Verilog: what the printed module does with the image of a text, from whatever its
//! registers hold when the power comes on.
#![tactic(auto)]

mod laws;

pub use laws::runs_in_verilog;

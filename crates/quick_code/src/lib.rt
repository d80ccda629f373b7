//! Quick code: stretches of instructions that reach variables by their addresses.
#![tactic(auto)]

mod laws;

pub use laws::piece_rows;

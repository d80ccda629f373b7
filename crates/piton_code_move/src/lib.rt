//! The code of Piton's moves, as pieces whose addresses are not known yet.
#![tactic(auto)]

mod emission;
mod row;

pub use emission::{append, emit};

//! The code of Piton's jumps, calls and returns, and of the preludes of programs, as pieces whose addresses are not known yet.
#![tactic(auto)]

mod emission;
mod entry;
mod row;

pub use emission::{append, emit};
pub use entry::prelude;

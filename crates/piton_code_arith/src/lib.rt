//! The code of Piton's operations on words, as pieces.
#![tactic(auto)]

mod emission;

pub use emission::{append, emit};

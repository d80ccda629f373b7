//! Large sources of Micro-Gypsy, made from a number and a size.
#![tactic(auto)]

mod body;
mod making;
mod parts;

pub use making::large;

//! The driver: fetches what a command reads, stores what it writes, prints its reply, and ends with its status. It is the same
//! for all commands.

mod conclude;
mod perform;

pub use conclude::{conclude, conclude_reply};
pub use perform::run_words;

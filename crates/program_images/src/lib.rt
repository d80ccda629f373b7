//! From what is proved of a program to what the memory of its image shows, or that a run of it doesn't end.
//!
//! The rules are `shown_in`, `shown_after_in` and `runs_on_in` of `proofs/ImageRules`. Each is of any image that implements a text,
//! and `built_text` says that what `build` makes of a text is one. What they rest on is said here.
#![tactic(auto)]

mod laws;

pub use laws::{counts_are_shown, endless_runs_on, means_are_shown, text_has_one_source};

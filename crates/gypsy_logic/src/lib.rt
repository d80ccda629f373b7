//! Rules to prove statements about Micro-Gypsy programs.
//!
//! The rules are the lemmas of `proofs/Rules`, for `Ends` of `specs/Ends`. What they rest on is said here: each row of the table
//! of the language holds of its meaning, and what a statement doesn't write it keeps. That it has one end is a law of
//! `gypsy_semantics`.
#![tactic(auto)]

mod laws;

pub use laws::{statements_follow_table, statements_keep_others, statements_take_counts};

//! A small language with infix expressions, lowered to Micro-Gypsy.
//!
//! `specs/` has what programs of the language mean, the source that a program becomes, and that it means the same.
#![tactic(auto)]

mod laws;
mod lowering;
mod predefs;
mod rows;
mod statements;
mod temporaries;
mod values;

pub use laws::{examples_compute, lowering_is_one, lowering_means_the_same, stored_means_the_same};
pub use lowering::lower;
pub use mini_syntax::MiniFault;

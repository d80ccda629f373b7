//! The static rules of Micro-Gypsy: what keeps a source from being compiled, and accepted sources.
//!
//! `specs/` has the rules, and what later layers know of an accepted source.
#![tactic(auto)]

mod accepted;
mod callees;
mod calls;
mod conditions;
mod declarations;
mod fault;
mod literals;
mod names;
mod predefs;
mod procedures;
mod scope;
mod statements;
mod types;
mod values;
mod variables;

pub use accepted::{Accepted, check};
pub use fault::CheckFault;

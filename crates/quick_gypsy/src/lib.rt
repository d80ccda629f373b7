//! Quick code of Micro-Gypsy: statements straight to the FM9001.
#![tactic(auto)]

mod laws;

pub use laws::{calls_are_lined, quick_is_no_slower, statements_go_on, statements_run};

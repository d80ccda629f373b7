//! Debuggers: sessions of runs at the three levels, with watches that are told each step, and what a session says to a script.
#![tactic(auto)]

mod advance;
mod arrival;
mod fm_level;
mod gypsy_level;
mod laws;
mod level;
mod piton_level;
mod piton_listing;
mod piton_reading;
mod piton_standing;
mod runner;
mod script_end;
mod seats;
mod session;
mod tally_lines;
mod texts;
mod transcript;
mod watch;
mod watches;

pub use arrival::Arrival;
pub use laws::{answers_are_lines, runs_walk, scripts_walk, sessions_go_on};
pub use runner::Runner;
pub use script_end::ScriptEnd;
pub use session::{Absent, Session, SessionRun};
pub use transcript::{follow, push_answer};
pub use watch::{Event, Rule, Tally, Watch};
pub use watches::{CostWatch, CountWatch, LastWatch, PeakWatch};

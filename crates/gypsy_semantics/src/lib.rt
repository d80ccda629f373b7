//! The meaning of programs of Micro-Gypsy, what it costs, and the step machine that follows it.
//!
//! `specs/` has the meaning (`Meaning`), the same with its costs (`Counted`), the machine (`Machine`) and what joins them. The machine's code is in
//! `gypsy_meaning`.
#![tactic(auto)]

mod answers;
mod cond;
mod conditions;
mod laws;
mod room;

pub use answers::{MeanRun, Moved};
pub use cond::{is_among, is_leave, is_passed_on};
pub use conditions::Current;
pub use laws::{
    counting_changes_nothing, lending_changes_no_step, meanings_agree, runs_show_moments,
    start_fits, statements_end_once, steps_keep_fit, steps_keep_room,
};
pub use room::{control_need, main_formals, temporary_need};

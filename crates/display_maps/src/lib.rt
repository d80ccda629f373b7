//! Memory read as the condition and the variables of a source, and the report of that.
#![tactic(auto)]

mod ending;
mod printing;
mod reading;
mod reading_at;
mod running;
mod shown;

pub use ending::{Ending, run_on};
pub use printing::{push_reading, report};
pub use reading::{Reading, read_up};
pub use reading_at::{ReadingAt, Standing, read_at, read_from, report_at};
pub use running::{push_run, push_variables, space_name};
pub use shown::{Shown, condition_of, item_of};

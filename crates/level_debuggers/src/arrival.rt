//! How far a session goes to a place.

use crate::session::SessionRun;

/// How a call of `until` ended.
#[derive(Clone, Copy, Debug, PartialEq, Eq)]
pub enum Arrival {
    /// The run stands at the place, for the first time after so many steps of this call.
    There { count: u64 },
    /// It does not come there so soon; what `step` answers to as many steps.
    Elsewhere(SessionRun),
}

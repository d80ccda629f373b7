//! Conditions as they are shown.

use stack_text::Name;

/// The condition in which a run stands.
#[derive(Debug, PartialEq, Eq, Drop)]
pub enum Current {
    /// `normal`: nothing is raised.
    Normal,
    /// `routineerror`, as of a predefined call that fails.
    Routine,
    /// `leave`, which ends the innermost loop.
    Leave,
    /// `spaceerror`, of a call without room.
    Space,
    /// A declared condition.
    Named(Name),
}

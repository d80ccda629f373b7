//! Scripts that sessions follow.

use debug_script::Line;
use level_debuggers::Runner;

/// A script, and the run of the session that is to follow it.
#[derive(Drop)]
pub struct ScriptRun {
    /// The run, which has made no step.
    pub runner: Runner,
    /// The lines of the script.
    pub lines: Vec<Line>,
}

//! What steps and runs answer.

/// What a step did.
#[derive(Clone, Copy, Debug, PartialEq, Eq)]
pub enum Moved {
    /// A step was made, and the run isn't over.
    Moved,
    /// The step ended the run, or the run had ended.
    Ended,
}

/// How a run of so many steps ended.
#[derive(Clone, Copy, Debug, PartialEq, Eq)]
pub enum MeanRun {
    /// The end is reached.
    Ended,
    /// As many steps were made as were allowed, and the end isn't reached.
    Spent,
}

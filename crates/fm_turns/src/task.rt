//! How a task stands.

/// How a task stands. Once it isn't running, this no longer changes, nor do its registers and flags.
///
/// Counts are of instructions since the start, and rounds are counted from 1.
#[derive(Clone, Copy, Debug, PartialEq, Eq)]
pub enum Task {
    /// It has made `count` instructions, and goes on in the next round.
    Running {
        count: u64,
    },
    /// It came to its final program counter after `count` instructions, in a round; in round 0 where it began there.
    Ended {
        count: u64,
        round: u64,
    },
    /// After its turn in a round it had made `count` instructions, as many as the budget of that round allowed, and
    /// wasn't at its final program counter.
    Spent {
        count: u64,
        round: u64,
    },
    /// At its turn in a round, after `count` instructions, the next one needed an address outside the window of all.
    Outside {
        /// The address that was needed.
        address: u32,
        /// How many instructions it has made, in all its turns; the refused one isn't counted.
        count: u64,
        /// The round of that turn.
        round: u64,
    },
}

impl Task {
    ghost use Rattle.std.specs.Prelude.{◌≡◌};
    ghost use Rattle.fm_turns.specs.EqualTurns.{is_running};

    /// Whether it goes on in the next round.
    pub fn is_running(self) -> bool
        ensures { result ≡ is_running self }
    {
        matches!(self, Task::Running { .. })
    }
}

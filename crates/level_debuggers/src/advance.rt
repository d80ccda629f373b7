//! What a step of a run is.

use crate::session::SessionRun;
use crate::watch::Event;
use piton_semantics::ErrorKind;

/// Why the next step of a run is refused.
#[derive(Clone, Copy)]
pub(crate) enum Stop {
    /// An error of Piton's machine, in a program, by its position, at a place.
    Error {
        kind: ErrorKind,
        program: u32,
        place: u32,
    },
    /// An address outside the window.
    Outside {
        address: u32,
    },
}

impl Stop {
    ghost use Rattle.std.specs.Prelude.{◌≡◌};
    ghost use Rattle.level_debuggers.specs.Walks.{refused_after};

    /// The answer of a session that has made so many steps.
    pub(crate) fn after(self, steps: u64) -> SessionRun
        ensures { result ≡ refused_after steps self }
    {
        match self {
            Stop::Error {
                kind,
                program,
                place,
            } => SessionRun::Error {
                kind,
                program,
                place,
                after: steps,
            },
            Stop::Outside { address } => SessionRun::Outside {
                address,
                after: steps,
            },
        }
    }
}

/// What a step of a run was.
#[derive(Clone, Copy)]
pub(crate) enum Advance {
    /// The end was reached before, and nothing has changed.
    Over,
    /// The step is refused, and nothing has changed.
    Stops(Stop),
    /// The step was made.
    Makes(Event),
}

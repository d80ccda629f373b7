//! How scripts end.

use piton_semantics::ErrorKind;

/// How a script ends. A place and a number of steps are those of the session's answer.
#[derive(Clone, Copy, Debug, PartialEq, Eq)]
pub enum ScriptEnd {
    /// All its commands were carried out.
    Done,
    /// The next step is an error of Piton's machine.
    Error {
        /// Why the step is refused.
        kind: ErrorKind,
        /// The position of its program in the system.
        program: u32,
        /// The position of the instruction in the program, from 0.
        place: u32,
        /// How many steps the session has made.
        after: u64,
    },
    /// The next step needs an address outside the window. `after` is the session's number of steps.
    Outside {
        address: u32,
        after: u64,
    },
    /// This line attaches a watch, and none of its rule waits.
    NoneWaits {
        line: u32,
    },
    /// This line detaches a watch, or asks for its tally, and none of its rule is attached.
    NoneAttached {
        line: u32,
    },
    /// This line asks for words of memory, or for a place, that runs of this level don't have.
    OtherLevel {
        line: u32,
    },
}

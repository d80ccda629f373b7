//! Why a run does not begin.

use crate::fault::BuildFault;
use fm_loader::ValuesFault;
use stack_text::Memory;
use thiserror::Error;

/// Why a run of a source on values does not begin. The sizes of the stacks are judged before the values.
#[derive(Clone, Copy, Debug, PartialEq, Eq, Error)]
pub enum StartFault {
    /// Nothing is built of the source for stacks of these sizes; or out of memory.
    #[error("{0}")]
    Build(BuildFault),
    /// The values break a rule of values files, V1 to V7, at a place of their text.
    #[error("values V{rule} at {place}")]
    Values { rule: u8, place: u32 },
}

impl From<BuildFault> for StartFault {
    ghost use Rattle.std.specs.Prelude.{◌≡◌};
    ghost use Rattle.stack_build.specs.declared.start_fault.StartFault.TheVariants.{Build};

    ghost from_gives = { λ e f. f ≡ Build e };

    fn from(error: BuildFault) -> StartFault {
        StartFault::Build(error)
    }
}

impl From<ValuesFault> for StartFault {
    ghost use Rattle.std.specs.Prelude.{◌≡◌};
    ghost use Rattle.stack_build.specs.Starts.{values_fault};

    ghost from_gives = { λ e f. f ≡ values_fault e };

    fn from(error: ValuesFault) -> StartFault {
        match error {
            ValuesFault::Refused { rule, place } => StartFault::Values { rule, place },
            ValuesFault::Memory => StartFault::Build(BuildFault::Memory),
        }
    }
}

impl From<Memory> for StartFault {
    ghost use Rattle.std.specs.Prelude.{◌≡◌};
    ghost use Rattle.stack_build.specs.declared.start_fault.StartFault.TheVariants.{Build};
    ghost use Rattle.stack_build.specs.declared.fault.BuildFault.TheVariants as faults;

    ghost from_gives = { λ _ f. f ≡ Build faults.Memory };

    fn from(_error: Memory) -> StartFault {
        StartFault::Build(BuildFault::Memory)
    }
}

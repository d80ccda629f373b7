//! Why a text is refused.

use stack_text::{Breach, Memory};
use std::alloc::{AllocError, AllocFailed};
use thiserror::Error;

/// Why no image was assembled: the least fault of the text, place before rule; or out of memory.
#[derive(Clone, Copy, Debug, PartialEq, Eq, Error)]
pub enum AsmFault {
    /// The text breaks a rule of `docs/languages/asm.md`, 1 for A1 to 7 for A7, at the place of the first byte of a line, counted from
    /// 0; where a statement of the header is missing, at the number of the text's bytes.
    #[error("assembly A{rule} at {place}")]
    Refused { rule: u8, place: u32 },
    /// An allocation failed.
    #[error("out of memory")]
    Memory,
}

impl From<Breach> for AsmFault {
    ghost use Rattle.std.specs.Prelude.{◌≡◌};
    ghost use Rattle.fm_asm.specs.declared.fault.AsmFault.TheVariants as faults;

    ghost from_gives = { λ breach e. e ≡ faults.Refused breach.rule breach.place };

    fn from(breach: Breach) -> AsmFault {
        AsmFault::Refused {
            rule: breach.rule,
            place: breach.place,
        }
    }
}

impl From<Memory> for AsmFault {
    ghost use Rattle.std.specs.Prelude.{◌≡◌};
    ghost use Rattle.fm_asm.specs.declared.fault.AsmFault.TheVariants as faults;

    ghost from_gives = { λ _ e. e ≡ faults.Memory };

    fn from(_error: Memory) -> AsmFault {
        AsmFault::Memory
    }
}

impl From<AllocError> for AsmFault {
    ghost use Rattle.std.specs.Prelude.{◌≡◌};
    ghost use Rattle.fm_asm.specs.declared.fault.AsmFault.TheVariants as faults;

    ghost from_gives = { λ _ e. e ≡ faults.Memory };

    fn from(_error: AllocError) -> AsmFault {
        AsmFault::Memory
    }
}

impl<T: Drop> From<AllocFailed<T>> for AsmFault {
    ghost use Rattle.std.specs.Prelude.{◌≡◌};
    ghost use Rattle.fm_asm.specs.declared.fault.AsmFault.TheVariants as faults;

    ghost from_gives = { λ _ e. e ≡ faults.Memory };

    fn from(_error: AllocFailed<T>) -> AsmFault {
        AsmFault::Memory
    }
}

//! Why a tree is no part of a grammar.

use crate::{Breach, Memory};
use std::alloc::{AllocError, AllocFailed};

/// Why no part was read: a tree breaks a rule, or memory ran out.
#[derive(Clone, Copy, Debug, PartialEq, Eq)]
pub enum FormFault {
    /// The tree at the place breaks the rule of this number.
    Form { rule: u8, place: u32 },
    /// An allocation failed.
    Memory,
}

impl From<Breach> for FormFault {
    ghost use Rattle.std.specs.Prelude.{◌≡◌};
    ghost use Rattle.stack_text.specs.declared.grammar.fault.FormFault.TheVariants as faults;

    ghost from_gives = { λ breach e. e ≡ faults.Form breach.rule breach.place };

    fn from(breach: Breach) -> FormFault {
        FormFault::Form {
            rule: breach.rule,
            place: breach.place,
        }
    }
}

impl From<Memory> for FormFault {
    ghost use Rattle.std.specs.Prelude.{◌≡◌};
    ghost use Rattle.stack_text.specs.declared.grammar.fault.FormFault.TheVariants as faults;

    ghost from_gives = { λ _ e. e ≡ faults.Memory };

    fn from(_error: Memory) -> FormFault {
        FormFault::Memory
    }
}

impl From<AllocError> for FormFault {
    ghost use Rattle.std.specs.Prelude.{◌≡◌};
    ghost use Rattle.stack_text.specs.declared.grammar.fault.FormFault.TheVariants as faults;

    ghost from_gives = { λ _ e. e ≡ faults.Memory };

    fn from(_error: AllocError) -> FormFault {
        FormFault::Memory
    }
}

impl<T: Drop> From<AllocFailed<T>> for FormFault {
    ghost use Rattle.std.specs.Prelude.{◌≡◌};
    ghost use Rattle.stack_text.specs.declared.grammar.fault.FormFault.TheVariants as faults;

    ghost from_gives = { λ _ e. e ≡ faults.Memory };

    fn from(_error: AllocFailed<T>) -> FormFault {
        FormFault::Memory
    }
}

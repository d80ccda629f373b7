//! What a machine refuses.

use std::alloc::AllocError;
use thiserror::Error;

/// An address outside the window that an instruction, or a caller, needed.
#[derive(Clone, Copy, PartialEq, Eq, Debug, Error)]
#[error("address {address:#010x} is outside the window")]
pub struct Outside {
    /// The address.
    pub address: u32,
}

/// Why there is no machine.
#[derive(Clone, Copy, PartialEq, Eq, Debug, Error)]
pub enum NewFault {
    /// The window has no word or more than 2^20, or its end is above 2^32 - 1.
    #[error("the window has no word, too many words, or an end that is no address")]
    Size,
    /// There is no memory for the window.
    #[error("there is no memory for the window")]
    Memory,
}

impl From<AllocError> for NewFault {
    ghost use Rattle.std.specs.Prelude.{◌≡◌};
    ghost use Rattle.fm_machine.specs.declared.fault.NewFault.TheVariants.{Memory};

    ghost from_gives = { λ _ e. e ≡ Memory };

    fn from(_error: AllocError) -> NewFault {
        NewFault::Memory
    }
}

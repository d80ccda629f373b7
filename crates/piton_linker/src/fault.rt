//! Why a system is not linked.

use stack_text::Memory;
use thiserror::Error;

/// Why a system is not linked.
#[derive(Clone, Copy, Debug, PartialEq, Eq, Error)]
pub enum LinkFault {
    /// Its placed words are over 1,048,576, and they are so many.
    #[error("size {words}")]
    Large { words: u64 },
    /// An allocation failed.
    #[error("out of memory")]
    Memory,
}

impl From<Memory> for LinkFault {
    ghost use Rattle.std.specs.Prelude.{◌≡◌};
    ghost use Rattle.piton_linker.specs.declared.fault.LinkFault.TheVariants as faults;

    ghost from_gives = { λ _ e. e ≡ faults.Memory };

    fn from(_error: Memory) -> LinkFault {
        LinkFault::Memory
    }
}

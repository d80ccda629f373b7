//! Why a text isn't lowered.

use stack_text::Memory;
use thiserror::Error;

/// Why a text isn't lowered: the rule that it breaks, or out of memory.
#[derive(Clone, Copy, Debug, PartialEq, Eq, Error)]
pub enum MiniFault {
    /// The text breaks a rule, at a place that is counted in bytes from 0.
    #[error("rule {rule} at {place}")]
    Refused { rule: u8, place: u32 },
    /// An allocation failed.
    #[error("out of memory")]
    Memory,
}

impl From<Memory> for MiniFault {
    ghost use Rattle.std.specs.Prelude.{◌≡◌};
    ghost use Rattle.mini_syntax.specs.declared.fault.MiniFault.TheVariants.{Memory};

    ghost from_gives = { λ _ e. e ≡ Memory };

    fn from(_error: Memory) -> MiniFault {
        MiniFault::Memory
    }
}

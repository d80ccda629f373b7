//! Why a system is not generated.

use stack_text::Memory;
use thiserror::Error;

/// Why no system was generated. The first four are tried in the order `Size`, `Control`, `Temporary`, `Words`.
#[derive(Clone, Copy, Debug, PartialEq, Eq, Error)]
pub enum GenFault {
    /// The control stack is smaller than the frames that main itself needs.
    #[error("control stack below {need} words")]
    Control { need: u64 },
    /// The temporary stack is smaller than the words that main itself needs.
    #[error("temporary stack below {need} words")]
    Temporary { need: u64 },
    /// The size of a stack is not 1 to 65,536.
    #[error("no size of a stack")]
    Size,
    /// The code of the procedures takes more than 1,048,576 words together.
    #[error("{count} words of code")]
    Words { count: u64 },
    /// An allocation failed.
    #[error("out of memory")]
    Memory,
}

impl From<Memory> for GenFault {
    ghost use Rattle.std.specs.Prelude.{◌≡◌};
    ghost use Rattle.gypsy_codegen.specs.declared.fault.GenFault.TheVariants as faults;

    ghost from_gives = { λ _ e. e ≡ faults.Memory };

    fn from(_error: Memory) -> GenFault {
        GenFault::Memory
    }
}

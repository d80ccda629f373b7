//! Why a text is no tree.

use std::alloc::{AllocError, AllocFailed};
use thiserror::Error;

/// What is wrong with a text that is no tree's. Each fault has a place, counted in bytes from 0.
#[derive(Clone, Copy, Debug, PartialEq, Eq)]
pub enum TextRule {
    /// A byte outside comments neither separates nor belongs to a token. The place is that byte.
    G1,
    /// A list is still open at the end. The place is the `(` of the innermost such list.
    G2,
    /// The first token is a `)`. The place is that `)`.
    G3,
    /// A `(` has 200 open lists round it already. The place is that `(`.
    G4,
    /// One more token follows the tree. The place is where that token begins.
    G5,
    /// There is no token at all. The place is the end, the number of bytes.
    G6,
}

/// Why no tree was read: the text's first fault, or out of memory.
#[derive(Clone, Copy, Debug, PartialEq, Eq, Error)]
pub enum TextFault {
    /// What is wrong, and where.
    #[error("text {rule:?} at {place}")]
    Fault { rule: TextRule, place: u32 },
    /// An allocation failed.
    #[error("out of memory")]
    Memory,
}

impl From<AllocError> for TextFault {
    ghost use Rattle.std.specs.Prelude.{◌≡◌};
    ghost use Rattle.stack_text.specs.declared.text_fault.TextFault.TheVariants.{Memory};

    ghost from_gives = { λ _ e. e ≡ Memory };

    fn from(_error: AllocError) -> TextFault {
        TextFault::Memory
    }
}

impl<T: Drop> From<AllocFailed<T>> for TextFault {
    ghost use Rattle.std.specs.Prelude.{◌≡◌};
    ghost use Rattle.stack_text.specs.declared.text_fault.TextFault.TheVariants.{Memory};

    ghost from_gives = { λ _ e. e ≡ Memory };

    fn from(_error: AllocFailed<T>) -> TextFault {
        TextFault::Memory
    }
}

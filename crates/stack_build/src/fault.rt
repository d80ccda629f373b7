//! Why a source has no image.

use gypsy_check::CheckFault;
use gypsy_codegen::GenFault;
use gypsy_syntax::GypsyFault;
use piton_linker::LinkFault;
use stack_text::{Memory, TextRule};
use thiserror::Error;

/// Why nothing was built. The faults are tried in this order; out of memory may occur at any point.
#[derive(Clone, Copy, Debug, PartialEq, Eq, Error)]
pub enum BuildFault {
    /// The text is no tree. The place is counted in bytes from 0.
    #[error("text {rule:?} at {place}")]
    Text { rule: TextRule, place: u32 },
    /// A tree breaks a rule of the form of sources, M1 to M12.
    #[error("form M{rule} at {place}")]
    Form { rule: u8, place: u32 },
    /// The source breaks a static rule, S1 to S24.
    #[error("rule S{rule} at {place}")]
    Rule { rule: u8, place: u32 },
    /// The size of a stack isn't 1 to 65,536.
    #[error("a stack has 1 to 65,536 words")]
    Size,
    /// The control stack has fewer words than the main procedure needs.
    #[error("size control {need}")]
    Control { need: u64 },
    /// The temporary stack has fewer words than the main procedure needs.
    #[error("size temporary {need}")]
    Temporary { need: u64 },
    /// The code of the procedures takes over 1,048,576 words, and they are so many; or where it doesn't, all placed
    /// words are over 1,048,576, and they are so many.
    #[error("size words {count}")]
    Words { count: u64 },
    /// An allocation failed.
    #[error("out of memory")]
    Memory,
}

impl From<GypsyFault> for BuildFault {
    ghost use Rattle.std.specs.Prelude.{◌≡◌};
    ghost use Rattle.stack_build.specs.Build.{reading_fault};

    ghost from_gives = { λ e f. f ≡ reading_fault e };

    fn from(error: GypsyFault) -> BuildFault {
        match error {
            GypsyFault::Text { rule, place } => BuildFault::Text { rule, place },
            GypsyFault::Form { rule, place } => BuildFault::Form { rule, place },
            GypsyFault::Memory => BuildFault::Memory,
        }
    }
}

impl From<CheckFault> for BuildFault {
    ghost use Rattle.std.specs.Prelude.{◌≡◌};
    ghost use Rattle.stack_build.specs.Build.{checking_fault};

    ghost from_gives = { λ e f. f ≡ checking_fault e };

    fn from(error: CheckFault) -> BuildFault {
        match error {
            CheckFault::Violation { rule, place } => BuildFault::Rule { rule, place },
            CheckFault::Memory => BuildFault::Memory,
        }
    }
}

impl From<GenFault> for BuildFault {
    ghost use Rattle.std.specs.Prelude.{◌≡◌};
    ghost use Rattle.stack_build.specs.Build.{generating_fault};

    ghost from_gives = { λ e f. f ≡ generating_fault e };

    fn from(error: GenFault) -> BuildFault {
        match error {
            GenFault::Size => BuildFault::Size,
            GenFault::Control { need } => BuildFault::Control { need },
            GenFault::Temporary { need } => BuildFault::Temporary { need },
            GenFault::Words { count } => BuildFault::Words { count },
            GenFault::Memory => BuildFault::Memory,
        }
    }
}

impl From<LinkFault> for BuildFault {
    ghost use Rattle.std.specs.Prelude.{◌≡◌};
    ghost use Rattle.stack_build.specs.Build.{linking_fault};

    ghost from_gives = { λ e f. f ≡ linking_fault e };

    fn from(error: LinkFault) -> BuildFault {
        match error {
            LinkFault::Large { words: count } => BuildFault::Words { count },
            LinkFault::Memory => BuildFault::Memory,
        }
    }
}

impl From<Memory> for BuildFault {
    ghost use Rattle.std.specs.Prelude.{◌≡◌};
    ghost use Rattle.stack_build.specs.declared.fault.BuildFault.TheVariants as faults;

    ghost from_gives = { λ _ e. e ≡ faults.Memory };

    fn from(_error: Memory) -> BuildFault {
        BuildFault::Memory
    }
}

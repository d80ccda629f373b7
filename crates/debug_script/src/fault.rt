//! Why a text is no script.

ghost use Rattle.std.specs.Prelude.{◌≡◌};
ghost use Rattle.debug_script.specs.Rules.{rule_number};

use stack_text::Memory;
use std::alloc::{AllocError, AllocFailed};
use thiserror::Error;

/// A rule of a line. The first of these, in this order, that a line breaks is the line's fault.
#[derive(Clone, Copy, Debug, PartialEq, Eq)]
pub enum ScriptRule {
    /// D6: the line is over 256 bytes, or has a byte that is not 0x20 to 0x7E.
    Bytes,
    /// D1: its first word is no command.
    UnknownCommand,
    /// D2: the command has a wrong number of words.
    WordCount,
    /// D3: one of its further words is no number in the range, no watch, or no name.
    Argument,
}

/// Why a line gives no command: the rule that it breaks, or out of memory.
#[derive(Clone, Copy, Debug, PartialEq, Eq)]
pub(crate) enum LineFault {
    Rule(ScriptRule),
    Memory,
}

impl From<ScriptRule> for LineFault {
    ghost use Rattle.std.specs.Prelude.{◌≡◌};
    ghost use Rattle.debug_script.specs.declared.fault.LineFault.TheVariants.{Rule};

    ghost from_gives = { λ rule e. e ≡ Rule rule };

    fn from(rule: ScriptRule) -> LineFault {
        LineFault::Rule(rule)
    }
}

impl From<Memory> for LineFault {
    ghost use Rattle.std.specs.Prelude.{◌≡◌};
    ghost use Rattle.debug_script.specs.declared.fault.LineFault.TheVariants as fault;

    ghost from_gives = { λ _ e. e ≡ fault.Memory };

    fn from(_memory: Memory) -> LineFault {
        LineFault::Memory
    }
}

impl From<AllocError> for LineFault {
    ghost use Rattle.std.specs.Prelude.{◌≡◌};
    ghost use Rattle.debug_script.specs.declared.fault.LineFault.TheVariants as fault;

    ghost from_gives = { λ _ e. e ≡ fault.Memory };

    fn from(_error: AllocError) -> LineFault {
        LineFault::Memory
    }
}

impl<T: Drop> From<AllocFailed<T>> for LineFault {
    ghost use Rattle.std.specs.Prelude.{◌≡◌};
    ghost use Rattle.debug_script.specs.declared.fault.LineFault.TheVariants as fault;

    ghost from_gives = { λ _ e. e ≡ fault.Memory };

    fn from(_error: AllocFailed<T>) -> LineFault {
        LineFault::Memory
    }
}

impl ScriptRule {
    /// The number by which the rule is known: 1 for D1.
    pub fn number(self) -> u8
        ensures { result ≡ rule_number self }
    {
        match self {
            ScriptRule::UnknownCommand => 1,
            ScriptRule::WordCount => 2,
            ScriptRule::Argument => 3,
            ScriptRule::Bytes => 6,
        }
    }
}

/// Why no script was read: the fault of the first line that has one, or out of memory.
#[derive(Clone, Copy, Debug, PartialEq, Eq, Error)]
pub enum ScriptFault {
    /// The number of the rule that the line breaks, and the line's number, from 1.
    #[error("script D{rule} at line {line}")]
    Refused { rule: u8, line: u32 },
    /// An allocation failed.
    #[error("out of memory")]
    Memory,
}

impl From<AllocError> for ScriptFault {
    ghost use Rattle.std.specs.Prelude.{◌≡◌};
    ghost use Rattle.debug_script.specs.declared.fault.ScriptFault.TheVariants.{Memory};

    ghost from_gives = { λ _ e. e ≡ Memory };

    fn from(_error: AllocError) -> ScriptFault {
        ScriptFault::Memory
    }
}

impl<T: Drop> From<AllocFailed<T>> for ScriptFault {
    ghost use Rattle.std.specs.Prelude.{◌≡◌};
    ghost use Rattle.debug_script.specs.declared.fault.ScriptFault.TheVariants.{Memory};

    ghost from_gives = { λ _ e. e ≡ Memory };

    fn from(_error: AllocFailed<T>) -> ScriptFault {
        ScriptFault::Memory
    }
}

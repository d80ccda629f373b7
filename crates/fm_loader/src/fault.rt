//! Why a text gives no values.

ghost use Rattle.std.specs.Prelude.{◌≡◌};
ghost use Rattle.fm_loader.specs.Rules.{rule_number};

use stack_text::Memory;
use std::alloc::{AllocError, AllocFailed};
use thiserror::Error;

/// A rule of values files. `docs/languages/values.md` lists them, from V1 on, in this order.
#[derive(Clone, Copy, Debug, PartialEq, Eq)]
pub enum Rule {
    /// V1: the text is no list of entries.
    Form,
    /// V2: no slot has the name.
    Unknown,
    /// V3: an earlier entry has the name.
    Repeated,
    /// V4: a slot has no entry.
    Missing,
    /// V5: the value is of another kind.
    Kind,
    /// V6: the list is longer or shorter than the array.
    Length,
    /// V7: a number is out of range.
    Range,
}

impl Rule {
    /// The number by which the rule is known: 1 for V1.
    fn number(self) -> u8
        ensures { result ≡ rule_number self }
    {
        match self {
            Rule::Form => 1,
            Rule::Unknown => 2,
            Rule::Repeated => 3,
            Rule::Missing => 4,
            Rule::Kind => 5,
            Rule::Length => 6,
            Rule::Range => 7,
        }
    }
}

/// Why no values were read: the rule that the text breaks, or out of memory.
///
/// The rules, with the place of each:
///
/// - V1: the text is no tree (the text's fault), the tree is no list (the tree), or one of its items is not
///   `(NAME VALUE)` (the first such item). A value is a numeral, `true`, `false`, `#` with digits for a character, or a
///   list of these.
/// - V2: the name is no slot's.
/// - V3: an earlier entry has the name.
/// - V5: the value is not of the slot's kind, or it is a list and the slot is no array, or the other way round.
/// - V6: a list has another length than the array.
/// - V7: an integer is outside 32 signed bits, or a character's number is over 127.
/// - V4: a slot has no entry (the list).
///
/// V1 is judged before all others. Then the first entry that breaks a rule decides, by the first of V2, V3, V5, V6 and
/// V7 that it breaks, and the place is the entry. V4 is judged last.
#[derive(Clone, Copy, Debug, PartialEq, Eq, Error)]
pub enum ValuesFault {
    /// The text breaks rule V1 to V7, at a place that is counted in bytes from 0.
    #[error("values V{rule} at {place}")]
    Refused { rule: u8, place: u32 },
    /// An allocation failed.
    #[error("out of memory")]
    Memory,
}

/// A broken rule, and its place.
pub(crate) fn refused(rule: Rule, place: u32) -> ValuesFault
    ensures { result ≡ ValuesFault.Refused (rule_number rule) place }
{
    ValuesFault::Refused {
        rule: rule.number(),
        place,
    }
}

impl From<Memory> for ValuesFault {
    ghost use Rattle.std.specs.Prelude.{◌≡◌};
    ghost use Rattle.fm_loader.specs.declared.fault.ValuesFault.TheVariants as faults;

    ghost from_gives = { λ _ e. e ≡ faults.Memory };

    fn from(_error: Memory) -> ValuesFault {
        ValuesFault::Memory
    }
}

impl From<AllocError> for ValuesFault {
    ghost use Rattle.std.specs.Prelude.{◌≡◌};
    ghost use Rattle.fm_loader.specs.declared.fault.ValuesFault.TheVariants as faults;

    ghost from_gives = { λ _ e. e ≡ faults.Memory };

    fn from(_error: AllocError) -> ValuesFault {
        ValuesFault::Memory
    }
}

impl<T: Drop> From<AllocFailed<T>> for ValuesFault {
    ghost use Rattle.std.specs.Prelude.{◌≡◌};
    ghost use Rattle.fm_loader.specs.declared.fault.ValuesFault.TheVariants as faults;

    ghost from_gives = { λ _ e. e ≡ faults.Memory };

    fn from(_error: AllocFailed<T>) -> ValuesFault {
        ValuesFault::Memory
    }
}

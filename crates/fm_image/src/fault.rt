//! Why bytes are no image file.

ghost use Rattle.std.specs.Prelude.{◌≡◌};
ghost use Rattle.fm_image.specs.Rules.{rule_number};

use stack_text::Memory;
use std::alloc::{AllocError, AllocFailed};
use thiserror::Error;

/// A rule of image files. `docs/languages/image-file.md` lists them, from I1 on, in this order.
#[derive(Clone, Copy, Debug, PartialEq, Eq)]
pub enum Rule {
    /// I1: the magic is another.
    Magic,
    /// I2: the version is another.
    Version,
    /// I3: the file ends within a field.
    Truncated,
    /// I4: the file goes on after its last field.
    Trailing,
    /// I5: a number is beyond its limits.
    Limit,
    /// I6: the length of a name is none, or the bytes are no name.
    Name,
    /// I7: an address is outside the window.
    Address,
    /// I8: a name came earlier in its own list.
    Repeated,
    /// I9: the address of a mark is not greater than that of the mark before.
    Order,
}

impl Rule {
    /// The number by which the rule is known: 1 for I1.
    fn number(self) -> u8
        ensures { result ≡ rule_number self }
    {
        match self {
            Rule::Magic => 1,
            Rule::Version => 2,
            Rule::Truncated => 3,
            Rule::Trailing => 4,
            Rule::Limit => 5,
            Rule::Name => 6,
            Rule::Address => 7,
            Rule::Repeated => 8,
            Rule::Order => 9,
        }
    }
}

/// A broken rule, and its place.
#[derive(Clone, Copy, Debug, PartialEq, Eq)]
pub struct Refusal {
    /// The rule, I1 to I9.
    pub rule: Rule,
    /// Where the bytes break it, counted in bytes from 0.
    pub place: u64,
}

/// Why no image was read: the first fault of the bytes from the left, or out of memory.
#[derive(Clone, Copy, Debug, PartialEq, Eq, Error)]
pub enum ImageFault {
    /// The bytes break rule I1 to I9 of `docs/languages/image-file.md`, at a place that is counted in bytes from 0.
    #[error("image I{rule} at {place}")]
    Refused { rule: u8, place: u64 },
    /// An allocation failed.
    #[error("out of memory")]
    Memory,
}

impl From<Refusal> for ImageFault {
    ghost use Rattle.std.specs.Prelude.{◌≡◌};
    ghost use Rattle.fm_image.specs.Rules.{rule_number};
    ghost use Rattle.fm_image.specs.declared.fault.ImageFault.TheVariants as faults;

    ghost from_gives = { λ refusal e. e ≡ faults.Refused (rule_number refusal.rule) refusal.place };

    fn from(refusal: Refusal) -> ImageFault {
        ImageFault::Refused {
            rule: refusal.rule.number(),
            place: refusal.place,
        }
    }
}

impl From<Memory> for ImageFault {
    ghost use Rattle.std.specs.Prelude.{◌≡◌};
    ghost use Rattle.fm_image.specs.declared.fault.ImageFault.TheVariants as faults;

    ghost from_gives = { λ _ e. e ≡ faults.Memory };

    fn from(_error: Memory) -> ImageFault {
        ImageFault::Memory
    }
}

impl From<AllocError> for ImageFault {
    ghost use Rattle.std.specs.Prelude.{◌≡◌};
    ghost use Rattle.fm_image.specs.declared.fault.ImageFault.TheVariants as faults;

    ghost from_gives = { λ _ e. e ≡ faults.Memory };

    fn from(_error: AllocError) -> ImageFault {
        ImageFault::Memory
    }
}

impl<T: Drop> From<AllocFailed<T>> for ImageFault {
    ghost use Rattle.std.specs.Prelude.{◌≡◌};
    ghost use Rattle.fm_image.specs.declared.fault.ImageFault.TheVariants as faults;

    ghost from_gives = { λ _ e. e ≡ faults.Memory };

    fn from(_error: AllocFailed<T>) -> ImageFault {
        ImageFault::Memory
    }
}

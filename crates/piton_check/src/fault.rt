//! Why a system is refused.

use stack_text::Memory;
use std::alloc::{AllocError, AllocFailed};
use thiserror::Error;

/// Why a system was not checked: the least breach of a static rule, or out of memory.
#[derive(Clone, Copy, Debug, PartialEq, Eq, Error)]
pub enum CheckFault {
    /// The system breaks a rule. No other breach has a smaller place, or the same place and a smaller rule.
    ///
    /// | Rule | Is broken where | Place |
    /// |---|---|---|
    /// | Q1 | a program's name was used earlier | the program |
    /// | Q2 | an area's name was used earlier | the area |
    /// | Q3 | no program has the name of the main program | that name |
    /// | Q4 | the main program has formals | the list of formals |
    /// | Q5 | a formal's or temporary's name was used earlier in the program | the later name |
    /// | Q6 | a label was used earlier in the program | the later label |
    /// | Q7 | a label that is used is not in the program | the label |
    /// | Q8 | `call` names no program | the name |
    /// | Q9 | an instruction on a local variable names no formal or temporary | the name |
    /// | Q10 | an instruction on an area names none | the name |
    /// | Q11 | a word's number is out of its tag's range, or it names no area, program, offset or place that exists | the word |
    /// | Q12 | a program's last instruction is none of `ret`, `jump`, `jump-case` and `popj` | the instruction |
    /// | Q13 | the count of `pop*` or `push-temp-stk-index` is over 65,536 | the count |
    /// | Q14 | a stack has not 1 to 65,536 words, or too few for what is on it at the start, or the base is over 2^31 | the number |
    ///
    /// Where the name of a program or an area is repeated, the first is meant.
    #[error("piton Q{rule} at {place}")]
    Violation { rule: u8, place: u32 },
    /// An allocation failed.
    #[error("out of memory")]
    Memory,
}

impl From<Memory> for CheckFault {
    ghost use Rattle.std.specs.Prelude.{◌≡◌};
    ghost use Rattle.piton_check.specs.declared.fault.CheckFault.TheVariants as faults;

    ghost from_gives = { λ _ e. e ≡ faults.Memory };

    fn from(_error: Memory) -> CheckFault {
        CheckFault::Memory
    }
}

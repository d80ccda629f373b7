//! Why a source is refused.

use stack_text::Memory;
use thiserror::Error;

/// Why a source was not accepted: the least breach of a static rule, or out of memory.
#[derive(Clone, Copy, Debug, PartialEq, Eq, Error)]
pub enum CheckFault {
    /// The source breaks a rule. No other breach has a smaller place, or the same place and a smaller rule.
    ///
    /// | Rule | Is broken where | Place |
    /// |---|---|---|
    /// | S1 | a procedure's name was used by an earlier one | the later name |
    /// | S2 | a procedure has the name of a predefined one | the name |
    /// | S3 | no procedure has the name of the main procedure | that name |
    /// | S4 | a variable's name was used earlier in the procedure | the later name |
    /// | S5 | a condition's name was used earlier in the procedure | the later name |
    /// | S6 | a condition is declared as `normal`, `leave`, `routineerror` or `spaceerror` | the name |
    /// | S7 | an array's length isn't 1 to 4,096 | the type |
    /// | S8 | an initial value isn't of its type's kind, or not of its length, or a list stands for a simple type or the reverse | the value |
    /// | S9 | an integer has no 32 bits, or a character's number is over 127 | the literal |
    /// | S10 | a condition that is signalled or given isn't `leave`, `routineerror` or a declared one | the name |
    /// | S11 | `leave` is signalled or given with no loop round it | the name |
    /// | S12 | a condition that is handled isn't `routineerror`, `spaceerror` or a declared one | the name |
    /// | S13 | a condition that is handled stands earlier in the same list | the later name |
    /// | S14 | a variable isn't declared | the name |
    /// | S15 | the declared variable of an `if` is no simple Boolean | the name |
    /// | S16 | a called procedure isn't there | the name |
    /// | S17 | the main procedure is called | the name |
    /// | S18 | a call has another number of variables than its callee has formals | the list |
    /// | S19 | a call has another number of conditions than its callee has formal conditions | the list |
    /// | S20 | a variable stands earlier in the same list of a call | the later name |
    /// | S21 | S18 is kept, and a declared variable's type isn't the formal's | the variable |
    /// | S22 | a predefined procedure has the wrong number of arguments | the statement |
    /// | S23 | S22 is kept, all names are declared, and an argument isn't what is wanted there | the argument |
    /// | S24 | the variables whose types keep S7 take more than 65,536 words | the procedure |
    ///
    /// S18, S19 and S21 are judged where the callee is there. Where a name is repeated, its first declaration is meant.
    #[error("gypsy S{rule} at {place}")]
    Violation { rule: u8, place: u32 },
    /// An allocation failed.
    #[error("out of memory")]
    Memory,
}

impl From<Memory> for CheckFault {
    ghost use Rattle.std.specs.Prelude.{◌≡◌};
    ghost use Rattle.gypsy_check.specs.declared.fault.CheckFault.TheVariants as faults;

    ghost from_gives = { λ _ e. e ≡ faults.Memory };

    fn from(_error: Memory) -> CheckFault {
        CheckFault::Memory
    }
}

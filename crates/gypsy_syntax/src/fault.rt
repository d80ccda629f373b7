//! Why a text is no source.

use stack_text::grammar::FormFault;
use stack_text::{TextFault, TextRule};
use thiserror::Error;

/// Why no source was read: the first fault of the text, the least fault of its tree, or out of memory.
#[derive(Clone, Copy, Debug, PartialEq, Eq, Error)]
pub enum GypsyFault {
    /// The text is no tree. The place is counted in bytes from 0.
    #[error("text {rule:?} at {place}")]
    Text { rule: TextRule, place: u32 },
    /// A tree breaks a rule of the form. The place is that of the tree. No other fault has a smaller place, or the
    /// same place and a smaller rule, and what lies in a tree with a fault is not judged.
    ///
    /// | Rule | The tree |
    /// |---|---|
    /// | M1 | the whole tree is no list of `program`, a tree and a tree or more |
    /// | M2 | a procedure is no list of `proc` and six trees |
    /// | M3 | what should be a name is none |
    /// | M4 | formals are no list, or one is no list of two |
    /// | M5 | conditions or data actuals are no list |
    /// | M6 | locals are no list, or one is no list of three |
    /// | M7 | a type is neither a simple type's word nor `array`, such a word and a numeral |
    /// | M8 | a value is neither simple nor a list of simple values, or an argument is neither a name nor a simple value |
    /// | M9 | a statement is no list that begins with the word of a form or a predefined name |
    /// | M10 | a statement of the seven forms has a wrong number of items, or its list of handled conditions is empty |
    /// | M11 | a numeral, or the number of a character, is outside -2^127 to 2^127 - 1 |
    /// | M12 | the whole tree has over 1,000 procedures; a procedure has over 200 formals and locals, or conditions |
    #[error("gypsy M{rule} at {place}")]
    Form { rule: u8, place: u32 },
    /// An allocation failed.
    #[error("out of memory")]
    Memory,
}

impl From<TextFault> for GypsyFault {
    ghost use Rattle.std.specs.Prelude.{◌≡◌};
    ghost use Rattle.stack_text.specs.Grammar.TextReaders.{fault_of_text};
    ghost use Rattle.gypsy_syntax.specs.GypsyReading.{gypsy_reader};

    ghost from_gives = { λ e f. f ≡ fault_of_text gypsy_reader e };

    fn from(error: TextFault) -> GypsyFault {
        match error {
            TextFault::Fault { rule, place } => GypsyFault::Text { rule, place },
            TextFault::Memory => GypsyFault::Memory,
        }
    }
}

impl From<FormFault> for GypsyFault {
    ghost use Rattle.std.specs.Prelude.{◌≡◌};
    ghost use Rattle.stack_text.specs.Grammar.TextReaders.{fault_of_form};
    ghost use Rattle.gypsy_syntax.specs.GypsyReading.{gypsy_reader};

    ghost from_gives = { λ e f. f ≡ fault_of_form gypsy_reader e };

    fn from(error: FormFault) -> GypsyFault {
        match error {
            FormFault::Form { rule, place } => GypsyFault::Form { rule, place },
            FormFault::Memory => GypsyFault::Memory,
        }
    }
}

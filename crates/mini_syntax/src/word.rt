//! The words of the language.

ghost use Rattle.std.specs.Prelude.{◌≡◌};
ghost use Rattle.mini_syntax.specs.Names.{spelling, word_named};

use crate::sort::Sort;

/// A word of the language, which is no name.
#[derive(Clone, Copy, Debug, PartialEq, Eq)]
pub enum Word {
    /// `int` or `bool`
    Sort(Sort),
    /// `while`, which begins a loop.
    While,
    /// `if`, which begins a branch.
    If,
    /// `else`, between the blocks of a branch.
    Else,
    /// `or`, between conjunctions.
    Or,
    /// `and`, between relations.
    And,
    /// `not`, before a factor.
    Not,
    /// `true` or `false`
    Truth(bool),
}

/// All ten words.
const WORDS: [Word; 10] = [
    Word::Sort(Sort::Int),
    Word::Sort(Sort::Bool),
    Word::While,
    Word::If,
    Word::Else,
    Word::Or,
    Word::And,
    Word::Not,
    Word::Truth(true),
    Word::Truth(false),
];

impl Word {
    /// How it is written.
    fn spelling(self) -> &'static str
        ensures { result.now ≡ spelling self }
    {
        match self {
            Word::Sort(Sort::Int) => "int",
            Word::Sort(Sort::Bool) => "bool",
            Word::While => "while",
            Word::If => "if",
            Word::Else => "else",
            Word::Or => "or",
            Word::And => "and",
            Word::Not => "not",
            Word::Truth(true) => "true",
            Word::Truth(false) => "false",
        }
    }
}

/// The word that the bytes are, if they are one.
pub(crate) fn word_named(bytes: &[u8]) -> Option<Word>
    ensures { result ≡ word_named bytes.now }
{
    WORDS
        .iter()
        .copied()
        .find(|word| bytes == word.spelling().as_bytes())
}

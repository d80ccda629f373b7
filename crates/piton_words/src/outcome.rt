//! What a word operation gives.

use crate::word::Word;
use thiserror::Error;

/// What an operation pushes.
#[derive(Clone, Copy, Debug, PartialEq, Eq)]
pub enum Outcome {
    /// One word.
    One(Word),
    /// Two words; the last is then the top of the stack.
    Two(Word, Word),
}

/// Why an operation refuses its words.
#[derive(Clone, Copy, Debug, PartialEq, Eq, Error)]
pub enum WordError {
    /// A word has a wrong tag.
    #[error("tag")]
    Tag,
    /// The tags are right, and a number is out of the operation's range.
    #[error("range")]
    Range,
}

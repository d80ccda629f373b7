//! The marks of the language.

/// A mark between words and numbers.
#[derive(Clone, Copy, Debug, PartialEq, Eq)]
pub enum Mark {
    /// `;`
    Semicolon,
    /// `:=`
    Becomes,
    /// `<=`
    AtMost,
    /// `=`
    Equals,
    /// `+`
    Plus,
    /// `-`
    Minus,
    /// `*`
    Times,
    /// `(`
    Open,
    /// `)`
    Close,
    /// `{`
    OpenBlock,
    /// `}`
    CloseBlock,
}

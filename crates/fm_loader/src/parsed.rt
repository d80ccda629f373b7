//! Values as a text has them, before they are judged.

use stack_text::{Kind, Name, Seq};

/// A single value.
#[derive(Clone, Copy, Debug)]
pub struct Scalar {
    /// What it is by its form: a numeral, `true` or `false`, or `#` and digits.
    pub kind: Kind,
    /// Its number, where that has 32 signed bits.
    pub number: Option<i32>,
}

/// A value.
#[derive(Debug, Drop)]
pub enum ParsedValue {
    /// That of a simple variable.
    Single(Scalar),
    /// Those of an array, in parentheses.
    Several(Seq<Scalar>),
}

/// An entry `(NAME VALUE)`.
#[derive(Debug, Drop)]
pub struct Entry {
    /// The place of its `(`, counted in bytes from 0.
    pub place: u32,
    /// The name of the variable that the value is for; perhaps there is none.
    pub name: Name,
    /// The value, which may be of another kind or length than the variable.
    pub value: ParsedValue,
}

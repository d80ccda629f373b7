//! The sorts of variables and expressions.

/// What a variable holds, and what an expression is worth.
#[derive(Clone, Copy, Debug, PartialEq, Eq)]
pub enum Sort {
    /// A number of 32 signed bits.
    Int,
    /// A truth value.
    Bool,
}

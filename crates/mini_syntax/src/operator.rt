//! Operators.

ghost use Rattle.std.specs.Prelude.{◌≡◌};
ghost use Rattle.mini_syntax.specs.Precedence.{infix_of};

use crate::lexer::TokenKind;
use crate::mark::Mark;
use crate::sort::Sort;
use crate::word::Word;

/// An operator before its operand.
#[derive(Clone, Copy, Debug, PartialEq, Eq)]
pub enum Prefix {
    /// `not`
    Not,
    /// `-`
    Minus,
}

/// An operator between its operands.
#[derive(Clone, Copy, Debug, PartialEq, Eq)]
pub enum Infix {
    /// `or`
    Or,
    /// `and`
    And,
    /// `<=`
    AtMost,
    /// `=`
    Equals,
    /// `+`
    Add,
    /// `-`
    Subtract,
    /// `*`
    Multiply,
}

impl Prefix {
    ghost use Rattle.std.specs.Prelude.{◌≡◌};
    ghost use Rattle.mini_syntax.specs.Operands.{prefix_sort};

    /// The sort of the result.
    pub fn sort(self) -> Sort
        ensures { result ≡ prefix_sort self }
    {
        match self {
            Prefix::Not => Sort::Bool,
            Prefix::Minus => Sort::Int,
        }
    }
}

impl Infix {
    ghost use Rattle.std.specs.Prelude.{◌≡◌};
    ghost use Rattle.mini_syntax.specs.{Operands.{infix_sort}, Precedence.{compared_after, level_of, may_follow, right_level}};

    /// The sort of the result.
    pub fn sort(self) -> Sort
        ensures { result ≡ infix_sort self }
    {
        match self {
            Infix::Or | Infix::And | Infix::AtMost | Infix::Equals => Sort::Bool,
            Infix::Add | Infix::Subtract | Infix::Multiply => Sort::Int,
        }
    }

    /// The level of the operator, from 1 to 5: one of a lower level binds closer.
    pub(crate) fn level(self) -> u32
        ensures { result ≡ level_of self }
    {
        match self {
            Infix::Multiply => 1,
            Infix::Add | Infix::Subtract => 2,
            Infix::AtMost | Infix::Equals => 3,
            Infix::And => 4,
            Infix::Or => 5,
        }
    }

    /// The level that the operators of its right operand have at most.
    pub(crate) fn right_level(self) -> u32
        ensures { result ≡ right_level self }
    {
        self.level().saturating_sub(1)
    }

    /// Whether a comparison came since the last `and` or `or` of an expression, after this operator.
    pub(crate) fn compared_after(self, compared: bool) -> bool
        ensures { result ≡ compared_after self compared }
    {
        match self {
            Infix::Or | Infix::And => false,
            Infix::AtMost | Infix::Equals => true,
            Infix::Add | Infix::Subtract | Infix::Multiply => compared,
        }
    }

    /// Whether the operator may come: a comparison comes only where none came.
    pub(crate) fn may_follow(self, compared: bool) -> bool
        ensures { result ≡ may_follow self compared }
    {
        match self {
            Infix::AtMost | Infix::Equals => !compared,
            _ => true,
        }
    }
}

/// The operator between operands that a token of the kind is, if it is one.
pub(crate) fn infix_of(kind: TokenKind) -> Option<Infix>
    ensures { result ≡ infix_of kind }
{
    match kind {
        TokenKind::Word(Word::Or) => Some(Infix::Or),
        TokenKind::Word(Word::And) => Some(Infix::And),
        TokenKind::Mark(Mark::AtMost) => Some(Infix::AtMost),
        TokenKind::Mark(Mark::Equals) => Some(Infix::Equals),
        TokenKind::Mark(Mark::Plus) => Some(Infix::Add),
        TokenKind::Mark(Mark::Minus) => Some(Infix::Subtract),
        TokenKind::Mark(Mark::Times) => Some(Infix::Multiply),
        _ => None,
    }
}

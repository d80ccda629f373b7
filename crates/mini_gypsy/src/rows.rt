//! What operators and sorts become.

ghost use Rattle.std.specs.Prelude.{◌≡◌};
ghost use Rattle.mini_gypsy.specs.{Lowered.{kind_of, letter_of}, Steps.{infix_row, prefix_row}};

use gypsy_syntax::Predef;
use mini_syntax::{Infix, Prefix, Sort};
use stack_text::Kind;

/// The predefined procedure that an operator before its operand becomes.
pub(crate) fn prefix_row(op: Prefix) -> Predef
    ensures { result ≡ prefix_row op }
{
    match op {
        Prefix::Not => Predef::MgBooleanNot,
        Prefix::Minus => Predef::MgIntegerUnaryMinus,
    }
}

/// The predefined procedure that an operator between its operands becomes.
pub(crate) fn infix_row(op: Infix) -> Predef
    ensures { result ≡ infix_row op }
{
    match op {
        Infix::Or => Predef::MgBooleanOr,
        Infix::And => Predef::MgBooleanAnd,
        Infix::AtMost => Predef::MgIntegerLe,
        Infix::Equals => Predef::MgSimpleVariableEq,
        Infix::Add => Predef::MgIntegerAdd,
        Infix::Subtract => Predef::MgIntegerSubtract,
        Infix::Multiply => Predef::MgIntegerMultiply,
    }
}

/// The kind of a variable of the sort.
pub(crate) fn kind_of(sort: Sort) -> Kind
    ensures { result ≡ kind_of sort }
{
    match sort {
        Sort::Int => Kind::Integer,
        Sort::Bool => Kind::Boolean,
    }
}

/// The letter with which the names of the sort's temporaries begin.
pub(crate) fn letter_of(sort: Sort) -> u8
    ensures { result ≡ letter_of sort }
{
    match sort {
        Sort::Int => b'i',
        Sort::Bool => b'b',
    }
}

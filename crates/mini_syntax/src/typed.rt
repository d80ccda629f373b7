//! Expressions with their sorts, made from their parts. Where a part breaks a rule, that is noted.

ghost use Rattle.std.specs.Prelude.{◌≡◌, ℕ, ◌*◌, ◌+◌, ◌-◌, ◌≤◌, List, Option, Some, None, if◌then◌else◌};
ghost use Rattle.stack_heap.specs.Heaps.{IfOkUnless};
ghost use Rattle.stack_text.specs.{Breaches.{Notes}, declared.breach.Breach.{Breach}};
ghost use Rattle.mini_syntax.specs.{Breaches.{infix_breaches, is_too_large, number_of, prefix_breaches}, Internal.Combined.{IsInfix, IsPrefix}};
ghost use Rattle.mini_syntax.specs.{declared.program.Declared.{Declared}, Grammar.{number, truth, variable}, Operands.{infix_takes, prefix_takes}};
ghost use Rattle.mini_syntax.specs.{Internal.Phrases.{IsTyped}, Internal.Scopes.{IsScope}};

use crate::operator::{Infix, Prefix};
use crate::program::Exp;
use crate::scope::{Scope, Variable};
use crate::sort::Sort;
use stack_heap::Heap;
use stack_text::{Breach, Memory, note_if};

/// The largest number.
const MAX_NUMBER: u64 = 2_147_483_647;

/// An expression with its sort, where that is known.
#[derive(Debug, Drop)]
pub struct Typed {
    /// The expression, with 0 for the position of an undeclared name and for a number that is too large.
    pub exp: Exp,
    /// Its sort, or none where it is a name that isn't declared.
    pub sort: Option<Sort>,
}

/// A variable, where it is declared.
pub(crate) fn variable(scope: &Scope, best: &mut Option<Breach>, place: u32, name: &[u8]) -> Typed
    requires { IsScope scope.now }
    ensures { IsTyped scope.now.declared.items (variable place name.now) best.old best.new result }
{
    let found = scope.named(name);
    note_if(best, found.is_none(), place, 6);
    match found {
        Some(Variable { index, sort }) => Typed {
            exp: Exp::Variable { sort, index },
            sort: Some(sort),
        },
        None => Typed {
            exp: Exp::Variable {
                sort: Sort::Int,
                index: 0,
            },
            sort: None,
        },
    }
}

/// The number with one more digit, where it isn't too large.
fn with_digit(number: u32, digit: u8) -> Option<u32>
    requires { number ≤ 2147483647 }
    ensures { let more = 10 * number + (digit - 48) in result ≡ (if is_too_large more then None else Some more) }
{
    let more = 10 * u64::from(number) + u64::from(digit.saturating_sub(b'0'));
    if more > MAX_NUMBER {
        None
    } else {
        Some(more as u32)
    }
}

/// The number that the digits write, where it isn't too large.
fn number_of(digits: &[u8]) -> Option<u32>
    ensures { let number = number_of digits.now in result ≡ (if is_too_large number then None else Some number) }
{
    let mut number = 0;
    for digit in digits {
        number = with_digit(number, *digit)?;
    }
    Some(number)
}

/// A number.
pub(crate) fn number(best: &mut Option<Breach>, place: u32, digits: &[u8]) -> Typed
    ensures { (ds : List Declared) → IsTyped ds (number place digits.now) best.old best.new result }
{
    let found = number_of(digits);
    note_if(best, found.is_none(), place, 8);
    Typed {
        exp: Exp::Number(found.unwrap_or(0)),
        sort: Some(Sort::Int),
    }
}

/// A truth value.
pub(crate) fn truth(value: bool) -> Typed
    ensures { (ds : List Declared) (place : ℕ) (best : Option Breach) →
        IsTyped ds (truth place value) best best result }
{
    Typed {
        exp: Exp::Truth(value),
        sort: Some(Sort::Bool),
    }
}

/// Whether an operator takes an operand of the sort.
fn prefix_takes(op: Prefix, operand: Sort) -> bool
    ensures { result ≡ prefix_takes op operand }
{
    match op {
        Prefix::Not => operand == Sort::Bool,
        Prefix::Minus => operand == Sort::Int,
    }
}

/// Whether an operator takes operands of the sorts.
fn infix_takes(op: Infix, left: Sort, right: Sort) -> bool
    ensures { result ≡ infix_takes op left right }
{
    match op {
        Infix::Or | Infix::And => left == Sort::Bool && right == Sort::Bool,
        Infix::Equals => left == right,
        Infix::AtMost | Infix::Add | Infix::Subtract | Infix::Multiply => {
            left == Sort::Int && right == Sort::Int
        }
    }
}

/// Notes an operator whose operand has another sort than it takes, where that is known.
fn note_prefix(best: &mut Option<Breach>, place: u32, op: Prefix, operand: Option<Sort>)
    ensures { Notes best.old (prefix_breaches place op operand) best.new }
{
    if let Some(sort) = operand {
        note_if(best, !prefix_takes(op, sort), place, 7);
    }
}

/// Notes an operator whose operands have other sorts than it takes, where both are known.
fn note_infix(
    best: &mut Option<Breach>,
    place: u32,
    op: Infix,
    left: Option<Sort>,
    right: Option<Sort>,
)
    ensures { Notes best.old (infix_breaches place op left right) best.new }
{
    match (left, right) {
        (Some(s), Some(t)) => note_if(best, !infix_takes(op, s, t), place, 7),
        _ => {}
    }
}

/// An operator before its operand.
pub(crate) fn with_prefix<H: Heap>(
    heap: H,
    best: &mut Option<Breach>,
    place: u32,
    op: Prefix,
    operand: Typed,
) -> Result<Typed, Memory>
    ensures { IfOkUnless (H.may_refuse heap) result (IsPrefix place op operand best.old best.new) }
{
    note_prefix(best, place, op, operand.sort);
    Ok(Typed {
        sort: Some(op.sort()),
        exp: Exp::Before {
            op,
            operand: heap.boxed(operand.exp)?,
        },
    })
}

/// An operator between its operands.
pub(crate) fn with_infix<H: Heap>(
    heap: H,
    best: &mut Option<Breach>,
    place: u32,
    op: Infix,
    left: Typed,
    right: Typed,
) -> Result<Typed, Memory>
    ensures { IfOkUnless (H.may_refuse heap) result (IsInfix place op left right best.old best.new) }
{
    note_infix(best, place, op, left.sort, right.sort);
    Ok(Typed {
        sort: Some(op.sort()),
        exp: Exp::Between {
            op,
            left: heap.boxed(left.exp)?,
            right: heap.boxed(right.exp)?,
        },
    })
}

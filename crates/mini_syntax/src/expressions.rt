//! Expressions, read from the tokens of a judged text.

ghost use Rattle.std.specs.Prelude.{◌≡◌, [], ◌∷◌};
ghost use Rattle.stack_heap.specs.Heaps.{IfOkUnless};
ghost use Rattle.mini_syntax.specs.declared.expected.Expected.TheVariants as wants;
ghost use Rattle.mini_syntax.specs.{Expected.{expression}, Precedence.{any_level}, Internal.Lexemes.{left_of}, Internal.Phrases.{Awaits, AwaitsOperand}};
ghost use Rattle.mini_syntax.specs.{Internal.Phrases.{factor_kind, infix_within, Reads}, Internal.Scopes.{IsScope}};

use crate::lexeme::Cursor;
use crate::lexer::TokenKind;
use crate::mark::Mark;
use crate::operator::{Infix, Prefix, infix_of};
use crate::scope::Scope;
use crate::typed::{Typed, number, truth, variable, with_infix, with_prefix};
use crate::word::Word;
use stack_heap::Heap;
use stack_text::{Breach, Memory};

/// The level of the loosest operator.
const ANY_LEVEL: u32 = 5;

/// The kinds of factors, by what they begin with.
#[derive(Clone, Copy, Debug)]
pub enum FactorKind {
    /// The name of a variable.
    Variable,
    /// A number of one or more digits.
    Number,
    /// `true` or `false`.
    Truth(bool),
    /// `not` or `-`, before the factor that is its operand.
    Operator(Prefix),
    /// `(`, before an expression and a `)`.
    Bracket,
}

/// The kind of the factor that begins with a token of the kind, if one does.
fn factor_kind(kind: TokenKind) -> Option<FactorKind>
    ensures { result ≡ factor_kind kind }
{
    match kind {
        TokenKind::Name => Some(FactorKind::Variable),
        TokenKind::Number => Some(FactorKind::Number),
        TokenKind::Word(Word::Truth(value)) => Some(FactorKind::Truth(value)),
        TokenKind::Word(Word::Not) => Some(FactorKind::Operator(Prefix::Not)),
        TokenKind::Mark(Mark::Minus) => Some(FactorKind::Operator(Prefix::Minus)),
        TokenKind::Mark(Mark::Open) => Some(FactorKind::Bracket),
        _ => None,
    }
}

/// The operator that a token of the kind is, where its level isn't higher.
fn infix_within(level: u32, kind: TokenKind) -> Option<Infix>
    ensures { result ≡ infix_within level kind }
{
    let op = infix_of(kind)?;
    if op.level() <= level { Some(op) } else { None }
}

/// Reads a factor.
#[cycle(expressions)]
fn factor<H: Heap>(
    heap: H,
    cursor: &mut Cursor,
    scope: &Scope,
    best: &mut Option<Breach>,
) -> Result<Typed, Memory>
    requires scope { IsScope scope.now }
    requires awaits { Awaits (wants.Operand ∷ []) (left_of cursor.old) }
    ensures { IfOkUnless (H.may_refuse heap) result
        (Reads 0 scope.now.declared.items (left_of cursor.old) (left_of cursor.new) best.old best.new) }
{
    let token = cursor.next();
    match factor_kind(token.kind) {
        Some(FactorKind::Variable) => Ok(variable(scope, best, token.place, token.bytes)),
        Some(FactorKind::Number) => Ok(number(best, token.place, token.bytes)),
        Some(FactorKind::Truth(value)) => Ok(truth(value)),
        Some(FactorKind::Operator(op)) => {
            let operand = factor(heap, cursor, scope, best)?;
            with_prefix(heap, best, token.place, op, operand)
        }
        Some(FactorKind::Bracket) => {
            let inner = expression(heap, cursor, scope, best)?;
            cursor.mark(Mark::Close);
            Ok(inner)
        }
        None => unreachable!(),
    }
}

/// Reads an expression whose operators have the level at most: an operand, and as long as such an operator comes, its right
/// operand, which binds closer.
#[cycle(expressions)]
fn expression_within<H: Heap>(
    heap: H,
    cursor: &mut Cursor,
    scope: &Scope,
    best: &mut Option<Breach>,
    level: u32,
) -> Result<Typed, Memory>
    requires scope { IsScope scope.now }
    requires awaits { AwaitsOperand (left_of cursor.old) }
    ensures { IfOkUnless (H.may_refuse heap) result
        (Reads level scope.now.declared.items (left_of cursor.old) (left_of cursor.new) best.old best.new) }
{
    let mut left = factor(heap, cursor, scope, best)?;
    while let Some(op) = infix_within(level, cursor.kind()) {
        let place = cursor.next().place;
        let right = expression_within(heap, cursor, scope, best, op.right_level())?;
        left = with_infix(heap, best, place, op, left, right)?;
    }
    Ok(left)
}

/// Reads an expression, and notes what breaks a rule in it. It nests as deep as the text's brackets and operators before
/// their operands do: at most 80 deep in a judged text.
#[cycle(expressions)]
pub(crate) fn expression<H: Heap>(
    heap: H,
    cursor: &mut Cursor,
    scope: &Scope,
    best: &mut Option<Breach>,
) -> Result<Typed, Memory>
    requires scope { IsScope scope.now }
    requires awaits { Awaits (expression []) (left_of cursor.old) }
    ensures { IfOkUnless (H.may_refuse heap) result
        (Reads any_level scope.now.declared.items (left_of cursor.old) (left_of cursor.new) best.old best.new) }
{
    expression_within(heap, cursor, scope, best, ANY_LEVEL)
}

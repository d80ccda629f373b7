//! What may come next in a program, token by token.

ghost use Rattle.std.specs.{Prelude.{◌≡◌, reverse}, List.{list_all}};
ghost use Rattle.stack_heap.specs.Heaps.{IfOkUnless};
ghost use Rattle.mini_syntax.specs.Expected.{answer_of, is_over, may_be_empty, more, PushesUnless, Takes, wanted};
ghost use Rattle.mini_syntax.specs.declared.expected.Expected.TheVariants as wants;

use crate::lexer::TokenKind;
use crate::mark::Mark;
use crate::operator::infix_of;
use crate::word::Word;
use stack_heap::Heap;
use stack_text::Memory;

/// What is expected.
#[derive(Clone, Copy, Debug, PartialEq, Eq)]
pub enum Expected {
    /// A name.
    Name,
    /// This mark.
    Mark(Mark),
    /// `else`
    Else,
    /// An operand: a name, a number, `true`, `false`, an operand behind `not` or `-`, or an expression in brackets.
    Operand,
    /// More of an expression: an operator and an operand, and so on, or nothing. Where a comparison came, another wants an
    /// `and` or an `or` between.
    MoreExpression {
        /// Whether a comparison came since the last `and` or `or`.
        compared: bool,
    },
    /// Declarations, or none.
    MoreDeclarations,
    /// Statements, or none.
    MoreStatements,
}

/// What is expected in place of the expectation that a token met.
#[derive(Clone, Copy, Debug, PartialEq, Eq)]
pub enum Push {
    /// Nothing: the expectation is met.
    Nothing,
    /// An operand, behind a prefix operator.
    Operand,
    /// An expression and its closing bracket, behind the opening one.
    Bracket,
    /// An operand and more of the expression, behind an operator.
    OperandAndMore {
        /// Whether a comparison came since the last `and` or `or`.
        compared: bool,
    },
    /// The rest of a declaration and more declarations, behind the sort.
    Declaration,
    /// The rest of an assignment and more statements, behind the name.
    Assignment,
    /// The rest of a loop and more statements, behind `while`.
    Loop,
    /// The rest of a branch and more statements, behind `if`.
    Branch,
}

/// How what is expected meets a token.
#[derive(Clone, Copy, Debug, PartialEq, Eq)]
pub enum Answer {
    /// The token isn't taken.
    Refused,
    /// It is left out, and what is expected next decides.
    LeftOut,
    /// The token is taken.
    Then(Push),
}

/// How an operand meets a token.
fn operand_answer(kind: TokenKind) -> Answer
    ensures { result ≡ answer_of wants.Operand kind }
{
    match kind {
        TokenKind::Name | TokenKind::Number | TokenKind::Word(Word::Truth(_)) => {
            Answer::Then(Push::Nothing)
        }
        TokenKind::Word(Word::Not) | TokenKind::Mark(Mark::Minus) => Answer::Then(Push::Operand),
        TokenKind::Mark(Mark::Open) => Answer::Then(Push::Bracket),
        _ => Answer::Refused,
    }
}

/// How more of an expression meets a token.
fn expression_answer(compared: bool, kind: TokenKind) -> Answer
    ensures { result ≡ answer_of (wants.MoreExpression compared) kind }
{
    match infix_of(kind) {
        None => Answer::LeftOut,
        Some(op) => {
            if op.may_follow(compared) {
                Answer::Then(Push::OperandAndMore {
                    compared: op.compared_after(compared),
                })
            } else {
                Answer::Refused
            }
        }
    }
}

/// How more statements meet a token.
fn statement_answer(kind: TokenKind) -> Answer
    ensures { result ≡ answer_of wants.MoreStatements kind }
{
    match kind {
        TokenKind::Name => Answer::Then(Push::Assignment),
        TokenKind::Word(Word::While) => Answer::Then(Push::Loop),
        TokenKind::Word(Word::If) => Answer::Then(Push::Branch),
        _ => Answer::LeftOut,
    }
}

/// How a mark meets a token.
fn mark_answer(mark: Mark, kind: TokenKind) -> Answer
    ensures { result ≡ answer_of (wants.Mark mark) kind }
{
    match kind {
        TokenKind::Mark(other) => {
            if mark == other {
                Answer::Then(Push::Nothing)
            } else {
                Answer::Refused
            }
        }
        _ => Answer::Refused,
    }
}

/// The token is taken where it is the one that is wanted.
fn wanted(test: bool) -> Answer
    ensures { result ≡ wanted test }
{
    if test {
        Answer::Then(Push::Nothing)
    } else {
        Answer::Refused
    }
}

/// More is expected where the token is the one with which more begins.
fn more(test: bool, push: Push) -> Answer
    ensures { result ≡ more test push }
{
    if test {
        Answer::Then(push)
    } else {
        Answer::LeftOut
    }
}

/// How what is expected meets a token.
fn meet(top: Expected, kind: TokenKind) -> Answer
    ensures { result ≡ answer_of top kind }
{
    match top {
        Expected::Name => wanted(matches!(kind, TokenKind::Name)),
        Expected::Mark(mark) => mark_answer(mark, kind),
        Expected::Else => wanted(matches!(kind, TokenKind::Word(Word::Else))),
        Expected::Operand => operand_answer(kind),
        Expected::MoreExpression { compared } => expression_answer(compared, kind),
        Expected::MoreDeclarations => more(
            matches!(kind, TokenKind::Word(Word::Sort(_))),
            Push::Declaration,
        ),
        Expected::MoreStatements => statement_answer(kind),
    }
}

/// Expects something more. What is expected first is pushed last.
fn expect<H: Heap>(heap: H, stack: &mut Vec<Expected>, what: Push) -> Result<(), Memory>
    ensures { PushesUnless (H.may_refuse heap) stack.old.items what result stack.new.items }
{
    match what {
        Push::Nothing => {}
        Push::Operand => heap.extend_from_slice(stack, &[Expected::Operand])?,
        Push::Bracket => heap.extend_from_slice(
            stack,
            &[
                Expected::Mark(Mark::Close),
                Expected::MoreExpression { compared: false },
                Expected::Operand,
            ],
        )?,
        Push::OperandAndMore { compared } => heap.extend_from_slice(
            stack,
            &[Expected::MoreExpression { compared }, Expected::Operand],
        )?,
        Push::Declaration => heap.extend_from_slice(
            stack,
            &[
                Expected::MoreDeclarations,
                Expected::Mark(Mark::Semicolon),
                Expected::Name,
            ],
        )?,
        Push::Assignment => heap.extend_from_slice(
            stack,
            &[
                Expected::MoreStatements,
                Expected::Mark(Mark::Semicolon),
                Expected::MoreExpression { compared: false },
                Expected::Operand,
                Expected::Mark(Mark::Becomes),
            ],
        )?,
        Push::Loop => heap.extend_from_slice(
            stack,
            &[
                Expected::MoreStatements,
                Expected::Mark(Mark::CloseBlock),
                Expected::MoreStatements,
                Expected::Mark(Mark::OpenBlock),
                Expected::MoreExpression { compared: false },
                Expected::Operand,
            ],
        )?,
        Push::Branch => heap.extend_from_slice(
            stack,
            &[
                Expected::MoreStatements,
                Expected::Mark(Mark::CloseBlock),
                Expected::MoreStatements,
                Expected::Mark(Mark::OpenBlock),
                Expected::Else,
                Expected::Mark(Mark::CloseBlock),
                Expected::MoreStatements,
                Expected::Mark(Mark::OpenBlock),
                Expected::MoreExpression { compared: false },
                Expected::Operand,
            ],
        )?,
    }
    Ok(())
}

/// Takes a token of the kind, if it is expected.
pub(crate) fn take<H: Heap>(
    heap: H,
    stack: &mut Vec<Expected>,
    kind: TokenKind,
) -> Result<bool, Memory>
    ensures { IfOkUnless (H.may_refuse heap) result (λ taken. Takes stack.old.items kind taken stack.new.items) }
{
    while let Some(top) = stack.pop() {
        match meet(top, kind) {
            Answer::Refused => return Ok(false),
            Answer::LeftOut => {}
            Answer::Then(what) => {
                expect(heap, stack, what)?;
                return Ok(true);
            }
        }
    }
    Ok(false)
}

/// Whether what is expected may be left out.
fn may_be_empty(expected: Expected) -> bool
    ensures { result ≡ may_be_empty expected }
{
    match expected {
        Expected::Name | Expected::Mark(_) | Expected::Else | Expected::Operand => false,
        _ => true,
    }
}

/// Whether each of what is expected may be left out.
fn may_all_be_empty(stack: &[Expected]) -> bool
    ensures { result ≡ list_all may_be_empty stack.now }
{
    stack.iter().all(|expected| may_be_empty(*expected))
}

/// Whether all that is expected may be left out.
pub(crate) fn is_over(stack: &[Expected]) -> bool
    ensures { result ≡ is_over (reverse stack.now) }
{
    may_all_be_empty(stack)
}

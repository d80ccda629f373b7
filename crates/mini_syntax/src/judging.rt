//! The first token that breaks a rule, from left to right.

ghost use Rattle.std.specs.Prelude.{◌≡◌, ◌+◌, ◌<◌, ◌≤◌, ◌^◌, ◌++◌, ◌∷◌, length, map, reverse, [], IfOk, if◌then◌else◌};
ghost use Rattle.stack_heap.specs.Heaps.{IfOkUnless, OnOkUnless};
ghost use Rattle.mini_syntax.specs.{declared.fault.MiniFault.TheVariants.{Refused}, Expected.{at_start}, Faults.{AreFree, begins_expression, closes_block}};
ghost use Rattle.mini_syntax.specs.{Faults.{closes_bracket, is_operator, opens_block, opens_bracket}, Grammar.{IsProgram, InfixProgram}};
ghost use Rattle.mini_syntax.specs.Internal.Judging.{counted, counts_of, IsBelow, is_over_limit, Judges, limit_of, RefusesUnless, tally};
ghost use Rattle.mini_syntax.specs.{Internal.Lexemes.{token_seen}, Tokens.{tokens_in}, Internal.TokenSpans.{token_in}};

use crate::expected::{Expected, is_over, take};
use crate::fault::MiniFault;
use crate::lexeme::Lexeme;
use crate::lexer::{TokenKind, TokenSpan, next_token};
use crate::mark::Mark;
use crate::word::Word;
use stack_heap::Heap;
use stack_text::Memory;

/// How many brackets and how many blocks lie in one another, and how many operators an expression has, at most.
const LIMIT: u32 = 40;

/// How many brackets and blocks were opened and closed, and how many operators the last expression has.
#[derive(Clone, Copy, Debug)]
pub struct Counts {
    /// How many `(` came so far.
    pub opened_brackets: u32,
    /// How many `)` came so far.
    pub closed_brackets: u32,
    /// How many `{` came so far.
    pub opened_blocks: u32,
    /// How many `}` came so far.
    pub closed_blocks: u32,
    /// How many operators the last expression has so far, `not` and both minus signs among them.
    pub operators: u32,
}

/// Whether a bracket opens.
fn opens_bracket(kind: TokenKind) -> bool
    ensures { result ≡ opens_bracket kind }
{
    matches!(kind, TokenKind::Mark(Mark::Open))
}

/// Whether a bracket closes.
fn closes_bracket(kind: TokenKind) -> bool
    ensures { result ≡ closes_bracket kind }
{
    matches!(kind, TokenKind::Mark(Mark::Close))
}

/// Whether a block opens.
fn opens_block(kind: TokenKind) -> bool
    ensures { result ≡ opens_block kind }
{
    matches!(kind, TokenKind::Mark(Mark::OpenBlock))
}

/// Whether a block closes.
fn closes_block(kind: TokenKind) -> bool
    ensures { result ≡ closes_block kind }
{
    matches!(kind, TokenKind::Mark(Mark::CloseBlock))
}

/// Whether it is an operator.
fn is_operator(kind: TokenKind) -> bool
    ensures { result ≡ is_operator kind }
{
    match kind {
        TokenKind::Word(Word::Or | Word::And | Word::Not) => true,
        TokenKind::Mark(Mark::AtMost | Mark::Equals) => true,
        TokenKind::Mark(Mark::Plus | Mark::Minus | Mark::Times) => true,
        _ => false,
    }
}

/// Whether an expression follows.
fn begins_expression(kind: TokenKind) -> bool
    ensures { result ≡ begins_expression kind }
{
    match kind {
        TokenKind::Word(Word::While | Word::If) => true,
        TokenKind::Mark(Mark::Becomes) => true,
        _ => false,
    }
}

/// One more where the test holds.
fn tally(count: u32, test: bool) -> u32
    requires { count + 1 < 2 ^ 32 }
    ensures { result ≡ tally count test }
{
    if test { count + 1 } else { count }
}

/// How many operators the last expression has after a token.
fn operators(count: u32, kind: TokenKind) -> u32
    requires { count + 1 < 2 ^ 32 }
    ensures { result ≡ (if begins_expression kind then 0 else tally count (is_operator kind)) }
{
    if begins_expression(kind) {
        0
    } else {
        tally(count, is_operator(kind))
    }
}

/// The counts after a token.
fn count_more(counts: Counts, kind: TokenKind) -> Counts
    requires { IsBelow counts (2 ^ 31) }
    ensures { result ≡ counted counts kind }
{
    Counts {
        opened_brackets: tally(counts.opened_brackets, opens_bracket(kind)),
        closed_brackets: tally(counts.closed_brackets, closes_bracket(kind)),
        opened_blocks: tally(counts.opened_blocks, opens_block(kind)),
        closed_blocks: tally(counts.closed_blocks, closes_block(kind)),
        operators: operators(counts.operators, kind),
    }
}

/// Whether the test holds where the limit is reached.
fn is_over_limit(test: bool, opened: u32, closed: u32) -> bool
    requires { closed + 40 < 2 ^ 32 }
    ensures { result ≡ is_over_limit test opened closed }
{
    test && closed + LIMIT <= opened
}

/// Rule 3 or 4, where a token breaks it after so many.
fn limit(counts: Counts, kind: TokenKind) -> Option<u8>
    requires { IsBelow counts (2 ^ 31) }
    ensures { result ≡ limit_of counts kind }
{
    if is_over_limit(
        opens_bracket(kind),
        counts.opened_brackets,
        counts.closed_brackets,
    ) {
        return Some(3);
    }
    if is_over_limit(
        opens_block(kind),
        counts.opened_blocks,
        counts.closed_blocks,
    ) {
        return Some(3);
    }
    if is_over_limit(is_operator(kind), counts.operators, 0) {
        return Some(4);
    }
    None
}

/// The rule that a token breaks, if it breaks one; else it is taken.
fn judge_token<H: Heap>(
    heap: H,
    stack: &mut Vec<Expected>,
    counts: Counts,
    kind: TokenKind,
) -> Result<Option<u8>, Memory>
    requires { IsBelow counts (2 ^ 31) }
    ensures { IfOkUnless (H.may_refuse heap) result (λ rule. Judges stack.old.items counts kind rule stack.new.items) }
{
    match kind {
        TokenKind::Wrong => return Ok(Some(1)),
        _ => {}
    }
    if !take(heap, stack, kind)? {
        return Ok(Some(2));
    }
    Ok(limit(counts, kind))
}

/// No token yet.
fn no_counts() -> Counts
    ensures { result ≡ counts_of [] }
{
    Counts {
        opened_brackets: 0,
        closed_brackets: 0,
        opened_blocks: 0,
        closed_blocks: 0,
        operators: 0,
    }
}

/// What is expected at the text's beginning.
fn at_start<H: Heap>(heap: H) -> Result<Vec<Expected>, Memory>
    ensures { IfOkUnless (H.may_refuse heap) result (λ stack. reverse stack.items ≡ at_start) }
{
    let mut stack = Vec::new(heap.handle());
    heap.push(&mut stack, Expected::MoreStatements)?;
    heap.push(&mut stack, Expected::MoreDeclarations)?;
    Ok(stack)
}

/// A rule that is broken at a byte.
fn refused(rule: u8, byte: usize) -> MiniFault
    requires { byte < 2 ^ 32 }
    ensures { result ≡ Refused rule byte }
{
    MiniFault::Refused {
        rule,
        place: byte as u32,
    }
}

/// A token with its bytes.
fn lexeme(text: &[u8], found: TokenSpan) -> Lexeme<'_>
    requires order { found.start < found.end }
    requires within { found.end ≤ length text.now }
    requires small { found.start < 2 ^ 32 }
    ensures { token_seen result ≡ token_in text.now found }
{
    Lexeme {
        kind: found.kind,
        place: found.start as u32,
        bytes: &text[found.start..found.end],
    }
}

/// Keeps one more token.
fn keep<'a, H: Heap>(
    heap: H,
    lexemes: &mut Vec<Lexeme<'a>>,
    lexeme: Lexeme<'a>,
) -> Result<(), Memory>
    ensures { OnOkUnless (H.may_refuse heap) result (lexemes.new.items ≡ lexemes.old.items ++ lexeme.entry ∷ []) }
{
    heap.push(lexemes, lexeme)?;
    Ok(())
}

/// The tokens of a text of at most 2^20 bytes, judged from left to right.
///
/// `Ok` where no token breaks one of the rules 1 to 4, and the text is a program's. The time is linear in the text.
///
/// # Errors
///
/// The first token that breaks a rule, with the least rule that it breaks; the text's end, where it ends too early; or out
/// of memory.
pub(crate) fn judge_text<H: Heap>(heap: H, text: &[u8]) -> Result<Vec<Lexeme<'_>>, MiniFault>
    requires { length text.now ≤ 2 ^ 20 }
    ensures tokens { IfOk result (λ lexemes. map token_seen lexemes.items ≡ tokens_in text.now) }
    ensures free { IfOk result (λ lexemes. AreFree (tokens_in text.now)) }
    ensures program { IfOk result (λ lexemes. (p : InfixProgram) × IsProgram text.now p) }
    ensures fault { RefusesUnless (H.may_refuse heap) text.now result }
{
    let mut lexemes = Vec::new(heap.handle());
    let mut stack = at_start(heap)?;
    let mut counts = no_counts();
    let mut at = 0;
    while let Some(found) = next_token(text, at) {
        if let Some(rule) = judge_token(heap, &mut stack, counts, found.kind)? {
            return Err(refused(rule, found.start));
        }
        keep(heap, &mut lexemes, lexeme(text, found))?;
        counts = count_more(counts, found.kind);
        at = found.end;
    }
    if is_over(stack.as_slice()) {
        Ok(lexemes)
    } else {
        Err(refused(2, text.len()))
    }
}

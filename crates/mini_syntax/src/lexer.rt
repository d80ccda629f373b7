//! Tokens of the language, one after the other.

ghost use Rattle.std.specs.Prelude.{◌≡◌, ◌+◌, ◌<◌, ◌≤◌, ◌^◌, Some, if◌then◌else◌, length, drop, get_or, slice_range, false, [], IfNone, IfSome};
ghost use Rattle.std.specs.Char.{is_ascii_alphabetic, is_ascii_digit};
ghost use Rattle.mini_syntax.specs.{Tokens.{between, is_blank, is_pair, mark_of, longest_run, second_is, tokens, word_kind}, Internal.TokenSpans.{FindsToken}};
ghost use Rattle.mini_syntax.specs.Internal.TokenSpans.{run_mode, run_test};

use crate::mark::Mark;
use crate::word::{Word, word_named};

/// The most bytes that a name has.
const MAX_NAME_LENGTH: usize = 60;

/// What a token is.
#[derive(Clone, Copy, Debug, PartialEq, Eq)]
pub enum TokenKind {
    /// A name of at most 60 bytes.
    Name,
    /// A number of one or more digits.
    Number,
    /// A word of the language.
    Word(Word),
    /// A mark of one byte or two.
    Mark(Mark),
    /// A byte that no token begins with, or a name that is too long.
    Wrong,
}

/// A token of a kind, from byte `start` up to byte `end`.
#[derive(Clone, Copy, Debug)]
pub struct TokenSpan {
    /// What the token is.
    pub kind: TokenKind,
    /// Where its first byte stands, in bytes from 0.
    pub start: usize,
    /// Where the byte behind its last one stands.
    pub end: usize,
}

/// What is as long as can be: a word, or a number.
#[derive(Clone, Copy, Debug, PartialEq, Eq)]
pub enum Run {
    /// A word: a letter, and then letters, digits and `_`.
    Word,
    /// A number: digits alone.
    Number,
}

/// Whether a run goes on with the byte.
fn goes_on(run: Run, byte: u8) -> bool
    ensures { result ≡ run_test run byte }
{
    match run {
        Run::Word => byte.is_ascii_alphanumeric() || byte == b'_',
        Run::Number => byte.is_ascii_digit(),
    }
}

/// Where the run whose bytes from `from` on these are ends.
fn run_end(text: &[u8], from: usize, run: Run) -> usize
    requires { from ≤ length text.now }
    ensures later { from ≤ result }
    ensures within { result ≤ length text.now }
    ensures run { slice_range text.now from result ≡ longest_run (run_test run) (drop from text.now) }
    ensures tokens { tokens (run_mode run) from (drop from text.now) ≡ tokens between result (drop result text.now) }
{
    let mut at = from;
    while at < text.len() {
        if !goes_on(run, text[at]) {
            return at;
        }
        at += 1;
    }
    at
}

/// Whether the byte separates tokens.
fn is_blank(byte: u8) -> bool
    ensures { result ≡ is_blank byte }
{
    matches!(byte, b' ' | b'\t' | b'\n' | b'\r')
}

/// The mark of two bytes, if the byte at `at` is its second.
fn second(text: &[u8], at: usize, byte: u8, mark: Mark) -> Option<Mark>
    ensures { result ≡ second_is (drop at text.now) byte mark }
{
    if at < text.len() && text[at] == byte {
        Some(mark)
    } else {
        None
    }
}

/// The mark that begins with the byte before `next`.
fn mark(text: &[u8], byte: u8, next: usize) -> Option<Mark>
    ensures { result ≡ mark_of byte (drop next text.now) }
{
    match byte {
        b';' => Some(Mark::Semicolon),
        b':' => second(text, next, b'=', Mark::Becomes),
        b'<' => second(text, next, b'=', Mark::AtMost),
        b'=' => Some(Mark::Equals),
        b'+' => Some(Mark::Plus),
        b'-' => Some(Mark::Minus),
        b'*' => Some(Mark::Times),
        b'(' => Some(Mark::Open),
        b')' => Some(Mark::Close),
        b'{' => Some(Mark::OpenBlock),
        b'}' => Some(Mark::CloseBlock),
        _ => None,
    }
}

/// Where a mark that begins at `start` ends.
fn mark_end(mark: Mark, start: usize) -> usize
    requires { start + 2 < 2 ^ 64 }
    ensures { result ≡ (if is_pair (Some mark) then start + 2 else start + 1) }
{
    match mark {
        Mark::Becomes | Mark::AtMost => start + 2,
        _ => start + 1,
    }
}

/// The mark at a byte, or the byte as no token.
fn mark_at(text: &[u8], start: usize) -> TokenSpan
    requires within { start < length text.now }
    requires visible { is_blank (get_or text.now start 0) ≡ false }
    requires no_letter { is_ascii_alphabetic (get_or text.now start 0) ≡ false }
    requires no_digit { is_ascii_digit (get_or text.now start 0) ≡ false }
    ensures { FindsToken text.now start result }
{
    match mark(text, text[start], start + 1) {
        Some(mark) => TokenSpan {
            kind: TokenKind::Mark(mark),
            start,
            end: mark_end(mark, start),
        },
        None => TokenSpan {
            kind: TokenKind::Wrong,
            start,
            end: start + 1,
        },
    }
}

/// What letters, digits and `_` are: a word of the language, or a name.
fn word_kind(bytes: &[u8]) -> TokenKind
    ensures { result ≡ word_kind bytes.now }
{
    if bytes.len() > MAX_NAME_LENGTH {
        return TokenKind::Wrong;
    }
    match word_named(bytes) {
        Some(word) => TokenKind::Word(word),
        None => TokenKind::Name,
    }
}

/// The token that begins with a byte.
fn token_at(text: &[u8], start: usize) -> TokenSpan
    requires within { start < length text.now }
    requires visible { is_blank (get_or text.now start 0) ≡ false }
    ensures { FindsToken text.now start result }
{
    let byte = text[start];
    if byte.is_ascii_alphabetic() {
        let end = run_end(text, start, Run::Word);
        TokenSpan {
            kind: word_kind(&text[start..end]),
            start,
            end,
        }
    } else if byte.is_ascii_digit() {
        let end = run_end(text, start, Run::Number);
        TokenSpan {
            kind: TokenKind::Number,
            start,
            end,
        }
    } else {
        mark_at(text, start)
    }
}

/// The next token from `from` on.
pub fn next_token(text: &[u8], from: usize) -> Option<TokenSpan>
    requires { from ≤ length text.now }
    ensures none { IfNone result (tokens between from (drop from text.now) ≡ []) }
    ensures some { IfSome result (FindsToken text.now from) }
{
    let mut at = from;
    while at < text.len() {
        if !is_blank(text[at]) {
            return Some(token_at(text, at));
        }
        at += 1;
    }
    None
}

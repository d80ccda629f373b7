//! Tokens, one after the other.

ghost use Rattle.std.specs.Prelude.{◌≡◌, ◌+◌, ◌<◌, ◌≤◌, ◌^◌, length, drop, slice_range, [], IfNone, IfSome};
ghost use Rattle.stack_text.specs.{Tokens.{tokens, atom_run, between, in_atom, in_comment}, Internal.TokenSpans.{FindsToken}};

use crate::class::{Class, class_of_byte};
use bstr::ByteSlice;

/// What a token is.
#[derive(Clone, Copy, Debug, PartialEq, Eq)]
pub enum TokenKind {
    /// A `(`.
    Opening,
    /// A `)`.
    Closing,
    /// Atom bytes one after the other, as many as there are.
    Atom,
    /// One byte that no text may have.
    Invalid,
}

/// A token, and where it stands in a text. Bytes are counted from 0.
#[derive(Clone, Copy, Debug)]
pub struct TokenSpan {
    /// What it is.
    pub kind: TokenKind,
    /// Its first byte.
    pub start: usize,
    /// The byte after its last one.
    pub end: usize,
}

impl TokenSpan {
    /// A token of one byte.
    fn one_byte(kind: TokenKind, start: usize) -> TokenSpan
        requires { start + 1 < 2 ^ 64 }
        ensures { result ≡ record { kind = kind; start = start; «end» = start + 1 } }
    {
        TokenSpan {
            kind,
            start,
            end: start + 1,
        }
    }
}

/// Where the atom bytes from `from` on end.
fn atom_end(text: &[u8], from: usize) -> usize
    requires { from ≤ length text.now }
    ensures later { from ≤ result }
    ensures within { result ≤ length text.now }
    ensures run { slice_range text.now from result ≡ atom_run (drop from text.now) }
    ensures tokens { tokens in_atom from (drop from text.now) ≡ tokens between result (drop result text.now) }
{
    let mut at = from;
    while at < text.len() {
        match class_of_byte(text[at]) {
            Class::AtomByte => at += 1,
            _ => return at,
        }
    }
    at
}

/// Where the comment that `from` is in ends: after the next LF, or at the text's end.
fn comment_end(text: &[u8], from: usize) -> usize
    requires { from ≤ length text.now }
    ensures later { from ≤ result }
    ensures within { result ≤ length text.now }
    ensures tokens { tokens in_comment from (drop from text.now) ≡ tokens between result (drop result text.now) }
{
    let rest = &text[from..];
    match rest.find_byte(b'\n') {
        Some(length) => from + length + 1,
        None => text.len(),
    }
}

/// The next token from `from` on, which is outside comments.
pub fn next_token(text: &[u8], from: usize) -> Option<TokenSpan>
    requires { from ≤ length text.now }
    ensures none { IfNone result (tokens between from (drop from text.now) ≡ []) }
    ensures some { IfSome result (FindsToken text.now from) }
{
    let mut at = from;
    while at < text.len() {
        match class_of_byte(text[at]) {
            Class::LineEnd | Class::Space => at += 1,
            Class::Semicolon => at = comment_end(text, at + 1),
            Class::AtomByte => {
                let end = atom_end(text, at);
                return Some(TokenSpan {
                    kind: TokenKind::Atom,
                    start: at,
                    end,
                });
            }
            Class::Opening => return Some(TokenSpan::one_byte(TokenKind::Opening, at)),
            Class::Closing => return Some(TokenSpan::one_byte(TokenKind::Closing, at)),
            Class::Invalid => return Some(TokenSpan::one_byte(TokenKind::Invalid, at)),
        }
    }
    None
}

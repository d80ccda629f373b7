//! Lines.

ghost use Rattle.std.specs.Prelude.{◌≡◌, option_map};
ghost use Rattle.fm_asm.specs.{Statements.{statement_of}, Lines.{said_of, text_of, statement_or_none, is_apart, labelled, said_by, said_in}};

use crate::cuts::{cut, trimmed, without_leading_spaces};
use crate::statement::{Statement, statement_in};
use stack_text::is_name;

/// What a line says: a label and a statement, each of which may be missing.
#[derive(Clone, Copy, Debug)]
pub(crate) struct Said<'l, 's> {
    pub label: Option<&'l [u8]>,
    pub statement: Option<Statement<'s>>,
}

/// A line that says something.
#[derive(Clone, Copy, Debug)]
pub(crate) struct Line<'l, 's> {
    /// The place of its first byte in the text.
    pub place: u32,
    /// How many words stand before it.
    pub offset: u32,
    pub said: Said<'l, 's>,
}

/// The text of a line: what stands before the first `;`, without the spaces at both ends.
#[tactic(auto, unfolding(crate::specs::Lines::text_of))]
pub(crate) fn text_of(line: &[u8]) -> &[u8]
    ensures { result.now ≡ text_of line.now }
{
    let (text, _comment) = cut(b';', line);
    trimmed(text)
}

/// A statement, or nothing where the text is empty.
#[tactic(auto, unfolding(crate::specs::Lines::statement_or_none))]
fn statement_or_none(text: &[u8]) -> Option<Option<Statement<'_>>>
    ensures { option_map (λ s. option_map statement_of s) result ≡ statement_or_none text.now }
{
    match text {
        [] => Some(None),
        _ => Some(Some(statement_in(text)?)),
    }
}

/// Whether there are no bytes, or the first is a space.
fn is_apart(text: &[u8]) -> bool
    ensures { result ≡ is_apart text.now }
{
    match text {
        [] => true,
        [first, ..] => *first == b' ',
    }
}

/// What a label before its `:` and the bytes after it say.
#[tactic(auto, unfolding(crate::specs::Lines::labelled))]
fn labelled<'l, 's>(name: &'l [u8], rest: &'s [u8]) -> Option<Said<'l, 's>>
    ensures { option_map said_of result ≡ labelled name.now rest.now }
{
    if !(is_name(name) && is_apart(rest)) {
        return None;
    }
    let statement = statement_or_none(without_leading_spaces(rest))?;
    Some(Said {
        label: Some(name),
        statement,
    })
}

/// What a text says by the parts around its first `:`, or by itself where it has none, if it is of a form.
#[tactic(auto, unfolding(crate::specs::Lines::said_in, crate::specs::Lines::said_by))]
pub(crate) fn said_in(text: &[u8]) -> Option<Said<'_, '_>>
    ensures { option_map said_of result ≡ said_in text.now }
{
    let (front, rest) = cut(b':', text);
    match rest {
        Some(rest) => labelled(front, rest),
        None => Some(Said {
            label: None,
            statement: statement_or_none(text)?,
        }),
    }
}

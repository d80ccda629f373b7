//! Kinds and types.

ghost use Rattle.std.specs.Prelude.{◌≡◌, ◌≤◌};
ghost use Rattle.stack_text.specs.Breaches.{Notes};
ghost use Rattle.gypsy_check.specs.{Rules.{is_of_type, type_breaches}, Types.{has_length, is_boolean, same_length, same_type, words_of_length}};

use gypsy_syntax::TypeText;
use stack_text::{Breach, Kind, MOST_ARRAY, note_if};

/// Whether both are simple, or arrays of one length.
fn same_length(length: Option<i128>, other: Option<i128>) -> bool
    ensures { result ≡ same_length length other }
{
    match length {
        None => other.is_none(),
        Some(length) => match other {
            None => false,
            Some(other) => length == other,
        },
    }
}

/// Whether two types are the same but for their places.
fn same_type(shape: &TypeText, other: &TypeText) -> bool
    ensures { result ≡ same_type shape.now other.now }
{
    shape.kind.is(other.kind) && same_length(shape.length, other.length)
}

/// Whether a type, where there is one, is a simple Boolean.
pub(crate) fn is_boolean_if_any(shape: Option<TypeText>) -> bool
    ensures { result ≡ is_of_type is_boolean shape }
{
    match shape {
        None => true,
        Some(shape) => shape.kind.is(Kind::Boolean) && shape.length.is_none(),
    }
}

/// Whether a type, where there is one, is this one.
pub(crate) fn is_same_if_any(wanted: &TypeText, shape: Option<TypeText>) -> bool
    ensures { result ≡ is_of_type (same_type wanted.now) shape }
{
    match shape {
        None => true,
        Some(shape) => same_type(wanted, &shape),
    }
}

/// Whether a type is simple, or an array whose length is in range.
fn has_length(length: Option<i128>) -> bool
    ensures { result ≡ has_length length }
{
    match length {
        None => true,
        Some(length) => 0 < length && length <= i128::from(MOST_ARRAY),
    }
}

/// Notes an array whose length is out of range.
pub(crate) fn check_type(best: &mut Option<Breach>, shape: &TypeText)
    ensures { Notes best.old (type_breaches shape.now) best.new }
{
    note_if(best, !has_length(shape.length), shape.place, 7);
}

/// The words of a variable whose type has a length in range, and none of any other.
pub(crate) fn words_of_length(length: Option<i128>) -> u32
    ensures words { result ≡ words_of_length length }
    ensures small { result ≤ 4096 }
{
    match length {
        None => 1,
        Some(length) => {
            if 0 < length && length <= i128::from(MOST_ARRAY) {
                length as u32
            } else {
                0
            }
        }
    }
}

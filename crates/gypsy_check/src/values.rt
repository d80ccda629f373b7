//! Initial values.

ghost use Rattle.std.specs.{Prelude.{◌≡◌, ◌&&◌, length, pos}, List.{flat_map, list_all}, Ordering.{int_eq}};
ghost use Rattle.stack_text.specs.Breaches.{Notes};
ghost use Rattle.gypsy_syntax.specs.{Resolved.{literal_kind}, Views.SourceView.{literal_of, local_of}};
ghost use Rattle.gypsy_check.specs.{Rules.{local_breaches}, Types.{is_of_kind, suits}};

use crate::literals::{check_literal, literal_kind, literal_place};
use gypsy_syntax::{Literal, Local, TypeText};
use stack_text::{Breach, Kind, note_if};

/// Whether the literal is simple, and of the kind.
fn is_of_kind(kind: Kind, literal: &Literal) -> bool
    ensures { result ≡ is_of_kind kind (literal_kind (literal_of literal.now)) }
{
    match literal_kind(literal) {
        None => false,
        Some(other) => other.is(kind),
    }
}

/// Whether each literal is simple, and of the kind.
fn are_of_kind(kind: Kind, items: &[Literal]) -> bool
    ensures { result ≡ list_all (λ l. is_of_kind kind (literal_kind (literal_of l))) items.now }
{
    items.iter().all(|item| is_of_kind(kind, item))
}

/// Whether the two are one number.
fn is_number(number: i128, other: i128) -> bool
    ensures { result ≡ int_eq number other }
{
    number == other
}

/// Whether there are so many items, each of the kind.
fn is_list_of(kind: Kind, count: i128, items: &[Literal]) -> bool
    ensures { let items_suit = list_all (λ l. is_of_kind kind (literal_kind (literal_of l))) items.now in
        result ≡ (int_eq count (pos (length items.now)) && items_suit) }
{
    is_number(count, items.len() as i128) && are_of_kind(kind, items)
}

/// Whether a value is one of the type.
fn suits(shape: &TypeText, literal: &Literal) -> bool
    ensures { result ≡ suits shape.now.kind shape.now.length (literal_of literal.now) }
{
    match shape.length {
        None => is_of_kind(shape.kind, literal),
        Some(length) => match literal {
            Literal::Integer { .. } => false,
            Literal::Truth { .. } => false,
            Literal::Character { .. } => false,
            Literal::List { place: _, items } => is_list_of(shape.kind, length, items.as_slice()),
        },
    }
}

/// Notes an initial value that doesn't suit its type, and its numbers that are out of range.
fn check_local(best: &mut Option<Breach>, local: &Local)
    ensures { Notes best.old (local_breaches (local_of local.now)) best.new }
{
    let suits = suits(&local.decl.shape, &local.value);
    note_if(best, !suits, literal_place(&local.value), 8);
    check_literal(best, &local.value);
}

/// The same of each local variable.
pub(crate) fn check_locals(best: &mut Option<Breach>, locals: &[Local])
    ensures { Notes best.old (flat_map (λ l. local_breaches (local_of l)) locals.now) best.new }
{
    for local in locals {
        check_local(best, local);
    }
}

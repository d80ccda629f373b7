//! Literals: their kinds, their places, and numbers that are out of range.

ghost use Rattle.std.specs.{Prelude.{◌≡◌}, List.{flat_map}};
ghost use Rattle.stack_text.specs.{declared.shape.Kind.TheVariants.{Integer, Character}, Breaches.{Notes}};
ghost use Rattle.gypsy_syntax.specs.{Ranges.{is_in_range}, Resolved.{literal_kind}, Sources.{literal_place}, Views.SourceView.{literal_of}};
ghost use Rattle.gypsy_check.specs.Rules.{literal_breaches};

use gypsy_syntax::Literal;
use stack_text::{Breach, Kind, note_if};

/// The simple kind of a literal; a list has none.
pub(crate) fn literal_kind(literal: &Literal) -> Option<Kind>
    ensures { result ≡ literal_kind (literal_of literal.now) }
{
    match literal {
        Literal::Integer { .. } => Some(Kind::Integer),
        Literal::Truth { .. } => Some(Kind::Boolean),
        Literal::Character { .. } => Some(Kind::Character),
        Literal::List { .. } => None,
    }
}

/// The place of a literal.
pub(crate) fn literal_place(literal: &Literal) -> u32
    ensures { result ≡ literal_place (literal_of literal.now) }
{
    match literal {
        Literal::Integer { place, number: _ } => *place,
        Literal::Truth { place, truth: _ } => *place,
        Literal::Character { place, code: _ } => *place,
        Literal::List { place, items: _ } => *place,
    }
}

/// Whether 32 signed bits have the number.
fn is_integer(number: i128) -> bool
    ensures { result ≡ is_in_range Integer number }
{
    -2_147_483_648 <= number && number <= 2_147_483_647
}

/// Whether it is the number of an ASCII character.
fn is_character(code: i128) -> bool
    ensures { result ≡ is_in_range Character code }
{
    0 <= code && code <= 127
}

/// Notes each number that is out of range.
#[cycle(literals)]
pub(crate) fn check_literal(best: &mut Option<Breach>, literal: &Literal)
    ensures { Notes best.old (literal_breaches (literal_of literal.now)) best.new }
{
    match literal {
        Literal::Integer { place, number } => note_if(best, !is_integer(*number), *place, 9),
        Literal::Truth { place: _, truth: _ } => {}
        Literal::Character { place, code } => note_if(best, !is_character(*code), *place, 9),
        Literal::List { place: _, items } => check_items(best, items.as_slice()),
    }
}

/// The same of each item of a list.
#[cycle(literals)]
fn check_items(best: &mut Option<Breach>, items: &[Literal])
    ensures { Notes best.old (flat_map (λ l. literal_breaches (literal_of l)) items.now) best.new }
{
    for item in items {
        check_literal(best, item);
    }
}

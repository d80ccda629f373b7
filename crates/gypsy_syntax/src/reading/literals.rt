//! Values, and the arguments of predefined procedures.

ghost use Rattle.std.specs.Prelude.{◌≡◌};
ghost use Rattle.stack_text.specs.{Views.TreeView.{node_of}, Grammar.Reading.{Finds, ReadsUnless}};
ghost use Rattle.gypsy_syntax.specs.{Grammar.{arg_at, is_character, literal_in, simple_at, truth_at}, Views.SourceView.{arg_of, literal_of}};

use crate::literal::Literal;
use crate::reading::word::number_at;
use crate::statement::Arg;
use stack_heap::Heap;
use stack_text::grammar::{FormFault, Part, each};
use stack_text::{Breach, Named, TextTree, is_digits, is_numeral, read_name};

/// M8 at a tree.
fn no_value(place: u32) -> Breach
    ensures { result ≡ record { rule = 8; place = place } }
{
    Breach { rule: 8, place }
}

/// Whether the bytes are a `#` and digits.
fn is_character(bytes: &[u8]) -> bool
    ensures { result ≡ is_character bytes.now }
{
    match bytes {
        [] => false,
        [first, digits @ ..] => *first == b'#' && is_digits(digits),
    }
}

/// The truth value that an atom is, or M8 where it is none.
fn truth_at(place: u32, text: &[u8]) -> Result<Literal, Breach>
    ensures { Finds literal_of result (truth_at place text.now) }
{
    if text == b"true".as_slice() {
        return Ok(Literal::Truth { place, truth: true });
    }
    if text == b"false".as_slice() {
        return Ok(Literal::Truth {
            place,
            truth: false,
        });
    }
    Err(no_value(place))
}

/// The simple value that an atom is, or M8 where it is none, M11 where its number is out of range.
fn simple_at(place: u32, text: &[u8]) -> Result<Literal, Breach>
    ensures { Finds literal_of result (simple_at place text.now) }
{
    if is_numeral(text) {
        let number = number_at(place, text)?;
        return Ok(Literal::Integer { place, number });
    }
    if is_character(text) {
        let code = number_at(place, &text[1..])?;
        return Ok(Literal::Character { place, code });
    }
    truth_at(place, text)
}

impl Part for Literal {
    ghost use Rattle.gypsy_syntax.specs.{Grammar.{simple_in}, Sources.{LiteralOf}, Views.SourceView.{literal_of}};

    ghost Seen = { LiteralOf };

    ghost view = { literal_of };

    ghost part_of = { simple_in };

    fn read<H: Heap>(_heap: H, tree: &TextTree) -> Result<Literal, FormFault> {
        match tree {
            TextTree::Atom { place, text } => Ok(simple_at(*place, text)?),
            TextTree::List { place, items: _ } => Err(no_value(*place).into()),
        }
    }
}

/// The value that a tree is.
pub fn literal<H: Heap>(heap: H, tree: &TextTree) -> Result<Literal, FormFault>
    ensures { ReadsUnless (H.may_refuse heap) literal_of result (literal_in (node_of tree.now)) }
{
    match tree {
        TextTree::Atom { place, text } => Ok(simple_at(*place, text)?),
        TextTree::List { place, items } => {
            let items = each(heap, items)?;
            Ok(Literal::List {
                place: *place,
                items,
            })
        }
    }
}

/// The argument that an atom is.
fn arg_at<H: Heap>(heap: H, place: u32, text: &[u8]) -> Result<Arg, FormFault>
    ensures { ReadsUnless (H.may_refuse heap) arg_of result (arg_at place text.now) }
{
    match read_name(heap, text)? {
        Some(name) => Ok(Arg::Variable(Named { place, name })),
        None => Ok(Arg::Constant(simple_at(place, text)?)),
    }
}

impl Part for Arg {
    ghost use Rattle.gypsy_syntax.specs.{Grammar.{arg_in}, Sources.{ArgOf}, Views.SourceView.{arg_of}};

    ghost Seen = { ArgOf };

    ghost view = { arg_of };

    ghost part_of = { arg_in };

    fn read<H: Heap>(heap: H, tree: &TextTree) -> Result<Arg, FormFault> {
        match tree {
            TextTree::Atom { place, text } => arg_at(heap, *place, text),
            TextTree::List { place, items: _ } => Err(no_value(*place).into()),
        }
    }
}

//! Words, names and numerals.

ghost use Rattle.std.specs.Prelude.{◌≡◌, IsTrue, codes};
ghost use Rattle.stack_text.specs.{Numerals.{is_numeral}, Views.TreeView.{node_of}, Grammar.Parts.{is_atom_of}, Grammar.Reading.{Finds, ReadsUnless}};
ghost use Rattle.gypsy_syntax.specs.Grammar.{is_word, kind_in, named_in, names_in, number_at, number_in};

use crate::keyword::kind_named;
use stack_heap::Heap;
use stack_text::grammar::{self, FormFault};
use stack_text::{Breach, Kind, Named, TextTree, read_numeral};

/// Whether the tree is the word `array`.
pub fn is_array_word(tree: &TextTree) -> bool
    ensures { result ≡ is_word (codes "array") (node_of tree.now) }
{
    match tree {
        TextTree::Atom { place: _, text } => *text == b"array".as_slice(),
        TextTree::List { place: _, items: _ } => false,
    }
}

/// Whether the tree is the word `proc`.
pub fn is_proc_word(tree: &TextTree) -> bool
    ensures { result ≡ is_word (codes "proc") (node_of tree.now) }
{
    match tree {
        TextTree::Atom { place: _, text } => *text == b"proc".as_slice(),
        TextTree::List { place: _, items: _ } => false,
    }
}

/// Whether the tree is the word `program`.
pub fn is_program_word(tree: &TextTree) -> bool
    ensures { result ≡ is_word (codes "program") (node_of tree.now) }
{
    match tree {
        TextTree::Atom { place: _, text } => *text == b"program".as_slice(),
        TextTree::List { place: _, items: _ } => false,
    }
}

/// The simple type whose word the tree is.
pub fn kind_in(tree: &TextTree) -> Option<Kind>
    ensures { result ≡ kind_in (node_of tree.now) }
{
    match tree {
        TextTree::Atom { place: _, text } => kind_named(text),
        TextTree::List { place: _, items: _ } => None,
    }
}

/// The number of a numeral, or M11 where it is out of the 128-bit range.
pub fn number_at(place: u32, numeral: &[u8]) -> Result<i128, Breach>
    requires { IsTrue (is_numeral numeral.now) }
    ensures { Finds (λ number. number) result (number_at place numeral.now) }
{
    match read_numeral(numeral) {
        Some(number) => Ok(number),
        None => Err(Breach { rule: 11, place }),
    }
}

/// The number of a numeral's atom, or M11 where it is out of the 128-bit range.
pub fn number(tree: &TextTree) -> Result<i128, Breach>
    requires { IsTrue (is_atom_of is_numeral (node_of tree.now)) }
    ensures { Finds (λ number. number) result (number_in (node_of tree.now)) }
{
    match tree {
        TextTree::List { place, items: _ } => Err(Breach {
            rule: 11,
            place: *place,
        }),
        TextTree::Atom { place, text } => number_at(*place, text),
    }
}

/// The name that a tree is, or M3 where it is none.
pub fn named<H: Heap>(heap: H, tree: &TextTree) -> Result<Named, FormFault>
    ensures { ReadsUnless (H.may_refuse heap) (λ name. name) result (named_in (node_of tree.now)) }
{
    grammar::named(heap, 3, tree)
}

/// The names that the items of a list are, or M5 where the tree is no list.
pub fn names<H: Heap>(heap: H, tree: &TextTree) -> Result<Vec<Named>, FormFault>
    ensures { ReadsUnless (H.may_refuse heap) (λ names. names.items) result (names_in (node_of tree.now)) }
{
    grammar::names(heap, 5, 3, tree)
}

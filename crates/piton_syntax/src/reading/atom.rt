//! Names and numerals.

ghost use Rattle.std.specs.Prelude.{◌≡◌, IsTrue};
ghost use Rattle.stack_text.specs.{Grammar.Parts.{is_atom_of}, Grammar.Reading.{Finds, ReadsUnless}, Names.{is_name}, Numerals.{is_digits, is_numeral}};
ghost use Rattle.stack_text.specs.Views.TreeView.{node_of};
ghost use Rattle.piton_syntax.specs.Grammar.{named_of, number_of};

use crate::word_text::Number;
use stack_heap::Heap;
use stack_text::grammar::{FormFault, named};
use stack_text::{Breach, Named, TextTree, is_digits, is_name, read_numeral};

/// Whether the tree is an atom of digits alone.
pub fn is_digits_atom(tree: &TextTree) -> bool
    ensures { result ≡ is_atom_of is_digits (node_of tree.now) }
{
    match tree {
        TextTree::Atom { place: _, text } => is_digits(text),
        TextTree::List { place: _, items: _ } => false,
    }
}

/// Whether the tree is a name's atom.
pub fn is_name_atom(tree: &TextTree) -> bool
    ensures { result ≡ is_atom_of is_name (node_of tree.now) }
{
    match tree {
        TextTree::Atom { place: _, text } => is_name(text),
        TextTree::List { place: _, items: _ } => false,
    }
}

/// The name that a tree is, or P4 where it is none.
pub fn name<H: Heap>(heap: H, tree: &TextTree) -> Result<Named, FormFault>
    ensures { ReadsUnless (H.may_refuse heap) (λ name. name) result (named_of (node_of tree.now)) }
{
    named(heap, 4, tree)
}

/// The number of a numeral's atom, or P8 where it is out of the 128-bit range.
pub fn number(tree: &TextTree) -> Result<Number, Breach>
    requires { IsTrue (is_atom_of is_numeral (node_of tree.now)) }
    ensures { Finds (λ number. number) result (number_of (node_of tree.now)) }
{
    let (place, number) = match tree {
        TextTree::Atom { place, text } => (*place, read_numeral(text)),
        TextTree::List { place, items: _ } => (*place, None),
    };
    match number {
        Some(number) => Ok(Number { place, number }),
        None => Err(Breach { rule: 8, place }),
    }
}

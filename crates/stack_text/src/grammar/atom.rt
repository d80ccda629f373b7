//! Atoms by their bytes.

ghost use Rattle.std.specs.Prelude.{◌≡◌};
ghost use Rattle.stack_text.specs.{Grammar.Parts.{is_atom_of}, Numerals.{is_numeral}, Views.TreeView.{node_of}};

use crate::{TextTree, is_numeral};

/// Whether the tree is a numeral's atom.
pub fn is_numeral_atom(tree: &TextTree) -> bool
    ensures { result ≡ is_atom_of is_numeral (node_of tree.now) }
{
    match tree {
        TextTree::Atom { place: _, text } => is_numeral(text),
        TextTree::List { place: _, items: _ } => false,
    }
}

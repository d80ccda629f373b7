//! Names.

ghost use Rattle.std.specs.Prelude.{length};
ghost use Rattle.stack_heap.specs.Heaps.{FitsBound};
ghost use Rattle.stack_text.specs.{Views.TreeView.{node_of, nodes_of}, Grammar.Judged.{each_of}, Grammar.Parts.{list_length, list_or, name_or}};
ghost use Rattle.stack_text.specs.Grammar.Reading.{ReadsUnless};

use crate::grammar::fault::FormFault;
use crate::{Named, TextTree, read_name};
use stack_heap::BoundedHeap;

/// The name that a tree is; where it is none, it breaks the rule.
pub fn named<H: BoundedHeap>(heap: H, rule: u8, tree: &TextTree) -> Result<Named, FormFault>
    ensures { ReadsUnless (H.may_refuse heap) (λ name. name) result (name_or rule (node_of tree.now)) }
{
    match tree {
        TextTree::List { place, items: _ } => Err(FormFault::Form {
            rule,
            place: *place,
        }),
        TextTree::Atom { place, text } => match read_name(heap, text)? {
            Some(name) => Ok(Named {
                place: *place,
                name,
            }),
            None => Err(FormFault::Form {
                rule,
                place: *place,
            }),
        },
    }
}

/// The name that each item of a list is. A tree that is no list breaks the first rule, and an item that is no name the
/// other.
pub fn names<H: BoundedHeap>(
    heap: H,
    list_rule: u8,
    name_rule: u8,
    tree: &TextTree,
) -> Result<Vec<Named>, FormFault>
    requires { FitsBound (H.bound heap) (list_length (node_of tree.now)) }
    ensures { ReadsUnless (H.may_refuse heap) (λ names. names.items) result
        (list_or list_rule (name_or name_rule) (node_of tree.now)) }
{
    match tree {
        TextTree::Atom { place, text: _ } => Err(FormFault::Form {
            rule: list_rule,
            place: *place,
        }),
        TextTree::List { place: _, items } => each_name(heap, name_rule, items),
    }
}

/// The name that each tree is.
fn each_name<H: BoundedHeap>(heap: H, rule: u8, trees: &[TextTree]) -> Result<Vec<Named>, FormFault>
    requires { FitsBound (H.bound heap) (length trees.now) }
    ensures { ReadsUnless (H.may_refuse heap) (λ names. names.items) result
        (each_of (name_or rule) (nodes_of trees.now)) }
{
    let mut names = heap.with_room_for(trees)?;
    for tree in trees {
        let name = named(heap, rule, tree)?;
        heap.push(&mut names, name)?;
    }
    Ok(names)
}

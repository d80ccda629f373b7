//! Parts of one kind, one for each tree of a list.

ghost use Rattle.std.specs.Prelude.{◌≡◌, map};
ghost use Rattle.stack_heap.specs.Heaps.{IsSmallItem};
ghost use Rattle.stack_text.specs.{Trees.{Node}, Views.TreeView.{node_of, nodes_of}, Grammar.Judged.{Judged, each_of}, Grammar.Parts.{list_length, list_or}};
ghost use Rattle.stack_text.specs.Grammar.Reading.{ReadsUnless};

use crate::TextTree;
use crate::grammar::fault::FormFault;
use stack_heap::Heap;

/// What one tree is read to be.
pub trait Part: Drop {
    /// What clauses see of a part.
    ghost Seen: { Type 0 };

    /// The part as clauses see it.
    ghost view: { Self → Seen };

    /// The part that a tree is, or all its faults in reading order.
    ghost part_of: { Node → Judged Seen };

    /// The part that the tree is, or the first of its faults.
    fn read<H: Heap>(heap: H, tree: &TextTree) -> Result<Self, FormFault>
        ensures { ReadsUnless (H.may_refuse heap) view result (part_of (node_of tree.now)) };
}

/// The part that each tree is.
pub fn each<T: Part, H: Heap>(heap: H, trees: &[TextTree]) -> Result<Vec<T>, FormFault>
    requires { IsSmallItem T.row }
    ensures { ReadsUnless (H.may_refuse heap) (λ parts. map T.view parts.items) result
        (each_of T.part_of (nodes_of trees.now)) }
{
    let mut parts = heap.with_room_for(trees)?;
    for tree in trees {
        let part = T::read(heap, tree)?;
        heap.push(&mut parts, part)?;
    }
    Ok(parts)
}

/// The part that each item of a list is; where the tree is no list, it breaks the rule.
pub fn each_in<T: Part, H: Heap>(heap: H, rule: u8, tree: &TextTree) -> Result<Vec<T>, FormFault>
    requires { IsSmallItem T.row }
    ensures { ReadsUnless (H.may_refuse heap) (λ parts. map T.view parts.items) result
        (list_or rule T.part_of (node_of tree.now)) }
{
    match tree {
        TextTree::Atom { place, text: _ } => Err(FormFault::Form {
            rule,
            place: *place,
        }),
        TextTree::List { place: _, items } => each(heap, items),
    }
}

/// How many items a list has, and none where the tree is no list.
pub fn list_length(tree: &TextTree) -> usize
    ensures { result ≡ list_length (node_of tree.now) }
{
    match tree {
        TextTree::Atom { place: _, text: _ } => 0,
        TextTree::List { place: _, items } => items.len(),
    }
}

//! Printing a tree.

ghost use Rattle.std.specs.Prelude.{◌≡◌, ◌++◌, ◌==◌, ◌∷◌, [], if◌then◌else◌, length, IfOk};
ghost use Rattle.stack_heap.specs.Heaps.{IfOkUnless, FitsBound, OnOkUnless};
ghost use Rattle.stack_text.specs.{Trees.{IsWellFormed, ReadsAs}, TreeText.{tree_text}, Views.TreeView.{owned_node}};

use crate::memory::Memory;
use crate::tree::Tree;
use stack_heap::BoundedHeap;

/// A space before each item but the first.
pub fn separate<H: BoundedHeap>(heap: H, out: &mut Vec<u8>, index: usize) -> Result<(), Memory>
    requires { FitsBound (H.bound heap) (length out.old.items) }
    ensures { OnOkUnless (H.may_refuse heap) result
        (out.new.items ≡ out.old.items ++ (if index == 0 then [] else 32 ∷ [])) }
{
    if index > 0 {
        heap.push(out, b' ')?;
    }
    Ok(())
}

/// Appends the tree's text.
fn print_into<H: BoundedHeap>(heap: H, out: &mut Vec<u8>, tree: &Tree) -> Result<(), Memory>
    requires { FitsBound (H.bound heap) (length (out.old.items ++ tree_text (owned_node tree.now))) }
    ensures { OnOkUnless (H.may_refuse heap) result (out.new.items ≡ out.old.items ++ tree_text (owned_node tree.now)) }
{
    match tree {
        Tree::Atom { place: _, text } => {
            heap.extend_from_slice(out, text)?;
            Ok(())
        }
        Tree::List { place: _, items } => {
            heap.push(out, b'(')?;
            for (index, item) in items.iter().enumerate() {
                separate(heap, out, index)?;
                print_into(heap, out, item)?;
            }
            heap.push(out, b')')?;
            Ok(())
        }
    }
}

/// The tree as text on one line, a single space between the items of each list.
///
/// It recurses once for each level, and a reader has to find the tree again, so it asks for the form of a tree that was
/// read: atoms that are words, no more than 200 levels, no more than 2^31 atoms and lists. Printers that write line ends
/// in place of some spaces rest on the law `spelled_is_read` of `proofs/SpellingLaws.antt`, which holds for any
/// separators.
pub fn print_tree<H: BoundedHeap>(heap: H, tree: &Tree) -> Result<Vec<u8>, Memory>
    requires form { IsWellFormed (owned_node tree.now) }
    requires short { FitsBound (H.bound heap) (length (tree_text (owned_node tree.now))) }
    ensures exact { IfOkUnless (H.may_refuse heap) result (λ text. text.items ≡ tree_text (owned_node tree.now)) }
    ensures again { IfOk result (λ text. ReadsAs text.items (owned_node tree.now)) }
{
    let mut out = Vec::new(heap.handle());
    print_into(heap, &mut out, tree)?;
    Ok(out)
}

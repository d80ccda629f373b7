//! Parts, printed as the items of lists.

ghost use Rattle.std.specs.Prelude.{◌≡◌, ◌++◌, ◌∷◌, length, map};
ghost use Rattle.stack_heap.specs.Heaps.{FitsBound, OnOkUnless};
ghost use Rattle.stack_text.specs.{Trees.{Node}, TreeText.{items_text, spaced_text, tree_text}, Views.TreeView.{nodes}};

use crate::printer::separate;
use crate::{Memory, Named};
use stack_heap::{BoundedHeap, Heap};

/// What is printed as a tree.
pub trait Print {
    /// The tree that it is printed as.
    ghost tree: { Self → Node };

    /// Appends the tree's text.
    fn print<H: Heap>(&self, heap: H, out: &mut Vec<u8>) -> Result<(), Memory>
        ensures { OnOkUnless (H.may_refuse heap) result (out.new.items ≡ out.old.items ++ tree_text (tree self.now)) };
}

/// Appends the items with one space between.
pub fn print_items<T: Print, H: Heap>(heap: H, out: &mut Vec<u8>, items: &[T]) -> Result<(), Memory>
    ensures { OnOkUnless (H.may_refuse heap) result
        (out.new.items ≡ out.old.items ++ items_text (nodes (map T.tree items.now))) }
{
    for (index, item) in items.iter().enumerate() {
        separate(heap, out, index)?;
        item.print(heap, out)?;
    }
    Ok(())
}

/// Appends the items with a space before each.
pub fn spaced_items<T: Print, H: Heap>(
    heap: H,
    out: &mut Vec<u8>,
    items: &[T],
) -> Result<(), Memory>
    ensures { OnOkUnless (H.may_refuse heap) result
        (out.new.items ≡ out.old.items ++ spaced_text (nodes (map T.tree items.now))) }
{
    for item in items {
        heap.push(out, b' ')?;
        item.print(heap, out)?;
    }
    Ok(())
}

/// Appends a name.
pub fn print_name<H: BoundedHeap>(heap: H, out: &mut Vec<u8>, name: &Named) -> Result<(), Memory>
    requires { FitsBound (H.bound heap) (length (out.old.items ++ name.now.name)) }
    ensures { OnOkUnless (H.may_refuse heap) result (out.new.items ≡ out.old.items ++ name.now.name) }
{
    heap.extend_from_slice(out, name.name.bytes())?;
    Ok(())
}

/// Appends a space and a name.
pub fn spaced_name<H: BoundedHeap>(heap: H, out: &mut Vec<u8>, name: &Named) -> Result<(), Memory>
    requires { FitsBound (H.bound heap) (length (out.old.items ++ 32 ∷ name.now.name)) }
    ensures { OnOkUnless (H.may_refuse heap) result (out.new.items ≡ out.old.items ++ 32 ∷ name.now.name) }
{
    heap.push(out, b' ')?;
    print_name(heap, out, name)
}

impl Print for Named {
    ghost use Rattle.stack_text.specs.Grammar.Printed.{name_tree};

    ghost tree = { name_tree };

    fn print<H: Heap>(&self, heap: H, out: &mut Vec<u8>) -> Result<(), Memory> {
        print_name(heap, out, self)
    }
}

//! Vectors of one item.

ghost use Rattle.std.specs.Prelude.{◌≡◌, replicate};
ghost use Rattle.stack_heap.specs.Heaps.{IfOkUnless, IsSmallItem};

use stack_heap::Heap;
use stack_text::Memory;

/// So many of one item.
pub(crate) fn filled<H: Heap, T: Copy>(heap: H, item: T, count: usize) -> Result<Vec<T>, Memory>
    requires { IsSmallItem T.row }
    ensures { IfOkUnless (H.may_refuse heap) result (λ filled. filled.items ≡ replicate count item) }
{
    let mut filled = Vec::new(heap.handle());
    for _ in 0..count {
        heap.push(&mut filled, item)?;
    }
    Ok(filled)
}

//! Lines of pieces.

ghost use Rattle.std.specs.{Prelude.{◌≡◌}, List.{flat_map}};
ghost use Rattle.stack_heap.specs.Heaps.{IfOkUnless};
ghost use Rattle.stack_text.specs.Lines.{line};

use stack_heap::Heap;
use stack_text::{Memory, push_each};

/// The line of these pieces, one after another, such as `size control 40`.
pub(crate) fn line_of<H: Heap>(heap: H, pieces: &[&[u8]]) -> Result<Vec<u8>, Memory>
    ensures { IfOkUnless (H.may_refuse heap) result
        (λ text. text.items ≡ line (flat_map (λ piece. piece.now) pieces.now)) }
{
    let mut text = Vec::new(heap.handle());
    push_each(heap, &mut text, pieces)?;
    heap.push(&mut text, b'\n')?;
    Ok(text)
}

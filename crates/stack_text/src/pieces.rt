//! Pieces of text that stand side by side.

ghost use Rattle.std.specs.{Prelude.{◌≡◌, ◌++◌, length}, List.{flat_map}};
ghost use Rattle.stack_heap.specs.Heaps.{FitsBound, OnOkUnless};

use crate::memory::Memory;
use stack_heap::BoundedHeap;

/// Appends pieces, one after another, such as `&[b"slot ", name, b"\n"]`.
///
/// One call has one exit where memory runs out, and a call for each piece has one for each.
pub fn push_each<H: BoundedHeap>(
    heap: H,
    text: &mut Vec<u8>,
    pieces: &[&[u8]],
) -> Result<(), Memory>
    requires { FitsBound (H.bound heap) (length (text.old.items ++ flat_map (λ piece. piece.now) pieces.now)) }
    ensures { OnOkUnless (H.may_refuse heap) result
        (text.new.items ≡ text.old.items ++ flat_map (λ piece. piece.now) pieces.now) }
{
    for piece in pieces {
        heap.extend_from_slice(text, piece)?;
    }
    Ok(())
}

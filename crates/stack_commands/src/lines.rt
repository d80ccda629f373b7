//! Lines of replies.
ghost use Rattle.std.specs.{Prelude.{◌≡◌, ◌++◌}, Fmt.{decimal}};
ghost use Rattle.stack_heap.specs.Heaps.{OnOkUnless};
ghost use Rattle.stack_text.specs.Lines.{line};

use fm_show::push_number;
use stack_heap::Heap;
use stack_text::Memory;

/// Appends the line of a number after these words.
pub fn push_line<H: Heap>(
    heap: H,
    text: &mut Vec<u8>,
    words: &[u8],
    number: u64,
) -> Result<(), Memory>
    ensures { OnOkUnless (H.may_refuse heap) result
        (text.new.items ≡ text.old.items ++ line (words.now ++ decimal number)) }
{
    heap.extend_from_slice(text, words)?;
    push_number(heap, text, number)?;
    heap.push(text, b'\n')?;
    Ok(())
}

//! Texts of a session.

ghost use Rattle.std.specs.Prelude.{◌≡◌};
ghost use Rattle.stack_heap.specs.Heaps.{IfOkUnless};
ghost use Rattle.display_maps.specs.Report.{lines_of_reading};
ghost use Rattle.level_debuggers.specs.Texts.{mark_text, no_mark};

use display_maps::{Reading, ReadingAt, push_reading, report_at};
use fm_image::Image;
use stack_heap::Heap;
use stack_text::Memory;

/// The line where nothing is known of the source.
pub(crate) fn no_mark<H: Heap>(heap: H) -> Result<Vec<u8>, Memory>
    ensures { IfOkUnless (H.may_refuse heap) result (λ text. text.items ≡ no_mark) }
{
    Ok(heap.copied(b"no mark\n")?)
}

/// What is read of an image, as lines.
pub(crate) fn reading_text<H: Heap>(
    heap: H,
    image: &Image,
    reading: &Reading,
) -> Result<Vec<u8>, Memory>
    ensures { IfOkUnless (H.may_refuse heap) result (λ text. text.items ≡ lines_of_reading image.now reading.now) }
{
    let mut text = Vec::new(heap.handle());
    push_reading(heap, &mut text, image, reading)?;
    Ok(text)
}

/// What is read at a mark, as lines; or that there is none.
pub(crate) fn mark_text<H: Heap>(heap: H, read: Option<ReadingAt>) -> Result<Vec<u8>, Memory>
    ensures { IfOkUnless (H.may_refuse heap) result (λ text. text.items ≡ mark_text read) }
{
    match read {
        Some(read) => report_at(heap, &read),
        None => no_mark(heap),
    }
}

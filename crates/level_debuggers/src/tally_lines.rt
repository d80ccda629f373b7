//! Tallies as lines.

ghost use Rattle.std.specs.Prelude.{◌≡◌, ◌++◌};
ghost use Rattle.stack_heap.specs.Heaps.{OnOkUnless};
ghost use Rattle.level_debuggers.specs.Transcripts.{last_said, places_said, tally_said};

use crate::watch::{Rule, Tally};
use fm_show::{push_counted, push_number};
use stack_heap::Heap;
use stack_text::Memory;

/// Appends places, each behind a space.
fn push_places<H: Heap>(heap: H, text: &mut Vec<u8>, places: &[u32]) -> Result<(), Memory>
    ensures { OnOkUnless (H.may_refuse heap) result (text.new.items ≡ text.old.items ++ places_said places.now) }
{
    for place in places {
        heap.extend_from_slice(text, b" ")?;
        push_number(heap, text, *place)?;
    }
    Ok(())
}

/// Appends the line of the latest places that a tally has.
fn push_last<H: Heap>(heap: H, text: &mut Vec<u8>, tally: &Tally) -> Result<(), Memory>
    ensures { OnOkUnless (H.may_refuse heap) result (text.new.items ≡ text.old.items ++ last_said tally.now) }
{
    let earlier = 8 - tally.count.min(8) as usize;
    heap.extend_from_slice(text, b"last")?;
    push_places(heap, text, &tally.last[earlier..])?;
    heap.extend_from_slice(text, b"\n")?;
    Ok(())
}

/// Appends the line of a tally that was kept by a rule.
pub(crate) fn push_tally<H: Heap>(
    heap: H,
    text: &mut Vec<u8>,
    rule: Rule,
    tally: &Tally,
) -> Result<(), Memory>
    ensures { OnOkUnless (H.may_refuse heap) result (text.new.items ≡ text.old.items ++ tally_said rule tally.now) }
{
    let (count, peak) = (tally.count, tally.peak);
    match rule {
        Rule::Count => push_counted(heap, text, b"count ", count, b"\n"),
        Rule::Cost => push_counted(heap, text, b"cost ", count, b"\n"),
        Rule::Peak => push_counted(heap, text, b"peak ", u64::from(peak), b"\n"),
        Rule::Last => push_last(heap, text, tally),
    }
}

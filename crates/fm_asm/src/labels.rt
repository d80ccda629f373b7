//! The table of labels: how many words stand before the line of each.

ghost use Rattle.std.specs.{Prelude.{◌≡◌, ℕ, List, [], map, option_map, is_some, OnOk}, Str.{bytes_eq}};
ghost use Rattle.stack_heap.specs.Heaps.{IfOkUnless, OnOkUnless};
ghost use Rattle.stack_text.specs.{Breaches.{when, Notes}, Options.{first_or}};
ghost use Rattle.name_tables.specs.Entries.{look_up};
ghost use Rattle.fm_asm.specs.{Lines.{line_of}, Labels.{is_labelled, repeated, repeats, Knows}};

use crate::line::Line;
use name_tables::{NameKeys, NameTable};
use stack_heap::Heap;
use stack_text::{Breach, Memory, note_if};

/// Enters a label, or notes that it was entered before.
fn declare<'l, H: Heap>(
    heap: H,
    best: &mut Option<Breach>,
    table: &mut NameTable<'l, u32>,
    name: &'l [u8],
    offset: u32,
    place: u32,
) -> Result<(), Memory>
    ensures entered { OnOkUnless (H.may_refuse heap) result ((other : List ℕ)
        → look_up table.new other ≡ first_or (look_up table.old other) (bytes_eq other name.now) offset) }
    ensures noted { OnOk result (Notes best.old (when (is_some (look_up table.old name.now)) place 4) best.new) }
{
    let is_known = table.enter(heap, name, offset)?;
    note_if(best, is_known, place, 4);
    Ok(())
}

/// Enters the label of a line, if it has one, or notes that it was entered before.
fn declare_label<'l, H: Heap>(
    heap: H,
    best: &mut Option<Breach>,
    table: &mut NameTable<'l, u32>,
    label: Option<&'l [u8]>,
    offset: u32,
    place: u32,
) -> Result<(), Memory>
    ensures entered { let own = option_map (λ name. name.now) label.entry in
        OnOkUnless (H.may_refuse heap) result ((other : List ℕ)
        → look_up table.new other ≡ first_or (look_up table.old other) (is_labelled other own) offset) }
    ensures noted { let own = option_map (λ name. name.now) label.entry in
        OnOk result (Notes best.old (repeated (look_up table.old) place own) best.new) }
{
    match label {
        None => Ok(()),
        Some(name) => declare(heap, best, table, name, offset, place),
    }
}

/// The key of the table: all labels are taken in.
fn keys_of(lines: &[Line<'_, '_>]) -> NameKeys {
    let mut keys = NameKeys::new();
    for line in lines {
        if let Some(name) = line.said.label {
            keys.take_in(name);
        }
    }
    keys
}

/// The labels of lines; each that an earlier line has is noted.
pub(crate) fn labels_of<'l, H: Heap>(
    heap: H,
    best: &mut Option<Breach>,
    lines: &[Line<'l, '_>],
) -> Result<NameTable<'l, u32>, Memory>
    ensures known { IfOkUnless (H.may_refuse heap) result (λ table. Knows table (map line_of lines.now)) }
    ensures noted { OnOk result (Notes best.old (repeats [] (map line_of lines.now)) best.new) }
{
    let mut table = NameTable::keyed(heap.handle(), keys_of(lines));
    for line in lines {
        declare_label(
            heap,
            best,
            &mut table,
            line.said.label,
            line.offset,
            line.place,
        )?;
    }
    Ok(table)
}

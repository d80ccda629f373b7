//! All words of a placed system.

ghost use Rattle.std.specs.Prelude.{◌≡◌, ◌+◌, ◌-◌, ◌++◌, ◌<◌, ◌≤◌, ◌^◌, length, replicate, reverse, take};
ghost use Rattle.stack_heap.specs.Heaps.{IfOkUnless, OnOkUnless};
ghost use Rattle.stack_text.specs.SharedLimits.{most_stack};
ghost use Rattle.piton_semantics.specs.{Fits.{system_in}, State.{program_of}, Addresses.{numbers}, Placed.{end_of, final_pc_of, first_frame, first_frame_at}};
ghost use Rattle.piton_semantics.specs.Placed.{first_top, address_of_place, placed_registers, placed, addresses_of, code_of};
ghost use Rattle.piton_linker.specs.{Tables.{areas_words, table_of}, Layouts.{layout_of, trimmed}};

use crate::data::{append_areas, append_reversed, append_words};
use crate::placement::Layout;
use crate::table::{Table, at_place};
use fm_code::word::HALT_WORD;
use piton_check::Checked;
use piton_words::Word;
use stack_heap::Heap;
use stack_text::Memory;

/// All words of a placed system, behind those of its code.
pub(crate) fn memory<H: Heap>(
    heap: H,
    code: Vec<u32>,
    table: &Table,
    checked: &Checked,
    final_pc: u32,
) -> Result<Vec<u32>, Memory>
    requires code { code.items ≡ code_of (system_in checked.now) }
    requires table { table.now ≡ table_of (system_in checked.now) }
    requires fits { end_of (system_in checked.now) + 2 < 2 ^ 32 }
    requires final_pc { final_pc ≡ final_pc_of (system_in checked.now) }
    ensures { IfOkUnless (H.may_refuse heap) result (λ words. words.items ≡ (placed (system_in checked.now)).words) }
{
    let mut words = code;
    heap.push(&mut words, HALT_WORD)?;
    append_data(heap, &mut words, table, checked)?;
    append_zeros(heap, &mut words, ctrl_gap(checked))?;
    append_frame(heap, &mut words, table, checked, final_pc)?;
    append_zeros(heap, &mut words, temp_gap(checked))?;
    append_stack(heap, &mut words, table, checked)?;
    Ok(words)
}

/// The words of the areas.
fn append_data<H: Heap>(
    heap: H,
    words: &mut Vec<u32>,
    table: &Table,
    checked: &Checked,
) -> Result<(), Memory>
    requires table { table.now ≡ table_of (system_in checked.now) }
    requires fits { end_of (system_in checked.now) + 2 < 2 ^ 32 }
    ensures { OnOkUnless (H.may_refuse heap) result (words.new.items
        ≡ words.old.items ++ areas_words (system_in checked.now) (system_in checked.now).areas) }
{
    let resolved = checked.resolved();
    append_areas(heap, words, table, resolved, resolved.areas.as_slice())?;
    Ok(())
}

/// The words of the temporary stack.
fn append_stack<H: Heap>(
    heap: H,
    words: &mut Vec<u32>,
    table: &Table,
    checked: &Checked,
) -> Result<(), Memory>
    requires table { table.now ≡ table_of (system_in checked.now) }
    requires fits { end_of (system_in checked.now) + 2 < 2 ^ 32 }
    ensures { OnOkUnless (H.may_refuse heap) result (words.new.items
        ≡ words.old.items ++ numbers (addresses_of (system_in checked.now)) (reverse (system_in checked.now).stack)) }
{
    let resolved = checked.resolved();
    append_reversed(heap, words, table, resolved, resolved.stack.as_slice())?;
    Ok(())
}

/// The words of main's frame.
fn append_frame<H: Heap>(
    heap: H,
    words: &mut Vec<u32>,
    table: &Table,
    checked: &Checked,
    final_pc: u32,
) -> Result<(), Memory>
    requires table { table.now ≡ table_of (system_in checked.now) }
    requires fits { end_of (system_in checked.now) + 2 < 2 ^ 32 }
    requires final_pc { final_pc ≡ final_pc_of (system_in checked.now) }
    ensures { OnOkUnless (H.may_refuse heap) result
        (words.new.items ≡ words.old.items ++ first_frame (system_in checked.now)) }
{
    append_words(
        heap,
        words,
        table,
        checked.resolved(),
        main_temporaries(checked),
    )?;
    heap.push(words, 0)?;
    heap.push(words, final_pc)?;
    Ok(())
}

/// The first values of main's locals.
fn main_temporaries(checked: &Checked) -> &[Word]
    ensures { result.now ≡ (program_of (system_in checked.now) (system_in checked.now).main).temporaries }
{
    let resolved = checked.resolved();
    match resolved.programs.get(resolved.main as usize) {
        Some(main) => main.temporaries.as_slice(),
        None => &[],
    }
}

/// How many words of the control stack lie below main's frame.
fn ctrl_gap(checked: &Checked) -> u32
    ensures gap { result ≡ (system_in checked.now).ctrl - 2 - length
        (program_of (system_in checked.now) (system_in checked.now).main).temporaries }
    ensures few { result ≤ most_stack }
{
    let used = 2 + main_temporaries(checked).len();
    (checked.resolved().ctrl as usize).saturating_sub(used) as u32
}

/// How many words of the temporary stack are free.
fn temp_gap(checked: &Checked) -> u32
    ensures gap { result ≡ (system_in checked.now).temp - length (system_in checked.now).stack }
    ensures few { result ≤ most_stack }
{
    let resolved = checked.resolved();
    (resolved.temp as usize).saturating_sub(resolved.stack.len()) as u32
}

/// So many zeros.
fn append_zeros<H: Heap>(heap: H, words: &mut Vec<u32>, count: u32) -> Result<(), Memory>
    requires { count ≤ most_stack }
    ensures { OnOkUnless (H.may_refuse heap) result (words.new.items ≡ words.old.items ++ replicate count 0) }
{
    let zeros = heap.zeros(count as usize)?;
    heap.extend_from_slice(words, zeros.as_slice())?;
    Ok(())
}

/// The registers of a placed system.
pub(crate) fn registers<H: Heap>(
    heap: H,
    table: &Table,
    checked: &Checked,
    parts: Layout,
) -> Result<Vec<u32>, Memory>
    requires table { table.now ≡ table_of (system_in checked.now) }
    requires fits { end_of (system_in checked.now) + 2 < 2 ^ 32 }
    requires parts { parts ≡ layout_of (system_in checked.now) }
    ensures { IfOkUnless (H.may_refuse heap) result
        (λ registers. registers.items ≡ placed_registers (system_in checked.now)) }
{
    let frame = first_frame_at(checked, parts);
    let top = first_top(checked, parts);
    let entry = main_at(table, checked);
    let registers = [frame, frame, top, 0, 0, 0, 0, 0, 0, 0, 0, 0, 0, 0, 0, entry];
    Ok(heap.copied(&registers)?)
}

/// The first address of main's frame.
fn first_frame_at(checked: &Checked, parts: Layout) -> u32
    requires fits { end_of (system_in checked.now) + 2 < 2 ^ 32 }
    requires parts { parts ≡ layout_of (system_in checked.now) }
    ensures { result ≡ first_frame_at (system_in checked.now) }
{
    let used = 2 + main_temporaries(checked).len() as u64;
    parts.temp_start.saturating_sub(used) as u32
}

/// The address of the temporary stack's top.
fn first_top(checked: &Checked, parts: Layout) -> u32
    requires fits { end_of (system_in checked.now) + 2 < 2 ^ 32 }
    requires parts { parts ≡ layout_of (system_in checked.now) }
    ensures { result ≡ first_top (system_in checked.now) }
{
    let held = checked.resolved().stack.len() as u64;
    parts.end.saturating_sub(held) as u32
}

/// The address of main's first place.
#[tactic(auto, using(crate::proofs::EmissionLaws::main_begins))]
fn main_at(table: &Table, checked: &Checked) -> u32
    requires table { table.now ≡ table_of (system_in checked.now) }
    ensures { result ≡ address_of_place (system_in checked.now) (system_in checked.now).main 0 }
{
    let resolved = checked.resolved();
    at_place(table, resolved, resolved.main, 0)
}

/// Takes off the zeros after the last word that isn't zero.
pub(crate) fn trim(words: &mut Vec<u32>)
    ensures { words.new.items ≡ trimmed words.old.items }
{
    let used = used(words.as_slice());
    words.truncate(used);
}

/// How many words there are up to the last that isn't zero.
fn used(words: &[u32]) -> usize
    ensures { take result words.now ≡ trimmed words.now }
{
    let mut used = 0;
    for (at, word) in words.iter().enumerate() {
        if *word != 0 {
            used = at + 1;
        }
    }
    used
}

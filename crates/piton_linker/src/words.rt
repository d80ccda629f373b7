//! The words of placed code.

ghost use Rattle.std.specs.Prelude.{◌≡◌, ◌+◌, ◌<◌, ◌^◌, ◌++◌, IfOk, OnOk, length, map};
ghost use Rattle.stack_heap.specs.Heaps.{IfOkUnless, OnOkUnless};
ghost use Rattle.piton_semantics.specs.{Fits.{IsPlace, system_in}, State.{program_of}, Placed.{entry_of, address_of_place, end_of, addresses_of, program_size}};
ghost use Rattle.piton_semantics.specs.Templates.{prelude_words, program_words, programs_words, pieces_at};
ghost use Rattle.piton_linker.specs.{Tables.{starts, row_at, place_rows, words_at}, Drafts.{drafted, IsDraft, IsRow}};

use crate::draft::Draft;
use piton_check::{Checked, Piece};
use piton_code_jump::prelude;
use piton_semantics::{Group, group_of, instruction};
use stack_heap::{Heap, MODEST_COUNT};
use stack_text::Memory;

/// What a pass over the programs makes: their words, and the addresses of programs and places.
#[derive(Drop)]
pub(crate) struct Pass {
    pub(crate) draft: Draft,
    pub(crate) entries: Vec<u32>,
    pub(crate) places: Vec<Vec<u32>>,
}

/// Appends the words of a program's prelude.
fn append_prelude<H: Heap>(
    heap: H,
    draft: &mut Draft,
    checked: &Checked,
    program: u32,
) -> Result<(), Memory>
    requires draft { IsDraft (system_in checked.now) draft.old }
    requires fits { end_of (system_in checked.now) + 2 < 2 ^ 32 }
    requires there { program < length (system_in checked.now).programs }
    requires at { (system_in checked.now).base + length draft.old.words ≡ entry_of (system_in checked.now) program }
    ensures draft { OnOkUnless (H.may_refuse heap) result (IsDraft (system_in checked.now) draft.new) }
    ensures words { OnOk result (drafted (system_in checked.now) draft.new
        ≡ drafted (system_in checked.now) draft.old ++ prelude_words (addresses_of (system_in checked.now)) program
        (program_of (system_in checked.now) program)) }
{
    let pieces = prelude(heap, checked, program)?;
    draft.append(heap, checked.resolved(), program, &[], pieces.as_slice())?;
    Ok(())
}

/// Appends the pieces of the instruction at a place.
fn emit<H: Heap>(
    heap: H,
    pieces: &mut Vec<Piece>,
    checked: &Checked,
    program: u32,
    place: u32,
) -> Result<(), Memory>
    ensures { OnOkUnless (H.may_refuse heap) result
        (pieces.new.items ≡ pieces.old.items ++ pieces_at (system_in checked.now) program place) }
{
    match instruction(checked.resolved(), program, place) {
        Some(instr) => match group_of(instr.op) {
            Group::Move => piton_code_move::append(heap, pieces, checked, program, place),
            Group::Jump => piton_code_jump::append(heap, pieces, checked, program, place),
            Group::Word => piton_code_arith::append(heap, pieces, checked, program, place),
        },
        None => Ok(()),
    }
}

/// Appends the words of the instruction at a place of a program, whose first places have these addresses. What `pieces` has
/// doesn't matter: it lends its memory to the pieces of each instruction.
fn append_place<H: Heap>(
    heap: H,
    pieces: &mut Vec<Piece>,
    draft: &mut Draft,
    checked: &Checked,
    program: u32,
    place: u32,
    row: &[u32],
) -> Result<(), Memory>
    requires draft { IsDraft (system_in checked.now) draft.old }
    requires fits { end_of (system_in checked.now) + 2 < 2 ^ 32 }
    requires row { IsRow (system_in checked.now) program row.now }
    requires there { IsPlace (system_in checked.now) program place }
    requires at { (system_in checked.now).base + length draft.old.words
        ≡ address_of_place (system_in checked.now) program place }
    ensures draft { OnOkUnless (H.may_refuse heap) result (IsDraft (system_in checked.now) draft.new) }
    ensures words { OnOk result (drafted (system_in checked.now) draft.new
        ≡ drafted (system_in checked.now) draft.old ++ words_at (system_in checked.now) program place) }
{
    pieces.clear();
    emit(heap, pieces, checked, program, place)?;
    draft.append(heap, checked.resolved(), program, row, pieces.as_slice())?;
    Ok(())
}

/// How many places a program has.
fn place_count(checked: &Checked, program: u32) -> u32
    ensures { result ≡ length (program_of (system_in checked.now) program).instructions }
{
    match checked.resolved().programs.get(program as usize) {
        Some(found) => found.instrs.len() as u32,
        None => 0,
    }
}

/// How many programs there are.
fn program_count(checked: &Checked) -> u32
    requires fits { end_of (system_in checked.now) + 2 < 2 ^ 32 }
    ensures { result ≡ length (system_in checked.now).programs }
{
    checked.resolved().programs.len() as u32
}

/// Appends the words of a program, and tells the addresses of its places.
fn append_program<H: Heap>(
    heap: H,
    draft: &mut Draft,
    checked: &Checked,
    program: u32,
) -> Result<Vec<u32>, Memory>
    requires draft { IsDraft (system_in checked.now) draft.old }
    requires fits { end_of (system_in checked.now) + 2 < 2 ^ 32 }
    requires there { program < length (system_in checked.now).programs }
    requires at { (system_in checked.now).base + length draft.old.words ≡ entry_of (system_in checked.now) program }
    ensures draft { OnOkUnless (H.may_refuse heap) result (IsDraft (system_in checked.now) draft.new) }
    ensures words { OnOk result (drafted (system_in checked.now) draft.new
        ≡ drafted (system_in checked.now) draft.old ++ program_words (addresses_of (system_in checked.now)) program
        (program_of (system_in checked.now) program)) }
    ensures places { IfOk result (λ row. row.items
        ≡ row_at (entry_of (system_in checked.now) program) (program_of (system_in checked.now) program)) }
{
    append_prelude(heap, draft, checked, program)?;
    let count = place_count(checked, program);
    let mut row = heap.with_room(MODEST_COUNT.min(count as usize))?;
    let mut pieces = Vec::new(heap.handle());
    for place in 0..count {
        heap.push(&mut row, draft.next(checked.resolved()))?;
        append_place(
            heap,
            &mut pieces,
            draft,
            checked,
            program,
            place,
            row.as_slice(),
        )?;
    }
    Ok(row)
}

/// Goes once over all programs.
pub(crate) fn code<H: Heap>(heap: H, checked: &Checked) -> Result<Pass, Memory>
    requires fits { end_of (system_in checked.now) + 2 < 2 ^ 32 }
    ensures draft { IfOkUnless (H.may_refuse heap) result (λ pass. IsDraft (system_in checked.now) pass.draft) }
    ensures words { IfOk result (λ pass. drafted (system_in checked.now) pass.draft
        ≡ programs_words (addresses_of (system_in checked.now)) 0 (system_in checked.now).programs) }
    ensures entries { IfOk result (λ pass. pass.entries.items
        ≡ starts (system_in checked.now).base (map program_size (system_in checked.now).programs)) }
    ensures places { IfOk result (λ pass. map (λ row. row.items) pass.places.items
        ≡ place_rows (system_in checked.now).base (system_in checked.now).programs) }
{
    let mut draft = Draft::new(heap.handle());
    let mut entries = Vec::new(heap.handle());
    let mut places = Vec::new(heap.handle());
    let count = program_count(checked);
    for program in 0..count {
        heap.push(&mut entries, draft.next(checked.resolved()))?;
        heap.push(
            &mut places,
            append_program(heap, &mut draft, checked, program)?,
        )?;
    }
    Ok(Pass {
        draft,
        entries,
        places,
    })
}

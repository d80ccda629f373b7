//! The addresses of all places, programs and areas.

ghost use Rattle.std.specs.Prelude.{◌≡◌, ◌+◌, ◌<◌, ◌^◌, map, length, get_or, slice_get, sum_by};
ghost use Rattle.stack_heap.specs.Heaps.{IfOkUnless};
ghost use Rattle.piton_check.specs.Instruction.{program_view, system_view};
ghost use Rattle.piton_semantics.specs.{Fits.{IsPlace}, Placed.{program_size, programs_size, entry_of, address_of_place, address_of_area, end_of}};
ghost use Rattle.piton_semantics.specs.{Placed.{addresses_of}, Templates.{word_of}};
ghost use Rattle.piton_linker.specs.{Layouts.{layout_of}, Tables.{starts, place_rows, table_of, place_in, PieceExists}};

use crate::placement::Layout;
use crate::sizes::{TakesWords, prelude_size, program_size};
use piton_check::{Piece, Resolved, ResolvedProgram};
use stack_heap::Heap;
use stack_text::Memory;
use std::marker::Model;

/// The addresses of a placed system. A contract sees them as lists.
#[derive(Drop)]
pub(crate) struct Table {
    pub(crate) entries: Vec<u32>,
    pub(crate) places: Vec<Vec<u32>>,
    pub(crate) areas: Vec<u32>,
    pub(crate) base: u32,
    pub(crate) ctrl_start: u32,
    pub(crate) temp_start: u32,
    pub(crate) end: u32,
}

impl Model for Table {
    ghost use Rattle.std.specs.Prelude.{map};
    ghost use Rattle.piton_linker.specs.Tables.{TableOf};

    ghost Value = { TableOf };

    ghost view = { λ t. record { entries = t.entries.items; places = map (λ row. row.items) t.places.items; areas = t.areas.items; base = t.base; ctrl_start = t.ctrl_start; temp_start = t.temp_start; end = t.end } };
}

/// The addresses of a system that is placed so.
pub(crate) fn tabulated<H: Heap>(
    heap: H,
    checked: &Resolved,
    layout: Layout,
) -> Result<Table, Memory>
    requires fits { end_of (system_view checked.now) < 2 ^ 32 }
    requires layout { layout ≡ layout_of (system_view checked.now) }
    ensures { IfOkUnless (H.may_refuse heap) result (λ table. table ≡ table_of (system_view checked.now)) }
{
    let entries = starts(heap, u64::from(checked.base), checked.programs.as_slice())?;
    let places = places(heap, checked.base, checked.programs.as_slice())?;
    completed(heap, checked, layout, entries, places)
}

/// The addresses of a system that is placed so, where those of programs and places are known.
pub(crate) fn completed<H: Heap>(
    heap: H,
    checked: &Resolved,
    layout: Layout,
    entries: Vec<u32>,
    places: Vec<Vec<u32>>,
) -> Result<Table, Memory>
    requires fits { end_of (system_view checked.now) < 2 ^ 32 }
    requires layout { layout ≡ layout_of (system_view checked.now) }
    requires entries { entries.items
        ≡ starts (system_view checked.now).base (map program_size (system_view checked.now).programs) }
    requires places { map (λ row. row.items) places.items
        ≡ place_rows (system_view checked.now).base (system_view checked.now).programs }
    ensures { IfOkUnless (H.may_refuse heap) result (λ table. table ≡ table_of (system_view checked.now)) }
{
    let areas = starts(heap, layout.areas_start, checked.areas.as_slice())?;
    Ok(Table {
        entries,
        places,
        areas,
        base: checked.base,
        ctrl_start: layout.ctrl_start as u32,
        temp_start: layout.temp_start as u32,
        end: layout.end as u32,
    })
}

/// The address of each of these parts, the first of which stands at an address.
fn starts<T: TakesWords, H: Heap>(heap: H, first: u64, parts: &[T]) -> Result<Vec<u32>, Memory>
    requires { first + sum_by T.words parts.now < 2 ^ 32 }
    ensures { IfOkUnless (H.may_refuse heap) result (λ made. made.items ≡ starts first (map T.words parts.now)) }
{
    let mut made = Vec::new(heap.handle());
    let mut at = first;
    for part in parts {
        heap.push(&mut made, at as u32)?;
        at += part.size();
    }
    Ok(made)
}

/// The addresses of the places of these programs, the first of which stands at an address.
fn places<H: Heap>(
    heap: H,
    base: u32,
    programs: &[ResolvedProgram],
) -> Result<Vec<Vec<u32>>, Memory>
    requires { base + programs_size (map program_view programs.now) < 2 ^ 32 }
    ensures { IfOkUnless (H.may_refuse heap) result (λ made. map (λ row. row.items) made.items
        ≡ place_rows base (map program_view programs.now)) }
{
    let mut made = Vec::new(heap.handle());
    let mut at = u64::from(base);
    for program in programs {
        let first = at + prelude_size(program);
        heap.push(&mut made, starts(heap, first, program.instrs.as_slice())?)?;
        at += program_size(program);
    }
    Ok(made)
}

/// The address of a program, of a place of a program, and of an area, if there is one.
fn entry(table: &Table, program: u32) -> Option<u32>
    ensures { result ≡ slice_get table.now.entries program }
{
    table.entries.get(program as usize).copied()
}

fn place(table: &Table, program: u32, place: u32) -> Option<u32>
    ensures { result ≡ place_in table.now.places program place }
{
    table
        .places
        .get(program as usize)?
        .get(place as usize)
        .copied()
}

fn area(table: &Table, area: u32) -> Option<u32>
    ensures { result ≡ slice_get table.now.areas area }
{
    table.areas.get(area as usize).copied()
}

/// The word of a piece that stands at an address.
pub(crate) fn word(table: &Table, _checked: &Resolved, at: u32, piece: Piece) -> u32
    requires table { table.now ≡ table_of (system_view _checked.now) }
    requires fits { end_of (system_view _checked.now) < 2 ^ 32 }
    requires named { PieceExists (system_view _checked.now) piece }
    requires room { at + 2 < 2 ^ 32 }
    ensures { result ≡ word_of (addresses_of (system_view _checked.now)) at piece }
{
    match piece {
        Piece::Code(word) => word,
        Piece::Number(number) => number,
        Piece::Place { program, place } => at_place(table, _checked, program, place),
        Piece::Entry { program } => at_entry(table, _checked, program),
        Piece::Area { area, offset } => at_area(table, _checked, area, offset),
        Piece::TempEnd { minus } => table.end.wrapping_sub(minus),
        Piece::TempStart => table.temp_start,
        Piece::CtrlStart => table.ctrl_start,
        Piece::Table => at + 2,
    }
}

/// The addresses of what there is.
#[tactic(auto, using(crate::proofs::LookupLaws::place_word))]
pub(crate) fn at_place(table: &Table, _checked: &Resolved, program: u32, to: u32) -> u32
    requires table { table.now ≡ table_of (system_view _checked.now) }
    requires there { IsPlace (system_view _checked.now) program to }
    ensures { result ≡ address_of_place (system_view _checked.now) program to }
{
    place(table, program, to).unwrap_or(0)
}

#[tactic(auto, using(crate::proofs::LookupLaws::entry_word))]
fn at_entry(table: &Table, _checked: &Resolved, program: u32) -> u32
    requires table { table.now ≡ table_of (system_view _checked.now) }
    requires there { program < length (system_view _checked.now).programs }
    ensures { result ≡ entry_of (system_view _checked.now) program }
{
    entry(table, program).unwrap_or(0)
}

#[tactic(auto, using(crate::proofs::LookupLaws::area_word, crate::proofs::LookupLaws::area_fits))]
fn at_area(table: &Table, _checked: &Resolved, to: u32, offset: u32) -> u32
    requires table { table.now ≡ table_of (system_view _checked.now) }
    requires fits { end_of (system_view _checked.now) < 2 ^ 32 }
    requires there { offset < get_or (map length (system_view _checked.now).areas) to 0 }
    ensures { result ≡ address_of_area (system_view _checked.now) to + offset }
{
    area(table, to).unwrap_or(0) + offset
}

//! Systems.

ghost use Rattle.std.specs.{Prelude.{◌≡◌, ◌+◌, not, map, IfOk, OnOk}, List.{flat_map}, Option.{option_map}};
ghost use Rattle.stack_heap.specs.Heaps.{IfOkUnless};
ghost use Rattle.stack_text.specs.Breaches.{when, Notes};
ghost use Rattle.piton_check.specs.{Resolved.{resolved, resolved_area, resolved_number}, Tables.{IsSmallSystem, KnowsSystem}, Violations.{area_breaches}};
ghost use Rattle.piton_check.specs.Violations.{first_frame, is_within, main_breaches, main_of, name_breaches, part_breaches, size_breaches, violations};

use crate::names::{Names, declare_each, keys_of};
use crate::program::programs;
use crate::resolved::Resolved;
use crate::word::{natural, program_position, words};
use name_tables::NameTable;
use piton_syntax::{Area, Number, Program, System};
use piton_words::Word;
use stack_heap::Heap;
use stack_text::{Breach, MOST_STACK, Memory, note_if};

/// The most words of a stack.
const MAX_STACK: u64 = MOST_STACK as u64;

/// The greatest base.
const MAX_BASE: u64 = 1 << 31;

/// The number, or 0 where 32 bits don't hold it.
fn number(number: Number) -> u32
    ensures { result ≡ resolved_number number.number }
{
    natural(number.number).unwrap_or(0)
}

/// Whether the number lies between two others.
fn is_within(low: u64, high: u64, number: i128) -> bool
    ensures { result ≡ is_within low high number }
{
    i128::from(low) <= number && number <= i128::from(high)
}

/// Notes a number that doesn't lie between two others.
fn check_size(best: &mut Option<Breach>, low: u64, high: u64, number: Number)
    ensures { Notes best.old (when (not (is_within low high number.number)) number.place 14) best.new }
{
    note_if(best, !is_within(low, high, number.number), number.place, 14);
}

/// The program that is run.
fn main_program<'a>(names: &Names<'a>) -> Option<&'a Program>
    requires { KnowsSystem names.now }
    ensures { option_map (λ program. program.now) result ≡ main_of names.now.system.now }
{
    let system = names.system;
    let main = program_position(names, &system.main.name)?;
    system.programs.get(main as usize)
}

/// Whether there is a program to run, without formals.
fn check_main(best: &mut Option<Breach>, names: &Names)
    requires { KnowsSystem names.now }
    ensures { Notes best.old (main_breaches names.now.system.now (main_of names.now.system.now)) best.new }
{
    match main_program(names) {
        None => {
            let system = names.system;
            note_if(best, true, system.main.place, 3);
        }
        Some(main) => note_if(best, !main.formals.is_empty(), main.formals_place, 4),
    }
}

/// The words that the first frame takes.
fn first_frame(names: &Names) -> u64
    requires known { KnowsSystem names.now }
    requires small { IsSmallSystem names.now.system.now }
    ensures { result ≡ first_frame (main_of names.now.system.now) }
{
    match main_program(names) {
        None => 1,
        Some(main) => 2 + main.temporaries.len() as u64,
    }
}

/// Whether the stacks and the base are of the right sizes.
fn check_sizes(best: &mut Option<Breach>, names: &Names)
    requires known { KnowsSystem names.now }
    requires small { IsSmallSystem names.now.system.now }
    ensures { Notes best.old (size_breaches names.now.system.now) best.new }
{
    let frame = first_frame(names);
    let system = names.system;
    let stack = system.stack.as_slice();
    let height = stack.len() as u64;
    check_size(best, frame, MAX_STACK, system.ctrl);
    check_size(best, height.max(1), MAX_STACK, system.temp);
    check_size(best, 0, MAX_BASE, system.base);
}

/// Areas, one after the other.
fn areas<H: Heap>(
    heap: H,
    best: &mut Option<Breach>,
    names: &Names,
    texts: &[Area],
) -> Result<Vec<Vec<Word>>, Memory>
    requires { KnowsSystem names.now }
    ensures value { let words = map (resolved_area names.now.system.now) texts.now in
        IfOkUnless (H.may_refuse heap) result (λ areas. map (λ area. area.items) areas.items ≡ words) }
    ensures noted { OnOk result (Notes best.old (flat_map (area_breaches names.now.system.now) texts.now) best.new) }
{
    let mut areas = Vec::new(heap.handle());
    for text in texts {
        heap.push(&mut areas, words(heap, best, names, &text.words)?)?;
    }
    Ok(areas)
}

/// The names of a system.
fn names<'a, H: Heap>(
    heap: H,
    best: &mut Option<Breach>,
    system: &'a System,
) -> Result<Names<'a>, Memory>
    requires { IsSmallSystem system.now }
    ensures of { IfOkUnless (H.may_refuse heap) result (λ names. names.system.now ≡ system.now) }
    ensures known { IfOk result KnowsSystem }
    ensures noted { OnOk result (Notes best.old (name_breaches system.now) best.new) }
{
    let mut areas = NameTable::keyed(heap.handle(), keys_of(system.areas.as_slice()));
    declare_each(heap, best, &mut areas, system.areas.as_slice(), 2)?;
    let mut programs = NameTable::keyed(heap.handle(), keys_of(system.programs.as_slice()));
    declare_each(heap, best, &mut programs, system.programs.as_slice(), 1)?;
    Ok(Names {
        system,
        areas,
        programs,
    })
}

/// A system with each name replaced by a position; all breaches are noted but those of names.
fn parts<'a, H: Heap>(
    heap: H,
    best: &mut Option<Breach>,
    names: &Names<'a>,
    system: &'a System,
) -> Result<Resolved, Memory>
    requires of { names.now.system.now ≡ system.now }
    requires known { KnowsSystem names.now }
    requires small { IsSmallSystem system.now }
    ensures value { IfOkUnless (H.may_refuse heap) result (λ made. made ≡ resolved system.now) }
    ensures noted { OnOk result (Notes best.old (part_breaches system.now) best.new) }
{
    check_main(best, names);
    check_sizes(best, names);
    let areas = areas(heap, best, names, &system.areas)?;
    let stack = words(heap, best, names, &system.stack)?;
    let programs = programs(heap, best, names, &system.programs)?;
    Ok(Resolved {
        main: program_position(names, &system.main.name).unwrap_or(0),
        ctrl: number(system.ctrl),
        temp: number(system.temp),
        base: number(system.base),
        areas,
        stack,
        programs,
    })
}

/// A system with each name replaced by a position; all breaches are noted.
pub(crate) fn resolve<H: Heap>(
    heap: H,
    best: &mut Option<Breach>,
    system: &System,
) -> Result<Resolved, Memory>
    requires { IsSmallSystem system.now }
    ensures value { IfOkUnless (H.may_refuse heap) result (λ made. made ≡ resolved system.now) }
    ensures noted { OnOk result (Notes best.old (violations system.now) best.new) }
{
    let names = names(heap, best, system)?;
    parts(heap, best, &names, system)
}

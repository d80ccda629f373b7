//! The system of a source.

ghost use Rattle.std.specs.Prelude.{◌≡◌, ◌^◌, ◌++◌, ◌∷◌, [], ◌≤◌, length, map, pos};
ghost use Rattle.stack_heap.specs.Heaps.{IfOkUnless, OnOkUnless};
ghost use Rattle.gypsy_check.specs.Accepted.{IsAccepted};
ghost use Rattle.gypsy_syntax.specs.{Resolved.{program_of}, Views.SourceView.{proc_of, source_of}};
ghost use Rattle.gypsy_space.specs.{Events.{AreNeeds, AreSmall}, Needs.{stack_sizes}, Nodes.{seen_proc, seen_program}};
ghost use Rattle.gypsy_predef.specs.Texts.{body_texts, number};
ghost use Rattle.gypsy_codegen.specs.{Acceptable.{total_words}, Text.{generated, procedures_with, program_texts}, Internal.Views.{AreWritable, area_text}};
ghost use Rattle.gypsy_codegen.specs.Internal.Views.{opening_text};

use crate::context::{NORMAL, procedure_at};
use crate::procedure::procedure;
use crate::words::{formal_words, local_words};
use gypsy_predef::bodies;
use gypsy_predef::instruction_text::{condition_area, number};
use gypsy_space::{Needs, Procedure, Program};
use gypsy_syntax::{Proc, Source};
use piton_syntax::{Area, Number, System, WordItem, WordText};
use stack_heap::Heap;
use stack_text::{Memory, Name};

/// The names of procedures.
fn procedure_names<H: Heap>(heap: H, names: &mut Vec<Name>, procs: &[Proc]) -> Result<(), Memory>
    ensures { OnOkUnless (H.may_refuse heap) result
        (names.new.items ≡ names.old.items ++ map (λ p. p.name.name) (map proc_of procs.now)) }
{
    for proc in procs {
        heap.push(names, proc.name.name.copied(heap)?)?;
    }
    Ok(())
}

/// The names of programs.
fn body_names<H: Heap>(
    heap: H,
    names: &mut Vec<Name>,
    bodies: &[piton_syntax::Program],
) -> Result<(), Memory>
    ensures { OnOkUnless (H.may_refuse heap) result
        (names.new.items ≡ names.old.items ++ map (λ b. b.name.name) bodies.now) }
{
    for body in bodies {
        heap.push(names, body.name.name.copied(heap)?)?;
    }
    Ok(())
}

/// The names of all programs: the procedures, and then the predefined ones.
fn program_names<H: Heap>(
    heap: H,
    source: &Source,
    bodies: &[piton_syntax::Program],
) -> Result<Vec<Name>, Memory>
    requires { bodies.now ≡ body_texts }
    ensures { IfOkUnless (H.may_refuse heap) result (λ names. names.items ≡ program_texts (source_of source.now)) }
{
    let mut names = Vec::new(heap.handle());
    procedure_names(heap, &mut names, source.procs.as_slice())?;
    body_names(heap, &mut names, bodies)?;
    Ok(names)
}

/// The programs of procedures.
fn procedures<H: Heap>(
    heap: H,
    program: &Program,
    needs: &Needs,
    programs: &[Name],
    procs: &[Proc],
) -> Result<Vec<piton_syntax::Program>, Memory>
    requires few { length procs.now ≤ 2 ^ 20 }
    requires writable { AreWritable (seen_program program.now) programs.now 0 (map proc_of procs.now) }
    requires needs { AreNeeds (seen_program program.now) needs.now.procedures.items }
    requires small { AreSmall needs.now.procedures.items }
    ensures { let texts = procedures_with (seen_program program.now) programs.now 0 (map proc_of procs.now) in
        IfOkUnless (H.may_refuse heap) result (λ made. made.items ≡ texts) }
{
    let mut made = Vec::new(heap.handle());
    for (number, proc) in procs.iter().enumerate() {
        heap.push(
            &mut made,
            procedure(heap, program, needs, programs, proc, number as u32)?,
        )?;
    }
    Ok(made)
}

/// The stack at the start: main's formals, all 0 or false, and its locals.
fn opening<H: Heap>(heap: H, main: &Procedure) -> Result<Vec<WordText>, Memory>
    ensures { IfOkUnless (H.may_refuse heap) result (λ stack. stack.items ≡ opening_text (seen_proc main.now)) }
{
    let mut stack = Vec::new(heap.handle());
    formal_words(heap, &mut stack, main.formals.as_slice())?;
    local_words(heap, &mut stack, main.locals.as_slice())?;
    Ok(stack)
}

/// The area that holds the condition, which is normal at the start.
fn area<H: Heap>(heap: H) -> Result<Area, Memory>
    ensures { IfOkUnless (H.may_refuse heap) result (λ area. area ≡ area_text) }
{
    let item = WordItem::Nat(number(NORMAL));
    let mut words = heap.with_room(1)?;
    heap.push(&mut words, WordText { place: 0, item })?;
    Ok(Area {
        place: 0,
        name: condition_area(heap)?,
        words,
    })
}

/// The areas: that of the condition alone.
fn areas<H: Heap>(heap: H) -> Result<Vec<Area>, Memory>
    ensures { IfOkUnless (H.may_refuse heap) result (λ areas. areas.items ≡ area_text ∷ []) }
{
    let mut areas = heap.with_room(1)?;
    heap.push(&mut areas, area(heap)?)?;
    Ok(areas)
}

/// A size or an address that stands nowhere.
fn unplaced_size(size: u32) -> Number
    ensures { result ≡ number (pos size) }
{
    number(size as i128)
}

/// The programs of a source, and the predefined ones behind them.
fn programs<H: Heap>(
    heap: H,
    source: &Source,
    program: &Program,
    needs: &Needs,
) -> Result<Vec<piton_syntax::Program>, Memory>
    requires few { length (source_of source.now).procs ≤ 2 ^ 20 }
    requires writable { let s = source_of source.now in
        AreWritable (seen_program program.now) (program_texts s) 0 s.procs }
    requires needs { AreNeeds (seen_program program.now) needs.now.procedures.items }
    requires small { AreSmall needs.now.procedures.items }
    ensures { let s = source_of source.now in
        let texts = procedures_with (seen_program program.now) (program_texts s) 0 s.procs ++ body_texts in
        IfOkUnless (H.may_refuse heap) result (λ made. made.items ≡ texts) }
{
    let mut bodies = bodies(heap)?;
    let names = program_names(heap, source, bodies.as_slice())?;
    let mut made = procedures(
        heap,
        program,
        needs,
        names.as_slice(),
        source.procs.as_slice(),
    )?;
    heap.append(&mut made, &mut bodies)?;
    Ok(made)
}

/// The system of a source, with these sizes of the stacks and this base.
pub(crate) fn system<H: Heap>(
    heap: H,
    source: &Source,
    program: &Program,
    needs: &Needs,
    ctrl: u32,
    temp: u32,
    base: u32,
) -> Result<System, Memory>
    requires program { seen_program program.now ≡ program_of (source_of source.now) }
    requires needs { AreNeeds (seen_program program.now) needs.now.procedures.items }
    requires small { AreSmall needs.now.procedures.items }
    requires accepted { IsAccepted (source_of source.now) }
    requires few { total_words (program_of (source_of source.now)) ≤ 2 ^ 20 }
    ensures { IfOkUnless (H.may_refuse heap) result
        (λ system. system ≡ generated (source_of source.now) (stack_sizes ctrl temp) base) }
{
    Ok(System {
        place: 0,
        main: source.main.name.unplaced(heap)?,
        ctrl: unplaced_size(ctrl),
        temp: unplaced_size(temp),
        base: unplaced_size(base),
        areas: areas(heap)?,
        stack: opening(heap, procedure_at(program, program.main))?,
        programs: programs(heap, source, program, needs)?,
    })
}

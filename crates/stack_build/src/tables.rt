//! What an image tells of its source at each mark: the procedures, and the marks.

ghost use Rattle.std.specs.{Prelude.{◌≡◌, ◌<◌, ◌≤◌, ◌+◌, ◌^◌, ◌∷◌, ◌++◌, [], length, map, slice_get, IfOk, OnErr}, List.{list_all}, Option.{option_map}};
ghost use Rattle.stack_heap.specs.Heaps.{IfOkUnless, OnOkUnless};
ghost use Rattle.fm_image.specs.Limits.{is_place};
ghost use Rattle.display_maps.specs.Reading.{space_name};
ghost use Rattle.piton_check.specs.Instruction.{SystemView};
ghost use Rattle.piton_linker.specs.Layouts.{places_of};
ghost use Rattle.gypsy_syntax.specs.{Resolved.{program_of}, Views.SourceView.{proc_of, source_of}};
ghost use Rattle.gypsy_space.specs.{Events.{AreNeeds}, Nodes.{declared_names, seen_proc_names, seen_program}};
ghost use Rattle.gypsy_codegen.specs.Acceptable.{total_words};
ghost use Rattle.stack_build.specs.{Image.{procedure_infos, source_tables}, Internal.Listing.{Declares, IsGenerated, address_among, formal_infos, frame_infos}};
ghost use Rattle.stack_build.specs.Internal.Listing.{listed_procedure, local_infos, mark_among, offset_in};

use display_maps::space_name;
use fm_image::{Mark, ProcInfo, VarInfo};
use gypsy_check::Accepted;
use gypsy_codegen::{MarkAt, marks_with};
use gypsy_space::{Needs, Procedure, Program};
use gypsy_syntax::Proc;
use stack_heap::Heap;
use stack_text::{MOST_TEXT, Memory, Name, Shape, Value};

/// How the variables of a procedure stand in its frame: main's as they are declared, and those of any other procedure
/// with its locals first.
#[derive(Clone, Copy)]
pub(crate) struct FrameOrder {
    is_main: bool,
    formals: u32,
    locals: u32,
}

/// The offset of a variable in the frame.
fn offset(order: FrameOrder, variable: u32) -> u32
    requires there { variable < order.formals + order.locals }
    requires few { order.formals + order.locals ≤ 200 }
    ensures { result ≡ offset_in order variable }
{
    if order.is_main {
        variable
    } else if variable < order.formals {
        order.locals + variable
    } else {
        variable - order.formals
    }
}

/// Appends a variable.
fn push_variable<H: Heap>(
    heap: H,
    variables: &mut Vec<VarInfo>,
    order: FrameOrder,
    name: &Name,
    shape: Shape,
) -> Result<(), Memory>
    requires there { length variables.old.items < order.formals + order.locals }
    requires few { order.formals + order.locals ≤ 200 }
    ensures { OnOkUnless (H.may_refuse heap) result (variables.new.items ≡ variables.old.items
        ++ record { name = name.now; shape = shape; offset = offset_in order (length variables.old.items) } ∷ []) }
{
    let offset = offset(order, variables.len() as u32);
    let name = name.copied(heap)?;
    let variable = VarInfo {
        name,
        shape,
        offset,
    };
    heap.push(variables, variable)?;
    Ok(())
}

/// Appends the formals of a procedure.
fn push_formals<H: Heap>(
    heap: H,
    variables: &mut Vec<VarInfo>,
    order: FrameOrder,
    formals: &[(Name, Shape)],
) -> Result<(), Memory>
    requires there { length variables.old.items + length formals.now ≤ order.formals + order.locals }
    requires few { order.formals + order.locals ≤ 200 }
    ensures { OnOkUnless (H.may_refuse heap) result (variables.new.items ≡ variables.old.items
        ++ formal_infos (offset_in order) (length variables.old.items) formals.now) }
{
    for formal in formals {
        push_variable(heap, variables, order, &formal.0, formal.1)?;
    }
    Ok(())
}

/// The shape of a value.
fn shape_of(value: &Value) -> Shape
    ensures { result ≡ value.now.shape }
{
    value.shape
}

/// Appends the locals of a procedure.
fn push_locals<H: Heap>(
    heap: H,
    variables: &mut Vec<VarInfo>,
    order: FrameOrder,
    locals: &[(Name, Value)],
) -> Result<(), Memory>
    requires there { length variables.old.items + length locals.now ≤ order.formals + order.locals }
    requires few { order.formals + order.locals ≤ 200 }
    ensures { OnOkUnless (H.may_refuse heap) result (variables.new.items ≡ variables.old.items
        ++ local_infos (offset_in order) (length variables.old.items) locals.now) }
{
    for local in locals {
        push_variable(heap, variables, order, &local.0, shape_of(&local.1))?;
    }
    Ok(())
}

/// Appends names.
fn push_names<H: Heap>(heap: H, names: &mut Vec<Name>, more: &[Name]) -> Result<(), Memory>
    ensures { OnOkUnless (H.may_refuse heap) result (names.new.items ≡ names.old.items ++ more.now) }
{
    for name in more {
        heap.push(names, name.copied(heap)?)?;
    }
    Ok(())
}

/// spaceerror, and the conditions of a procedure.
fn conditions<H: Heap>(heap: H, found: &Procedure) -> Result<Vec<Name>, Memory>
    ensures { IfOkUnless (H.may_refuse heap) result
        (λ names. names.items ≡ space_name ∷ (seen_proc_names found.now).conditions) }
{
    let mut names = Vec::new(heap.handle());
    heap.push(&mut names, space_name(heap)?)?;
    push_names(heap, &mut names, &found.conds)?;
    push_names(heap, &mut names, &found.local_conds)?;
    Ok(names)
}

/// The variables of a procedure.
fn variables<H: Heap>(heap: H, is_main: bool, found: &Procedure) -> Result<Vec<VarInfo>, Memory>
    requires few { length found.now.formals.items + length found.now.locals.items ≤ 200 }
    ensures { IfOkUnless (H.may_refuse heap) result (λ variables. variables.items ≡ frame_infos is_main found.now) }
{
    let order = FrameOrder {
        is_main,
        formals: found.formals.len() as u32,
        locals: found.locals.len() as u32,
    };
    let mut variables = Vec::new(heap.handle());
    push_formals(heap, &mut variables, order, &found.formals)?;
    push_locals(heap, &mut variables, order, &found.locals)?;
    Ok(variables)
}

/// A procedure.
fn procedure<H: Heap>(
    heap: H,
    is_main: bool,
    name: &Name,
    found: &Procedure,
) -> Result<ProcInfo, Memory>
    requires few { length found.now.formals.items + length found.now.locals.items ≤ 200 }
    ensures { IfOkUnless (H.may_refuse heap) result (λ info. info ≡ listed_procedure is_main name.now found.now) }
{
    Ok(ProcInfo {
        name: name.copied(heap)?,
        conditions: conditions(heap, found)?,
        variables: variables(heap, is_main, found)?,
    })
}

/// The procedure at a position.
fn procedure_at(procedures: &[Procedure], number: usize) -> Option<&Procedure>
    ensures { option_map (λ p. p.now) result ≡ slice_get procedures.now number }
{
    procedures.get(number)
}

/// The procedures of a source, whose program has their names.
fn procedures<H: Heap>(heap: H, program: &Program, procs: &[Proc]) -> Result<Vec<ProcInfo>, Memory>
    requires declares { Declares program.now (map proc_of procs.now) }
    ensures { IfOkUnless (H.may_refuse heap) result (λ infos.
        infos.items ≡ procedure_infos (seen_program program.now) 0 (map proc_of procs.now)) }
{
    let mut infos = Vec::new(heap.handle());
    for (number, proc) in procs.iter().enumerate() {
        match procedure_at(&program.procedures, number) {
            Some(found) => {
                let is_main = number as u32 == program.main;
                heap.push(
                    &mut infos,
                    procedure(heap, is_main, &proc.name.name, found)?,
                )?;
            }
            None => unreachable!(),
        }
    }
    Ok(infos)
}

/// The address of the instruction at which a mark stands.
fn address_among(places: &[Vec<u32>], mark: &MarkAt) -> u32
    ensures { result ≡ address_among (map (λ row. row.items) places.now) mark.now }
{
    match places.get(mark.program as usize) {
        Some(row) => row.get(mark.at as usize).copied().unwrap_or(0),
        None => 0,
    }
}

/// The marks with their addresses.
fn marks_among<H: Heap>(
    heap: H,
    places: &[Vec<u32>],
    listed: &[MarkAt],
) -> Result<Vec<Mark>, Memory>
    ensures { IfOkUnless (H.may_refuse heap) result (λ marks.
        marks.items ≡ map (mark_among (map (λ row. row.items) places.now)) listed.now) }
{
    let mut marks = Vec::new(heap.handle());
    for mark in listed {
        let mark = Mark {
            address: address_among(places, mark),
            procedure: mark.program,
            place: mark.place,
        };
        heap.push(&mut marks, mark)?;
    }
    Ok(marks)
}

/// Whether an image file has room for the places of these marks.
fn places_fit(listed: &[MarkAt]) -> bool
    ensures { result ≡ list_all (λ m. is_place m.place) listed.now }
{
    listed.iter().all(|mark| mark.place < MOST_TEXT)
}

/// The procedures and the marks of an accepted source, where these are the addresses of its system's instructions; none
/// where an image file has no room for the places of the marks.
pub(crate) fn tables<H: Heap>(
    heap: H,
    accepted: &Accepted,
    program: &Program,
    needs: &Needs,
    places: &[Vec<u32>],
) -> Result<(Vec<ProcInfo>, Vec<Mark>), Memory>
    requires program { seen_program program.now ≡ program_of (source_of accepted.now) }
    requires names { map seen_proc_names program.now.procedures.items
        ≡ map declared_names (source_of accepted.now).procs }
    requires needs { AreNeeds (program_of (source_of accepted.now)) needs.now.procedures.items }
    requires words { total_words (program_of (source_of accepted.now)) ≤ 2 ^ 20 }
    ensures refused { OnErr result (H.may_refuse heap) }
    ensures tables { let source = source_of accepted.now in
        (system : SystemView) → IsGenerated source system
        → map (λ row. row.items) places.now ≡ places_of system 0 system.programs
        → IfOk result (λ made.
        record { procedures = made.0.items; marks = made.1.items } ≡ source_tables source system) }
{
    let source = accepted.source();
    let listed = marks_with(heap, accepted, program, needs)?;
    if !places_fit(&listed) {
        return Ok((Vec::new(heap.handle()), Vec::new(heap.handle())));
    }
    let procedures = procedures(heap, program, source.procs.as_slice())?;
    let marks = marks_among(heap, places, &listed)?;
    Ok((procedures, marks))
}

//! The marks of a generated program, in one pass.

ghost use Rattle.std.specs.Prelude.{◌≡◌, ◌+◌, ◌^◌, ◌++◌, ◌∷◌, [], ◌<◌, ◌≤◌, length, IfOk};
ghost use Rattle.stack_heap.specs.Heaps.{IfOkUnless, OnOkUnless};
ghost use Rattle.gypsy_syntax.specs.{Programs.{body_of, proc_at}, Resolved.{program_of}, Views.SourceView.{source_of}};
ghost use Rattle.gypsy_check.specs.Accepted.{IsAccepted};
ghost use Rattle.gypsy_space.specs.{Events.{AreNeeds}, Nodes.{seen_program, seen_statement, seen_statements}};
ghost use Rattle.gypsy_predef.specs.Bodies.{lengths_of};
ghost use Rattle.gypsy_codegen.specs.{Acceptable.{total_words}, Generated.{size, test_size}, Internal.Listing.{IsKnown, application_of, call_of}};
ghost use Rattle.gypsy_codegen.specs.{Internal.Listing.{marked_program}, Marks.{mark_at, marks_of, procedure_marks, statement_marks, tail_marks}};
ghost use Rattle.gypsy_codegen.specs.{Internal.Views.{NamesAreThere}, WordsOf.{words_of_values}};

use crate::apply::can_fail;
use crate::context::procedure_at;
use gypsy_check::Accepted;
use gypsy_space::{Application, CallSite, Needs, Node, Program, resolve};
use gypsy_syntax::Predef;
use stack_heap::Heap;
use stack_text::Memory;
use std::rc::Rc;

/// A place of the generated code at which a run of the source may stand.
#[derive(Clone, Copy, Debug, PartialEq, Eq)]
pub struct MarkAt {
    /// The position of the program among those of the system.
    pub program: u32,
    /// The instruction, counted from 0.
    pub at: u32,
    /// The place in the source's text.
    pub place: u32,
}

/// A procedure whose marks are listed.
#[derive(Drop)]
struct Marking<'a, 'b> {
    program: &'a Program,
    needs: &'b Needs,
    procedure: u32,
}

/// A mark of the procedure.
fn note<H: Heap>(
    heap: H,
    marks: &mut Vec<MarkAt>,
    marking: &Marking,
    at: u32,
    place: u32,
) -> Result<(), Memory>
    ensures { OnOkUnless (H.may_refuse heap) result
        (marks.new.items ≡ marks.old.items ++ mark_at marking.now.procedure at place ∷ []) }
{
    heap.push(
        marks,
        MarkAt {
            program: marking.procedure,
            at,
            place,
        },
    )?;
    Ok(())
}

/// How many locals a procedure has.
fn local_count(program: &Program, procedure: u32) -> usize
    requires { procedure < length program.now.procedures.items }
    ensures { result ≡ length (proc_at (seen_program program.now) procedure).locals }
{
    procedure_at(program, procedure).locals.len()
}

/// How many words the locals of a procedure have.
fn local_words(marking: &Marking, procedure: u32) -> u64
    requires known { IsKnown marking.now }
    requires there { procedure < length (marked_program marking.now).procs }
    ensures { result ≡ length (words_of_values (proc_at (marked_program marking.now) procedure).locals) }
{
    marking.needs.need_of(procedure).locals_words
}

/// How many instructions a call has.
fn call_size(marking: &Marking, site: &CallSite) -> u32
    requires known { IsKnown marking.now }
    requires callee { site.now.callee < length (marked_program marking.now).procs }
    requires room { size (marked_program marking.now) (call_of site.now) ≤ 2 ^ 21 }
    ensures { result ≡ size (marked_program marking.now) (call_of site.now) }
{
    let words = local_words(marking, site.callee);
    let locals = local_count(marking.program, site.callee) as u64;
    let actuals = site.actuals.len() as u64;
    let conds = site.conds.len() as u64;
    (words + locals + actuals + 3 * conds + 19) as u32
}

/// How many lengths of arrays a predefined call pushes.
fn lengths_of(which: Predef) -> u32
    ensures exact { result ≡ lengths_of which }
    ensures small { result ≤ 1 }
{
    match which {
        Predef::MgIndexArray | Predef::MgArrayElementAssignment => 1,
        _ => 0,
    }
}

/// How many instructions test for a fault.
fn test_size(which: Predef) -> u32
    ensures exact { result ≡ test_size which }
    ensures small { result ≤ 3 }
{
    if can_fail(which) { 3 } else { 0 }
}

/// How many instructions a predefined call has beside its pushes.
fn row_size(which: Predef) -> u32
    ensures exact { result ≡ lengths_of which + (test_size which + 1) }
    ensures small { result ≤ 5 }
{
    lengths_of(which) + (test_size(which) + 1)
}

/// How many instructions a predefined call has.
fn application_size(marking: &Marking, call: &Application) -> u32
    requires { size (marked_program marking.now) (application_of call.now) ≤ 2 ^ 21 }
    ensures { result ≡ size (marked_program marking.now) (application_of call.now) }
{
    call.args.len() as u32 + row_size(call.which)
}

/// A part of a statement at this place, and behind it a mark of the statement; where that is.
#[cycle(marked)]
fn part<H: Heap>(
    heap: H,
    marks: &mut Vec<MarkAt>,
    marking: &Marking,
    node: &Rc<Node>,
    at: u32,
    place: u32,
) -> Result<u32, Memory>
    requires known { IsKnown marking.now }
    requires names { NamesAreThere (marked_program marking.now) marking.now.procedure (seen_statement node.now.value) }
    requires room { at + size (marked_program marking.now) (seen_statement node.now.value) ≤ 2 ^ 21 }
    ensures marks { let q = marked_program marking.now in
        let s = seen_statement node.now.value in
        let listed = statement_marks q marking.now.procedure at s ++
        mark_at marking.now.procedure (at + size q s) place ∷ [] in
        OnOkUnless (H.may_refuse heap) result (marks.new.items ≡ marks.old.items ++ listed) }
    ensures next { IfOk result (λ next. next ≡ at + size (marked_program marking.now) (seen_statement node.now.value)) }
{
    let behind = statement(heap, marks, marking, node, at)?;
    note(heap, marks, marking, behind, place)?;
    Ok(behind)
}

/// The marks of a statement whose code stands at this place; where it ends.
#[cycle(marked)]
fn statement<H: Heap>(
    heap: H,
    marks: &mut Vec<MarkAt>,
    marking: &Marking,
    node: &Rc<Node>,
    at: u32,
) -> Result<u32, Memory>
    requires known { IsKnown marking.now }
    requires names { NamesAreThere (marked_program marking.now) marking.now.procedure (seen_statement node.now.value) }
    requires room { at + size (marked_program marking.now) (seen_statement node.now.value) ≤ 2 ^ 21 }
    ensures marks { let q = marked_program marking.now in
        let listed = statement_marks q marking.now.procedure at (seen_statement node.now.value) in
        OnOkUnless (H.may_refuse heap) result (marks.new.items ≡ marks.old.items ++ listed) }
    ensures next { IfOk result (λ next. next ≡ at + size (marked_program marking.now) (seen_statement node.now.value)) }
{
    match &**node {
        Node::NoOp(place) => {
            note(heap, marks, marking, at, *place)?;
            Ok(at + 1)
        }
        Node::Signal(place, _) => {
            note(heap, marks, marking, at, *place)?;
            Ok(at + 3)
        }
        Node::Seq(nodes) => {
            let next = parts(heap, marks, marking, nodes, at)?;
            Ok(next)
        }
        Node::Loop(place, body) => {
            note(heap, marks, marking, at, *place)?;
            let back = part(heap, marks, marking, body, at + 1, *place)?;
            Ok(back + 3)
        }
        Node::If(place, _, yes, no) => {
            note(heap, marks, marking, at, *place)?;
            let jump = part(heap, marks, marking, yes, at + 3, *place)?;
            let join = part(heap, marks, marking, no, jump + 2, *place)?;
            Ok(join + 1)
        }
        Node::Begin(place, body, _, arm) => {
            let jump = part(heap, marks, marking, body, at, *place)?;
            let join = part(heap, marks, marking, arm, jump + 3, *place)?;
            Ok(join + 1)
        }
        Node::Call(site) => {
            note(heap, marks, marking, at, site.place)?;
            Ok(at + call_size(marking, site))
        }
        Node::Apply(call) => {
            note(heap, marks, marking, at, call.place)?;
            Ok(at + application_size(marking, call))
        }
    }
}

/// The parts of a sequence.
#[cycle(marked)]
fn parts<H: Heap>(
    heap: H,
    marks: &mut Vec<MarkAt>,
    marking: &Marking,
    parts: &Rc<Vec<Rc<Node>>>,
    at: u32,
) -> Result<u32, Memory>
    requires known { IsKnown marking.now }
    requires names { let parts = seen_statements parts.now.value.items in
        NamesAreThere (marked_program marking.now) marking.now.procedure parts }
    requires room { at + size (marked_program marking.now) (seen_statements parts.now.value.items) ≤ 2 ^ 21 }
    ensures marks { let q = marked_program marking.now in
        let listed = statement_marks q marking.now.procedure at (seen_statements parts.now.value.items) in
        OnOkUnless (H.may_refuse heap) result (marks.new.items ≡ marks.old.items ++ listed) }
    ensures next { let q = marked_program marking.now in
        IfOk result (λ next. next ≡ at + size q (seen_statements parts.now.value.items)) }
{
    let mut next = at;
    for index in 0..parts.len() {
        next = statement(heap, marks, marking, &parts[index], next)?;
    }
    Ok(next)
}

/// What stands behind a body of so many instructions.
fn tail<H: Heap>(
    heap: H,
    marks: &mut Vec<MarkAt>,
    marking: &Marking,
    at: u32,
    place: u32,
) -> Result<(), Memory>
    requires { at ≤ 2 ^ 21 }
    ensures { OnOkUnless (H.may_refuse heap) result
        (marks.new.items ≡ marks.old.items ++ tail_marks marking.now.procedure at place) }
{
    note(heap, marks, marking, at, place)?;
    note(heap, marks, marking, at + 1, place)?;
    note(heap, marks, marking, at + 3, place)
}

/// The marks of a procedure.
fn procedure<H: Heap>(heap: H, marks: &mut Vec<MarkAt>, marking: &Marking) -> Result<(), Memory>
    requires known { IsKnown marking.now }
    requires there { marking.now.procedure < length (marked_program marking.now).procs }
    requires names { let q = marked_program marking.now in
        NamesAreThere q marking.now.procedure (body_of q marking.now.procedure) }
    requires room { let q = marked_program marking.now in size q (body_of q marking.now.procedure) ≤ 2 ^ 20 }
    ensures { let listed = procedure_marks (marked_program marking.now) marking.now.procedure in
        OnOkUnless (H.may_refuse heap) result (marks.new.items ≡ marks.old.items ++ listed) }
{
    let found = procedure_at(marking.program, marking.procedure);
    let end = statement(heap, marks, marking, &found.body, 0)?;
    tail(heap, marks, marking, end, found.place)
}

/// The marks of the program that is generated from an accepted source: the places of its code at which a run of the source may
/// stand, each with the place in the source. They ascend by program, and then by instruction.
///
/// The time is linear in the source.
///
/// It is for callers outside: the program calls `marks_with`.
///
/// # Errors
///
/// Out of memory.
pub fn marks<H: Heap>(heap: H, accepted: &Accepted, needs: &Needs) -> Result<Vec<MarkAt>, Memory>
    requires needs { AreNeeds (program_of (source_of accepted.now)) needs.now.procedures.items }
    requires words { total_words (program_of (source_of accepted.now)) ≤ 2 ^ 20 }
    ensures { IfOkUnless (H.may_refuse heap) result
        (λ marks. marks.items ≡ marks_of (program_of (source_of accepted.now))) }
{
    let program = resolve(heap, accepted)?;
    marks_with(heap, accepted, &program, needs)
}

/// The same, for callers that have the program of the source.
pub fn marks_with<H: Heap>(
    heap: H,
    _accepted: &Accepted,
    program: &Program,
    needs: &Needs,
) -> Result<Vec<MarkAt>, Memory>
    requires program { seen_program program.now ≡ program_of (source_of _accepted.now) }
    requires accepted { IsAccepted (source_of _accepted.now) }
    requires needs { AreNeeds (program_of (source_of _accepted.now)) needs.now.procedures.items }
    requires words { total_words (program_of (source_of _accepted.now)) ≤ 2 ^ 20 }
    ensures { IfOkUnless (H.may_refuse heap) result
        (λ marks. marks.items ≡ marks_of (program_of (source_of _accepted.now))) }
{
    let mut listed = Vec::new(heap.handle());
    for number in 0..program.procedures.len() {
        let marking = Marking {
            program,
            needs,
            procedure: number as u32,
        };
        procedure(heap, &mut listed, &marking)?;
    }
    Ok(listed)
}

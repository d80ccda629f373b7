//! The bodies as programs of Piton's text.

ghost use Rattle.std.specs.{Prelude.{◌≡◌, ◌++◌, IfOk, [], ◌∷◌, map}, List.{flat_map}};
ghost use Rattle.stack_heap.specs.Heaps.{IfOkUnless, OnOkUnless};
ghost use Rattle.stack_text.specs.Grammar.Printed.{unplaced};
ghost use Rattle.piton_syntax.specs.declared.op.PitonOp.TheVariants.{Jump};
ghost use Rattle.gypsy_predef.specs.{declared.line.Line.TheVariants.{Get, Put, Choose, Note, Fail}, Resolving.{DoTheirCalls, DoTheirRows}, Texts.{body_text}};
ghost use Rattle.gypsy_predef.specs.Texts.{body_texts, branch_text, line_text, named_local, temporary_text, fail_label, label_name, local_name, of_name};
ghost use Rattle.gypsy_predef.specs.Texts.{plain_at};

use crate::instruction_text::{condition_area, constant, number, of_name, plain, test};
use crate::line::{Label, Line, Local, Temporary, label_name, local_name};
use crate::rows::{listed_body, program_name};
use gypsy_syntax::{Predef, predefs};
use piton_syntax::{InstrText, PitonOp, Program, TestKind, WordItem, WordText};
use stack_heap::Heap;
use stack_text::{Memory, Named};

/// The number of routineerror, as the condition's area has it.
const ROUTINE_ERROR: i128 = 1;

/// An instruction of a local.
fn of_local<H: Heap>(
    heap: H,
    instrs: &mut Vec<InstrText>,
    op: PitonOp,
    local: Local,
) -> Result<(), Memory>
    ensures { OnOkUnless (H.may_refuse heap) result
        (instrs.new.items ≡ instrs.old.items ++ of_name op (local_name local) ∷ []) }
{
    of_name(heap, instrs, op, Named::unplaced(heap, local_name(local))?)
}

/// The label of `fail`.
fn fail_label<H: Heap>(heap: H) -> Result<Named, Memory>
    ensures { IfOkUnless (H.may_refuse heap) result (λ name. name ≡ unplaced fail_label) }
{
    Named::unplaced(heap, b"L0".as_slice())
}

/// A label of a body.
fn label_named<H: Heap>(heap: H, label: Label) -> Result<Named, Memory>
    ensures { IfOkUnless (H.may_refuse heap) result (λ name. name ≡ unplaced (label_name label)) }
{
    Named::unplaced(heap, label_name(label))
}

/// A test, and the jump to a label.
fn branch<H: Heap>(
    heap: H,
    instrs: &mut Vec<InstrText>,
    op: PitonOp,
    kind: TestKind,
    to: Label,
) -> Result<(), Memory>
    ensures { OnOkUnless (H.may_refuse heap) result
        (instrs.new.items ≡ instrs.old.items ++ branch_text op kind to ∷ []) }
{
    test(heap, instrs, op, kind, label_named(heap, to)?)
}

/// The jump to a label.
fn jump<H: Heap>(heap: H, instrs: &mut Vec<InstrText>, to: Label) -> Result<(), Memory>
    ensures { OnOkUnless (H.may_refuse heap) result
        (instrs.new.items ≡ instrs.old.items ++ of_name Jump (label_name to) ∷ []) }
{
    of_name(heap, instrs, PitonOp::Jump, label_named(heap, to)?)
}

/// An instruction without arguments, at a label.
fn plain_at<H: Heap>(
    heap: H,
    instrs: &mut Vec<InstrText>,
    label: Label,
    op: PitonOp,
) -> Result<(), Memory>
    ensures { OnOkUnless (H.may_refuse heap) result (instrs.new.items ≡ instrs.old.items ++ plain_at label op ∷ []) }
{
    plain(heap, instrs, Some(label_named(heap, label)?), op)
}

/// `x` where `y` is below 0, else `z`.
fn choose<H: Heap>(
    heap: H,
    instrs: &mut Vec<InstrText>,
    below: Label,
    end: Label,
) -> Result<(), Memory>
    ensures { OnOkUnless (H.may_refuse heap) result
        (instrs.new.items ≡ instrs.old.items ++ line_text (Choose below end)) }
{
    of_local(heap, instrs, PitonOp::PushLocal, Local::Y)?;
    branch(heap, instrs, PitonOp::TestIntAndJump, TestKind::Neg, below)?;
    of_local(heap, instrs, PitonOp::PushLocal, Local::Z)?;
    jump(heap, instrs, end)?;
    plain_at(heap, instrs, below, PitonOp::NoOp)?;
    of_local(heap, instrs, PitonOp::PushLocal, Local::X)
}

/// `note`.
fn note<H: Heap>(heap: H, instrs: &mut Vec<InstrText>) -> Result<(), Memory>
    ensures { OnOkUnless (H.may_refuse heap) result (instrs.new.items ≡ instrs.old.items ++ line_text Note) }
{
    of_local(heap, instrs, PitonOp::PushLocal, Local::O)?;
    plain(heap, instrs, None, PitonOp::OrBool)?;
    of_local(heap, instrs, PitonOp::PopLocal, Local::O)
}

/// `get x`.
fn get<H: Heap>(heap: H, instrs: &mut Vec<InstrText>, local: Local) -> Result<(), Memory>
    ensures { OnOkUnless (H.may_refuse heap) result (instrs.new.items ≡ instrs.old.items ++ line_text (Get local)) }
{
    of_local(heap, instrs, PitonOp::PushLocal, local)?;
    plain(heap, instrs, None, PitonOp::FetchTempStk)
}

/// `put d`.
fn put<H: Heap>(heap: H, instrs: &mut Vec<InstrText>, local: Local) -> Result<(), Memory>
    ensures { OnOkUnless (H.may_refuse heap) result (instrs.new.items ≡ instrs.old.items ++ line_text (Put local)) }
{
    of_local(heap, instrs, PitonOp::PushLocal, local)?;
    plain(heap, instrs, None, PitonOp::DepositTempStk)
}

/// `fail`.
fn fail<H: Heap>(heap: H, instrs: &mut Vec<InstrText>) -> Result<(), Memory>
    ensures { OnOkUnless (H.may_refuse heap) result (instrs.new.items ≡ instrs.old.items ++ line_text Fail) }
{
    let label = fail_label(heap)?;
    let item = WordItem::Nat(number(ROUTINE_ERROR));
    constant(heap, instrs, Some(label), item)?;
    let area = condition_area(heap)?;
    of_name(heap, instrs, PitonOp::PopGlobal, area)?;
    plain(heap, instrs, None, PitonOp::Ret)
}

/// A line.
fn line<H: Heap>(heap: H, instrs: &mut Vec<InstrText>, line: Line) -> Result<(), Memory>
    ensures { OnOkUnless (H.may_refuse heap) result (instrs.new.items ≡ instrs.old.items ++ line_text line) }
{
    match line {
        Line::Get(local) => get(heap, instrs, local),
        Line::Put(local) => put(heap, instrs, local),
        Line::Local(op, local) => of_local(heap, instrs, op, local),
        Line::Plain(op) => plain(heap, instrs, None, op),
        Line::Truth(truth) => constant(heap, instrs, None, WordItem::Bool(truth)),
        Line::Integer(value) => constant(heap, instrs, None, WordItem::Int(number(value))),
        Line::Test(op, kind) => test(heap, instrs, op, kind, fail_label(heap)?),
        Line::TruthAt(label, truth) => {
            let label = label_named(heap, label)?;
            constant(heap, instrs, Some(label), WordItem::Bool(truth))
        }
        Line::At(label, op) => plain_at(heap, instrs, label, op),
        Line::Branch(op, kind, to) => branch(heap, instrs, op, kind, to),
        Line::Choose(below, end) => choose(heap, instrs, below, end),
        Line::Note => note(heap, instrs),
        Line::Fail => fail(heap, instrs),
    }
}

/// The lines of a body.
fn instructions<H: Heap>(heap: H, lines: &[Line]) -> Result<Vec<InstrText>, Memory>
    ensures { IfOkUnless (H.may_refuse heap) result (λ instrs. instrs.items ≡ flat_map line_text lines.now) }
{
    let mut instrs = Vec::new(heap.handle());
    for each in lines {
        line(heap, &mut instrs, *each)?;
    }
    Ok(instrs)
}

/// The names of locals.
fn names<H: Heap>(heap: H, locals: &[Local]) -> Result<Vec<Named>, Memory>
    ensures { IfOkUnless (H.may_refuse heap) result (λ names. names.items ≡ map named_local locals.now) }
{
    let mut names = Vec::new(heap.handle());
    for local in locals {
        heap.push(&mut names, Named::unplaced(heap, local_name(*local))?)?;
    }
    Ok(names)
}

/// A temporary's name, and the word that it holds at first.
fn temporary<H: Heap>(heap: H, temporary: Temporary) -> Result<(Named, WordText), Memory>
    ensures { IfOkUnless (H.may_refuse heap) result (λ text. text ≡ temporary_text temporary) }
{
    let (local, item) = match temporary {
        Temporary::Int(local, value) => (local, WordItem::Int(number(value))),
        Temporary::Nat(local, value) => (local, WordItem::Nat(number(value))),
        Temporary::Bool(local, truth) => (local, WordItem::Bool(truth)),
    };
    let name = Named::unplaced(heap, local_name(local))?;
    Ok((name, WordText { place: 0, item }))
}

/// The temporaries of a body.
fn temporaries<H: Heap>(
    heap: H,
    temporaries: &[Temporary],
) -> Result<Vec<(Named, WordText)>, Memory>
    ensures { IfOkUnless (H.may_refuse heap) result (λ texts. texts.items ≡ map temporary_text temporaries.now) }
{
    let mut texts = Vec::new(heap.handle());
    for each in temporaries {
        heap.push(&mut texts, temporary(heap, *each)?)?;
    }
    Ok(texts)
}

/// A predefined program.
fn body<H: Heap>(heap: H, row: Predef) -> Result<Program, Memory>
    ensures { IfOkUnless (H.may_refuse heap) result (λ program. program ≡ body_text row) }
{
    let name = Named::unplaced(heap, program_name(row))?;
    let listed = listed_body(row);
    let formals = names(heap, listed.formals)?;
    let temporaries = temporaries(heap, listed.temporaries)?;
    let instrs = instructions(heap, listed.lines)?;
    Ok(Program {
        place: 0,
        name,
        formals_place: 0,
        formals,
        temporaries,
        instrs,
    })
}

/// Predefined programs.
fn programs<H: Heap>(heap: H, rows: &[Predef]) -> Result<Vec<Program>, Memory>
    ensures { IfOkUnless (H.may_refuse heap) result (λ programs. programs.items ≡ map body_text rows.now) }
{
    let mut programs = Vec::new(heap.handle());
    for row in rows {
        heap.push(&mut programs, body(heap, *row)?)?;
    }
    Ok(programs)
}

/// The predefined programs, in the order of the table. Where a system ends with them and its first area is `c-c`,
/// each does its row: from the call itself, and from the first push of a statement's code until after the test for a fault.
pub fn bodies<H: Heap>(heap: H) -> Result<Vec<Program>, Memory>
    ensures texts { IfOkUnless (H.may_refuse heap) result (λ programs. programs.items ≡ body_texts) }
    ensures rows { IfOk result (λ programs. DoTheirRows programs.items) }
    ensures calls { IfOk result (λ programs. DoTheirCalls programs.items) }
{
    let programs = programs(heap, predefs())?;
    Ok(programs)
}

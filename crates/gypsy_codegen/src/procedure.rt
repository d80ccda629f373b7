//! The program of a procedure.

ghost use Rattle.std.specs.Prelude.{◌≡◌, ◌+◌, ◌^◌, ◌++◌, ◌<◌, ◌≤◌, length, map, [], if◌then◌else◌};
ghost use Rattle.stack_heap.specs.Heaps.{IfOkUnless, OnOkUnless};
ghost use Rattle.piton_words.specs.declared.word.Word.TheVariants.{Nat};
ghost use Rattle.gypsy_syntax.specs.{Programs.{body_of, shapes_of, words_of}, Views.SourceView.{local_of, proc_of}};
ghost use Rattle.gypsy_space.specs.{Events.{AreNeeds, AreSmall}, Nodes.{held_shapes, held_values, seen_proc, seen_program}};
ghost use Rattle.stack_text.specs.Grammar.Printed.{unplaced};
ghost use Rattle.gypsy_codegen.specs.{Lines.{labels, lines_of, tail_lines}, Text.{frame_texts, procedure_with, temporaries_of}, Internal.Views.{IsReady}};
ghost use Rattle.gypsy_codegen.specs.{Internal.Views.{IsWritable, NamesAreThere, names_of, nameless, program_in}, WordsOf.{starts}, Written.{written}};

use crate::context::{Context, Scopes, number_of, procedure_at};
use crate::emitter::Emitter;
use crate::lines::name_in;
use crate::statement::statement;
use gypsy_predef::instruction_text;
use gypsy_space::{Condition, Needs, Procedure, Program};
use gypsy_syntax::{Decl, Local, Proc};
use piton_syntax::{InstrText, PitonOp, WordItem, WordText};
use stack_heap::Heap;
use stack_text::{Memory, Name, Named, Shape, Value};

/// How many words of code most instructions have at least: with room for so many the instructions of a procedure mostly
/// fit, and where they don't, more is taken.
const WORDS_EACH: u64 = 3;

/// The names of formals.
fn formal_names<H: Heap>(heap: H, names: &mut Vec<Name>, formals: &[Decl]) -> Result<(), Memory>
    ensures { OnOkUnless (H.may_refuse heap) result
        (names.new.items ≡ names.old.items ++ map (λ d. d.name.name) formals.now) }
{
    for formal in formals {
        heap.push(names, formal.name.name.copied(heap)?)?;
    }
    Ok(())
}

/// The names of locals.
fn local_names<H: Heap>(heap: H, names: &mut Vec<Name>, locals: &[Local]) -> Result<(), Memory>
    ensures { OnOkUnless (H.may_refuse heap) result
        (names.new.items ≡ names.old.items ++ map (λ l. l.decl.name.name) (map local_of locals.now)) }
{
    for local in locals {
        heap.push(names, local.decl.name.name.copied(heap)?)?;
    }
    Ok(())
}

/// The words of a frame by name: main's variables in order, else the locals and behind them the formals.
fn frame_names<H: Heap>(
    heap: H,
    program: &Program,
    procedure: u32,
    proc: &Proc,
) -> Result<Vec<Name>, Memory>
    ensures { IfOkUnless (H.may_refuse heap) result
        (λ names. names.items ≡ frame_texts (seen_program program.now) procedure (proc_of proc.now)) }
{
    let mut names = Vec::new(heap.handle());
    if procedure == program.main {
        formal_names(heap, &mut names, proc.formals.as_slice())?;
        local_names(heap, &mut names, proc.locals.as_slice())?;
        Ok(names)
    } else {
        local_names(heap, &mut names, proc.locals.as_slice())?;
        formal_names(heap, &mut names, proc.formals.as_slice())?;
        Ok(names)
    }
}

/// The shapes of formals.
fn formal_shapes<H: Heap>(
    heap: H,
    shapes: &mut Vec<Shape>,
    formals: &[(Name, Shape)],
) -> Result<(), Memory>
    ensures { OnOkUnless (H.may_refuse heap) result (shapes.new.items ≡ shapes.old.items ++ held_shapes formals.now) }
{
    for (_, shape) in formals {
        heap.push(shapes, *shape)?;
    }
    Ok(())
}

/// The shapes of locals.
fn local_shapes<H: Heap>(
    heap: H,
    shapes: &mut Vec<Shape>,
    locals: &[(Name, Value)],
) -> Result<(), Memory>
    ensures { OnOkUnless (H.may_refuse heap) result
        (shapes.new.items ≡ shapes.old.items ++ map (λ v. v.shape) (held_values locals.now)) }
{
    for (_, value) in locals {
        heap.push(shapes, value.shape)?;
    }
    Ok(())
}

/// The shapes of the variables of a procedure.
fn shapes<H: Heap>(heap: H, procedure: &Procedure) -> Result<Vec<Shape>, Memory>
    ensures { IfOkUnless (H.may_refuse heap) result (λ shapes. shapes.items ≡ shapes_of (seen_proc procedure.now)) }
{
    let mut shapes = Vec::new(heap.handle());
    formal_shapes(heap, &mut shapes, procedure.formals.as_slice())?;
    local_shapes(heap, &mut shapes, procedure.locals.as_slice())?;
    Ok(shapes)
}

/// Variables, each with the index of its first word.
fn indexed<H: Heap>(
    heap: H,
    names: &[Name],
    shapes: &[Shape],
) -> Result<Vec<(Named, WordText)>, Memory>
    requires each { length names.now ≡ length shapes.now }
    requires few { words_of shapes.now ≤ 65536 }
    ensures { let indices = map (λ at. Nat at) (starts 0 shapes.now) in
        IfOkUnless (H.may_refuse heap) result (λ made. made.items ≡ temporaries_of nameless names.now indices) }
{
    let mut temporaries = Vec::new(heap.handle());
    let mut first: u64 = 0;
    for (number, shape) in shapes.iter().enumerate() {
        let item = WordItem::Nat(instruction_text::number(first as i128));
        let name = name_in(heap, names, number)?;
        heap.push(&mut temporaries, (name, WordText { place: 0, item }))?;
        first += shape.item_count() as u64;
    }
    Ok(temporaries)
}

/// The temporaries: main's variables, and none elsewhere.
fn temporaries<H: Heap>(
    heap: H,
    is_main: bool,
    names: &[Name],
    shapes: &[Shape],
) -> Result<Vec<(Named, WordText)>, Memory>
    requires each { length names.now ≡ length shapes.now }
    requires few { words_of shapes.now ≤ 65536 }
    ensures { let indices = map (λ at. Nat at) (starts 0 shapes.now) in
        IfOkUnless (H.may_refuse heap) result
        (λ made. made.items ≡ (if is_main then temporaries_of nameless names.now indices else [])) }
{
    if is_main {
        indexed(heap, names, shapes)
    } else {
        Ok(Vec::new(heap.handle()))
    }
}

/// The names as they stand in a text.
fn named_all<H: Heap>(heap: H, names: &[Name]) -> Result<Vec<Named>, Memory>
    ensures { IfOkUnless (H.may_refuse heap) result (λ made. made.items ≡ map unplaced names.now) }
{
    let mut made = Vec::new(heap.handle());
    for name in names {
        heap.push(&mut made, name.unplaced(heap)?)?;
    }
    Ok(made)
}

/// The formals: none of main, and elsewhere each variable.
fn formals<H: Heap>(heap: H, is_main: bool, names: &[Name]) -> Result<Vec<Named>, Memory>
    ensures { IfOkUnless (H.may_refuse heap) result
        (λ formals. formals.items ≡ (if is_main then [] else map unplaced names.now)) }
{
    if is_main {
        Ok(Vec::new(heap.handle()))
    } else {
        named_all(heap, names)
    }
}

/// What follows the body of a procedure.
fn tail<H: Heap>(heap: H, emitter: &mut Emitter) -> Result<(), Memory>
    ensures { OnOkUnless (H.may_refuse heap) result (emitter.new ≡ emitter.old ++ map (written nameless) tail_lines) }
{
    emitter.jump(heap, 1)?;
    let item = WordItem::Nat(instruction_text::number(number_of(Condition::Routine) as i128));
    emitter.constant(heap, Some(0), item)?;
    emitter.area(heap, PitonOp::PopGlobal)?;
    emitter.plain(heap, Some(1), PitonOp::Ret)
}

/// The instructions of a procedure.
fn instructions<H: Heap>(heap: H, context: &Context) -> Result<Vec<InstrText>, Memory>
    requires ready { IsReady context.now }
    requires there { context.now.procedure < length (program_in context.now).procs }
    requires names { let q = program_in context.now in
        NamesAreThere q context.now.procedure (body_of q context.now.procedure) }
    requires labels { 2 + labels (body_of (program_in context.now) context.now.procedure) < 2 ^ 32 }
    ensures { let lines = lines_of (program_in context.now) context.now.procedure in
        IfOkUnless (H.may_refuse heap) result (λ instrs. instrs.items ≡ map (written (names_of context.now)) lines) }
{
    let words = context.needs.need_of(context.procedure).code_words;
    let mut emitter = Emitter::with_capacity(heap, (words / WORDS_EACH) as usize)?;
    let found = procedure_at(context.program, context.procedure);
    statement(
        heap,
        &mut emitter,
        context,
        &found.body,
        &Scopes::Outside,
        2,
    )?;
    tail(heap, &mut emitter)?;
    Ok(emitter.into_instrs())
}

/// The program of a procedure.
pub(crate) fn procedure<H: Heap>(
    heap: H,
    program: &Program,
    needs: &Needs,
    programs: &[Name],
    proc: &Proc,
    number: u32,
) -> Result<piton_syntax::Program, Memory>
    requires writable { IsWritable (seen_program program.now) programs.now number (proc_of proc.now) }
    requires needs { AreNeeds (seen_program program.now) needs.now.procedures.items }
    requires small { AreSmall needs.now.procedures.items }
    ensures { let text = procedure_with (seen_program program.now) programs.now number (proc_of proc.now) in
        IfOkUnless (H.may_refuse heap) result (λ made. made ≡ text) }
{
    let shapes = shapes(heap, procedure_at(program, number))?;
    let frame = frame_names(heap, program, number, proc)?;
    let context = Context {
        program,
        needs,
        procedure: number,
        shapes: shapes.as_slice(),
        programs,
        locals: frame.as_slice(),
    };
    let instrs = instructions(heap, &context)?;
    let is_main = number == program.main;
    let formals = formals(heap, is_main, frame.as_slice())?;
    let temporaries = temporaries(heap, is_main, frame.as_slice(), shapes.as_slice())?;
    Ok(piton_syntax::Program {
        place: 0,
        name: proc.name.name.unplaced(heap)?,
        formals_place: 0,
        formals,
        temporaries,
        instrs,
    })
}

//! Main with its calls in line.

ghost use Rattle.std.specs.Prelude.{◌≡◌, ◌<◌, ◌^◌, ◌++◌, length, option_map};
ghost use Rattle.stack_heap.specs.Heaps.{IfOkUnless};
ghost use Rattle.gypsy_check.specs.Accepted.{IsAccepted};
ghost use Rattle.gypsy_syntax.specs.{Programs.{conds_of, proc_at, shapes_of, words_of}, Resolved.{program_of}, Views.SourceView.{source_of}};
ghost use Rattle.gypsy_space.specs.{Needs.{stack_sizes}, Nodes.{held_shapes, seen_proc, seen_program, seen_statement}};
ghost use Rattle.quick_generate.specs.{Lining.{CanGo, most_levels}, LinedViews.{HasNumbers, IsMainItself, IsTable, line_in, more_in, called_program, size_in}};
ghost use Rattle.quick_generate.specs.QuickOf.{main_found};

use crate::calls::{Activation, Calls};
use crate::frame::{shapes, words_of};
use crate::in_main::{InMain, append_numbers};
use crate::lining::{Made, append_locals, line};
use crate::measuring::{MOST_LINED, conds_of, measure};
use gypsy_check::Accepted;
use gypsy_space::{Procedure, Program, needs_with};
use stack_heap::Heap;
use stack_text::{Memory, Name, Shape};

/// Calls nest at most so deep.
const MOST_NESTED: u32 = 16;

/// Statements nest at most so deep.
const MOST_LEVELS: u32 = 200;

/// The procedure that is run.
fn main_of(program: &Program) -> &Procedure
    requires { program.now.main < length program.now.procedures.items }
    ensures { seen_proc result.now ≡ proc_at (seen_program program.now) program.now.main }
{
    &program.procedures[program.main as usize]
}

/// Main itself, in main.
fn in_main<H: Heap>(heap: H, main: &Procedure) -> Result<InMain, Memory>
    requires words { words_of (shapes_of (seen_proc main.now)) < 2 ^ 32 }
    requires variables { length (shapes_of (seen_proc main.now)) < 2 ^ 32 }
    requires conds { conds_of (seen_proc main.now) < 2 ^ 32 }
    ensures { IfOkUnless (H.may_refuse heap) result (IsMainItself (seen_proc main.now)) }
{
    let shapes = shapes(heap, main)?;
    let mut variables = Vec::new(heap.handle());
    append_numbers(heap, &mut variables, 0, shapes.len())?;
    let activation = Activation {
        ctrl: 2 + shapes.len() as u64,
        temp: u64::from(words_of(shapes.as_slice())),
        calls: MOST_NESTED,
    };
    Ok(InMain {
        activation,
        variables,
        first_cond: 0,
        next_cond: conds_of(main) as u32,
    })
}

/// The same formals again.
fn formals<H: Heap>(heap: H, formals: &[(Name, Shape)]) -> Result<Vec<(Name, Shape)>, Memory>
    ensures { IfOkUnless (H.may_refuse heap) result (λ made. held_shapes made.items ≡ held_shapes formals.now) }
{
    let mut made = Vec::new(heap.handle());
    for (name, shape) in formals {
        let formal = (name.copied(heap)?, *shape);
        heap.push(&mut made, formal)?;
    }
    Ok(made)
}

/// The same names again.
fn names<H: Heap>(heap: H, names: &[Name]) -> Result<Vec<Name>, Memory>
    ensures { IfOkUnless (H.may_refuse heap) result (λ made. length made.items ≡ length names.now) }
{
    let mut made = Vec::new(heap.handle());
    for name in names {
        heap.push(&mut made, name.copied(heap)?)?;
    }
    Ok(made)
}

/// Main with its calls in line, if that isn't too much.
fn lined<H: Heap>(
    heap: H,
    calls: &Calls,
    context: &InMain,
    main: &Procedure,
) -> Result<Procedure, Memory>
    requires table { IsTable calls.now }
    requires can { CanGo (called_program calls.now) (seen_statement main.now.body.value) }
    requires variables { length context.now.variables.items < 2 ^ 32 }
    requires numbers { HasNumbers context.now (length context.now.variables.items)
        (size_in calls.now context.now.activation most_levels (seen_statement main.now.body.value)) }
    ensures { let p = seen_proc main.now in
        let body = line_in calls.now context.now (length context.now.variables.items) p.body in
        let locals = p.locals ++ more_in calls.now context.now.activation p.body in
        IfOkUnless (H.may_refuse heap) result (λ made. seen_proc made ≡ record p { locals = locals; body = body }) }
{
    let mut made = Made {
        locals: Vec::new(heap.handle()),
        next: context.variables.len() as u32,
    };
    append_locals(heap, &mut made.locals, main.locals.as_slice())?;
    let body = line(heap, calls, context, MOST_LEVELS, &mut made, &main.body)?;
    Ok(Procedure {
        place: main.place,
        formals: formals(heap, main.formals.as_slice())?,
        locals: made.locals,
        conds: names(heap, main.conds.as_slice())?,
        local_conds: names(heap, main.local_conds.as_slice())?,
        body: heap.shared(body)?,
    })
}

/// Main of an accepted source with its calls in line, if that isn't too much, for stacks of these sizes.
pub(crate) fn lined_main<H: Heap>(
    heap: H,
    accepted: &Accepted,
    program: &Program,
    ctrl: u32,
    temp: u32,
) -> Result<Option<Procedure>, Memory>
    requires program { seen_program program.now ≡ program_of (source_of accepted.now) }
    requires accepted { IsAccepted (source_of accepted.now) }
    ensures { IfOkUnless (H.may_refuse heap) result
        (λ found. option_map seen_proc found ≡ main_found (source_of accepted.now) (stack_sizes ctrl temp)) }
{
    let needs = needs_with(heap, accepted, program)?;
    let calls = Calls {
        program,
        needs: &needs,
        ctrl,
        temp,
    };
    let main = main_of(program);
    let context = in_main(heap, main)?;
    if measure(&calls, context.activation, MOST_LEVELS, &main.body, 0) > MOST_LINED {
        return Ok(None);
    }
    Ok(Some(lined(heap, &calls, &context, main)?))
}

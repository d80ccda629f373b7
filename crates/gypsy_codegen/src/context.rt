//! The procedure whose code is written, and what stands round a statement of it.

ghost use Rattle.std.specs.Prelude.{◌≡◌, ◌+◌, ◌<◌, ◌^◌, length, get_or};
ghost use Rattle.stack_text.specs.declared.shape.Kind.TheVariants.{Integer};
ghost use Rattle.gypsy_syntax.specs.Programs.{proc_at, simple};
ghost use Rattle.gypsy_space.specs.{Needs.{call_need}, Nodes.{seen_cond, seen_proc, seen_program}};
ghost use Rattle.gypsy_codegen.specs.{Generated.{offset}, Lines.{label_to}, Internal.Views.{env, IsReady, program_in}, WordsOf.{number_of}};

use crate::handled::Handled;
use gypsy_semantics::{is_leave, is_passed_on};
use gypsy_space::{Condition, Needs, Procedure, Program};
use stack_text::{Kind, Name, Shape};

/// A procedure whose code is written, with what the procedures need, the shapes of its variables, and the names of all
/// programs and of the words of its frame.
#[derive(Drop)]
pub(crate) struct Context<'a, 'b, 'c, 'd, 'e> {
    pub program: &'a Program,
    pub needs: &'e Needs,
    pub procedure: u32,
    pub shapes: &'b [Shape],
    pub programs: &'c [Name],
    pub locals: &'d [Name],
}

/// What stands round a statement, the nearest first: a loop with the label behind it, and a `begin` with its conditions
/// and the label of its handler.
#[derive(Clone, Copy)]
pub(crate) enum Scopes<'a> {
    Outside,
    InLoop(u32, &'a Scopes<'a>),
    InBegin(&'a Handled<'a>, u32, &'a Scopes<'a>),
}

/// A procedure of a program.
pub(crate) fn procedure_at(program: &Program, procedure: u32) -> &Procedure
    requires { procedure < length (seen_program program.now).procs }
    ensures { seen_proc result.now ≡ proc_at (seen_program program.now) procedure }
{
    &program.procedures[procedure as usize]
}

/// How many formals a procedure has.
fn formal_count(program: &Program, procedure: u32) -> usize
    ensures { result ≡ length (proc_at (seen_program program.now) procedure).formals }
{
    match program.procedures.get(procedure as usize) {
        Some(found) => found.formals.len(),
        None => 0,
    }
}

/// How many locals a procedure has.
fn local_count(program: &Program, procedure: u32) -> usize
    ensures exact { result ≡ length (proc_at (seen_program program.now) procedure).locals }
    ensures small { result < 2 ^ 63 }
{
    match program.procedures.get(procedure as usize) {
        Some(found) => found.locals.len(),
        None => 0,
    }
}

/// Where a variable's index stands in the frame of a procedure: main's as they are, else the locals before the formals.
pub(crate) fn offset(program: &Program, procedure: u32, variable: u32) -> usize
    ensures { result ≡ offset (seen_program program.now) procedure variable }
{
    let variable = variable as usize;
    let formals = formal_count(program, procedure);
    if procedure == program.main {
        variable
    } else if variable < formals {
        local_count(program, procedure) + variable
    } else {
        variable - formals
    }
}

/// How many words of the temporary stack have to be free for a call.
pub(crate) fn temporary_call_need(context: &Context, callee: u32) -> u64
    requires ready { IsReady context.now }
    requires callee { callee < length (program_in context.now).procs }
    ensures { result ≡ (call_need (program_in context.now) callee).temp }
{
    let need = context.needs.need_of(callee);
    (need.locals_words + need.vars).max(need.locals_words + need.temp)
}

/// How many words of the control stack have to be free for a call.
pub(crate) fn control_call_need(context: &Context, callee: u32) -> u64
    requires ready { IsReady context.now }
    requires callee { callee < length (program_in context.now).procs }
    ensures { result ≡ (call_need (program_in context.now) callee).ctrl }
{
    let need = context.needs.need_of(callee);
    2 + need.vars + need.ctrl
}

/// The shape of a variable.
pub(crate) fn shape_at(shapes: &[Shape], variable: u32) -> Shape
    ensures { result ≡ get_or shapes.now variable (simple Integer) }
{
    match shapes.get(variable as usize) {
        Some(shape) => *shape,
        None => Shape {
            kind: Kind::Integer,
            length: 0,
        },
    }
}

/// The number of the normal condition, between those of routineerror and of spaceerror.
pub(crate) const NORMAL: i128 = 2;

/// The number of a condition in a procedure.
pub(crate) fn number_of(cond: Condition) -> u64
    ensures exact { result ≡ number_of (seen_cond cond) }
    ensures small { result < 2 ^ 33 }
{
    match cond {
        Condition::Leave => 0,
        Condition::Routine => 1,
        Condition::Space => 3,
        Condition::Declared(place) => place as u64 + 4,
    }
}

/// The label to which a condition goes.
pub(crate) fn label_to(context: &Context, scopes: &Scopes, cond: Condition) -> u32
    ensures { result ≡ label_to (program_in context.now) context.now.procedure (env scopes.now) (seen_cond cond) }
{
    match scopes {
        Scopes::Outside => {
            if is_passed_on(context.program, context.procedure, cond) {
                1
            } else {
                0
            }
        }
        Scopes::InLoop(behind, outer) => {
            if is_leave(cond) {
                *behind
            } else {
                label_to(context, outer, cond)
            }
        }
        Scopes::InBegin(handled, handler, outer) => {
            if handled.has(cond) {
                *handler
            } else {
                label_to(context, outer, cond)
            }
        }
    }
}

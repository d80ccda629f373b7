//! The code of predefined calls.

ghost use Rattle.std.specs.Prelude.{◌≡◌, ◌++◌, ◌∷◌, [], map, get_or};
ghost use Rattle.stack_heap.specs.Heaps.{OnOkUnless};
ghost use Rattle.gypsy_syntax.specs.{Programs.{Var, Apply}, ProgramFits.{Each}, Predefined.{predef_number, can_fail}};
ghost use Rattle.gypsy_space.specs.Nodes.{seen_arg};
ghost use Rattle.gypsy_predef.specs.Calls.{test_code};
ghost use Rattle.gypsy_codegen.specs.{Generated.{arg_length, length_code, push_args}, Lines.{apply_code}, Internal.Views.{ArgHasWord, code_in, env, IsReady}};
ghost use Rattle.gypsy_codegen.specs.Internal.Views.{program_in};

use crate::calls::{call_program, push_local};
use crate::context::{Context, Scopes, label_to, shape_at};
use crate::emitter::Emitter;
use crate::words::simple_word;
use gypsy_predef::instruction_text::number;
use gypsy_space::{Application, Argument, Condition};
use gypsy_syntax::Predef;
use piton_syntax::{PitonOp, TestKind, WordItem};
use stack_heap::Heap;
use stack_text::{Memory, Shape};

/// An argument, pushed: the index of a variable, or a literal.
fn push_arg<H: Heap>(
    heap: H,
    emitter: &mut Emitter,
    context: &Context,
    arg: &Argument,
) -> Result<(), Memory>
    requires ready { IsReady context.now }
    requires word { ArgHasWord (program_in context.now) context.now.procedure (seen_arg arg.now) }
    ensures { let pushed = push_args (program_in context.now) context.now.procedure (seen_arg arg.now ∷ []) in
        OnOkUnless (H.may_refuse heap) result (emitter.new ≡ emitter.old ++ code_in context.now pushed) }
{
    match arg {
        Argument::Variable(variable) => push_local(heap, emitter, context, *variable),
        Argument::Constant(value) => emitter.constant(heap, None, simple_word(value)),
    }
}

/// The arguments, pushed.
fn push_args<H: Heap>(
    heap: H,
    emitter: &mut Emitter,
    context: &Context,
    args: &[Argument],
) -> Result<(), Memory>
    requires ready { IsReady context.now }
    requires words { Each (ArgHasWord (program_in context.now) context.now.procedure) (map seen_arg args.now) }
    ensures { let pushed = push_args (program_in context.now) context.now.procedure (map seen_arg args.now) in
        OnOkUnless (H.may_refuse heap) result (emitter.new ≡ emitter.old ++ code_in context.now pushed) }
{
    for arg in args {
        push_arg(heap, emitter, context, arg)?;
    }
    Ok(())
}

/// The length of the array that an argument is.
fn array_length(shapes: &[Shape], args: &[Argument], at: usize) -> u32
    ensures { result ≡ arg_length shapes.now (get_or (map seen_arg args.now) at (Var 0)) }
{
    match args.get(at) {
        Some(Argument::Variable(variable)) => shape_at(shapes, *variable).length,
        Some(Argument::Constant(_)) => 0,
        None => shape_at(shapes, 0).length,
    }
}

/// The length that the array rows push last.
fn push_length<H: Heap>(
    heap: H,
    emitter: &mut Emitter,
    context: &Context,
    call: &Application,
) -> Result<(), Memory>
    ensures { let pushed = length_code context.now.shapes.now call.now.which (map seen_arg call.now.args.items) in
        OnOkUnless (H.may_refuse heap) result (emitter.new ≡ emitter.old ++ code_in context.now pushed) }
{
    let at = match call.which {
        Predef::MgIndexArray => 1,
        Predef::MgArrayElementAssignment => 0,
        _ => return Ok(()),
    };
    let length = array_length(context.shapes, call.args.as_slice(), at);
    let item = WordItem::Int(number(length as i128));
    emitter.constant(heap, None, item)
}

/// Whether a predefined procedure may signal routineerror.
pub(crate) fn can_fail(which: Predef) -> bool
    ensures { result ≡ can_fail which }
{
    which.row().can_fail
}

/// The test for a fault, and the jump to a label.
fn test_fault<H: Heap>(
    heap: H,
    emitter: &mut Emitter,
    context: &Context,
    which: Predef,
    to: u32,
) -> Result<(), Memory>
    ensures { OnOkUnless (H.may_refuse heap) result (emitter.new ≡
        emitter.old ++ code_in context.now (test_code which to)) }
{
    if !can_fail(which) {
        return Ok(());
    }
    emitter.area(heap, PitonOp::PushGlobal)?;
    emitter.plain(heap, None, PitonOp::Sub1Nat)?;
    emitter.test(heap, PitonOp::TestNatAndJump, TestKind::Zero, to)
}

/// The position of a predefined procedure in the table.
fn number_of(which: Predef) -> usize
    ensures { result ≡ predef_number which }
{
    which as usize
}

/// A predefined call.
pub(crate) fn apply<H: Heap>(
    heap: H,
    emitter: &mut Emitter,
    context: &Context,
    scopes: &Scopes,
    call: &Application,
) -> Result<(), Memory>
    requires ready { IsReady context.now }
    requires words { let args = map seen_arg call.now.args.items in
        Each (ArgHasWord (program_in context.now) context.now.procedure) args }
    ensures { let statement = Apply call.now.place call.now.which (map seen_arg call.now.args.items) in
        let code = apply_code (program_in context.now) context.now.procedure (env scopes.now) statement in
        OnOkUnless (H.may_refuse heap) result (emitter.new ≡ emitter.old ++ code_in context.now code) }
{
    push_args(heap, emitter, context, call.args.as_slice())?;
    push_length(heap, emitter, context, call)?;
    let position = context.program.procedures.len() + number_of(call.which);
    call_program(heap, emitter, context, position)?;
    let to = label_to(context, scopes, Condition::Routine);
    test_fault(heap, emitter, context, call.which, to)
}

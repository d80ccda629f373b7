//! The code of calls of procedures.

ghost use Rattle.std.specs.Prelude.{◌≡◌, ◌+◌, ◌^◌, ◌++◌, ◌∷◌, [], ◌<◌, ◌≤◌, length, map, None};
ghost use Rattle.stack_heap.specs.Heaps.{OnOkUnless};
ghost use Rattle.piton_syntax.specs.declared.op.PitonOp.TheVariants as op;
ghost use Rattle.piton_check.specs.Instruction as i;
ghost use Rattle.gypsy_syntax.specs.{Programs.{proc_at, words_of}, ProgramFits.{Each}};
ghost use Rattle.gypsy_space.specs.{Nodes.{held_values, seen_cond, seen_proc}, Needs.{call_need, local_words}};
ghost use Rattle.gypsy_predef.specs.Texts.{instruction};
ghost use Rattle.gypsy_codegen.specs.{Guard.{guard_code}, Generated.{offset, push_actuals}, Lines.{after_lines, before_code, label_to, marked_raises}};
ghost use Rattle.gypsy_codegen.specs.{Lines.{raise_labels}, Internal.Views.{code_in, env, half_guard, HasWord, index_text, IsReady, local_constants, names_of}};
ghost use Rattle.gypsy_codegen.specs.{Internal.Views.{program_in, raise_text, word_constant}, WordsOf.{local_shapes, number_of}, Written.{label_arg, written}};

use crate::context::{
    Context, Scopes, control_call_need, label_to, number_of, offset, procedure_at,
    temporary_call_need,
};
use crate::emitter::Emitter;
use crate::lines::{name_in, push_label};
use crate::words::{local_count, local_words};
use gypsy_predef::instruction_text::number;
use gypsy_space::{CallSite, Condition, Procedure};
use piton_syntax::{ArgText, PitonOp, TestKind, WordItem, WordText};
use stack_heap::Heap;
use stack_text::{Memory, Name, Value};

/// A condition is raised: its number is put into `c-c`, and its target is jumped to.
pub(crate) fn raise<H: Heap>(
    heap: H,
    emitter: &mut Emitter,
    context: &Context,
    scopes: &Scopes,
    label: Option<u32>,
    cond: Condition,
) -> Result<(), Memory>
    ensures { let c = seen_cond cond in
        let target = label_to (program_in context.now) context.now.procedure (env scopes.now) c in
        OnOkUnless (H.may_refuse heap) result (emitter.new ≡ emitter.old ++ raise_text label (number_of c) target) }
{
    let item = WordItem::Nat(number(number_of(cond) as i128));
    emitter.constant(heap, label, item)?;
    emitter.area(heap, PitonOp::PopGlobal)?;
    emitter.jump(heap, label_to(context, scopes, cond))
}

/// The index of a variable, pushed.
#[inline(always)]
pub(crate) fn push_local<H: Heap>(
    heap: H,
    emitter: &mut Emitter,
    context: &Context,
    variable: u32,
) -> Result<(), Memory>
    requires ready { IsReady context.now }
    requires word { HasWord (program_in context.now) context.now.procedure variable }
    ensures { let at = offset (program_in context.now) context.now.procedure variable in
        OnOkUnless (H.may_refuse heap) result (emitter.new ≡ emitter.old ++ code_in context.now (i.PushLocal at ∷ [])) }
{
    let at = offset(context.program, context.procedure, variable);
    let name = name_in(heap, context.locals, at)?;
    emitter.of_name(heap, PitonOp::PushLocal, name)
}

/// A call of a program.
#[inline(always)]
pub(crate) fn call_program<H: Heap>(
    heap: H,
    emitter: &mut Emitter,
    context: &Context,
    program: usize,
) -> Result<(), Memory>
    requires { program < length context.now.programs.now }
    ensures { OnOkUnless (H.may_refuse heap) result
        (emitter.new ≡ emitter.old ++ code_in context.now (i.Call program ∷ [])) }
{
    let name = name_in(heap, context.programs, program)?;
    emitter.of_name(heap, PitonOp::Call, name)
}

/// Words, pushed.
fn constants<H: Heap>(heap: H, emitter: &mut Emitter, words: Vec<WordText>) -> Result<(), Memory>
    ensures { OnOkUnless (H.may_refuse heap) result (emitter.new ≡ emitter.old ++ map word_constant words.items) }
{
    for word in words {
        let mut args = heap.with_room(1)?;
        heap.push(&mut args, ArgText::Word(word))?;
        emitter.put(heap, None, PitonOp::PushConstant, args)?;
    }
    Ok(())
}

/// The words of the locals of a callee, pushed.
fn push_words<H: Heap>(
    heap: H,
    emitter: &mut Emitter,
    locals: &[(Name, Value)],
) -> Result<(), Memory>
    ensures { OnOkUnless (H.may_refuse heap) result
        (emitter.new ≡ emitter.old ++ local_constants (held_values locals.now)) }
{
    let mut words = Vec::new(heap.handle());
    local_words(heap, &mut words, locals)?;
    constants(heap, emitter, words)
}

/// The indices of the locals of a callee, pushed. The locals have so many words together.
fn push_indices<H: Heap>(
    heap: H,
    emitter: &mut Emitter,
    locals: &[(Name, Value)],
    words: u64,
) -> Result<(), Memory>
    requires all { words_of (map (λ v. v.shape) (held_values locals.now)) ≡ words }
    requires few { words ≤ 65536 }
    ensures { OnOkUnless (H.may_refuse heap) result (emitter.new ≡
        emitter.old ++ index_text words 0 0 (map (λ v. v.shape) (held_values locals.now))) }
{
    let mut first = 0;
    for (number, (_, value)) in locals.iter().enumerate() {
        let index = words + number as u64 - 1 - first;
        emitter.of_number(heap, PitonOp::PushTempStkIndex, index)?;
        first += value.shape.item_count() as u64;
    }
    Ok(())
}

/// The indices of the actuals, pushed.
fn push_actuals<H: Heap>(
    heap: H,
    emitter: &mut Emitter,
    context: &Context,
    actuals: &[u32],
) -> Result<(), Memory>
    requires ready { IsReady context.now }
    requires words { Each (HasWord (program_in context.now) context.now.procedure) actuals.now }
    ensures { let pushed = push_actuals (program_in context.now) context.now.procedure actuals.now in
        OnOkUnless (H.may_refuse heap) result (emitter.new ≡ emitter.old ++ code_in context.now pushed) }
{
    for actual in actuals {
        push_local(heap, emitter, context, *actual)?;
    }
    Ok(())
}

/// The words of the locals of a callee.
fn callee_words(context: &Context, callee: u32) -> u64
    requires ready { IsReady context.now }
    requires callee { callee < length (program_in context.now).procs }
    ensures { result ≡ local_words (proc_at (program_in context.now) callee) }
{
    let callee = procedure_at(context.program, callee);
    local_count(callee.locals.as_slice())
}

/// The words and the indices of the locals of a callee, pushed.
fn push_locals<H: Heap>(heap: H, emitter: &mut Emitter, callee: &Procedure) -> Result<(), Memory>
    requires { local_words (seen_proc callee.now) ≤ 65536 }
    ensures { let c = seen_proc callee.now in
        OnOkUnless (H.may_refuse heap) result (emitter.new ≡
        emitter.old ++ (local_constants c.locals ++ index_text (local_words c) 0 0 (local_shapes c))) }
{
    let locals = callee.locals.as_slice();
    let words = local_count(locals);
    push_words(heap, emitter, locals)?;
    push_indices(heap, emitter, locals, words)
}

/// Half of a guard: what an instruction pushes as free words is compared with what is needed, and fewer go to a label.
fn guard<H: Heap>(
    heap: H,
    emitter: &mut Emitter,
    free: PitonOp,
    need: u64,
    to: u32,
) -> Result<(), Memory>
    ensures { OnOkUnless (H.may_refuse heap) result (emitter.new ≡ emitter.old ++ half_guard free need to) }
{
    emitter.plain(heap, None, free)?;
    emitter.constant(heap, None, WordItem::Nat(number(need as i128)))?;
    emitter.plain(heap, None, PitonOp::LtNat)?;
    emitter.test(heap, PitonOp::TestBoolAndJump, TestKind::T, to)
}

/// The guard of a call, which goes to a label where a stack lacks room.
pub(crate) fn guard_call<H: Heap>(
    heap: H,
    emitter: &mut Emitter,
    context: &Context,
    callee: u32,
    to: u32,
) -> Result<(), Memory>
    requires ready { IsReady context.now }
    requires callee { callee < length (program_in context.now).procs }
    ensures { let code = guard_code (call_need (program_in context.now) callee) to in
        OnOkUnless (H.may_refuse heap) result (emitter.new ≡ emitter.old ++ code_in context.now code) }
{
    let temporary = temporary_call_need(context, callee);
    let control = control_call_need(context, callee);
    guard(heap, emitter, PitonOp::PushTempStkFreeSize, temporary, to)?;
    guard(heap, emitter, PitonOp::PushCtrlStkFreeSize, control, to)?;
    Ok(())
}

/// What stands between the guard of a call and the call, and the call itself.
pub(crate) fn before_call<H: Heap>(
    heap: H,
    emitter: &mut Emitter,
    context: &Context,
    site: &CallSite,
) -> Result<(), Memory>
    requires ready { IsReady context.now }
    requires callee { site.now.callee < length (program_in context.now).procs }
    requires words { Each (HasWord (program_in context.now) context.now.procedure) site.now.actuals.items }
    ensures { let code = before_code (program_in context.now) context.now.procedure site.now.callee
        site.now.actuals.items in
        OnOkUnless (H.may_refuse heap) result (emitter.new ≡ emitter.old ++ code_in context.now code) }
{
    push_locals(heap, emitter, procedure_at(context.program, site.callee))?;
    push_actuals(heap, emitter, context, site.actuals.as_slice())?;
    call_program(heap, emitter, context, site.callee as usize)?;
    Ok(())
}

/// The jump by the condition that a call left: to the first label for leave and for routineerror, to the second where it is
/// normal, to the third for spaceerror, and to those that follow for the condition actuals.
fn jump_by_condition<H: Heap>(
    heap: H,
    emitter: &mut Emitter,
    first: u32,
    conds: &[Condition],
) -> Result<(), Memory>
    requires { first + 3 + length conds.now < 2 ^ 32 }
    ensures { let others = raise_labels (first + 3) (map seen_cond conds.now) in
        let targets = first ∷ first ∷ (first + 1) ∷ (first + 2) ∷ others in
        OnOkUnless (H.may_refuse heap) result
        (emitter.new ≡ emitter.old ++ instruction None op.JumpCase (map label_arg targets) ∷ []) }
{
    let mut args = Vec::new(heap.handle());
    push_label(heap, &mut args, first)?;
    push_label(heap, &mut args, first)?;
    push_label(heap, &mut args, first + 1)?;
    push_label(heap, &mut args, first + 2)?;
    raise_labels(heap, &mut args, first + 3, conds)?;
    emitter.put(heap, None, PitonOp::JumpCase, args)
}

/// The labels of the raises of condition actuals, from this one on.
fn raise_labels<H: Heap>(
    heap: H,
    args: &mut Vec<ArgText>,
    first: u32,
    conds: &[Condition],
) -> Result<(), Memory>
    requires { first + length conds.now < 2 ^ 32 }
    ensures { let labels = raise_labels first (map seen_cond conds.now) in
        OnOkUnless (H.may_refuse heap) result (args.new.items ≡ args.old.items ++ map label_arg labels) }
{
    for (number, _cond) in conds.iter().enumerate() {
        let label = first + number as u32;
        push_label(heap, args, label)?;
    }
    Ok(())
}

/// The raises of condition actuals, with labels from this one on.
fn raises<H: Heap>(
    heap: H,
    emitter: &mut Emitter,
    context: &Context,
    scopes: &Scopes,
    first: u32,
    conds: &[Condition],
) -> Result<(), Memory>
    requires { first + length conds.now < 2 ^ 32 }
    ensures { let lines = marked_raises (program_in context.now) context.now.procedure (env scopes.now) first
        (map seen_cond conds.now) in
        OnOkUnless (H.may_refuse heap) result
        (emitter.new ≡ emitter.old ++ map (written (names_of context.now)) lines) }
{
    for (number, cond) in conds.iter().enumerate() {
        let label = first + number as u32;
        raise(heap, emitter, context, scopes, Some(label), *cond)?;
    }
    Ok(())
}

/// What follows a call.
pub(crate) fn after_call<H: Heap>(
    heap: H,
    emitter: &mut Emitter,
    context: &Context,
    site: &CallSite,
    scopes: &Scopes,
    first: u32,
) -> Result<(), Memory>
    requires ready { IsReady context.now }
    requires callee { site.now.callee < length (program_in context.now).procs }
    requires labels { first + 3 + length site.now.conds.items < 2 ^ 32 }
    ensures { let q = program_in context.now in
        let lines = after_lines q context.now.procedure (env scopes.now) first (local_words (proc_at q site.now.callee))
        (map seen_cond site.now.conds.items) in
        OnOkUnless (H.may_refuse heap) result
        (emitter.new ≡ emitter.old ++ map (written (names_of context.now)) lines) }
{
    let words = callee_words(context, site.callee);
    emitter.of_number(heap, PitonOp::PopStar, words)?;
    emitter.area(heap, PitonOp::PushGlobal)?;
    jump_by_condition(heap, emitter, first, site.conds.as_slice())?;
    raise(
        heap,
        emitter,
        context,
        scopes,
        Some(first),
        Condition::Routine,
    )?;
    raise(
        heap,
        emitter,
        context,
        scopes,
        Some(first + 2),
        Condition::Space,
    )?;
    raises(
        heap,
        emitter,
        context,
        scopes,
        first + 3,
        site.conds.as_slice(),
    )?;
    emitter.plain(heap, Some(first + 1), PitonOp::NoOp)?;
    Ok(())
}

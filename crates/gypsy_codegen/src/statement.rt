//! The code of statements, in one pass.

ghost use Rattle.std.specs.Prelude.{◌≡◌, ◌+◌, ◌^◌, ◌++◌, ◌∷◌, [], ◌<◌, length, map, None, Some, IfOk};
ghost use Rattle.stack_heap.specs.Heaps.{OnOkUnless};
ghost use Rattle.piton_syntax.specs.declared.op.PitonOp.TheVariants as op;
ghost use Rattle.piton_syntax.specs.declared.test_kind.TestFamily.TheVariants as family;
ghost use Rattle.piton_syntax.specs.declared.test_kind.TestKind.TheVariants as test;
ghost use Rattle.piton_check.specs.Instruction as i;
ghost use Rattle.gypsy_syntax.specs.{Programs.{Call, Loop}, ProgramFits.{Each}};
ghost use Rattle.gypsy_space.specs.Nodes.{seen_cond, seen_statement, seen_statements};
ghost use Rattle.gypsy_predef.specs.Texts.{instruction};
ghost use Rattle.gypsy_codegen.specs.{Generated.{InBegin, offset}, Lines.{labels, lines}, Internal.Views.{code_in, env, HasWord, IsReady, labelled}};
ghost use Rattle.gypsy_codegen.specs.{Internal.Views.{NamesAreThere, names_of, normal_text, program_in, statement_text}, Written.{label_arg, Marked, written}};

use crate::apply::apply;
use crate::calls::{after_call, before_call, guard_call, push_local, raise};
use crate::context::{Context, NORMAL, Scopes};
use crate::emitter::Emitter;
use crate::handled::Handled;
use gypsy_predef::instruction_text::number;
use gypsy_space::{CallSite, Condition, Node};
use piton_syntax::{PitonOp, TestKind, WordItem};
use stack_heap::Heap;
use stack_text::Memory;
use std::rc::Rc;

/// The condition is normal again, from a label on.
fn normal<H: Heap>(heap: H, emitter: &mut Emitter, label: u32) -> Result<(), Memory>
    ensures { OnOkUnless (H.may_refuse heap) result (emitter.new ≡ emitter.old ++ normal_text label) }
{
    emitter.constant(heap, Some(label), WordItem::Nat(number(NORMAL)))?;
    emitter.area(heap, PitonOp::PopGlobal)
}

/// A jump, and behind it the label from which on the condition is normal again.
fn jump_to_normal<H: Heap>(
    heap: H,
    emitter: &mut Emitter,
    to: u32,
    label: u32,
) -> Result<(), Memory>
    ensures { let text = instruction None op.Jump (label_arg to ∷ []) ∷ normal_text label in
        OnOkUnless (H.may_refuse heap) result (emitter.new ≡ emitter.old ++ text) }
{
    emitter.jump(heap, to)?;
    normal(heap, emitter, label)
}

/// A jump, and behind it a label.
fn jump_over<H: Heap>(heap: H, emitter: &mut Emitter, to: u32, label: u32) -> Result<(), Memory>
    ensures { let text = instruction None op.Jump (label_arg to ∷ []) ∷ labelled (Some label) op.NoOp [] ∷ [] in
        OnOkUnless (H.may_refuse heap) result (emitter.new ≡ emitter.old ++ text) }
{
    emitter.jump(heap, to)?;
    emitter.plain(heap, Some(label), PitonOp::NoOp)
}

/// The test of an `if`, and the jump to a label where it is false.
fn branch<H: Heap>(
    heap: H,
    emitter: &mut Emitter,
    context: &Context,
    variable: u32,
    to: u32,
) -> Result<(), Memory>
    requires ready { IsReady context.now }
    requires word { HasWord (program_in context.now) context.now.procedure variable }
    ensures { let at = offset (program_in context.now) context.now.procedure variable in
        let code = i.PushLocal at ∷ i.FetchTempStk ∷ i.TestAndJump family.Bool test.F to ∷ [] in
        OnOkUnless (H.may_refuse heap) result (emitter.new ≡ emitter.old ++ code_in context.now code) }
{
    push_local(heap, emitter, context, variable)?;
    emitter.plain(heap, None, PitonOp::FetchTempStk)?;
    emitter.test(heap, PitonOp::TestBoolAndJump, TestKind::F, to)
}

/// A call of a procedure.
fn call<H: Heap>(
    heap: H,
    emitter: &mut Emitter,
    context: &Context,
    site: &CallSite,
    scopes: &Scopes,
    first: u32,
) -> Result<(), Memory>
    requires ready { IsReady context.now }
    requires callee { site.now.callee < length (program_in context.now).procs }
    requires words { Each (HasWord (program_in context.now) context.now.procedure) site.now.actuals.items }
    requires labels { first + 3 + length site.now.conds.items < 2 ^ 32 }
    ensures { let conds = map seen_cond site.now.conds.items in
        let statement = Call site.now.place site.now.callee site.now.actuals.items conds in
        OnOkUnless (H.may_refuse heap) result
        (emitter.new ≡ emitter.old ++ statement_text context.now scopes.now first statement) }
{
    guard_call(heap, emitter, context, site.callee, first + 2)?;
    before_call(heap, emitter, context, site)?;
    after_call(heap, emitter, context, site, scopes, first)?;
    Ok(())
}

/// A loop of a body, and the next label behind it. Its place is not in its lines.
#[cycle(statements)]
fn repetition<H: Heap>(
    heap: H,
    emitter: &mut Emitter,
    context: &Context,
    body: &Rc<Node>,
    scopes: &Scopes,
    first: u32,
) -> Result<u32, Memory>
    requires ready { IsReady context.now }
    requires names { NamesAreThere (program_in context.now) context.now.procedure (seen_statement body.now.value) }
    requires labels { first + (labels (seen_statement body.now.value) + 2) < 2 ^ 32 }
    ensures lines { let text = statement_text context.now scopes.now first (Loop 0 (seen_statement body.now.value)) in
        OnOkUnless (H.may_refuse heap) result (emitter.new ≡ emitter.old ++ text) }
    ensures next { IfOk result (λ next. next ≡ first + (labels (seen_statement body.now.value) + 2)) }
{
    emitter.plain(heap, Some(first), PitonOp::NoOp)?;
    let inner = Scopes::InLoop(first + 1, &*scopes);
    let next = statement(heap, emitter, context, body, &inner, first + 2)?;
    jump_to_normal(heap, emitter, first, first + 1)?;
    Ok(next)
}

/// The body of a `begin` with these conditions, whose handler has the first label.
#[cycle(statements)]
fn guarded<H: Heap>(
    heap: H,
    emitter: &mut Emitter,
    context: &Context,
    body: &Rc<Node>,
    conds: &Rc<Vec<Condition>>,
    scopes: &Scopes,
    first: u32,
) -> Result<u32, Memory>
    requires ready { IsReady context.now }
    requires names { NamesAreThere (program_in context.now) context.now.procedure (seen_statement body.now.value) }
    requires labels { first + 2 + labels (seen_statement body.now.value) < 2 ^ 32 }
    ensures lines { let inside = InBegin (map seen_cond conds.now.value.items) first ∷ env scopes.now in
        let code = lines (program_in context.now) context.now.procedure inside (first + 2) in
        let text = map (written (names_of context.now)) (code (seen_statement body.now.value)) in
        OnOkUnless (H.may_refuse heap) result (emitter.new ≡ emitter.old ++ text) }
    ensures next { IfOk result (λ next. next ≡ first + 2 + labels (seen_statement body.now.value)) }
{
    let handled = Handled::new(heap, conds.as_slice())?;
    let inner = Scopes::InBegin(&handled, first, &*scopes);
    statement(heap, emitter, context, body, &inner, first + 2)
}

/// The second statement of two, and behind it the label where both go on.
#[cycle(statements)]
fn second<H: Heap>(
    heap: H,
    emitter: &mut Emitter,
    context: &Context,
    node: &Rc<Node>,
    scopes: &Scopes,
    first: u32,
    label: u32,
) -> Result<u32, Memory>
    requires ready { IsReady context.now }
    requires names { NamesAreThere (program_in context.now) context.now.procedure (seen_statement node.now.value) }
    requires labels { first + labels (seen_statement node.now.value) < 2 ^ 32 }
    ensures lines { let names = names_of context.now in
        let code = lines (program_in context.now) context.now.procedure (env scopes.now) first in
        let text = map (written names) (code (seen_statement node.now.value) ++ Marked label i.NoOp ∷ []) in
        OnOkUnless (H.may_refuse heap) result (emitter.new ≡ emitter.old ++ text) }
    ensures next { IfOk result (λ next. next ≡ first + labels (seen_statement node.now.value)) }
{
    let next = statement(heap, emitter, context, node, scopes, first)?;
    emitter.plain(heap, Some(label), PitonOp::NoOp)?;
    Ok(next)
}

/// A statement whose first label is this one, and the next label behind it.
#[cycle(statements)]
pub(crate) fn statement<H: Heap>(
    heap: H,
    emitter: &mut Emitter,
    context: &Context,
    node: &Rc<Node>,
    scopes: &Scopes,
    first: u32,
) -> Result<u32, Memory>
    requires ready { IsReady context.now }
    requires names { NamesAreThere (program_in context.now) context.now.procedure (seen_statement node.now.value) }
    requires labels { first + labels (seen_statement node.now.value) < 2 ^ 32 }
    ensures lines { let text = statement_text context.now scopes.now first (seen_statement node.now.value) in
        OnOkUnless (H.may_refuse heap) result (emitter.new ≡ emitter.old ++ text) }
    ensures next { IfOk result (λ next. next ≡ first + labels (seen_statement node.now.value)) }
{
    match &**node {
        Node::NoOp(_) => {
            emitter.plain(heap, None, PitonOp::NoOp)?;
            Ok(first)
        }
        Node::Signal(_, cond) => {
            raise(heap, emitter, context, scopes, None, *cond)?;
            Ok(first)
        }
        Node::Seq(nodes) => {
            let next = parts(heap, emitter, context, nodes, scopes, first)?;
            Ok(next)
        }
        Node::Loop(_, body) => repetition(heap, emitter, context, body, scopes, first),
        Node::If(_, variable, yes, no) => {
            branch(heap, emitter, context, *variable, first)?;
            let behind = statement(heap, emitter, context, yes, scopes, first + 2)?;
            jump_over(heap, emitter, first + 1, first)?;
            let next = second(heap, emitter, context, no, scopes, behind, first + 1)?;
            Ok(next)
        }
        Node::Begin(_, body, conds, arm) => {
            let behind = guarded(heap, emitter, context, body, conds, scopes, first)?;
            jump_to_normal(heap, emitter, first + 1, first)?;
            let next = second(heap, emitter, context, arm, scopes, behind, first + 1)?;
            Ok(next)
        }
        Node::Call(site) => {
            call(heap, emitter, context, site, scopes, first)?;
            Ok(first + 3 + site.conds.len() as u32)
        }
        Node::Apply(site) => {
            apply(heap, emitter, context, scopes, site)?;
            Ok(first)
        }
    }
}

/// The parts of a sequence.
#[cycle(statements)]
fn parts<H: Heap>(
    heap: H,
    emitter: &mut Emitter,
    context: &Context,
    parts: &Rc<Vec<Rc<Node>>>,
    scopes: &Scopes,
    first: u32,
) -> Result<u32, Memory>
    requires ready { IsReady context.now }
    requires names { let parts = seen_statements parts.now.value.items in
        NamesAreThere (program_in context.now) context.now.procedure parts }
    requires labels { first + labels (seen_statements parts.now.value.items) < 2 ^ 32 }
    ensures lines { let text = statement_text context.now scopes.now first (seen_statements parts.now.value.items) in
        OnOkUnless (H.may_refuse heap) result (emitter.new ≡ emitter.old ++ text) }
    ensures next { IfOk result (λ next. next ≡ first + labels (seen_statements parts.now.value.items)) }
{
    let mut next = first;
    for index in 0..parts.len() {
        next = statement(heap, emitter, context, &parts[index], scopes, next)?;
    }
    Ok(next)
}

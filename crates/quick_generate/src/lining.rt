//! Statements with their calls in line.

ghost use Rattle.std.specs.Prelude.{◌≡◌, ◌+◌, ◌-◌, ◌++◌, ◌∷◌, ◌^◌, ◌<◌, [], length, map};
ghost use Rattle.stack_heap.specs.Heaps.{IfOkUnless, OnOkUnless};
ghost use Rattle.gypsy_syntax.specs.{Programs.{Apply, Begin, Declared, Lit, Signal, Var}, declared.predef.Predef.TheVariants.{MgSimpleConstantAssignment}};
ghost use Rattle.gypsy_space.specs.Nodes.{held_values, seen_cond, seen_statement, seen_statements};
ghost use Rattle.quick_gypsy.specs.InLine.{after_locals, passing};
ghost use Rattle.quick_generate.specs.{Lining.{CanGo, inside}, LinedViews.{HasNumbers, IsTable, line_in, more_in, called_program, seen_call, size_in}};

use crate::calls::Calls;
use crate::in_main::InMain;
use crate::measuring::conds_of;
use gypsy_space::{Application, Argument, CallSite, Condition, Node};
use gypsy_syntax::Predef;
use stack_heap::Heap;
use stack_text::{Memory, Name, Value};
use std::rc::Rc;

/// Main's locals with those of the calls so far, and the first variable of main that isn't taken.
#[derive(Drop)]
pub(crate) struct Made {
    pub locals: Vec<(Name, Value)>,
    pub next: u32,
}

/// Appends locals.
pub(crate) fn append_locals<H: Heap>(
    heap: H,
    made: &mut Vec<(Name, Value)>,
    locals: &[(Name, Value)],
) -> Result<(), Memory>
    ensures { OnOkUnless (H.may_refuse heap) result
        (held_values made.new.items ≡ held_values made.old.items ++ held_values locals.now) }
{
    for (name, value) in locals {
        let local = (name.copied(heap)?, value.copied(heap)?);
        heap.push(made, local)?;
    }
    Ok(())
}

/// Takes variables of main for a callee's locals.
fn take_locals<H: Heap>(heap: H, made: &mut Made, locals: &[(Name, Value)]) -> Result<(), Memory>
    requires { made.now.next + length locals.now < 2 ^ 32 }
    ensures locals { OnOkUnless (H.may_refuse heap) result
        (held_values made.new.locals.items ≡ held_values made.old.locals.items ++ held_values locals.now) }
    ensures next { OnOkUnless (H.may_refuse heap) result (made.new.next ≡ made.old.next + length locals.now) }
{
    append_locals(heap, &mut made.locals, locals)?;
    made.next += locals.len() as u32;
    Ok(())
}

/// The assignment of a first value to a variable of main.
fn assignment<H: Heap>(
    heap: H,
    place: u32,
    variable: u32,
    value: &Value,
) -> Result<Rc<Node>, Memory>
    ensures { let args = Var variable ∷ Lit value.now ∷ [] in IfOkUnless (H.may_refuse heap) result
        (λ made. seen_statement made.value ≡ Apply place MgSimpleConstantAssignment args) }
{
    let mut args = Vec::new(heap.handle());
    heap.push(&mut args, Argument::Variable(variable))?;
    heap.push(&mut args, Argument::Constant(value.copied(heap)?))?;
    let application = Application {
        place,
        which: Predef::MgSimpleConstantAssignment,
        args,
    };
    let node = Node::Apply(heap.shared(application)?);
    Ok(heap.shared(node)?)
}

/// A body behind the assignments of the locals' first values to the variables from `next` on.
fn after_locals<H: Heap>(
    heap: H,
    place: u32,
    next: u32,
    locals: &[(Name, Value)],
    body: Rc<Node>,
) -> Result<Node, Memory>
    requires { next + length locals.now < 2 ^ 32 }
    ensures { let statement = after_locals place next (held_values locals.now) (seen_statement body.value) in
        IfOkUnless (H.may_refuse heap) result (λ made. seen_statement made ≡ statement) }
{
    let mut parts = Vec::new(heap.handle());
    for (index, (_, value)) in locals.iter().enumerate() {
        let part = assignment(heap, place, next + index as u32, value)?;
        heap.push(&mut parts, part)?;
    }
    heap.push(&mut parts, body)?;
    Ok(Node::Seq(heap.shared(parts)?))
}

/// A body round which the condition of this number becomes another one.
fn passing_one<H: Heap>(
    heap: H,
    place: u32,
    number: u32,
    cond: Condition,
    body: Node,
) -> Result<Node, Memory>
    ensures { let signal = Signal place (seen_cond cond) in
        let statement = Begin place (seen_statement body) (Declared number ∷ []) signal in
        IfOkUnless (H.may_refuse heap) result (λ made. seen_statement made ≡ statement) }
{
    let handled = heap.shared(heap.copied(&[Condition::Declared(number)])?)?;
    let signal = heap.shared(Node::Signal(place, cond))?;
    Ok(Node::Begin(place, heap.shared(body)?, handled, signal))
}

/// A body round which the conditions from this number on become these.
fn passing<H: Heap>(
    heap: H,
    place: u32,
    number: u32,
    conds: &[Condition],
    body: Node,
) -> Result<Node, Memory>
    requires { number + length conds.now < 2 ^ 32 }
    ensures { let statement = passing place number (map seen_cond conds.now) (seen_statement body) in
        IfOkUnless (H.may_refuse heap) result (λ made. seen_statement made ≡ statement) }
{
    let mut inner = body;
    for index in 0..conds.len() {
        inner = passing_one(heap, place, number + index as u32, conds[index], inner)?;
    }
    Ok(inner)
}

/// A statement with its calls in line. Statements may still nest so many levels deep in it.
#[cycle(lines)]
pub(crate) fn line<H: Heap>(
    heap: H,
    calls: &Calls,
    context: &InMain,
    levels: u32,
    made: &mut Made,
    node: &Rc<Node>,
) -> Result<Node, Memory>
    requires table { IsTable calls.now }
    requires can { CanGo (called_program calls.now) (seen_statement node.now.value) }
    requires numbers { let size = size_in calls.now context.now.activation levels (seen_statement node.now.value) in
        HasNumbers context.now made.now.next size }
    ensures statement { let statement = line_in calls.now context.now made.old.next (seen_statement node.now.value) in
        IfOkUnless (H.may_refuse heap) result (λ lined. seen_statement lined ≡ statement) }
    ensures locals { let more = more_in calls.now context.now.activation (seen_statement node.now.value) in
        OnOkUnless (H.may_refuse heap) result
        (held_values made.new.locals.items ≡ held_values made.old.locals.items ++ more) }
    ensures next { let more = more_in calls.now context.now.activation (seen_statement node.now.value) in
        OnOkUnless (H.may_refuse heap) result (made.new.next ≡ made.old.next + length more) }
{
    match &**node {
        Node::NoOp(place) => Ok(Node::NoOp(*place)),
        Node::Signal(place, cond) => Ok(Node::Signal(*place, context.condition(*cond))),
        Node::Seq(parts) => {
            let lined = line_parts(heap, calls, context, levels, made, parts)?;
            Ok(Node::Seq(heap.shared(lined)?))
        }
        Node::Loop(place, body) => {
            let inner = line_inside(heap, calls, context, levels, made, body)?;
            Ok(Node::Loop(*place, inner))
        }
        Node::If(place, variable, yes, no) => {
            let first = line_inside(heap, calls, context, levels, made, yes)?;
            let second = line_inside(heap, calls, context, levels, made, no)?;
            Ok(Node::If(*place, context.variable(*variable), first, second))
        }
        Node::Begin(place, body, conds, arm) => {
            let handled = heap.shared(context.conditions(heap, conds.as_slice())?)?;
            let first = line_inside(heap, calls, context, levels, made, body)?;
            let second = line_inside(heap, calls, context, levels, made, arm)?;
            Ok(Node::Begin(*place, first, handled, second))
        }
        Node::Call(site) => line_call(heap, calls, context, levels, made, site),
        Node::Apply(site) => context.application(heap, site),
    }
}

/// A statement in another one.
#[cycle(lines)]
fn line_inside<H: Heap>(
    heap: H,
    calls: &Calls,
    context: &InMain,
    levels: u32,
    made: &mut Made,
    node: &Rc<Node>,
) -> Result<Rc<Node>, Memory>
    requires table { IsTable calls.now }
    requires can { CanGo (called_program calls.now) (seen_statement node.now.value) }
    requires numbers { let size = size_in calls.now context.now.activation (levels - 1) in
        HasNumbers context.now made.now.next (inside levels (size (seen_statement node.now.value))) }
    ensures statement { let statement = line_in calls.now context.now made.old.next (seen_statement node.now.value) in
        IfOkUnless (H.may_refuse heap) result (λ lined. seen_statement lined.value ≡ statement) }
    ensures locals { let more = more_in calls.now context.now.activation (seen_statement node.now.value) in
        OnOkUnless (H.may_refuse heap) result
        (held_values made.new.locals.items ≡ held_values made.old.locals.items ++ more) }
    ensures next { let more = more_in calls.now context.now.activation (seen_statement node.now.value) in
        OnOkUnless (H.may_refuse heap) result (made.new.next ≡ made.old.next + length more) }
{
    let lined = line(heap, calls, context, levels - 1, made, node)?;
    Ok(heap.shared(lined)?)
}

/// The parts of a sequence.
#[cycle(lines)]
fn line_parts<H: Heap>(
    heap: H,
    calls: &Calls,
    context: &InMain,
    levels: u32,
    made: &mut Made,
    parts: &Rc<Vec<Rc<Node>>>,
) -> Result<Vec<Rc<Node>>, Memory>
    requires table { IsTable calls.now }
    requires can { CanGo (called_program calls.now) (seen_statements parts.now.value.items) }
    requires numbers { let size = size_in calls.now context.now.activation levels in
        HasNumbers context.now made.now.next (size (seen_statements parts.now.value.items)) }
    ensures statement { let line = line_in calls.now context.now made.old.next in
        IfOkUnless (H.may_refuse heap) result
        (λ lined. seen_statements lined.items ≡ line (seen_statements parts.now.value.items)) }
    ensures locals { let more = more_in calls.now context.now.activation (seen_statements parts.now.value.items) in
        OnOkUnless (H.may_refuse heap) result
        (held_values made.new.locals.items ≡ held_values made.old.locals.items ++ more) }
    ensures next { let more = more_in calls.now context.now.activation (seen_statements parts.now.value.items) in
        OnOkUnless (H.may_refuse heap) result (made.new.next ≡ made.old.next + length more) }
{
    let mut lined = Vec::new(heap.handle());
    for index in 0..parts.len() {
        let part = line_inside(heap, calls, context, levels, made, &parts[index])?;
        heap.push(&mut lined, part)?;
    }
    Ok(lined)
}

/// A call: the callee's body, or spaceerror if the call has no room.
#[cycle(lines)]
fn line_call<H: Heap>(
    heap: H,
    calls: &Calls,
    context: &InMain,
    levels: u32,
    made: &mut Made,
    site: &CallSite,
) -> Result<Node, Memory>
    requires table { IsTable calls.now }
    requires can { CanGo (called_program calls.now) (seen_call site.now) }
    requires numbers { let size = size_in calls.now context.now.activation levels (seen_call site.now) in
        HasNumbers context.now made.now.next size }
    ensures statement { let statement = line_in calls.now context.now made.old.next (seen_call site.now) in
        IfOkUnless (H.may_refuse heap) result (λ lined. seen_statement lined ≡ statement) }
    ensures locals { let more = more_in calls.now context.now.activation (seen_call site.now) in
        OnOkUnless (H.may_refuse heap) result
        (held_values made.new.locals.items ≡ held_values made.old.locals.items ++ more) }
    ensures next { let more = more_in calls.now context.now.activation (seen_call site.now) in
        OnOkUnless (H.may_refuse heap) result (made.new.next ≡ made.old.next + length more) }
{
    if !calls.has_room(site.callee, context.activation) {
        return Ok(Node::Signal(site.place, Condition::Space));
    }
    let callee = calls.procedure(site.callee);
    let inner = context.callee(heap, calls, site, made.next)?;
    let next = made.next;
    take_locals(heap, made, callee.locals.as_slice())?;
    let left = levels - conds_of(callee) as u32;
    let body = line_inside(heap, calls, &inner, left, made, &callee.body)?;
    let begun = after_locals(heap, site.place, next, callee.locals.as_slice(), body)?;
    let ways = context.ways_out(heap, site.conds.as_slice(), callee.local_conds.len())?;
    passing(heap, site.place, context.next_cond, ways.as_slice(), begun)
}

//! How much is made if calls go in line.

ghost use Rattle.std.specs.Prelude.{◌≡◌, ◌+◌, ◌-◌};
ghost use Rattle.gypsy_syntax.specs.Programs.{conds_of};
ghost use Rattle.gypsy_space.specs.Nodes.{held_values, seen_proc, seen_statement, seen_statements};
ghost use Rattle.quick_generate.specs.{Lining.{CanGo, call_size, capped_size, inside, locals_size}, LinedViews.{IsTable, called_program, seen_call, size_in}};

use crate::calls::{Activation, Calls};
use gypsy_space::{CallSite, Node, Procedure};
use stack_text::{Name, Value};
use std::rc::Rc;

/// So much may be made, 2^20.
pub(crate) const MOST_LINED: u64 = 1 << 20;

/// More than that.
const TOO_MUCH: u64 = MOST_LINED + 1;

/// A sum. Sums that are too much are all one.
fn sum(left: u64, right: u64) -> u64
    ensures { result ≡ capped_size (left + right) }
{
    left.saturating_add(right).min(TOO_MUCH)
}

/// A variable for each local. An array is too much.
fn locals_size(locals: &[(Name, Value)]) -> u64
    ensures { result ≡ capped_size (locals_size (held_values locals.now)) }
{
    let mut size = 0;
    for (_, value) in locals {
        size = sum(size, if value.shape.length == 0 { 1 } else { TOO_MUCH });
    }
    size
}

/// How many conditions a procedure has.
pub(crate) fn conds_of(procedure: &Procedure) -> u64
    ensures { result ≡ conds_of (seen_proc procedure.now) }
{
    procedure.conds.len() as u64 + procedure.local_conds.len() as u64
}

/// What a call takes beside its body.
fn call_size(callee: &Procedure) -> u64
    ensures { result ≡ capped_size (call_size (seen_proc callee.now)) }
{
    let handlers = sum(1, conds_of(callee));
    sum(handlers, locals_size(callee.locals.as_slice()))
}

/// How much there is with what is made of a statement, or that it is too much. Statements may still nest so many levels deep.
#[cycle(sizes)]
pub(crate) fn measure(
    calls: &Calls,
    activation: Activation,
    levels: u32,
    node: &Rc<Node>,
    so_far: u64,
) -> u64
    requires table { IsTable calls.now }
    requires can { CanGo (called_program calls.now) (seen_statement node.now.value) }
    ensures { let size = size_in calls.now activation levels (seen_statement node.now.value) in
        result ≡ capped_size (so_far + size) }
{
    match &**node {
        Node::NoOp(_) | Node::Signal(_, _) | Node::Apply(_) => sum(so_far, 1),
        Node::Seq(parts) => measure_parts(calls, activation, levels, parts, so_far),
        Node::Loop(_, body) => measure_inside(calls, activation, levels, body, sum(so_far, 1)),
        Node::If(_, _, yes, no) => {
            let first = measure_inside(calls, activation, levels, yes, sum(so_far, 1));
            measure_inside(calls, activation, levels, no, first)
        }
        Node::Begin(_, body, _, arm) => {
            let first = measure_inside(calls, activation, levels, body, sum(so_far, 1));
            measure_inside(calls, activation, levels, arm, first)
        }
        Node::Call(site) => measure_call(calls, activation, levels, site, so_far),
    }
}

/// The same of a statement that stands in another one.
#[cycle(sizes)]
fn measure_inside(
    calls: &Calls,
    activation: Activation,
    levels: u32,
    node: &Rc<Node>,
    so_far: u64,
) -> u64
    requires table { IsTable calls.now }
    requires can { CanGo (called_program calls.now) (seen_statement node.now.value) }
    ensures { let size = size_in calls.now activation (levels - 1) (seen_statement node.now.value) in
        result ≡ capped_size (so_far + inside levels size) }
{
    if levels == 0 || so_far > MOST_LINED {
        return TOO_MUCH;
    }
    measure(calls, activation, levels - 1, node, so_far)
}

/// The same of the parts of a sequence.
#[cycle(sizes)]
fn measure_parts(
    calls: &Calls,
    activation: Activation,
    levels: u32,
    parts: &Rc<Vec<Rc<Node>>>,
    so_far: u64,
) -> u64
    requires table { IsTable calls.now }
    requires can { CanGo (called_program calls.now) (seen_statements parts.now.value.items) }
    ensures { let size = size_in calls.now activation levels (seen_statements parts.now.value.items) in
        result ≡ capped_size (so_far + size) }
{
    let mut size = sum(so_far, 0);
    for index in 0..parts.len() {
        size = measure_inside(calls, activation, levels, &parts[index], sum(size, 1));
    }
    size
}

/// The same of a call.
#[cycle(sizes)]
fn measure_call(
    calls: &Calls,
    activation: Activation,
    levels: u32,
    site: &CallSite,
    so_far: u64,
) -> u64
    requires table { IsTable calls.now }
    requires can { CanGo (called_program calls.now) (seen_call site.now) }
    ensures { result ≡ capped_size (so_far + size_in calls.now activation levels (seen_call site.now)) }
{
    if activation.calls == 0 {
        return TOO_MUCH;
    }
    if !calls.has_room(site.callee, activation) {
        return sum(so_far, 1);
    }
    let callee = calls.procedure(site.callee);
    let left = u64::from(levels).saturating_sub(conds_of(callee)) as u32;
    let inner = calls.activation(site.callee, activation);
    measure_inside(
        calls,
        inner,
        left,
        &callee.body,
        sum(so_far, call_size(callee)),
    )
}

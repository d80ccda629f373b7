//! What statements and procedures need.

ghost use Rattle.std.specs.Prelude.{◌≡◌, ◌+◌, ◌^◌, ◌*◌, ◌≤◌, ◌<◌, IfOk, map, length};
ghost use Rattle.stack_heap.specs.Heaps.{IfOkUnless};
ghost use Rattle.gypsy_syntax.specs.{Programs.{proc_at, words_of}, Resolved.{program_of}, Views.SourceView.{source_of}};
ghost use Rattle.gypsy_check.specs.Accepted.{IsAccepted};
ghost use Rattle.gypsy_space.specs.{Events.{AreNeeds, AreSmall, IsSmall, need_of}, Needs.{arg_words, args_words, local_words, vars_of}, Nodes.{held_values}};
ghost use Rattle.gypsy_space.specs.{Nodes.{seen_arg, seen_program, seen_statement, seen_statements}, StatementNeeds.{capped, capped_need, joined, AreCapped}};
ghost use Rattle.gypsy_space.specs.StatementNeeds.{IsStatementNeed};

use crate::need::{Need, Needs};
use crate::program::{Argument, CallSite, Node, Program};
use crate::resolving::resolve;
use gypsy_check::Accepted;
use stack_heap::Heap;
use stack_text::{Memory, Name, Value};
use std::rc::Rc;

/// Sums are exact up to this number, 2^60, and stay there. No source that keeps the form comes so far.
const MOST: u64 = 1 << 60;

/// The words of the temporary stack that a call compares before it has room.
const CALL_TEMP: u64 = 2;

/// What a statement needs.
#[derive(Clone, Copy, Debug)]
pub struct StatementNeed {
    /// The most words of the temporary stack that one of its calls takes, those of its callee apart.
    pub temp: u64,
    /// The greatest frame of its predefined calls, in words of the control stack.
    pub ctrl: u64,
    /// The words of its code, exact up to 2^60.
    pub words: u64,
}

/// What has no call, and these words of code.
fn plain_need(words: u64) -> StatementNeed
    ensures { result ≡ record { temp = 0; ctrl = 0; words = words } }
{
    StatementNeed {
        temp: 0,
        ctrl: 0,
        words,
    }
}

/// A sum.
fn sum(left: u64, right: u64) -> u64
    ensures { result ≡ capped (left + right) }
{
    left.saturating_add(right).min(MOST)
}

/// The words of a procedure's locals.
fn local_words(locals: &[(Name, Value)]) -> u64
    ensures { result ≡ capped (words_of (map (λ v. v.shape) (held_values locals.now))) }
{
    let mut words = 0;
    for (_, value) in locals {
        words = sum(words, value.shape.item_count() as u64);
    }
    words
}

/// The words of code of an argument.
fn arg_words(arg: &Argument) -> u64
    ensures { result ≡ arg_words (seen_arg arg.now) }
{
    match arg {
        Argument::Variable(_) => 4,
        Argument::Constant(_) => 2,
    }
}

/// The words of code of a call's arguments.
fn args_words(args: &[Argument]) -> u64
    ensures { result ≡ capped (args_words (map seen_arg args.now)) }
{
    let mut words = 0;
    for arg in args {
        words = sum(words, arg_words(arg));
    }
    words
}

/// The words of the locals of a procedure.
fn local_words_of(program: &Program, procedure: u32) -> u64
    ensures { result ≡ capped (local_words (proc_at (seen_program program.now) procedure)) }
{
    match program.procedures.get(procedure as usize) {
        Some(procedure) => local_words(procedure.locals.as_slice()),
        None => 0,
    }
}

/// How many variables a procedure has.
fn vars_of(program: &Program, procedure: u32) -> u64
    ensures { result ≡ capped (vars_of (proc_at (seen_program program.now) procedure)) }
{
    match program.procedures.get(procedure as usize) {
        Some(procedure) => sum(
            procedure.formals.len() as u64,
            procedure.locals.len() as u64,
        ),
        None => 0,
    }
}

/// The words of code of a call.
fn call_words(program: &Program, call: &CallSite) -> u64
    ensures { let callee = proc_at (seen_program program.now) call.now.callee in
        result ≡ capped (2 * local_words callee + 4 * vars_of callee + 60 + 8 * length call.now.conds.items) }
{
    let locals = local_words_of(program, call.callee);
    let vars = vars_of(program, call.callee);
    let conds = sum(call.conds.len() as u64, 0);
    sum(sum(sum(2 * locals, 4 * vars), 60), 8 * conds)
}

/// The need of two statements, and these words of code.
fn join(words: u64, first: StatementNeed, second: StatementNeed) -> StatementNeed
    ensures { result ≡ joined words first second }
{
    StatementNeed {
        temp: first.temp.max(second.temp),
        ctrl: first.ctrl.max(second.ctrl),
        words: sum(sum(words, first.words), second.words),
    }
}

/// What a statement needs.
#[cycle(statements)]
fn statement_need(program: &Program, node: &Rc<Node>) -> StatementNeed
    ensures { IsStatementNeed (seen_program program.now) (seen_statement node.now.value) result }
{
    match &**node {
        Node::NoOp(_) => plain_need(1),
        Node::Signal(_, _) => plain_need(7),
        Node::Seq(parts) => parts_need(program, parts),
        Node::Loop(_, body) => join(8, statement_need(program, body), plain_need(0)),
        Node::If(_, _, yes, no) => join(
            15,
            statement_need(program, yes),
            statement_need(program, no),
        ),
        Node::Begin(_, body, _, arm) => join(
            8,
            statement_need(program, body),
            statement_need(program, arm),
        ),
        Node::Call(call) => StatementNeed {
            temp: CALL_TEMP,
            ctrl: 0,
            words: call_words(program, call),
        },
        Node::Apply(call) => {
            let row = call.which.row();
            StatementNeed {
                temp: row.temp,
                ctrl: row.ctrl,
                words: sum(sum(4, args_words(call.args.as_slice())), row.words),
            }
        }
    }
}

/// What the parts of a sequence need.
#[cycle(statements)]
fn parts_need(program: &Program, parts: &Rc<Vec<Rc<Node>>>) -> StatementNeed
    ensures { IsStatementNeed (seen_program program.now) (seen_statements parts.now.value.items) result }
{
    let mut need = plain_need(0);
    for index in 0..parts.len() {
        need = join(0, need, statement_need(program, &parts[index]));
    }
    need
}

/// What a procedure needs.
#[tactic(auto, unfolding(crate::specs::Needs::code_words))]
fn need_of(program: &Program, procedure: u32) -> Need
    requires { procedure < length program.now.procedures.items }
    ensures exact { result ≡ capped_need (need_of (seen_program program.now) procedure) }
    ensures small { IsSmall result }
{
    let body = statement_need(program, &program.procedures[procedure as usize].body);
    let vars = vars_of(program, procedure);
    let each = if procedure == program.main { 2 } else { 1 };
    Need {
        temp: body.temp.max(1),
        ctrl: body.ctrl,
        locals_words: local_words_of(program, procedure),
        vars,
        code_words: sum(14 + each * vars, body.words),
    }
}

/// What each procedure needs, with sums that are exact up to 2^60.
fn needs_of<H: Heap>(heap: H, program: &Program) -> Result<Needs, Memory>
    requires { length program.now.procedures.items ≤ 2 ^ 32 }
    ensures exact { IfOkUnless (H.may_refuse heap) result
        (λ n. AreCapped (seen_program program.now) n.procedures.items) }
    ensures small { IfOk result (λ n. AreSmall n.procedures.items) }
{
    let mut procedures = Vec::new(heap.handle());
    for index in 0..program.procedures.len() {
        heap.push(&mut procedures, need_of(program, index as u32))?;
    }
    Ok(Needs { procedures })
}

/// What each procedure of an accepted source needs.
pub fn needs<H: Heap>(heap: H, accepted: &Accepted) -> Result<Needs, Memory>
    ensures exact { IfOkUnless (H.may_refuse heap) result
        (λ n. AreNeeds (program_of (source_of accepted.now)) n.procedures.items) }
    ensures small { IfOk result (λ n. AreSmall n.procedures.items) }
{
    let program = resolve(heap, accepted)?;
    needs_with(heap, accepted, &program)
}

/// The same, for callers that have the program of the source.
pub fn needs_with<H: Heap>(
    heap: H,
    _accepted: &Accepted,
    program: &Program,
) -> Result<Needs, Memory>
    requires program { seen_program program.now ≡ program_of (source_of _accepted.now) }
    requires accepted { IsAccepted (source_of _accepted.now) }
    ensures exact { IfOkUnless (H.may_refuse heap) result
        (λ n. AreNeeds (program_of (source_of _accepted.now)) n.procedures.items) }
    ensures small { IfOk result (λ n. AreSmall n.procedures.items) }
{
    let needs = needs_of(heap, program)?;
    Ok(needs)
}

//! The quick code of statements.

ghost use Rattle.std.specs.Prelude.{◌≡◌, ◌+◌, ◌^◌, ◌++◌, ◌<◌, IfOk, map};
ghost use Rattle.stack_heap.specs.Heaps.{OnOkUnless};
ghost use Rattle.gypsy_space.specs.Nodes.{seen_arg, seen_cond, seen_statement, seen_statements};
ghost use Rattle.gypsy_syntax.specs.Programs.{Loop, Routine};
ghost use Rattle.quick_gypsy.specs.{Quick.{begin_targets, quick, size, test_code}, RowCode.{row_code}};
ghost use Rattle.quick_generate.specs.Views.{frame_layout, targets};

use crate::frame::Frame;
use crate::piece::{by_word, jump, jump_when};
use crate::row::row;
use crate::scopes::{Scopes, target};
use crate::size::{JUMP_SIZE, row_size, signalled, small_size, test_size};
use fm_code::word::FLAG_Z;
use fm_words::{Cc, Op};
use gypsy_space::{Application, Condition, Node};
use stack_heap::Heap;
use stack_text::Memory;
use std::rc::Rc;

/// The test of an `if`: r3 and the flags from the variable, and a jump where it is false.
fn test<H: Heap>(
    heap: H,
    words: &mut Vec<u32>,
    frame: &Frame,
    variable: u32,
    otherwise: u32,
) -> Result<(), Memory>
    ensures { let code = test_code (frame_layout frame.now) variable otherwise in
        OnOkUnless (H.may_refuse heap) result (words.new.items ≡ words.old.items ++ code) }
{
    by_word(heap, words, Op::Move, FLAG_Z, frame.reach(variable))?;
    jump_when(heap, words, Cc::Zs, otherwise)?;
    Ok(())
}

/// A predefined call.
fn apply<H: Heap>(
    heap: H,
    words: &mut Vec<u32>,
    frame: &Frame,
    scopes: &Scopes,
    site: &Application,
) -> Result<(), Memory>
    ensures { let fault = targets scopes.now Routine in
        let code = row_code (frame_layout frame.now) fault (map seen_arg site.now.args.items) site.now.which in
        OnOkUnless (H.may_refuse heap) result (words.new.items ≡ words.old.items ++ code) }
{
    let fault = target(scopes, Condition::Routine);
    row(heap, words, frame, site.which, site.args.as_slice(), fault)
}

/// A loop of a body, and the address behind it.
#[cycle(statements)]
fn repetition<H: Heap>(
    heap: H,
    words: &mut Vec<u32>,
    frame: &Frame,
    scopes: &Scopes,
    pc: u32,
    body: &Rc<Node>,
) -> Result<u32, Memory>
    requires { pc + (size (frame_layout frame.now) (seen_statement body.now.value) + 2) < 2 ^ 32 }
    ensures code { let statement = Loop 0 (seen_statement body.now.value) in
        let code = quick (frame_layout frame.now) (targets scopes.now) pc statement in
        OnOkUnless (H.may_refuse heap) result (words.new.items ≡ words.old.items ++ code) }
    ensures next { IfOk result
        (λ next. next ≡ pc + (size (frame_layout frame.now) (seen_statement body.now.value) + 2)) }
{
    let behind = pc + (small_size(frame, body) + JUMP_SIZE);
    let inner = Scopes::InLoop(behind, &*scopes);
    statement(heap, words, frame, &inner, pc, body)?;
    jump(heap, words, pc)?;
    Ok(behind)
}

/// The body of a `begin`, whose conditions go to the arm.
#[cycle(statements)]
fn guarded<H: Heap>(
    heap: H,
    words: &mut Vec<u32>,
    frame: &Frame,
    scopes: &Scopes,
    pc: u32,
    body: &Rc<Node>,
    conds: &Rc<Vec<Condition>>,
    arm: u32,
) -> Result<(), Memory>
    requires { pc + size (frame_layout frame.now) (seen_statement body.now.value) < 2 ^ 32 }
    ensures { let inside = begin_targets (map seen_cond conds.now.value.items) arm (targets scopes.now) in
        let code = quick (frame_layout frame.now) inside pc (seen_statement body.now.value) in
        OnOkUnless (H.may_refuse heap) result (words.new.items ≡ words.old.items ++ code) }
{
    let inner = Scopes::InBegin(conds.as_slice(), arm, &*scopes);
    statement(heap, words, frame, &inner, pc, body)?;
    Ok(())
}

/// A body whose conditions go to the target of this one, because their handler only signals it, and the address behind it.
#[cycle(statements)]
fn passed<H: Heap>(
    heap: H,
    words: &mut Vec<u32>,
    frame: &Frame,
    scopes: &Scopes,
    pc: u32,
    body: &Rc<Node>,
    conds: &Rc<Vec<Condition>>,
    cond: Condition,
) -> Result<u32, Memory>
    requires { pc + size (frame_layout frame.now) (seen_statement body.now.value) < 2 ^ 32 }
    ensures code { let outer = targets scopes.now in
        let inside = begin_targets (map seen_cond conds.now.value.items) (outer (seen_cond cond)) outer in
        let code = quick (frame_layout frame.now) inside pc (seen_statement body.now.value) in
        OnOkUnless (H.may_refuse heap) result (words.new.items ≡ words.old.items ++ code) }
    ensures next { IfOk result (λ next. next ≡ pc + size (frame_layout frame.now) (seen_statement body.now.value)) }
{
    let to = target(scopes, cond);
    guarded(heap, words, frame, scopes, pc, body, conds, to)?;
    Ok(pc + small_size(frame, body))
}

/// The code of a statement from this address on, and the address behind it. A call has no code.
#[cycle(statements)]
pub(crate) fn statement<H: Heap>(
    heap: H,
    words: &mut Vec<u32>,
    frame: &Frame,
    scopes: &Scopes,
    pc: u32,
    node: &Rc<Node>,
) -> Result<u32, Memory>
    requires { pc + size (frame_layout frame.now) (seen_statement node.now.value) < 2 ^ 32 }
    ensures code { let code = quick (frame_layout frame.now) (targets scopes.now) pc (seen_statement node.now.value) in
        OnOkUnless (H.may_refuse heap) result (words.new.items ≡ words.old.items ++ code) }
    ensures next { IfOk result (λ next. next ≡ pc + size (frame_layout frame.now) (seen_statement node.now.value)) }
{
    match &**node {
        Node::NoOp(_) | Node::Call(_) => Ok(pc),
        Node::Signal(_, cond) => {
            jump(heap, words, target(scopes, *cond))?;
            Ok(pc + JUMP_SIZE)
        }
        Node::Seq(nodes) => {
            let next = parts(heap, words, frame, scopes, pc, nodes)?;
            Ok(next)
        }
        Node::Loop(_, body) => repetition(heap, words, frame, scopes, pc, body),
        Node::If(_, variable, yes, no) => {
            let inner = pc + test_size(frame, *variable) as u32;
            let otherwise = inner + small_size(frame, yes) + JUMP_SIZE;
            let behind = otherwise + small_size(frame, no);
            test(heap, words, frame, *variable, otherwise)?;
            statement(heap, words, frame, scopes, inner, yes)?;
            jump(heap, words, behind)?;
            statement(heap, words, frame, scopes, otherwise, no)?;
            Ok(behind)
        }
        Node::Begin(_, body, conds, handler) => match signalled(handler) {
            Some(cond) => passed(heap, words, frame, scopes, pc, body, conds, cond),
            None => {
                let arm = pc + small_size(frame, body) + JUMP_SIZE;
                let behind = arm + small_size(frame, handler);
                guarded(heap, words, frame, scopes, pc, body, conds, arm)?;
                jump(heap, words, behind)?;
                statement(heap, words, frame, scopes, arm, handler)?;
                Ok(behind)
            }
        },
        Node::Apply(site) => {
            apply(heap, words, frame, scopes, site)?;
            Ok(pc + row_size(frame, site.which, site.args.as_slice()) as u32)
        }
    }
}

/// The parts of a sequence.
#[cycle(statements)]
fn parts<H: Heap>(
    heap: H,
    words: &mut Vec<u32>,
    frame: &Frame,
    scopes: &Scopes,
    pc: u32,
    parts: &Rc<Vec<Rc<Node>>>,
) -> Result<u32, Memory>
    requires { pc + size (frame_layout frame.now) (seen_statements parts.now.value.items) < 2 ^ 32 }
    ensures code { let statement = seen_statements parts.now.value.items in
        let code = quick (frame_layout frame.now) (targets scopes.now) pc statement in
        OnOkUnless (H.may_refuse heap) result (words.new.items ≡ words.old.items ++ code) }
    ensures next { IfOk result
        (λ next. next ≡ pc + size (frame_layout frame.now) (seen_statements parts.now.value.items)) }
{
    let mut next = pc;
    for index in 0..parts.len() {
        next = statement(heap, words, frame, scopes, next, &parts[index])?;
    }
    Ok(next)
}

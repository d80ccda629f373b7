//! How many words the quick code of statements has.

ghost use Rattle.std.specs.Prelude.{◌≡◌, ◌+◌, ◌^◌, ◌<◌, ◌≤◌, length, map, option_map};
ghost use Rattle.gypsy_space.specs.Nodes.{seen_arg, seen_cond, seen_statement, seen_statements};
ghost use Rattle.quick_code.specs.Access.{find_code};
ghost use Rattle.quick_gypsy.specs.{Quick.{arm_size, signalled, size, test_code}, RowCode.{arg_access, row_code}};
ghost use Rattle.quick_generate.specs.{Rows.{row_size}, Sums.{limited}, Views.{frame_layout, seen_access}};

use crate::access::Access;
use crate::argument::reach;
use crate::frame::Frame;
use gypsy_space::{Argument, Condition, Node};
use gypsy_syntax::Predef;
use std::rc::Rc;

/// Sums are exact up to this number, 2^60, and stay there.
pub(crate) const MOST: u64 = 1 << 60;

/// The words of a jump.
pub(crate) const JUMP_SIZE: u32 = 2;

/// A sum.
pub(crate) fn sum(left: u64, right: u64) -> u64
    ensures { result ≡ limited (left + right) }
{
    left.saturating_add(right).min(MOST)
}

/// How many words it takes to find an address.
fn find_size(access: Access) -> u64
    ensures exact { result ≡ length (find_code (seen_access access)) }
    ensures small { result ≤ 2 }
{
    match access {
        Access::Held(_) => 0,
        Access::Known(_) => 2,
    }
}

/// How many words it takes to find the variable that an argument is.
fn found(frame: &Frame, args: &[Argument], index: usize) -> u64
    ensures exact { result ≡ length (find_code (arg_access (frame_layout frame.now) (map seen_arg args.now) index)) }
    ensures small { result ≤ 2 }
{
    find_size(reach(frame, args, index))
}

/// How many words a row has, where finding its variables takes x, y and z words.
fn row_size_by(x: u64, y: u64, z: u64, which: Predef) -> u64
    requires x { x ≤ 2 }
    requires y { y ≤ 2 }
    requires z { z ≤ 2 }
    ensures exact { result ≡ row_size x y z which }
    ensures small { result ≤ 21 }
{
    match which {
        Predef::MgSimpleVariableAssignment if y == 0 => x + 1,
        Predef::MgSimpleVariableAssignment => x + y + 2,
        Predef::MgSimpleConstantAssignment => x + 2,
        Predef::MgSimpleVariableEq | Predef::MgIntegerLe => x + y + z + 4,
        Predef::MgSimpleConstantEq => x + y + 5,
        Predef::MgIntegerUnaryMinus | Predef::MgBooleanNot => x + y + 4,
        Predef::MgIntegerAdd | Predef::MgIntegerSubtract => x + y + z + 5,
        Predef::MgIntegerMultiply => x + y + z + 15,
        Predef::MgBooleanOr | Predef::MgBooleanAnd => x + y + z + 3,
        Predef::MgIndexArray => x + z + 8,
        Predef::MgArrayElementAssignment => y + z + 8,
    }
}

/// How many words the code of a predefined call has.
pub(crate) fn row_size(frame: &Frame, which: Predef, args: &[Argument]) -> u64
    ensures exact { result ≡ length (row_code (frame_layout frame.now) 0 (map seen_arg args.now) which) }
    ensures small { result ≤ 21 }
{
    let x = found(frame, args, 0);
    let y = found(frame, args, 1);
    let z = found(frame, args, 2);
    row_size_by(x, y, z, which)
}

/// How many words the test of an `if` has.
pub(crate) fn test_size(frame: &Frame, variable: u32) -> u64
    ensures exact { result ≡ length (test_code (frame_layout frame.now) variable 0) }
    ensures small { result ≤ 5 }
{
    find_size(frame.reach(variable)) + 3
}

/// The condition that a handler signals, if it does nothing else.
pub(crate) fn signalled(arm: &Rc<Node>) -> Option<Condition>
    ensures { option_map seen_cond result ≡ signalled (seen_statement arm.now.value) }
{
    match &**arm {
        Node::Signal(_, cond) => Some(*cond),
        Node::Seq(_) => None,
        Node::NoOp(_) | Node::Loop(_, _) | Node::If(_, _, _, _) => None,
        Node::Begin(_, _, _, _) | Node::Call(_) | Node::Apply(_) => None,
    }
}

/// How many words the code of a statement has, exact up to 2^60.
#[cycle(sizes)]
pub(crate) fn size(frame: &Frame, node: &Rc<Node>) -> u64
    ensures { result ≡ limited (size (frame_layout frame.now) (seen_statement node.now.value)) }
{
    match &**node {
        Node::NoOp(_) | Node::Call(_) => 0,
        Node::Signal(_, _) => u64::from(JUMP_SIZE),
        Node::Seq(parts) => parts_size(frame, parts),
        Node::Loop(_, body) => sum(size(frame, body), u64::from(JUMP_SIZE)),
        Node::If(_, variable, yes, no) => {
            let test = test_size(frame, *variable);
            let first = sum(test, size(frame, yes));
            sum(sum(first, u64::from(JUMP_SIZE)), size(frame, no))
        }
        Node::Begin(_, body, _, arm) => sum(size(frame, body), arm_size(frame, arm)),
        Node::Apply(site) => row_size(frame, site.which, site.args.as_slice()),
    }
}

/// How many words a handler takes, with the jump over it. One that only signals takes none.
#[cycle(sizes)]
fn arm_size(frame: &Frame, arm: &Rc<Node>) -> u64
    ensures { let statement = seen_statement arm.now.value in
        result ≡ limited (arm_size (signalled statement) (size (frame_layout frame.now) statement)) }
{
    match signalled(arm) {
        Some(_) => 0,
        None => sum(u64::from(JUMP_SIZE), size(frame, arm)),
    }
}

/// How many words the code of the parts of a sequence has.
#[cycle(sizes)]
fn parts_size(frame: &Frame, parts: &Rc<Vec<Rc<Node>>>) -> u64
    ensures { result ≡ limited (size (frame_layout frame.now) (seen_statements parts.now.value.items)) }
{
    let mut words = 0;
    for index in 0..parts.len() {
        words = sum(words, size(frame, &parts[index]));
    }
    words
}

/// How many words the code of a statement has, where they are few.
pub(crate) fn small_size(frame: &Frame, node: &Rc<Node>) -> u32
    requires { size (frame_layout frame.now) (seen_statement node.now.value) < 2 ^ 32 }
    ensures { result ≡ size (frame_layout frame.now) (seen_statement node.now.value) }
{
    size(frame, node) as u32
}

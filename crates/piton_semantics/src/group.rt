//! The three tables of instructions.

ghost use Rattle.std.specs.Prelude.{◌≡◌};
ghost use Rattle.piton_semantics.specs.Groups.{group_of, is_jump};

use piton_check::word_operation;
use piton_syntax::PitonOp;

/// The table that an instruction is in.
#[derive(Clone, Copy, Debug, PartialEq, Eq)]
pub enum Group {
    /// Moves between the stacks, the locals and the areas.
    Move,
    /// Jumps, calls and returns.
    Jump,
    /// Operations on words.
    Word,
}

/// The table that an operation is in.
pub fn group_of(op: PitonOp) -> Group
    ensures { result ≡ group_of op }
{
    match word_operation(op) {
        Some(_) => Group::Word,
        None if is_jump(op) => Group::Jump,
        None => Group::Move,
    }
}

/// Whether an operation is a jump, a call or a return.
fn is_jump(op: PitonOp) -> bool
    ensures { result ≡ is_jump op }
{
    match op {
        PitonOp::Jump
        | PitonOp::JumpIfTempStkFull
        | PitonOp::JumpIfTempStkEmpty
        | PitonOp::JumpCase
        | PitonOp::Pushj
        | PitonOp::Popj
        | PitonOp::TestNatAndJump
        | PitonOp::TestIntAndJump
        | PitonOp::TestBoolAndJump
        | PitonOp::TestBitvAndJump
        | PitonOp::Call
        | PitonOp::PopCall
        | PitonOp::Ret => true,
        _ => false,
    }
}

//! Instructions, each with what it needs.

ghost use Rattle.std.specs.Prelude.{◌≡◌, unwrap_or};
ghost use Rattle.piton_check.specs.Instruction.{instruction_view, other_instruction_of, with_test};
ghost use Rattle.piton_semantics.specs.PitonInstr.{decoded_view};

use crate::argument::{
    area_argument, local_argument, number_argument, place_argument, program_argument,
    test_argument, word_argument,
};
use piton_check::{ResolvedArg, ResolvedInstr, word_operation};
use piton_syntax::{PitonOp, TestFamily, TestKind};
use piton_words::{Word, WordOp};

/// An instruction with what its operation needs. Areas, programs and the places of a program are positions from 0, and
/// a local is its offset in the newest frame.
#[derive(Clone, Copy, Debug)]
pub enum PitonInstr<'a> {
    /// Pushes the word.
    PushConstant(Word),
    /// Pushes the word of the local.
    PushLocal(u32),
    /// Pops the top word into the local.
    PopLocal(u32),
    /// Copies the top word into the local.
    SetLocal(u32),
    /// Pushes word 0 of the area.
    PushGlobal(u32),
    /// Pops the top word into word 0 of the area.
    PopGlobal(u32),
    /// Copies the top word into word 0 of the area.
    SetGlobal(u32),
    /// Pushes the position, from the bottom, of the word that so many others cover.
    PushTempStkIndex(u32),
    /// Pushes how many words the temporary stack has room for, before the push.
    PushTempStkFreeSize,
    /// Pushes how many words the control stack has room for.
    PushCtrlStkFreeSize,
    /// Replaces a position by the word there, counted from the bottom of the temporary stack.
    FetchTempStk,
    /// Pops a position, counted from the bottom of the temporary stack, and a word, and puts the word there.
    DepositTempStk,
    /// Replaces an address by the word of the area there.
    Fetch,
    /// Pops an address and a word, and puts the word there.
    Deposit,
    /// Pops one word, of any tag.
    Pop,
    /// Pops so many words.
    PopStar(u32),
    /// Pops a natural number, and as many words more.
    Popn,
    /// Does nothing. Also an operation whose argument is missing, which it is in no checked system.
    NoOp,
    /// Jumps to the place.
    Jump(u32),
    /// Jumps to the place if the temporary stack has no room.
    JumpIfTempStkFull(u32),
    /// Jumps to the place if the temporary stack has no word.
    JumpIfTempStkEmpty(u32),
    /// Pops a natural number, and jumps to the place that it counts from 0 among these.
    JumpCase(&'a [ResolvedArg]),
    /// Pushes the next place, and jumps to this one.
    Pushj(u32),
    /// Pops a place of the program, and jumps there.
    Popj,
    /// Pops a word of this type, and jumps to the place if this test, which the type has, holds of the word.
    TestAndJump(TestFamily, TestKind, u32),
    /// Pops the formals of the program, and calls it.
    Call(u32),
    /// Pops a program and then its formals, and calls it.
    PopCall,
    /// Drops the newest frame, and goes where it returns to; the last frame's return halts.
    Ret,
    /// Does the operation on the words at the top of the temporary stack.
    Apply(WordOp),
}

impl<'a> PitonInstr<'a> {
    /// What an operation and its arguments make.
    #[inline(always)]
    pub fn decode(instr: &'a ResolvedInstr) -> PitonInstr<'a>
        ensures { decoded_view result ≡ instruction_view instr.now }
    {
        match word_operation(instr.op) {
            Some(op) => PitonInstr::Apply(op),
            None => other_instr(instr.op, instr.args.as_slice()).unwrap_or(PitonInstr::NoOp),
        }
    }
}

/// A move, a jump, a call or a return with what it needs; none where that is missing.
#[inline(always)]
fn other_instr(op: PitonOp, args: &[ResolvedArg]) -> Option<PitonInstr<'_>>
    ensures { decoded_view (unwrap_or result PitonInstr.NoOp) ≡ other_instruction_of op args.now }
{
    let instr = match op {
        PitonOp::PushConstant => PitonInstr::PushConstant(word_argument(args)?),
        PitonOp::PushLocal => PitonInstr::PushLocal(local_argument(args)?),
        PitonOp::PopLocal => PitonInstr::PopLocal(local_argument(args)?),
        PitonOp::SetLocal => PitonInstr::SetLocal(local_argument(args)?),
        PitonOp::PushGlobal => PitonInstr::PushGlobal(area_argument(args)?),
        PitonOp::PopGlobal => PitonInstr::PopGlobal(area_argument(args)?),
        PitonOp::SetGlobal => PitonInstr::SetGlobal(area_argument(args)?),
        PitonOp::PushTempStkIndex => PitonInstr::PushTempStkIndex(number_argument(args)?),
        PitonOp::PushTempStkFreeSize => PitonInstr::PushTempStkFreeSize,
        PitonOp::PushCtrlStkFreeSize => PitonInstr::PushCtrlStkFreeSize,
        PitonOp::FetchTempStk => PitonInstr::FetchTempStk,
        PitonOp::DepositTempStk => PitonInstr::DepositTempStk,
        PitonOp::Fetch => PitonInstr::Fetch,
        PitonOp::Deposit => PitonInstr::Deposit,
        PitonOp::Pop => PitonInstr::Pop,
        PitonOp::PopStar => PitonInstr::PopStar(number_argument(args)?),
        PitonOp::Popn => PitonInstr::Popn,
        PitonOp::Jump => PitonInstr::Jump(place_argument(args)?),
        PitonOp::JumpIfTempStkFull => PitonInstr::JumpIfTempStkFull(place_argument(args)?),
        PitonOp::JumpIfTempStkEmpty => PitonInstr::JumpIfTempStkEmpty(place_argument(args)?),
        PitonOp::JumpCase => PitonInstr::JumpCase(args),
        PitonOp::Pushj => PitonInstr::Pushj(place_argument(args)?),
        PitonOp::Popj => PitonInstr::Popj,
        PitonOp::TestNatAndJump => test_and_jump(TestFamily::Nat, args)?,
        PitonOp::TestIntAndJump => test_and_jump(TestFamily::Int, args)?,
        PitonOp::TestBoolAndJump => test_and_jump(TestFamily::Bool, args)?,
        PitonOp::TestBitvAndJump => test_and_jump(TestFamily::Bitv, args)?,
        PitonOp::Call => PitonInstr::Call(program_argument(args)?),
        PitonOp::PopCall => PitonInstr::PopCall,
        PitonOp::Ret => PitonInstr::Ret,
        _ => PitonInstr::NoOp,
    };
    Some(instr)
}

/// A jump by a test of a type's words; none where the test or the place is missing.
fn test_and_jump(family: TestFamily, args: &[ResolvedArg]) -> Option<PitonInstr<'_>>
    ensures { decoded_view (unwrap_or result PitonInstr.NoOp) ≡ with_test family args.now }
{
    let (kind, place) = test_argument(args)?;
    Some(PitonInstr::TestAndJump(family, kind, place))
}

//! The pieces of jumps and calls.

ghost use Rattle.std.specs.Prelude.{◌≡◌, ◌+◌, ◌++◌, ◌^◌, ◌<◌, ◌≤◌, IfOk, OnOk, map};
ghost use Rattle.stack_heap.specs.Heaps.{IfOkUnless, OnOkUnless};
ghost use Rattle.piton_check.specs.{Instruction.{place_of}, declared.piece.Piece.TheVariants.{Place}};
ghost use Rattle.piton_semantics.specs.{Fits.{system_in}, Groups.{IsOfGroup, only_of}, PitonInstr.{decoded_view}, Placed.{placed}, Stands.{DoesStepsAt}};
ghost use Rattle.piton_semantics.specs.{Templates.{condition_of, jump_case_pieces, pieces_of, pieces_at}, declared.group.Group.TheVariants.{Jump}};

use crate::row::{
    push_call, push_jump_if_top, push_pop_call, push_ret, push_table_jump, push_test,
};
use fm_code::template::{no_op_code, popj_code};
use fm_code::word::{literal_at, mov, reg};
use fm_words::Cc;
use piton_check::{Checked, Piece, ResolvedArg};
use piton_semantics::{PitonInstr, instruction, place_of, push_code, push_literal, variables};
use piton_syntax::TestKind;
use stack_heap::Heap;
use stack_text::Memory;
use std::alloc::AllocError;

/// Appends the pieces of the jump, call or return at a place of a program; none where there is no such place.
///
/// By its condition what stands there is one of these. The code then does the steps from there, once it is placed with the
/// rest of the system, in at most 2^20 words.
#[tactic(auto, using(crate::proofs::CountLaws::checked_few))]
pub fn append<H: Heap>(
    heap: H,
    pieces: &mut Vec<Piece>,
    checked: &Checked,
    program: u32,
    place: u32,
) -> Result<(), Memory>
    requires { IsOfGroup Jump checked.now.resolved program place }
    ensures pieces { OnOkUnless (H.may_refuse heap) result
        (pieces.new.items ≡ pieces.old.items ++ pieces_at (system_in checked.now) program place) }
    ensures steps { OnOk result
        ((placed (system_in checked.now)).size ≤ 2 ^ 20 → DoesStepsAt (system_in checked.now) program place) }
{
    let resolved = checked.resolved();
    match instruction(resolved, program, place) {
        Some(instr) => {
            let locals = variables(resolved, program) as u32;
            let decoded = PitonInstr::decode(instr);
            Ok(push_jump(heap, pieces, program, place, locals, decoded)?)
        }
        None => Ok(()),
    }
}

/// The pieces of the jump, call or return at a place of a program, as `append` appends them.
///
/// It is for callers outside: the linker calls `append`.
pub fn emit<H: Heap>(
    heap: H,
    checked: &Checked,
    program: u32,
    place: u32,
) -> Result<Vec<Piece>, Memory>
    requires { IsOfGroup Jump checked.now.resolved program place }
    ensures pieces { IfOkUnless (H.may_refuse heap) result
        (λ pieces. pieces.items ≡ pieces_at (system_in checked.now) program place) }
    ensures steps { IfOk result (λ pieces.
        (placed (system_in checked.now)).size ≤ 2 ^ 20 → DoesStepsAt (system_in checked.now) program place) }
{
    let mut pieces = Vec::new(heap.handle());
    append(heap, &mut pieces, checked, program, place)?;
    Ok(pieces)
}

/// Appends the pieces of a jump, a call or a return at a place of a program with so many locals; none for another
/// instruction.
fn push_jump<H: Heap>(
    heap: H,
    pieces: &mut Vec<Piece>,
    program: u32,
    place: u32,
    locals: u32,
    instr: PitonInstr,
) -> Result<(), AllocError>
    requires next { place + 1 < 2 ^ 32 }
    ensures { OnOkUnless (H.may_refuse heap) result (pieces.new.items ≡ pieces.old.items
        ++ only_of Jump (decoded_view instr.entry) (pieces_of program place locals (decoded_view instr.entry))) }
{
    let after = Piece::Place {
        program,
        place: place + 1,
    };
    match instr {
        PitonInstr::Jump(to) => {
            let target = Piece::Place { program, place: to };
            push_literal(heap, pieces, mov(reg(15), literal_at()), target)
        }
        PitonInstr::JumpIfTempStkFull(to) => {
            push_jump_if_top(heap, pieces, Piece::TempStart, program, to)
        }
        PitonInstr::JumpIfTempStkEmpty(to) => {
            push_jump_if_top(heap, pieces, Piece::TempEnd { minus: 0 }, program, to)
        }
        PitonInstr::JumpCase(labels) => push_jump_case(heap, pieces, program, labels),
        PitonInstr::Pushj(to) => push_call(
            heap,
            pieces,
            2,
            after,
            Piece::Place { program, place: to },
        ),
        PitonInstr::Popj => push_code(heap, pieces, &popj_code()),
        PitonInstr::TestAndJump(_, kind, to) => push_test(
            heap,
            pieces,
            condition_of(kind),
            program,
            to,
        ),
        PitonInstr::Call(callee) => push_call(
            heap,
            pieces,
            1,
            after,
            Piece::Entry { program: callee },
        ),
        PitonInstr::PopCall => push_pop_call(heap, pieces, after),
        PitonInstr::Ret => push_ret(heap, pieces, locals),
        PitonInstr::NoOp => push_code(heap, pieces, &no_op_code()),
        _ => Ok(()),
    }
}

/// Appends a jump by a table of the places of these labels.
fn push_jump_case<H: Heap>(
    heap: H,
    pieces: &mut Vec<Piece>,
    program: u32,
    args: &[ResolvedArg],
) -> Result<(), AllocError>
    ensures { OnOkUnless (H.may_refuse heap) result (pieces.new.items
        ≡ pieces.old.items ++ (jump_case_pieces ++ map (λ to. Place program to) (map place_of args.now))) }
{
    push_table_jump(heap, pieces)?;
    for arg in args {
        heap.push(
            pieces,
            Piece::Place {
                program,
                place: place_of(*arg),
            },
        )?;
    }
    Ok(())
}

/// The condition that a test is.
fn condition_of(kind: TestKind) -> Cc
    ensures { result ≡ condition_of kind }
{
    match kind {
        TestKind::Zero => Cc::Zs,
        TestKind::NotZero => Cc::Zc,
        TestKind::Neg => Cc::Ns,
        TestKind::NotNeg => Cc::Nc,
        TestKind::Pos => Cc::Gt,
        TestKind::NotPos => Cc::Le,
        TestKind::T => Cc::Zc,
        TestKind::F => Cc::Zs,
        TestKind::AllZero => Cc::Zs,
        TestKind::NotAllZero => Cc::Zc,
    }
}

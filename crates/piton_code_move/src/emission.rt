//! The pieces of moves.

ghost use Rattle.std.specs.Prelude.{◌≡◌, ◌+◌, ◌++◌, ◌^◌, ◌<◌, ◌≤◌, ℕ, IfOk, OnOk};
ghost use Rattle.stack_heap.specs.Heaps.{IfOkUnless, OnOkUnless};
ghost use Rattle.piton_check.specs.Instruction.{PushTempStkIndex};
ghost use Rattle.piton_semantics.specs.{Fits.{system_in}, Groups.{IsOfGroup, only_of}, PitonInstr.{decoded_view}, Placed.{placed}, Stands.{DoesStepsAt}};
ghost use Rattle.piton_semantics.specs.{Templates.{pieces_of, pieces_at}, declared.group.Group.TheVariants.{Move}};

use crate::row::{push_end, push_free, push_global, push_local};
use fm_code::template::{deposit_code, fetch_code, no_op_code, pop_code, popn_code};
use fm_code::word::{add, at, literal, mov, pop, push, reg, sub};
use piton_check::{Checked, Piece};
use piton_semantics::{PitonInstr, instruction, push_code, push_literal, word_piece};
use stack_heap::Heap;
use stack_text::Memory;
use std::alloc::AllocError;

/// Appends the pieces of the move at a place of a program; none where there is no such place.
///
/// By its condition what stands there is a move. The code then does the steps from there, once it is placed with the rest
/// of the system, in at most 2^20 words.
pub fn append<H: Heap>(
    heap: H,
    pieces: &mut Vec<Piece>,
    checked: &Checked,
    program: u32,
    place: u32,
) -> Result<(), Memory>
    requires { IsOfGroup Move checked.now.resolved program place }
    ensures pieces { OnOkUnless (H.may_refuse heap) result
        (pieces.new.items ≡ pieces.old.items ++ pieces_at (system_in checked.now) program place) }
    ensures steps { OnOk result
        ((placed (system_in checked.now)).size ≤ 2 ^ 20 → DoesStepsAt (system_in checked.now) program place) }
{
    match instruction(checked.resolved(), program, place) {
        Some(instr) => Ok(push_move(heap, pieces, PitonInstr::decode(instr))?),
        None => Ok(()),
    }
}

/// The pieces of the move at a place of a program, as `append` appends them.
///
/// It is for callers outside: the linker calls `append`.
pub fn emit<H: Heap>(
    heap: H,
    checked: &Checked,
    program: u32,
    place: u32,
) -> Result<Vec<Piece>, Memory>
    requires { IsOfGroup Move checked.now.resolved program place }
    ensures pieces { IfOkUnless (H.may_refuse heap) result
        (λ pieces. pieces.items ≡ pieces_at (system_in checked.now) program place) }
    ensures steps { IfOk result (λ pieces.
        (placed (system_in checked.now)).size ≤ 2 ^ 20 → DoesStepsAt (system_in checked.now) program place) }
{
    let mut pieces = Vec::new(heap.handle());
    append(heap, &mut pieces, checked, program, place)?;
    Ok(pieces)
}

/// Appends the pieces of a move; none for another instruction.
fn push_move<H: Heap>(heap: H, pieces: &mut Vec<Piece>, instr: PitonInstr) -> Result<(), AllocError>
    requires counts { (n : ℕ) → decoded_view instr ≡ PushTempStkIndex n → n ≤ 65536 }
    ensures { (program place locals : ℕ) → OnOkUnless (H.may_refuse heap) result
        (pieces.new.items ≡ pieces.old.items
        ++ only_of Move (decoded_view instr.entry) (pieces_of program place locals (decoded_view instr.entry))) }
{
    match instr {
        PitonInstr::PushConstant(word) => {
            push_literal(heap, pieces, mov(push(2), literal()), word_piece(word))
        }
        PitonInstr::PushLocal(offset) => push_local(heap, pieces, offset, mov(push(2), at(3))),
        PitonInstr::PopLocal(offset) => push_local(heap, pieces, offset, mov(at(3), pop(2))),
        PitonInstr::SetLocal(offset) => push_local(heap, pieces, offset, mov(at(3), at(2))),
        PitonInstr::PushGlobal(area) => push_global(heap, pieces, area, mov(push(2), at(3))),
        PitonInstr::PopGlobal(area) => push_global(heap, pieces, area, mov(at(3), pop(2))),
        PitonInstr::SetGlobal(area) => push_global(heap, pieces, area, mov(at(3), at(2))),
        PitonInstr::PushTempStkIndex(index) => {
            push_end(
                heap,
                pieces,
                1 + index,
                sub(reg(3), reg(2)),
                mov(push(2), reg(3)),
            )
        }
        PitonInstr::PushTempStkFreeSize => push_free(heap, pieces, 2, Piece::TempStart),
        PitonInstr::PushCtrlStkFreeSize => push_free(heap, pieces, 1, Piece::CtrlStart),
        PitonInstr::FetchTempStk => push_end(
            heap,
            pieces,
            1,
            sub(reg(3), at(2)),
            mov(at(2), at(3)),
        ),
        PitonInstr::DepositTempStk => push_end(
            heap,
            pieces,
            1,
            sub(reg(3), pop(2)),
            mov(at(3), pop(2)),
        ),
        PitonInstr::Fetch => push_code(heap, pieces, &fetch_code()),
        PitonInstr::Deposit => push_code(heap, pieces, &deposit_code()),
        PitonInstr::Pop => push_code(heap, pieces, &pop_code()),
        PitonInstr::PopStar(count) => {
            push_literal(heap, pieces, add(reg(2), literal()), Piece::Number(count))
        }
        PitonInstr::Popn => push_code(heap, pieces, &popn_code()),
        PitonInstr::NoOp => push_code(heap, pieces, &no_op_code()),
        _ => Ok(()),
    }
}

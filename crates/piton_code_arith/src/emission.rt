//! The pieces of the operations on words.

ghost use Rattle.std.specs.Prelude.{◌≡◌, ◌++◌, ◌^◌, ◌≤◌, IfOk, OnOk};
ghost use Rattle.stack_heap.specs.Heaps.{IfOkUnless, OnOkUnless};
ghost use Rattle.piton_semantics.specs.{Fits.{system_in}, Groups.{IsOfGroup}, Placed.{placed}, Stands.{DoesStepsAt}, Templates.{code_pieces, operation_code}};
ghost use Rattle.piton_semantics.specs.{Templates.{pieces_at}, declared.group.Group.TheVariants.{Word}};

use fm_code::template::{
    carry_code, div2_code, eq_code, lt_code, mult2_carry_code, no_op_code, not_bool_code, one_code,
    two_code,
};
use fm_words::{Cc, Op};
use piton_check::{Checked, Piece, word_operation};
use piton_semantics::{instruction, push_code};
use piton_words::WordOp;
use stack_heap::Heap;
use stack_text::Memory;
use std::alloc::AllocError;

/// Appends the pieces of the operation on words at a place of a program; none where there is no such place.
///
/// By its condition what stands there is one of these. The code then does the steps from there, once it is placed with the
/// rest of the system, in at most 2^20 words.
pub fn append<H: Heap>(
    heap: H,
    pieces: &mut Vec<Piece>,
    checked: &Checked,
    program: u32,
    place: u32,
) -> Result<(), Memory>
    requires { IsOfGroup Word checked.now.resolved program place }
    ensures pieces { OnOkUnless (H.may_refuse heap) result
        (pieces.new.items ≡ pieces.old.items ++ pieces_at (system_in checked.now) program place) }
    ensures steps { OnOk result
        ((placed (system_in checked.now)).size ≤ 2 ^ 20 → DoesStepsAt (system_in checked.now) program place) }
{
    match instruction(checked.resolved(), program, place) {
        Some(instr) => match word_operation(instr.op) {
            Some(op) => Ok(push_operation(heap, pieces, op)?),
            None => Ok(()),
        },
        None => Ok(()),
    }
}

/// The pieces of the operation on words at a place of a program, as `append` appends them.
///
/// It is for callers outside: the linker calls `append`.
pub fn emit<H: Heap>(
    heap: H,
    checked: &Checked,
    program: u32,
    place: u32,
) -> Result<Vec<Piece>, Memory>
    requires { IsOfGroup Word checked.now.resolved program place }
    ensures pieces { IfOkUnless (H.may_refuse heap) result
        (λ pieces. pieces.items ≡ pieces_at (system_in checked.now) program place) }
    ensures steps { IfOk result (λ pieces.
        (placed (system_in checked.now)).size ≤ 2 ^ 20 → DoesStepsAt (system_in checked.now) program place) }
{
    let mut pieces = Vec::new(heap.handle());
    append(heap, &mut pieces, checked, program, place)?;
    Ok(pieces)
}

/// Appends the pieces of an operation on words.
fn push_operation<H: Heap>(heap: H, pieces: &mut Vec<Piece>, op: WordOp) -> Result<(), AllocError>
    ensures { OnOkUnless (H.may_refuse heap) result
        (pieces.new.items ≡ pieces.old.items ++ code_pieces (operation_code op)) }
{
    match op {
        WordOp::Eq => push_code(heap, pieces, &eq_code()),
        WordOp::AddInt | WordOp::AddNat | WordOp::AddAddr => push_code(
            heap,
            pieces,
            &two_code(Op::Add),
        ),
        WordOp::SubInt | WordOp::SubNat | WordOp::SubAddr => push_code(
            heap,
            pieces,
            &two_code(Op::Sub),
        ),
        WordOp::OrBitv | WordOp::OrBool => push_code(heap, pieces, &two_code(Op::Or)),
        WordOp::AndBitv | WordOp::AndBool => push_code(heap, pieces, &two_code(Op::And)),
        WordOp::XorBitv => push_code(heap, pieces, &two_code(Op::Xor)),
        WordOp::LtInt => push_code(heap, pieces, &lt_code(Cc::Lt)),
        WordOp::LtNat | WordOp::LtAddr => push_code(heap, pieces, &lt_code(Cc::Cs)),
        WordOp::Add1Int | WordOp::Add1Nat => push_code(heap, pieces, &one_code(Op::Inc)),
        WordOp::Sub1Int | WordOp::Sub1Nat => push_code(heap, pieces, &one_code(Op::Dec)),
        WordOp::NegInt => push_code(heap, pieces, &one_code(Op::Neg)),
        WordOp::Mult2Nat | WordOp::LshBitv => push_code(heap, pieces, &one_code(Op::Add)),
        WordOp::NotBitv => push_code(heap, pieces, &one_code(Op::Not)),
        WordOp::RshBitv => push_code(heap, pieces, &one_code(Op::Lsr)),
        WordOp::IntToNat => push_code(heap, pieces, &no_op_code()),
        WordOp::AddIntWithCarry => push_code(heap, pieces, &carry_code(Op::Addc, Cc::Vs)),
        WordOp::AddNatWithCarry => push_code(heap, pieces, &carry_code(Op::Addc, Cc::Cs)),
        WordOp::SubIntWithCarry => push_code(heap, pieces, &carry_code(Op::Subb, Cc::Vs)),
        WordOp::SubNatWithCarry => push_code(heap, pieces, &carry_code(Op::Subb, Cc::Cs)),
        WordOp::Mult2NatWithCarryOut => push_code(heap, pieces, &mult2_carry_code()),
        WordOp::Div2Nat => push_code(heap, pieces, &div2_code()),
        WordOp::NotBool => push_code(heap, pieces, &not_bool_code()),
    }
}

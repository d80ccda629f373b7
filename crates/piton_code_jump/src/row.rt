//! The pieces of jumps and calls, by the forms that several share.

ghost use Rattle.std.specs.Prelude.{◌≡◌, ◌++◌, ◌<◌};
ghost use Rattle.stack_heap.specs.Heaps.{OnOkUnless};
ghost use Rattle.piton_semantics.specs.Templates.{jump_if_top_pieces, jump_case_pieces, call_pieces, test_pieces, pop_call_pieces, ret_pieces};

use fm_code::word::{
    ALL_FLAGS, FLAG_Z, add, at, literal, literal_at, mov, pop, push, reg, setting, when,
};
use fm_words::{Cc, Op};
use piton_check::Piece;
use stack_heap::Heap;
use std::alloc::AllocError;

/// A jump where the temporary stack's top is at an address.
pub(crate) fn push_jump_if_top<H: Heap>(
    heap: H,
    pieces: &mut Vec<Piece>,
    top: Piece,
    program: u32,
    place: u32,
) -> Result<(), AllocError>
    ensures { OnOkUnless (H.may_refuse heap) result
        (pieces.new.items ≡ pieces.old.items ++ jump_if_top_pieces top program place) }
{
    heap.extend_from_slice(
        pieces,
        &[
            Piece::Code(mov(reg(3), reg(2))),
            Piece::Code(setting(FLAG_Z, Op::Sub, reg(3), literal())),
            top,
            Piece::Code(when(Cc::Zs, Op::Move, reg(15), literal())),
            Piece::Place { program, place },
        ],
    )
}

/// A jump by the table that follows it.
pub(crate) fn push_table_jump<H: Heap>(heap: H, pieces: &mut Vec<Piece>) -> Result<(), AllocError>
    ensures { OnOkUnless (H.may_refuse heap) result (pieces.new.items ≡ pieces.old.items ++ jump_case_pieces) }
{
    heap.extend_from_slice(
        pieces,
        &[
            Piece::Code(mov(reg(3), pop(2))),
            Piece::Code(add(reg(3), literal())),
            Piece::Table,
            Piece::Code(mov(reg(15), at(3))),
        ],
    )
}

/// An address pushed on a stack, whose top a register has, and a jump.
pub(crate) fn push_call<H: Heap>(
    heap: H,
    pieces: &mut Vec<Piece>,
    stack: u8,
    after: Piece,
    target: Piece,
) -> Result<(), AllocError>
    requires { stack < 16 }
    ensures { OnOkUnless (H.may_refuse heap) result
        (pieces.new.items ≡ pieces.old.items ++ call_pieces stack after target) }
{
    heap.extend_from_slice(
        pieces,
        &[
            Piece::Code(mov(push(stack), literal())),
            after,
            Piece::Code(mov(reg(15), literal_at())),
            target,
        ],
    )
}

/// A jump where the top word passes a test, by the condition that the test is.
pub(crate) fn push_test<H: Heap>(
    heap: H,
    pieces: &mut Vec<Piece>,
    condition: Cc,
    program: u32,
    place: u32,
) -> Result<(), AllocError>
    ensures { OnOkUnless (H.may_refuse heap) result
        (pieces.new.items ≡ pieces.old.items ++ test_pieces condition program place) }
{
    heap.extend_from_slice(
        pieces,
        &[
            Piece::Code(setting(ALL_FLAGS, Op::Move, reg(3), pop(2))),
            Piece::Code(when(condition, Op::Move, reg(15), literal())),
            Piece::Place { program, place },
        ],
    )
}

/// A call of the program that the top word names.
pub(crate) fn push_pop_call<H: Heap>(
    heap: H,
    pieces: &mut Vec<Piece>,
    after: Piece,
) -> Result<(), AllocError>
    ensures { OnOkUnless (H.may_refuse heap) result (pieces.new.items ≡ pieces.old.items ++ pop_call_pieces after) }
{
    heap.extend_from_slice(
        pieces,
        &[
            Piece::Code(mov(reg(3), pop(2))),
            Piece::Code(mov(push(1), literal())),
            after,
            Piece::Code(mov(reg(15), reg(3))),
        ],
    )
}

/// A return from a program with so many locals.
pub(crate) fn push_ret<H: Heap>(
    heap: H,
    pieces: &mut Vec<Piece>,
    locals: u32,
) -> Result<(), AllocError>
    ensures { OnOkUnless (H.may_refuse heap) result (pieces.new.items ≡ pieces.old.items ++ ret_pieces locals) }
{
    heap.extend_from_slice(
        pieces,
        &[
            Piece::Code(mov(reg(1), reg(0))),
            Piece::Code(add(reg(1), literal())),
            Piece::Number(locals),
            Piece::Code(mov(reg(0), pop(1))),
            Piece::Code(mov(reg(15), pop(1))),
        ],
    )
}

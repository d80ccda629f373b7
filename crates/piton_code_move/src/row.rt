//! The pieces of moves, by the forms that several share.

ghost use Rattle.std.specs.Prelude.{◌≡◌, ◌++◌, ◌<◌};
ghost use Rattle.stack_heap.specs.Heaps.{OnOkUnless};
ghost use Rattle.piton_semantics.specs.Templates.{local_pieces, global_pieces, end_pieces, free_pieces};

use fm_code::word::{add, literal, mov, push, reg, sub};
use piton_check::Piece;
use stack_heap::Heap;
use std::alloc::AllocError;

/// What is done with a local, whose address is then in r3.
pub(crate) fn push_local<H: Heap>(
    heap: H,
    pieces: &mut Vec<Piece>,
    offset: u32,
    word: u32,
) -> Result<(), AllocError>
    ensures { OnOkUnless (H.may_refuse heap) result (pieces.new.items ≡ pieces.old.items ++ local_pieces offset word) }
{
    heap.extend_from_slice(
        pieces,
        &[
            Piece::Code(mov(reg(3), literal())),
            Piece::Number(offset),
            Piece::Code(add(reg(3), reg(0))),
            Piece::Code(word),
        ],
    )
}

/// What is done with the first word of an area, whose address is then in r3.
pub(crate) fn push_global<H: Heap>(
    heap: H,
    pieces: &mut Vec<Piece>,
    area: u32,
    word: u32,
) -> Result<(), AllocError>
    ensures { OnOkUnless (H.may_refuse heap) result (pieces.new.items ≡ pieces.old.items ++ global_pieces area word) }
{
    heap.extend_from_slice(
        pieces,
        &[
            Piece::Code(mov(reg(3), literal())),
            Piece::Area { area, offset: 0 },
            Piece::Code(word),
        ],
    )
}

/// What is done with an address below the temporary stack's end.
pub(crate) fn push_end<H: Heap>(
    heap: H,
    pieces: &mut Vec<Piece>,
    minus: u32,
    difference: u32,
    word: u32,
) -> Result<(), AllocError>
    ensures { OnOkUnless (H.may_refuse heap) result
        (pieces.new.items ≡ pieces.old.items ++ end_pieces minus difference word) }
{
    heap.extend_from_slice(
        pieces,
        &[
            Piece::Code(mov(reg(3), literal())),
            Piece::TempEnd { minus },
            Piece::Code(difference),
            Piece::Code(word),
        ],
    )
}

/// How many words are free between a stack's lowest address and its top, which a register has.
pub(crate) fn push_free<H: Heap>(
    heap: H,
    pieces: &mut Vec<Piece>,
    top: u8,
    start: Piece,
) -> Result<(), AllocError>
    requires { top < 16 }
    ensures { OnOkUnless (H.may_refuse heap) result (pieces.new.items ≡ pieces.old.items ++ free_pieces top start) }
{
    heap.extend_from_slice(
        pieces,
        &[
            Piece::Code(mov(reg(3), reg(top))),
            Piece::Code(sub(reg(3), literal())),
            start,
            Piece::Code(mov(push(2), reg(3))),
        ],
    )
}

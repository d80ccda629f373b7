//! Pieces that the rows of several tables have.

ghost use Rattle.std.specs.Prelude.{◌≡◌, ◌++◌};
ghost use Rattle.stack_heap.specs.Heaps.{OnOkUnless};
ghost use Rattle.piton_semantics.specs.Templates.{word_piece, literal_pieces, code_pieces};

use piton_check::Piece;
use piton_words::Word;
use stack_heap::Heap;
use std::alloc::AllocError;

/// The piece of a word.
pub fn word_piece(word: Word) -> Piece
    ensures { result ≡ word_piece word }
{
    match word {
        Word::Int(number) => Piece::Number(number.cast_unsigned()),
        Word::Nat(number) => Piece::Number(number),
        Word::Bitv(bits) => Piece::Number(bits),
        Word::Bool(truth) => Piece::Number(u32::from(truth)),
        Word::Addr { area, offset } => Piece::Area { area, offset },
        Word::Pc { program, place } => Piece::Place { program, place },
        Word::Subr { program } => Piece::Entry { program },
    }
}

/// Appends an instruction word with its literal.
pub fn push_literal<H: Heap>(
    heap: H,
    pieces: &mut Vec<Piece>,
    word: u32,
    literal: Piece,
) -> Result<(), AllocError>
    ensures { OnOkUnless (H.may_refuse heap) result
        (pieces.new.items ≡ pieces.old.items ++ literal_pieces word literal) }
{
    heap.extend_from_slice(pieces, &[Piece::Code(word), literal])
}

/// Appends instruction words alone.
pub fn push_code<H: Heap>(heap: H, pieces: &mut Vec<Piece>, words: &[u32]) -> Result<(), AllocError>
    ensures { OnOkUnless (H.may_refuse heap) result
        (pieces.new.items ≡ pieces.old.items ++ code_pieces words.now) }
{
    for word in words {
        heap.push(pieces, Piece::Code(*word))?;
    }
    Ok(())
}

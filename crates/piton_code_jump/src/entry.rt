//! The prelude of a program: the pieces before its first instruction.

ghost use Rattle.std.specs.Prelude.{◌≡◌, ◌<◌, ◌++◌, length};
ghost use Rattle.stack_heap.specs.Heaps.{IfOkUnless, OnOkUnless};
ghost use Rattle.piton_semantics.specs.{Fits.{system_in}, State.{program_of}, Templates.{temporary_pieces, formal_pieces, entered_pieces, prelude_pieces}};

use fm_code::word::{literal, mov, pop, push, reg};
use piton_check::{Checked, Piece};
use piton_semantics::{push_literal, word_piece};
use piton_words::Word;
use stack_heap::Heap;
use stack_text::Memory;

/// The pieces of a program's prelude: the frame pointer pushed, the temporaries, last first, the formals, and the new frame
/// pointer.
pub fn prelude<H: Heap>(heap: H, checked: &Checked, program: u32) -> Result<Vec<Piece>, Memory>
    requires { program < length (system_in checked.now).programs }
    ensures { IfOkUnless (H.may_refuse heap) result
        (λ pieces. pieces.items ≡ prelude_pieces (program_of (system_in checked.now) program)) }
{
    let resolved = checked.resolved();
    match resolved.programs.get(program as usize) {
        Some(called) => entered(heap, called.formals, called.temporaries.as_slice()),
        None => Ok(Vec::new(heap.handle())),
    }
}

/// The prelude of a program with so many formals and these temporaries.
fn entered<H: Heap>(heap: H, formals: u32, temporaries: &[Word]) -> Result<Vec<Piece>, Memory>
    ensures { IfOkUnless (H.may_refuse heap) result
        (λ pieces. pieces.items ≡ entered_pieces formals temporaries.now) }
{
    let mut pieces = Vec::new(heap.handle());
    heap.push(&mut pieces, Piece::Code(mov(push(1), reg(0))))?;
    push_temporaries(heap, &mut pieces, temporaries)?;
    push_formals(heap, &mut pieces, formals)?;
    heap.push(&mut pieces, Piece::Code(mov(reg(0), reg(1))))?;
    Ok(pieces)
}

/// The pushes of these temporaries, last first.
fn push_temporaries<H: Heap>(
    heap: H,
    pieces: &mut Vec<Piece>,
    temporaries: &[Word],
) -> Result<(), Memory>
    ensures { OnOkUnless (H.may_refuse heap) result
        (pieces.new.items ≡ pieces.old.items ++ temporary_pieces temporaries.now) }
{
    let count = temporaries.len();
    for done in 0..count {
        let word = temporaries[count - 1 - done];
        push_literal(heap, pieces, mov(push(1), literal()), word_piece(word))?;
    }
    Ok(())
}

/// The moves of so many formals from the temporary stack.
fn push_formals<H: Heap>(heap: H, pieces: &mut Vec<Piece>, formals: u32) -> Result<(), Memory>
    ensures { OnOkUnless (H.may_refuse heap) result
        (pieces.new.items ≡ pieces.old.items ++ formal_pieces formals) }
{
    for _ in 0..formals {
        heap.push(pieces, Piece::Code(mov(push(1), pop(2))))?;
    }
    Ok(())
}

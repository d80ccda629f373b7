//! The pieces of an instruction's code, one instruction of each table.

use piton_check::{Checked, Piece, check};
use piton_semantics::{Group, group_of, instruction};
use piton_syntax::read_piton;
use std::alloc::Global;
use std::test::Fail;

/// A system with a move, an operation on words, a jump and a return.
const SYSTEM: &[u8] =
    b"(piton main 2 1 0 ((a (nat 5))) () (main () () (push-global a) (add1-nat) (jump L) (dl L () (ret))))";

/// The pieces of the instruction at a place of the first program, by the crate of its table.
fn pieces_at(alloc: Global, checked: &Checked, place: u32) -> Result<Vec<Piece>, Fail> {
    let Some(instr) = instruction(checked.resolved(), 0, place) else {
        return Err(Fail::from("no instruction"));
    };
    let pieces = match group_of(instr.op) {
        Group::Move => piton_code_move::emit(alloc, checked, 0, place)?,
        Group::Jump => piton_code_jump::emit(alloc, checked, 0, place)?,
        Group::Word => piton_code_arith::emit(alloc, checked, 0, place)?,
    };
    Ok(pieces)
}

/// The pieces of the system's instruction at a place.
fn pieces(alloc: Global, place: u32) -> Result<Vec<Piece>, Fail> {
    let checked = check(alloc, read_piton(alloc, SYSTEM)?)?;
    pieces_at(alloc, &checked, place)
}

#[test]
fn a_move_has_the_address_of_its_area(rt: HostRuntime) -> Result<(), Fail> {
    // MOVE r3,=a; MOVE -(r2),(r3)
    let area = Piece::Area { area: 0, offset: 0 };
    let expected = [Piece::Code(0x00e0_0c3f), area, Piece::Code(0x00e0_8813)];
    assert!(rt; pieces(rt.alloc(), 0)?.as_slice() == expected.as_slice());
    Ok(())
}

#[test]
fn an_operation_on_words_is_code_alone(rt: HostRuntime) -> Result<(), Fail> {
    // INC (r2),(r2)
    assert!(rt; pieces(rt.alloc(), 1)?.as_slice() == [Piece::Code(0x01e0_4812)].as_slice());
    Ok(())
}

#[test]
fn a_jump_has_the_place_of_its_label(rt: HostRuntime) -> Result<(), Fail> {
    // MOVE r15,@L
    let label = Piece::Place {
        program: 0,
        place: 3,
    };
    assert!(rt; pieces(rt.alloc(), 2)?.as_slice() == [Piece::Code(0x00e0_3c1f), label].as_slice());
    Ok(())
}

#[test]
fn a_return_drops_as_many_words_as_its_program_has_variables(rt: HostRuntime) -> Result<(), Fail> {
    // MOVE r1,r0; ADD r1,=0; MOVE r0,(r1)+; MOVE r15,(r1)+
    let expected = [
        Piece::Code(0x00e0_0400),
        Piece::Code(0x03e0_043f),
        Piece::Number(0),
        Piece::Code(0x00e0_0031),
        Piece::Code(0x00e0_3c31),
    ];
    assert!(rt; pieces(rt.alloc(), 3)?.as_slice() == expected.as_slice());
    Ok(())
}

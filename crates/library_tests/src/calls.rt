//! Calls that no command makes: of the machine's pages, and of the room that a source's calls have.

use fm_machine::Machine;
use gypsy_check::check;
use gypsy_space::needs;
use gypsy_syntax::read_gypsy;
use std::alloc::Global;
use std::test::Fail;

/// What a machine has of pages, and at three addresses round the last of its window.
type Seen = (u32, [Option<u32>; 3], u32);

/// A window of a page of 256 words and one of a word, into which a word is put.
fn seen(alloc: Global) -> Result<Seen, Fail> {
    let mut machine = Machine::new(alloc, 5, 257)?;
    let before = machine.pages();
    machine.poke(261, 9)?;
    let words = [machine.peek(260), machine.peek(261), machine.peek(262)];
    Ok((before, words, machine.pages()))
}

#[test]
fn a_page_has_a_place_from_its_first_word_on(rt: HostRuntime) -> Result<(), Fail> {
    assert!(rt; seen(rt.alloc())? == (0, [Some(0), Some(9), None], 1));
    Ok(())
}

/// A procedure that calls itself until its argument is 0.
const RECURSIVE: &[u8] = b"(program main
(proc main ((n integer)) () () () (call p (n) ()))
(proc p ((n integer)) () ((b boolean false) (one integer 1)) ()
(seq (mg-simple-constant-eq b n 0)
(if b (no-op) (seq (mg-integer-subtract n n one) (call p (n) ()))))))";

/// Whether the third call of the procedure by itself has room, where both stacks just suffice, and where one has a word less. Main
/// has a word and a frame of three in use, and each of the two calls before it two words and a frame of five.
fn rooms(alloc: Global) -> Result<[bool; 3], Fail> {
    let accepted = check(alloc, read_gypsy(alloc, RECURSIVE)?)?;
    let needs = needs(alloc, &accepted)?;
    let (temporary, control) = (1 + 2 * 2, 3 + 2 * 5);
    Ok([
        needs.room(1, temporary, control, 10, 24),
        needs.room(1, temporary, control, 9, 24),
        needs.room(1, temporary, control, 10, 23),
    ])
}

#[test]
fn a_call_has_room_for_its_words_and_its_frame(rt: HostRuntime) -> Result<(), Fail> {
    assert!(rt; rooms(rt.alloc())? == [true, false, false]);
    Ok(())
}

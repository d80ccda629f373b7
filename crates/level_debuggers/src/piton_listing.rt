//! A state of Piton's machine as lines.

ghost use Rattle.std.specs.{Prelude.{◌≡◌, ◌++◌, slice_get}, Option.{option_map}};
ghost use Rattle.stack_heap.specs.Heaps.{IfOkUnless, OnOkUnless};
ghost use Rattle.level_debuggers.specs.PitonLevels.{local_names, names_of, local_line, local_lines, place_line, piton_listing, frame_lines, piton_listing_all};
ghost use Rattle.level_debuggers.specs.PitonLevels.{waiting_frames};

use fm_show::push_counted;
use piton_check::{program_name, push_word, words_line};
use piton_machine::State;
use piton_syntax::{Program, System};
use piton_words::Word;
use stack_heap::Heap;
use stack_text::{Memory, Name};

/// The name of the local at a place of a program: a formal's, or behind the formals a temporary's.
fn local_name(program: &Program, place: usize) -> Option<&Name>
    ensures { option_map (λ name. name.now) result ≡ slice_get (local_names program.now) place }
{
    if let Some(formal) = program.formals.get(place) {
        return Some(&formal.name);
    }
    let temporary = program.temporaries.get(place - program.formals.len())?;
    Some(&temporary.0.name)
}

/// Appends the line of a local.
fn push_local<H: Heap>(
    heap: H,
    out: &mut Vec<u8>,
    system: &System,
    name: &Name,
    word: Word,
) -> Result<(), Memory>
    ensures { OnOkUnless (H.may_refuse heap) result
        (out.new.items ≡ out.old.items ++ local_line system.now name.now word) }
{
    heap.extend_from_slice(out, name.bytes())?;
    heap.extend_from_slice(out, b" = ")?;
    push_word(heap, out, system, word)?;
    heap.push(out, b'\n')?;
    Ok(())
}

/// Appends the line of each local of a program.
fn push_locals<H: Heap>(
    heap: H,
    out: &mut Vec<u8>,
    system: &System,
    program: &Program,
    words: &[Word],
) -> Result<(), Memory>
    ensures { OnOkUnless (H.may_refuse heap) result
        (out.new.items ≡ out.old.items ++ local_lines system.now (local_names program.now) words.now) }
{
    for (place, word) in words.iter().enumerate() {
        match local_name(program, place) {
            Some(name) => push_local(heap, out, system, name, *word)?,
            None => return Ok(()),
        }
    }
    Ok(())
}

/// Appends the locals of the program at a position.
#[tactic(auto, unfolding(crate::specs::PitonLevels::local_lines))]
fn push_frame<H: Heap>(
    heap: H,
    out: &mut Vec<u8>,
    system: &System,
    program: u32,
    words: &[Word],
) -> Result<(), Memory>
    ensures { OnOkUnless (H.may_refuse heap) result (out.new.items
        ≡ out.old.items ++ local_lines system.now (names_of (slice_get system.now.programs program)) words.now) }
{
    match system.programs.get(program as usize) {
        Some(program) => push_locals(heap, out, system, program, words),
        None => Ok(()),
    }
}

/// Appends the line of the place.
fn push_place<H: Heap>(
    heap: H,
    out: &mut Vec<u8>,
    system: &System,
    state: &State,
) -> Result<(), Memory>
    ensures { OnOkUnless (H.may_refuse heap) result (out.new.items
        ≡ out.old.items ++ place_line system.now state.now.state) }
{
    let frames = state.frames();
    if frames == 0 {
        heap.extend_from_slice(out, b"halted\n")?;
        return Ok(());
    }
    let (program, place) = state.at();
    heap.extend_from_slice(out, b"at ")?;
    heap.extend_from_slice(out, program_name(system, program).bytes())?;
    push_counted(heap, out, b" ", u64::from(place), b" frames ")?;
    push_counted(heap, out, b"", u64::from(frames), b"\n")
}

/// Appends the lines of a frame that waits: where it goes on, and its locals.
fn push_waiting_frame<H: Heap>(
    heap: H,
    out: &mut Vec<u8>,
    system: &System,
    at: (u32, u32),
    words: &[Word],
) -> Result<(), Memory>
    ensures { OnOkUnless (H.may_refuse heap) result
        (out.new.items ≡ out.old.items ++ frame_lines system.now at.0 at.1 words.now) }
{
    let (program, place) = at;
    heap.extend_from_slice(out, b"in ")?;
    heap.extend_from_slice(out, program_name(system, program).bytes())?;
    push_counted(heap, out, b" ", u64::from(place), b"\n")?;
    push_frame(heap, out, system, program, words)
}

/// Appends the lines of each frame that waits.
fn push_waiting_frames<H: Heap>(
    heap: H,
    out: &mut Vec<u8>,
    system: &System,
    state: &State,
) -> Result<(), Memory>
    ensures { OnOkUnless (H.may_refuse heap) result
        (out.new.items ≡ out.old.items ++ waiting_frames system.now state.now.state.frames) }
{
    for number in 0..state.frames() {
        let Some(newer) = state.frame(number) else {
            return Ok(());
        };
        let Some(older) = state.frame(number + 1) else {
            return Ok(());
        };
        push_waiting_frame(
            heap,
            out,
            system,
            (newer.program, newer.place),
            older.locals,
        )?;
    }
    Ok(())
}

/// The place, the locals of the newest frame, the stack, and the locals of each frame that waits, as lines.
pub(crate) fn piton_listing_all<H: Heap>(
    heap: H,
    system: &System,
    state: &State,
) -> Result<Vec<u8>, Memory>
    ensures { IfOkUnless (H.may_refuse heap) result
        (λ text. text.items ≡ piton_listing_all system.now state.now.state) }
{
    let mut out = piton_listing(heap, system, state)?;
    push_waiting_frames(heap, &mut out, system, state)?;
    Ok(out)
}

/// The place, the locals of the newest frame, and the stack, as lines.
pub(crate) fn piton_listing<H: Heap>(
    heap: H,
    system: &System,
    state: &State,
) -> Result<Vec<u8>, Memory>
    ensures { IfOkUnless (H.may_refuse heap) result (λ text. text.items ≡ piton_listing system.now state.now.state) }
{
    let mut out = Vec::new(heap.handle());
    push_place(heap, &mut out, system, state)?;
    let (program, _place) = state.at();
    push_frame(heap, &mut out, system, program, state.locals())?;
    words_line(heap, &mut out, system, b"stack", state.stack())?;
    Ok(out)
}

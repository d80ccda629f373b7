//! Quick images.

ghost use Rattle.std.specs.Prelude.{◌≡◌, ◌+◌, ◌*◌, ◌^◌, ◌<◌, ◌≤◌, ◌∷◌, length, map};
ghost use Rattle.stack_heap.specs.Heaps.{IfOkUnless};
ghost use Rattle.fm_words.specs.WindowLimit.{most_window};
ghost use Rattle.display_maps.specs.Reading.{space_name};
ghost use Rattle.gypsy_check.specs.Accepted.{IsAccepted};
ghost use Rattle.gypsy_syntax.specs.{Programs.{shapes_of, words_of}, Resolved.{program_of}, Views.SourceView.{source_of}};
ghost use Rattle.gypsy_space.specs.{Nodes.{seen_proc, seen_program, seen_statement}, Needs.{stack_sizes}};
ghost use Rattle.quick_gypsy.specs.Quick.{size};
ghost use Rattle.quick_generate.specs.{QuickOf.{StandsForMain, final_by, quick_of, small_image, whole_image, window_end, words_by}, Quickened.{quickened}};
ghost use Rattle.quick_generate.specs.{Sums.{limited}, Views.{frame_layout}};

use crate::choice::choose;
use crate::exits::{EXIT_SIZE, Exits, append_exits};
use crate::frame::{Frame, shapes, words_of};
use crate::lined_main::lined_main;
use crate::scopes::Scopes;
use crate::size::{size, small_size, sum};
use crate::statement::statement;
use crate::window::{numbers, registers, window};
use display_maps::space_name;
use fm_image::{Image, bare_image};
use fm_words::MOST_WINDOW;
use gypsy_check::Accepted;
use gypsy_space::{Procedure, Program};
use stack_build::{formal_conditions, shown_formals, slots_from};
use stack_heap::Heap;
use stack_text::{Memory, Name, Named};

/// Beside its code and its variables, a quick image has the word that ends the code and the condition's word.
const OTHER_WORDS: u32 = 2;

/// Before the size of the code is known, the window ends here. The size doesn't depend on it.
const ANY_END: u32 = u32::MAX;

/// How many words the image of a main procedure has, exact up to 2^60.
fn image_size(frame: &Frame, main: &Procedure) -> u64
    requires { length main.now.conds.items ≤ 200 }
    ensures { let code = size (frame_layout frame.now) (seen_statement main.now.body.value) in
        result ≡ limited (6 * (2 + length main.now.conds.items) + code + (2 + words_of frame.now.shapes.items)) }
{
    let before = u64::from(EXIT_SIZE) * (2 + main.conds.len() as u64);
    let code = sum(before, size(frame, &main.body));
    let others = u64::from(OTHER_WORDS) + u64::from(words_of(frame.shapes.as_slice()));
    sum(code, others)
}

/// The code of a main procedure from this address on: its exits, and its body.
fn code<H: Heap>(heap: H, frame: &Frame, main: &Procedure, base: u32) -> Result<Vec<u32>, Memory>
    requires conds { length main.now.conds.items ≤ 200 }
    requires fits { final_by (frame_layout frame.now) base (length main.now.conds.items)
        (seen_statement main.now.body.value) + 1 < 2 ^ 32 }
    ensures { let statement = seen_statement main.now.body.value in
        let code = words_by (frame_layout frame.now) base (length main.now.conds.items) statement in
        IfOkUnless (H.may_refuse heap) result (λ words. words.items ≡ code) }
{
    let conds = main.conds.len() as u32;
    let start = base + EXIT_SIZE * (2 + conds);
    let behind = start + small_size(frame, &main.body);
    let exits = Exits { base, conds };
    let mut words = Vec::new(heap.handle());
    append_exits(heap, &mut words, behind + 1, behind, conds)?;
    let scopes = Scopes::Outside(&exits);
    statement(heap, &mut words, frame, &scopes, start, &main.body)?;
    Ok(words)
}

/// The names of spaceerror and of these conditions.
fn condition_names<H: Heap>(heap: H, conditions: &[Named]) -> Result<Vec<Name>, Memory>
    ensures { IfOkUnless (H.may_refuse heap) result
        (λ names. names.items ≡ space_name ∷ map (λ n. n.name) conditions.now) }
{
    let mut names = Vec::new(heap.handle());
    heap.push(&mut names, space_name(heap)?)?;
    for condition in conditions {
        heap.push(&mut names, condition.name.copied(heap)?)?;
    }
    Ok(names)
}

/// The image of a procedure that stands for main, whose variables stand in the frame, in the window from `base` to the
/// frame's end.
fn placed<H: Heap>(
    heap: H,
    accepted: &Accepted,
    frame: &Frame,
    main: &Procedure,
    base: u32,
) -> Result<Image, Memory>
    requires accepted { IsAccepted (source_of accepted.now) }
    requires main { StandsForMain (source_of accepted.now) (seen_proc main.now) }
    requires shapes { frame.now.shapes.items ≡ shapes_of (seen_proc main.now) }
    requires end { frame.now.end ≡ window_end frame.now.chosen.items (seen_proc main.now) base }
    requires small { frame.now.end ≤ base + most_window }
    requires base { base ≤ 2 ^ 31 }
    ensures { let p = seen_proc main.now in IfOkUnless (H.may_refuse heap) result
        (λ image. image ≡ whole_image frame.now.chosen.items (source_of accepted.now) p base frame.now.end) }
{
    let source = accepted.source();
    let conds = main.conds.len() as u32;
    let start = base + EXIT_SIZE * (2 + conds);
    let behind = start + small_size(frame, &main.body);
    let registers = registers(heap, frame, start)?;
    let code = code(heap, frame, main, base)?;
    let numbers = numbers(heap, main)?;
    let words = window(heap, code, numbers)?;
    let bare = bare_image(
        heap.handle(),
        base,
        frame.end - base,
        behind,
        registers,
        words,
    );
    Ok(Image {
        condition_address: Some(behind + 1),
        conditions: condition_names(heap, formal_conditions(source))?,
        slots: slots_from(heap, frame.end - 1, shown_formals(source))?,
        ..bare
    })
}

/// The image of a procedure that stands for main, in the smallest window from `base` on, if that isn't too large. Registers
/// hold the addresses of these variables, given by their positions.
fn small_image<H: Heap>(
    heap: H,
    accepted: &Accepted,
    main: &Procedure,
    chosen: Vec<u32>,
    base: u32,
) -> Result<Option<Image>, Memory>
    requires accepted { IsAccepted (source_of accepted.now) }
    requires main { StandsForMain (source_of accepted.now) (seen_proc main.now) }
    requires ten { length chosen.items ≤ 10 }
    requires base { base ≤ 2 ^ 31 }
    ensures { IfOkUnless (H.may_refuse heap) result
        (λ found. found ≡ small_image chosen.items (source_of accepted.now) (seen_proc main.now) base) }
{
    let anywhere = Frame::new(ANY_END, shapes(heap, main)?, chosen);
    let words = image_size(&anywhere, main);
    if words > u64::from(MOST_WINDOW) {
        return Ok(None);
    }
    let frame = anywhere.moved(base + words as u32);
    Ok(Some(placed(heap, accepted, &frame, main, base)?))
}

/// The quick image of an accepted source, if it has one.
fn quick_image<H: Heap>(
    heap: H,
    accepted: &Accepted,
    program: &Program,
    ctrl: u32,
    temp: u32,
    base: u32,
) -> Result<Option<Image>, Memory>
    requires program { seen_program program.now ≡ program_of (source_of accepted.now) }
    requires accepted { IsAccepted (source_of accepted.now) }
    requires base { base ≤ 2 ^ 31 }
    ensures { IfOkUnless (H.may_refuse heap) result
        (λ found. found ≡ quick_of (source_of accepted.now) (stack_sizes ctrl temp) base) }
{
    match lined_main(heap, accepted, program, ctrl, temp)? {
        Some(main) => {
            let variables = shapes(heap, &main)?;
            let chosen = choose(heap, &main, variables.as_slice())?;
            small_image(heap, accepted, &main, chosen, base)
        }
        None => Ok(None),
    }
}

/// The quick image of an accepted source for stacks of these sizes, if it has one, and else `plain`, which was built of the
/// source. The calls of main go in line, and the variables that it names most have registers. An image goes for all values
/// of main's formals.
///
/// There is no quick image if calls nest more than 16 deep where they have room, if a called procedure has an array, if
/// statements in line nest more than 200 deep or are too many, or if the image would take more than 2^20 words.
///
/// # Errors
///
/// Out of memory.
pub fn quicken<H: Heap>(
    heap: H,
    accepted: &Accepted,
    program: &Program,
    ctrl: u32,
    temp: u32,
    plain: Image,
) -> Result<Image, Memory>
    requires program { seen_program program.now ≡ program_of (source_of accepted.now) }
    requires accepted { IsAccepted (source_of accepted.now) }
    requires base { plain.base ≤ 2 ^ 31 }
    ensures { IfOkUnless (H.may_refuse heap) result
        (λ image. image ≡ quickened (source_of accepted.now) (stack_sizes ctrl temp) plain) }
{
    match quick_image(heap, accepted, program, ctrl, temp, plain.base)? {
        Some(image) => Ok(image),
        None => Ok(plain),
    }
}

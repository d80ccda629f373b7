//! What stands in a quick image behind its code, and its registers.

ghost use Rattle.std.specs.Prelude.{◌≡◌, ◌++◌, ◌∷◌, map, replicate, reverse, take};
ghost use Rattle.stack_heap.specs.Heaps.{IfOkUnless, OnOkUnless};
ghost use Rattle.fm_words.specs.Word.{word_of_int};
ghost use Rattle.fm_code.specs.InstructionWords.{halt_word};
ghost use Rattle.piton_linker.specs.Layouts.{trimmed};
ghost use Rattle.gypsy_syntax.specs.Programs.{words_of};
ghost use Rattle.gypsy_space.specs.Nodes.{held_shapes, held_values, seen_proc};
ghost use Rattle.gypsy_codegen.specs.WordsOf.{zero_value};
ghost use Rattle.quick_gypsy.specs.Numbers.{numbers_of};
ghost use Rattle.quick_build.specs.QuickImage.{first_values};
ghost use Rattle.quick_generate.specs.QuickOf.{registers_by};

use crate::frame::{Frame, words_of};
use crate::piece::append;
use fm_code::word::HALT_WORD;
use fm_words::word_of_int;
use gypsy_space::Procedure;
use stack_heap::Heap;
use stack_text::{Memory, Name, Shape, Value};

/// The number of the normal condition.
const NORMAL: u32 = 2;

/// Appends the numbers of items.
fn append_items<H: Heap>(heap: H, numbers: &mut Vec<u32>, items: &[i32]) -> Result<(), Memory>
    ensures { OnOkUnless (H.may_refuse heap) result
        (numbers.new.items ≡ numbers.old.items ++ map word_of_int items.now) }
{
    for item in items {
        heap.push(numbers, word_of_int(*item))?;
    }
    Ok(())
}

/// Appends the numbers of the first values of locals.
fn append_locals<H: Heap>(
    heap: H,
    numbers: &mut Vec<u32>,
    locals: &[(Name, Value)],
) -> Result<(), Memory>
    ensures { OnOkUnless (H.may_refuse heap) result
        (numbers.new.items ≡ numbers.old.items ++ numbers_of (held_values locals.now)) }
{
    for (_, value) in locals {
        append_items(heap, numbers, value.items.as_slice())?;
    }
    Ok(())
}

/// Appends zeros.
fn append_zeros<H: Heap>(heap: H, numbers: &mut Vec<u32>, count: usize) -> Result<(), Memory>
    ensures { OnOkUnless (H.may_refuse heap) result
        (numbers.new.items ≡ numbers.old.items ++ replicate count 0) }
{
    for _ in 0..count {
        heap.push(numbers, 0)?;
    }
    Ok(())
}

/// Appends the numbers of the zero values of formals.
fn append_formals<H: Heap>(
    heap: H,
    numbers: &mut Vec<u32>,
    formals: &[(Name, Shape)],
) -> Result<(), Memory>
    ensures { OnOkUnless (H.may_refuse heap) result
        (numbers.new.items ≡ numbers.old.items ++ numbers_of (map zero_value (held_shapes formals.now))) }
{
    for (_, shape) in formals {
        append_zeros(heap, numbers, shape.item_count())?;
    }
    Ok(())
}

/// The numbers of the first values of main's variables.
pub(crate) fn numbers<H: Heap>(heap: H, main: &Procedure) -> Result<Vec<u32>, Memory>
    ensures { IfOkUnless (H.may_refuse heap) result
        (λ numbers. numbers.items ≡ numbers_of (first_values (seen_proc main.now))) }
{
    let mut numbers = Vec::new(heap.handle());
    append_formals(heap, &mut numbers, main.formals.as_slice())?;
    append_locals(heap, &mut numbers, main.locals.as_slice())?;
    Ok(numbers)
}

/// How many words there are up to the last that isn't zero.
fn used(words: &[u32]) -> usize
    ensures { take result words.now ≡ trimmed words.now }
{
    let mut used = 0;
    for (at, word) in words.iter().enumerate() {
        if *word != 0 {
            used = at + 1;
        }
    }
    used
}

/// The words of a window: the code, the word where it ends, the condition's word, and the numbers of the variables from
/// the last one down. Zeros after the last word that isn't zero are taken off.
pub(crate) fn window<H: Heap>(
    heap: H,
    code: Vec<u32>,
    numbers: Vec<u32>,
) -> Result<Vec<u32>, Memory>
    ensures { IfOkUnless (H.may_refuse heap) result (λ words. words.items
        ≡ trimmed (code.items ++ (halt_word ∷ 2 ∷ reverse numbers.items))) }
{
    let mut words = code;
    let mut numbers = numbers;
    numbers.reverse();
    append(heap, &mut words, &[HALT_WORD, NORMAL])?;
    append(heap, &mut words, numbers.as_slice())?;
    let used = used(words.as_slice());
    words.truncate(used);
    Ok(words)
}

/// The registers at the start: the stacks have no word, ten registers hold addresses of variables, and the program
/// counter is at main's body.
pub(crate) fn registers<H: Heap>(heap: H, frame: &Frame, start: u32) -> Result<Vec<u32>, Memory>
    ensures { IfOkUnless (H.may_refuse heap) result (λ made. made.items
        ≡ registers_by frame.now.chosen.items frame.now.shapes.items frame.now.end start) }
{
    let top = frame.end - words_of(frame.shapes.as_slice());
    let words = [
        0,
        top,
        top,
        0,
        0,
        frame.held(0),
        frame.held(1),
        frame.held(2),
        frame.held(3),
        frame.held(4),
        frame.held(5),
        frame.held(6),
        frame.held(7),
        frame.held(8),
        frame.held(9),
        start,
    ];
    Ok(heap.copied(&words)?)
}

//! Words as the text of Piton has them, with names in place of positions.
ghost use Rattle.std.specs.{Prelude.{◌≡◌, ◌++◌, pos, slice_get}, Option.{option_map}};
ghost use Rattle.stack_heap.specs.Heaps.{IfOkUnless, OnOkUnless};
ghost use Rattle.piton_check.specs.NamedWords.{area_name_at, program_name_at, number_item, named_item, named_word, word_text, words_line};

use piton_syntax::{Area, Number, Program, System, WordItem, WordText};
use piton_words::Word;
use stack_heap::Heap;
use stack_text::grammar::Print;
use stack_text::{Memory, Name};

/// The name of the area at a position, if there is one.
fn name_of_area(areas: &[Area], area: u32) -> Option<&Name>
    ensures { option_map (λ name. name.now) result ≡ option_map (λ a. a.name.name) (slice_get areas.now area) }
{
    Some(&areas.get(area as usize)?.name.name)
}

/// The name of the program at a position, if there is one.
fn name_of_program(programs: &[Program], program: u32) -> Option<&Name>
    ensures { option_map (λ name. name.now) result ≡ option_map (λ p. p.name.name) (slice_get programs.now program) }
{
    Some(&programs.get(program as usize)?.name.name)
}

/// The name of the area at a position; where there is none, that of the main program.
fn area_name(system: &System, area: u32) -> &Name
    ensures { result.now ≡ area_name_at system.now area }
{
    match name_of_area(&system.areas, area) {
        Some(name) => name,
        None => &system.main.name,
    }
}

/// The name of the program at a position; where there is none, that of the main program.
pub fn program_name(system: &System, program: u32) -> &Name
    ensures { result.now ≡ program_name_at system.now program }
{
    match name_of_program(&system.programs, program) {
        Some(name) => name,
        None => &system.main.name,
    }
}

/// A number of no place in a text.
fn number_item(number: i128) -> Number
    ensures { result ≡ number_item number }
{
    Number { place: 0, number }
}

/// A number without a sign, of no place in a text.
fn natural_item(number: u32) -> Number
    ensures { result ≡ number_item (pos number) }
{
    number_item(i128::from(number))
}

/// What a word is, with names in place of positions.
fn named_item<H: Heap>(heap: H, system: &System, word: Word) -> Result<WordItem, Memory>
    ensures { IfOkUnless (H.may_refuse heap) result (λ item. item ≡ named_item system.now word) }
{
    match word {
        Word::Int(number) => Ok(WordItem::Int(number_item(i128::from(number)))),
        Word::Nat(number) => Ok(WordItem::Nat(natural_item(number))),
        Word::Bitv(number) => Ok(WordItem::Bitv(natural_item(number))),
        Word::Bool(truth) => Ok(WordItem::Bool(truth)),
        Word::Addr { area, offset } => {
            let area = area_name(system, area).unplaced(heap)?;
            let offset = natural_item(offset);
            Ok(WordItem::Addr { area, offset })
        }
        Word::Pc { program, place } => {
            let program = program_name(system, program).unplaced(heap)?;
            let at = natural_item(place);
            Ok(WordItem::Pc { program, at })
        }
        Word::Subr { program } => {
            let program = program_name(system, program).unplaced(heap)?;
            Ok(WordItem::Subr(program))
        }
    }
}

/// A word with names in place of positions.
fn named_word<H: Heap>(heap: H, system: &System, word: Word) -> Result<WordText, Memory>
    ensures { IfOkUnless (H.may_refuse heap) result (λ text. text ≡ named_word system.now word) }
{
    Ok(WordText {
        place: 0,
        item: named_item(heap, system, word)?,
    })
}

/// Appends a word as the text has it, as `(int -7)` or `(addr (a 2))`. The only error is out of memory.
pub fn push_word<H: Heap>(
    heap: H,
    out: &mut Vec<u8>,
    system: &System,
    word: Word,
) -> Result<(), Memory>
    ensures { OnOkUnless (H.may_refuse heap) result (out.new.items ≡ out.old.items ++ word_text system.now word) }
{
    named_word(heap, system, word)?.print(heap, out)
}

/// Appends a line of a name and words, with a space before each word. The only error is out of memory.
pub fn words_line<H: Heap>(
    heap: H,
    out: &mut Vec<u8>,
    system: &System,
    name: &[u8],
    words: &[Word],
) -> Result<(), Memory>
    ensures { OnOkUnless (H.may_refuse heap) result
        (out.new.items ≡ out.old.items ++ words_line system.now name.now words.now) }
{
    heap.extend_from_slice(out, name)?;
    for word in words {
        heap.push(out, b' ')?;
        push_word(heap, out, system, *word)?;
    }
    heap.push(out, b'\n')?;
    Ok(())
}

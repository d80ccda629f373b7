//! Numbers and words.

ghost use Rattle.std.specs.{Prelude.{◌≡◌, map, get_or, OnOk}, List.{flat_map}};
ghost use Rattle.stack_heap.specs.Heaps.{IfOkUnless};
ghost use Rattle.stack_text.specs.Breaches.{Notes};
ghost use Rattle.piton_check.specs.{Declarations.{area_names, program_names, first_of}, Meaning.{position_in, area_lengths, program_lengths, word_of}};
ghost use Rattle.piton_check.specs.{Resolved.{resolved_word, resolved_temporary}, Tables.{KnowsSystem}, Violations.{word_breaches, temporary_breaches}};
ghost use Rattle.fm_words.specs.Word.{unsigned_32, signed_32};

use crate::names::Names;
use piton_syntax::{System, WordItem, WordText};
use piton_words::Word;
use stack_heap::Heap;
use stack_text::{Breach, Memory, Name, Named, note_if};

/// The number, where a natural word has it.
pub(crate) fn natural(number: i128) -> Option<u32>
    ensures { result ≡ unsigned_32 number }
{
    u32::try_from(number).ok()
}

/// The number, where an integer word has it.
fn integer(number: i128) -> Option<i32>
    ensures { result ≡ signed_32 number }
{
    i32::try_from(number).ok()
}

/// The number, where it is a position in a list of that length.
fn position_in(count: usize, number: i128) -> Option<u32>
    ensures { result ≡ position_in count number }
{
    let position = natural(number)?;
    if (position as usize) < count {
        Some(position)
    } else {
        None
    }
}

/// The position of an area.
pub(crate) fn area_position(names: &Names, name: &Name) -> Option<u32>
    requires { KnowsSystem names.now }
    ensures { result ≡ first_of (area_names names.now.system.now) name.now }
{
    names.areas.get(name.bytes())
}

/// The position of a program.
pub(crate) fn program_position(names: &Names, name: &Name) -> Option<u32>
    requires { KnowsSystem names.now }
    ensures { result ≡ first_of (program_names names.now.system.now) name.now }
{
    names.programs.get(name.bytes())
}

/// How many words an area has.
fn area_length(system: &System, area: u32) -> usize
    ensures { result ≡ get_or (area_lengths system.now) area 0 }
{
    match system.areas.get(area as usize) {
        Some(area) => area.words.len(),
        None => 0,
    }
}

/// How many instructions a program has.
fn program_length(system: &System, program: u32) -> usize
    ensures { result ≡ get_or (program_lengths system.now) program 0 }
{
    match system.programs.get(program as usize) {
        Some(program) => program.instrs.len(),
        None => 0,
    }
}

/// What a word means, if it means anything.
fn meaning(names: &Names, item: &WordItem) -> Option<Word>
    requires { KnowsSystem names.now }
    ensures { result ≡ word_of names.now.system.now item.now }
{
    match item {
        WordItem::Int(number) => Some(Word::Int(integer(number.number)?)),
        WordItem::Nat(number) => Some(Word::Nat(natural(number.number)?)),
        WordItem::Bitv(number) => Some(Word::Bitv(natural(number.number)?)),
        WordItem::Bool(truth) => Some(Word::Bool(*truth)),
        WordItem::Addr { area, offset } => {
            let area = area_position(names, &area.name)?;
            let offset = position_in(area_length(names.system, area), offset.number)?;
            Some(Word::Addr { area, offset })
        }
        WordItem::Pc { program, at } => {
            let program = program_position(names, &program.name)?;
            let place = position_in(program_length(names.system, program), at.number)?;
            Some(Word::Pc { program, place })
        }
        WordItem::Subr(program) => {
            let program = program_position(names, &program.name)?;
            Some(Word::Subr { program })
        }
    }
}

/// A word; one that means nothing is noted.
pub(crate) fn word(best: &mut Option<Breach>, names: &Names, word: &WordText) -> Word
    requires { KnowsSystem names.now }
    ensures value { result ≡ resolved_word names.now.system.now word.now }
    ensures noted { Notes best.old (word_breaches names.now.system.now word.now) best.new }
{
    let meant = meaning(names, &word.item);
    note_if(best, meant.is_none(), word.place, 11);
    meant.unwrap_or(Word::Bool(false))
}

/// Words, one after the other.
pub(crate) fn words<H: Heap>(
    heap: H,
    best: &mut Option<Breach>,
    names: &Names,
    texts: &[WordText],
) -> Result<Vec<Word>, Memory>
    requires { KnowsSystem names.now }
    ensures value { IfOkUnless (H.may_refuse heap) result
        (λ words. words.items ≡ map (resolved_word names.now.system.now) texts.now) }
    ensures noted { OnOk result (Notes best.old (flat_map (word_breaches names.now.system.now) texts.now) best.new) }
{
    let mut words = Vec::new(heap.handle());
    for text in texts {
        heap.push(&mut words, word(best, names, text))?;
    }
    Ok(words)
}

/// The words of temporaries.
pub(crate) fn temporary_words<H: Heap>(
    heap: H,
    best: &mut Option<Breach>,
    names: &Names,
    temporaries: &[(Named, WordText)],
) -> Result<Vec<Word>, Memory>
    requires { KnowsSystem names.now }
    ensures value { IfOkUnless (H.may_refuse heap) result
        (λ words. words.items ≡ map (resolved_temporary names.now.system.now) temporaries.now) }
    ensures noted { let breaches = flat_map (temporary_breaches names.now.system.now) temporaries.now in
        OnOk result (Notes best.old breaches best.new) }
{
    let mut words = Vec::new(heap.handle());
    for temporary in temporaries {
        heap.push(&mut words, word(best, names, &temporary.1))?;
    }
    Ok(words)
}

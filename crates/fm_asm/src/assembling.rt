//! Assembling a text.

ghost use Rattle.std.specs.{Prelude.{◌≡◌, ◌≤◌, ◌<◌, ◌^◌, ◌++◌, IsTrue, length, take, option_map, IfOk}, List.{flat_map}};
ghost use Rattle.stack_heap.specs.Heaps.{IfOkUnless, OnOkUnless};
ghost use Rattle.stack_text.specs.Breaches.{least};
ghost use Rattle.name_tables.specs.Entries.{look_up};
ghost use Rattle.fm_image.specs.{Image.{ImageOf}, Limits.{is_size, is_inside}};
ghost use Rattle.fm_asm.specs.{Cuts.{without_trailing}, Statements.{statement_of}, Lines.{line_of}, Sources.{source_of, IsOfText}, Labels.{breaches, as_word}};
ghost use Rattle.fm_asm.specs.{Labels.{statement_words, line_words, final_word, start_word, first_value}, Printing.{is_plain, plain_image}};
ghost use Rattle.fm_asm.specs.{Assembly.{IsAssembly}, Assembling.{GivesAssemblyUnless, image_unless, assembly_of}};

use crate::fault::AsmFault;
use crate::judging::{judge, number_of};
use crate::labels::labels_of;
use crate::line::Line;
use crate::source::{Source, source_in};
use crate::statement::Statement;
use fm_image::{Image, bare_image};
use name_tables::NameTable;
use stack_heap::Heap;
use stack_text::Memory;

/// A number as a word. Where nothing breaks a rule, the number is there and fits.
fn as_word(number: Option<u64>) -> u32
    ensures { result ≡ as_word number }
{
    (number.unwrap_or(0) % (1 << 32)) as u32
}

/// Appends the word of a statement, if it has one.
#[tactic(auto, unfolding(crate::specs::Labels::statement_words))]
fn push_word<H: Heap>(
    heap: H,
    words: &mut Vec<u32>,
    base: u32,
    labels: &NameTable<'_, u32>,
    statement: Option<Statement<'_>>,
) -> Result<(), Memory>
    ensures { let more = statement_words base (look_up labels.now) (option_map statement_of statement.entry) in
        OnOkUnless (H.may_refuse heap) result (words.new.items ≡ words.old.items ++ more) }
{
    match statement {
        Some(Statement::Word(value)) => heap.push(words, as_word(number_of(base, labels, value)))?,
        Some(Statement::Instruction(word)) => heap.push(words, word.unwrap_or(0))?,
        _ => {}
    }
    Ok(())
}

/// The words of lines.
fn words_of<H: Heap>(
    heap: H,
    base: u32,
    labels: &NameTable<'_, u32>,
    lines: &[Line<'_, '_>],
) -> Result<Vec<u32>, Memory>
    ensures { let of_line = line_words base (look_up labels.now) in
        IfOkUnless (H.may_refuse heap) result
        (λ words. words.items ≡ flat_map (λ line. of_line (line_of line)) lines.now) }
{
    let mut words = Vec::new(heap.handle());
    for line in lines {
        push_word(heap, &mut words, base, labels, line.said.statement)?;
    }
    Ok(words)
}

/// The number of a `.final`, as a word.
fn final_word(
    base: u32,
    labels: &NameTable<'_, u32>,
    statement: Option<Statement<'_>>,
) -> Option<u32>
    ensures { result ≡ final_word base (look_up labels.now) (option_map statement_of statement.entry) }
{
    match statement {
        Some(Statement::Final(value)) => Some(as_word(number_of(base, labels, value))),
        _ => None,
    }
}

/// The number of the first line that has a `.final`.
fn final_in(base: u32, labels: &NameTable<'_, u32>, lines: &[Line<'_, '_>]) -> u32
    ensures { let word_of = final_word base (look_up labels.now) in
        result ≡ first_value (λ line. word_of (line_of line).said.statement) lines.now }
{
    for line in lines {
        if let Some(word) = final_word(base, labels, line.said.statement) {
            return word;
        }
    }
    0
}

/// The number of a `.start`, as a word.
fn start_word(
    base: u32,
    labels: &NameTable<'_, u32>,
    statement: Option<Statement<'_>>,
) -> Option<u32>
    ensures { result ≡ start_word base (look_up labels.now) (option_map statement_of statement.entry) }
{
    match statement {
        Some(Statement::Start(value)) => Some(as_word(number_of(base, labels, value))),
        _ => None,
    }
}

/// The number of the first line that has a `.start`.
fn start_in(base: u32, labels: &NameTable<'_, u32>, lines: &[Line<'_, '_>]) -> u32
    ensures { let word_of = start_word base (look_up labels.now) in
        result ≡ first_value (λ line. word_of (line_of line).said.statement) lines.now }
{
    for line in lines {
        if let Some(word) = start_word(base, labels, line.said.statement) {
            return word;
        }
    }
    0
}

/// How many words there are up to the last that isn't zero.
fn used(words: &[u32]) -> usize
    ensures { take result words.now ≡ without_trailing 0 words.now }
{
    let mut used = 0;
    for (at, word) in words.iter().enumerate() {
        if *word != 0 {
            used = at + 1;
        }
    }
    used
}

/// Takes off the zeros after the last word that isn't zero.
fn trim(words: &mut Vec<u32>)
    ensures { words.new.items ≡ without_trailing 0 words.old.items }
{
    let used = used(words.as_slice());
    words.truncate(used);
}

/// The plain image with this window, these addresses at which a run ends and starts, and these words.
fn image<H: Heap>(
    heap: H,
    base: u32,
    size: u32,
    final_pc: u32,
    start: u32,
    words: Vec<u32>,
) -> Result<Image, Memory>
    requires sized { IsTrue (is_size base size) }
    requires inside { IsTrue (is_inside base size final_pc) }
    requires few { length words.items ≤ size }
    ensures { IfOkUnless (H.may_refuse heap) result
        (λ image. image ≡ plain_image base size final_pc start words.items) }
{
    let registers = heap.copied(&[0, 0, 0, 0, 0, 0, 0, 0, 0, 0, 0, 0, 0, 0, 0, start])?;
    Ok(bare_image(heap.handle(), base, size, final_pc, registers, words))
}

/// The image of a source, or its least breach of rules 4 to 7.
#[tactic(auto, unfolding(crate::specs::Labels::breaches))]
fn judged<H: Heap>(heap: H, source: &Source<'_, '_>) -> Result<Image, AsmFault>
    requires { IsOfText (source_of source.now) }
    ensures { GivesAssemblyUnless (H.may_refuse heap) (λ image. image) result
        (image_unless (source_of source.now) (least (breaches (source_of source.now)))) }
{
    let Source { base, size, lines } = source;
    let (base, size, lines) = (*base, *size, lines.as_slice());
    let mut best = None;
    let labels = labels_of(heap, &mut best, lines)?;
    judge(&mut best, base, size, &labels, lines);
    if let Some(breach) = best {
        return Err(AsmFault::Refused {
            rule: breach.rule,
            place: breach.place,
        });
    }
    let final_pc = final_in(base, &labels, lines);
    let start = start_in(base, &labels, lines);
    let mut words = words_of(heap, base, &labels, lines)?;
    trim(&mut words);
    Ok(image(heap, base, size, final_pc, start, words)?)
}

/// The image of a text, or its least fault.
#[tactic(auto, unfolding(crate::specs::Assembling::assembly_of))]
fn assembled<H: Heap>(heap: H, text: &[u8]) -> Result<Image, AsmFault>
    requires { length text.now < 2 ^ 32 }
    ensures { GivesAssemblyUnless (H.may_refuse heap) (λ image. image) result (assembly_of text.now) }
{
    let source = source_in(heap, text)?;
    judged(heap, &source)
}

/// The image that an assembly text spells. The text has fewer than 2^32 bytes, so that each place has 32 bits; its form is
/// in `docs/languages/asm.md`.
///
/// # Errors
///
/// `Refused` with the least fault of the text, place before rule, by rules A1 to A7; A4 to A7 are judged only where no line
/// breaks A1 to A3. Or out of memory.
pub fn assemble<H: Heap>(heap: H, text: &[u8]) -> Result<Image, AsmFault>
    requires { length text.now < 2 ^ 32 }
    ensures exact { GivesAssemblyUnless (H.may_refuse heap) (λ image. image) result (assembly_of text.now) }
    // What is assembled is plain, so that it can be printed.
    ensures plain { IfOk result (λ image. IsTrue (is_plain image)) }
    // What is assembled is spelled by the text.
    ensures found { IfOk result (λ image. IsAssembly text.now image) }
    // Where the text spells an image, that image is assembled, or memory runs out.
    ensures only { (image : ImageOf) → IsAssembly text.now image
        → GivesAssemblyUnless (H.may_refuse heap) (λ read. read) result (Ok image) }
{
    assembled(heap, text)
}

//! Plain images, and their assembly text.

ghost use Rattle.std.specs.{Prelude.{◌≡◌, ◌<◌, ◌^◌, ◌++◌, IfOk, IsTrue, OnOk, slice_index}, List.{flat_map}};
ghost use Rattle.stack_heap.specs.Heaps.{IfOkUnless, OnOkUnless};
ghost use Rattle.fm_image.specs.{Limits.{is_image}, Spelling.{are_words}};
ghost use Rattle.fm_asm.specs.Printing.{are_clear, has_no_names, has_no_tables, are_zero_but_last, ends_in_zero, is_plain, start_of, header_text, is_exact};
ghost use Rattle.fm_asm.specs.{Printing.{word_line, assembly_text}, Assembly.{IsAssembly}};

use fm_image::{Image, MARKED_VERSION};
use fm_show::{disassemble, hex_digits, push_number};
use fm_words::{Flags, decode, encode};
use stack_heap::Heap;
use stack_text::Memory;

/// Whether no flag is set.
fn are_clear(flags: Flags) -> bool
    ensures { result ≡ are_clear flags }
{
    !(flags.c || flags.v || flags.n || flags.z)
}

/// Whether there is no condition word, no name of a condition and no slot.
fn has_no_names(image: &Image) -> bool
    ensures { result ≡ has_no_names image.now }
{
    image.condition_address.is_none() && image.conditions.is_empty() && image.slots.is_empty()
}

/// Whether there is no procedure and no mark.
fn has_no_tables(image: &Image) -> bool
    ensures { result ≡ has_no_tables image.now }
{
    image.procedures.is_empty() && image.marks.is_empty()
}

/// Whether all registers but r15 are zero.
fn are_zero_but_last(registers: &[u32]) -> bool
    ensures { result ≡ are_zero_but_last registers.now }
{
    registers.iter().take(15).all(|word| *word == 0)
}

/// Whether the last word is zero.
fn ends_in_zero(words: &[u32]) -> bool
    ensures { result ≡ ends_in_zero words.now }
{
    match words.last() {
        Some(word) => *word == 0,
        None => false,
    }
}

/// Whether assembly text tells all of an image: it is of version 2, there is no condition word, no name of a condition, no
/// slot, no procedure and no mark, no flag is set, each register but r15 is zero, and the last word isn't. It takes no
/// memory.
#[tactic(auto, unfolding(crate::specs::Printing::is_plain))]
pub fn plain(image: &Image) -> bool
    ensures { result ≡ is_plain image.now }
{
    image.version == MARKED_VERSION
        && has_no_names(image)
        && has_no_tables(image)
        && are_clear(image.flags)
        && are_zero_but_last(&image.registers)
        && !ends_in_zero(&image.words)
}

/// The address at which a run starts.
fn start_of(registers: &[u32]) -> u32
    ensures value { result ≡ slice_index registers.now 15 }
    ensures fits { result < 2 ^ 32 }
{
    registers.get(15).copied().unwrap_or(0)
}

/// The four lines of the header.
fn header<H: Heap>(heap: H, image: &Image) -> Result<Vec<u8>, Memory>
    ensures text { IfOkUnless (H.may_refuse heap) result (λ text. text.items ≡ header_text image.now) }
    ensures start { OnOk result (start_of image.now < 2 ^ 32) }
{
    let start = start_of(&image.registers);
    let mut text = heap.copied(b".base ")?;
    push_number(heap, &mut text, image.base)?;
    heap.extend_from_slice(&mut text, b"\n.size ")?;
    push_number(heap, &mut text, image.size)?;
    heap.extend_from_slice(&mut text, b"\n.final ")?;
    push_number(heap, &mut text, image.final_pc)?;
    heap.extend_from_slice(&mut text, b"\n.start ")?;
    push_number(heap, &mut text, start)?;
    heap.push(&mut text, b'\n')?;
    Ok(text)
}

/// Whether no bit of a word is passed over when it is decoded.
fn is_exact(word: u32) -> bool
    ensures { result ≡ is_exact word }
{
    encode(decode(word)) == word
}

/// Appends the line of a word: its instruction, or its hexadecimal digits.
#[tactic(auto, unfolding(crate::specs::Printing::word_text))]
fn push_word<H: Heap>(heap: H, text: &mut Vec<u8>, word: u32) -> Result<(), Memory>
    ensures line { OnOkUnless (H.may_refuse heap) result (text.new.items ≡ text.old.items ++ word_line word) }
    ensures fits { word < 2 ^ 32 }
{
    if is_exact(word) {
        heap.extend_from_slice(text, disassemble(heap, word)?.as_slice())?;
    } else {
        heap.extend_from_slice(text, b".word 0x")?;
        heap.extend_from_slice(text, &hex_digits(word))?;
    }
    Ok(heap.push(text, b'\n')?)
}

/// Appends the lines of words.
fn push_words<H: Heap>(heap: H, text: &mut Vec<u8>, words: &[u32]) -> Result<(), Memory>
    ensures lines { OnOkUnless (H.may_refuse heap) result
        (text.new.items ≡ text.old.items ++ flat_map word_line words.now) }
    ensures fit { OnOk result (IsTrue (are_words words.now)) }
{
    for word in words {
        push_word(heap, text, *word)?;
    }
    Ok(())
}

/// The assembly text of an image, that its numbers have 32 bits, and that it keeps the limits of images.
#[tactic(auto, unfolding(crate::specs::Printing::assembly_text))]
fn printed<H: Heap>(heap: H, image: &Image) -> Result<Vec<u8>, Memory>
    ensures text { IfOkUnless (H.may_refuse heap) result (λ text. text.items ≡ assembly_text image.now) }
    ensures start { OnOk result (start_of image.now < 2 ^ 32) }
    ensures words { OnOk result (IsTrue (are_words image.now.words)) }
    ensures limits { OnOk result (IsTrue (is_image image.now)) }
{
    let mut text = header(heap, image)?;
    push_words(heap, &mut text, &image.words)?;
    Ok(text)
}

/// The assembly text of a plain image: the four lines of the header with decimal numbers, and a line for each word, which is
/// its instruction where no bit of it is passed over, and else `.word 0x` and eight hexadecimal digits. `assemble` makes the
/// image of it again.
///
/// The only error is out of memory.
pub fn print_asm<H: Heap>(heap: H, image: &Image) -> Result<Vec<u8>, Memory>
    requires { IsTrue (is_plain image.now) }
    ensures text { IfOkUnless (H.may_refuse heap) result (λ text. text.items ≡ assembly_text image.now) }
    // The text spells the image.
    ensures spells { IfOk result (λ text. IsAssembly text.items image.now) }
{
    printed(heap, image)
}

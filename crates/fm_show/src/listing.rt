//! A machine as lines of text.

ghost use Rattle.std.specs.Prelude.{◌≡◌, ◌++◌};
ghost use Rattle.stack_heap.specs.Heaps.{IfOkUnless, OnOkUnless};
ghost use Rattle.fm_show.specs.Listing.{flag_letter, flags_line, machine_listing, register_line, register_lines};

use crate::digits::{hex_digits, push_number};
use crate::disassembly::push_register_name;
use fm_machine::Machine;
use fm_words::Flags;
use stack_heap::Heap;
use stack_text::{Memory, push_each};

/// A machine after `count` instructions, as eighteen lines: `count` with the number, each register
/// with its word as eight hexadecimal digits, and `flags` with the letters of c, v, n and z, each
/// of which is `-` where the flag is clear. Each line ends in LF.
///
/// The only error is out of memory.
pub fn show_machine<H: Heap>(heap: H, machine: &Machine, count: u64) -> Result<Vec<u8>, Memory>
    ensures { IfOkUnless (H.may_refuse heap) result (λ text. text.items ≡ machine_listing machine.now.state count) }
{
    let mut text = heap.copied(b"count ")?;
    push_number(heap, &mut text, count)?;
    heap.push(&mut text, b'\n')?;
    push_registers(heap, &mut text, machine.registers().as_slice())?;
    push_flags(heap, &mut text, machine.flags())?;
    Ok(text)
}

/// Appends the lines of registers, from r0 on.
pub(crate) fn push_registers<H: Heap>(
    heap: H,
    text: &mut Vec<u8>,
    registers: &[u32],
) -> Result<(), Memory>
    ensures { OnOkUnless (H.may_refuse heap) result (text.new.items ≡ text.old.items ++ register_lines registers.now) }
{
    for (r, word) in registers.iter().enumerate() {
        push_register(heap, text, r, *word)?;
    }
    Ok(())
}

/// Appends the line of one register.
fn push_register<H: Heap>(heap: H, text: &mut Vec<u8>, r: usize, word: u32) -> Result<(), Memory>
    ensures { OnOkUnless (H.may_refuse heap) result (text.new.items ≡ text.old.items ++ register_line r word) }
{
    push_register_name(heap, text, r)?;
    push_each(heap, text, &[b" ", &hex_digits(word), b"\n"])
}

/// Appends the line of flags.
pub(crate) fn push_flags<H: Heap>(heap: H, text: &mut Vec<u8>, flags: Flags) -> Result<(), Memory>
    ensures { OnOkUnless (H.may_refuse heap) result (text.new.items ≡ text.old.items ++ flags_line flags) }
{
    let c = letter(flags.c, b"c");
    let v = letter(flags.v, b"v");
    let n = letter(flags.n, b"n");
    let z = letter(flags.z, b"z");
    push_each(heap, text, &[b"flags ", c, v, n, z, b"\n"])
}

/// The letter of a flag, with `-` in its place where it is clear.
fn letter(is_set: bool, letter: &[u8]) -> &[u8]
    ensures { result.now ≡ flag_letter is_set letter.now }
{
    if is_set { letter } else { b"-" }
}

//! Pieces of text, numbers and words in digits.

ghost use Rattle.std.specs.{Prelude.{◌≡◌, ◌++◌}, Fmt.{decimal}};
ghost use Rattle.stack_heap.specs.Heaps.{OnOkUnless};
ghost use Rattle.fm_show.specs.Digits.{hex_digits};

use itoa::{Buffer, Integer};
use stack_heap::Heap;
use stack_text::Memory;

/// A word, or an address, in eight hexadecimal digits: lower-case letters, the highest digit first.
#[tactic(auto, unfolding(crate::specs::Digits::hex_digits))]
pub fn hex_digits(word: u32) -> [u8; 8]
    ensures { result ≡ hex_digits word }
{
    let mut digits = [0; 8];
    match hex::encode_to_slice(word.to_be_bytes(), &mut digits) {
        Ok(()) => digits,
        Err(_) => unreachable!(),
    }
}

/// Appends a number in decimal digits, after a `-` where it is negative.
///
/// The only error is out of memory.
pub fn push_number<N: Integer, H: Heap>(
    heap: H,
    text: &mut Vec<u8>,
    number: N,
) -> Result<(), Memory>
    ensures { OnOkUnless (H.may_refuse heap) result (text.new.items ≡ text.old.items ++ N.text number) }
{
    let mut digits = Buffer::new();
    heap.extend_from_slice(text, digits.format(number).as_bytes())?;
    Ok(())
}

/// Appends a number in decimal digits between two texts.
///
/// The only error is out of memory.
pub fn push_counted<H: Heap>(
    heap: H,
    text: &mut Vec<u8>,
    before: &[u8],
    number: u64,
    after: &[u8],
) -> Result<(), Memory>
    ensures { OnOkUnless (H.may_refuse heap) result
        (text.new.items ≡ text.old.items ++ (before.now ++ decimal number ++ after.now)) }
{
    heap.extend_from_slice(text, before)?;
    push_number(heap, text, number)?;
    heap.extend_from_slice(text, after)?;
    Ok(())
}

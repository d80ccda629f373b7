//! Values: a number, or a label that stands for one.

ghost use Rattle.std.specs.Prelude.{◌≡◌, option_map, IsTrue};
ghost use Rattle.stack_text.specs.Numerals.{is_digits};
ghost use Rattle.fm_asm.specs.Values.{value_of, decimal_value, decimal_in, hex_value, value_in};

use crate::cuts::after_prefix;
use stack_text::{is_digits, is_name, read_numeral};

/// A number, or a label that stands for one.
#[derive(Clone, Copy, Debug)]
pub(crate) enum Value<'a> {
    /// The number, which is `None` where it has more than 32 bits.
    Number(Option<u32>),
    Label(&'a [u8]),
}

/// The number of decimal digits, of which there may be any number, if it fits 32 bits.
fn decimal_value(digits: &[u8]) -> Option<u32>
    requires { IsTrue (is_digits digits.now) }
    ensures { result ≡ decimal_value digits.now }
{
    match read_numeral(digits) {
        Some(number) if 0 <= number && number < 1 << 32 => Some(number as u32),
        _ => None,
    }
}

/// The number of a word, if that is decimal digits.
#[tactic(auto, unfolding(crate::specs::Values::decimal_in))]
pub(crate) fn decimal_in(word: &[u8]) -> Option<Option<u32>>
    ensures { result ≡ decimal_in word.now }
{
    if is_digits(word) {
        Some(decimal_value(word))
    } else {
        None
    }
}

/// The number of eight hexadecimal digits.
#[tactic(auto, unfolding(crate::specs::Values::hex_value))]
fn hex_value(digits: &[u8]) -> Option<u32>
    ensures { result ≡ hex_value digits.now }
{
    let mut bytes = [0; 4];
    match hex::decode_to_slice(digits, &mut bytes) {
        Ok(()) => Some(u32::from_be_bytes(bytes)),
        Err(_) => None,
    }
}

/// The value of a word, if that is decimal digits, a label, or `0x` and eight hexadecimal digits.
#[tactic(auto, unfolding(crate::specs::Values::value_in))]
pub(crate) fn value_in(word: &[u8]) -> Option<Value<'_>>
    ensures { option_map value_of result ≡ value_in word.now }
{
    if is_digits(word) {
        return Some(Value::Number(decimal_value(word)));
    }
    if is_name(word) {
        return Some(Value::Label(word));
    }
    let number = hex_value(after_prefix(b"0x", word)?)?;
    Some(Value::Number(Some(number)))
}

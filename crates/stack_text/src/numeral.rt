//! Numerals.

ghost use Rattle.std.specs.{Prelude.{◌≡◌, IsTrue}, List.{list_all}, Char.{is_ascii_digit}, Option.{SomeIff}};
ghost use Rattle.stack_text.specs.Numerals.{fits_128_bits, is_digits, is_numeral, numeral_of, numeral_value};

use std::str;

/// Whether each byte is a decimal digit.
fn are_digits(bytes: &[u8]) -> bool
    ensures { result ≡ list_all is_ascii_digit bytes.now }
{
    bytes.iter().all(|byte| byte.is_ascii_digit())
}

/// Whether the bytes are decimal digits, one or more.
pub fn is_digits(bytes: &[u8]) -> bool
    ensures { result ≡ is_digits bytes.now }
{
    bytes.len() > 0 && are_digits(bytes)
}

/// Whether the bytes are a numeral: decimal digits, with or without a `-` before them. It may begin with zeros.
pub fn is_numeral(bytes: &[u8]) -> bool
    ensures { result ≡ is_numeral bytes.now }
{
    match bytes {
        [b'-', digits @ ..] => is_digits(digits),
        _ => is_digits(bytes),
    }
}

/// The number of a numeral, if it is in the 128-bit range.
fn value_of(numeral: &[u8]) -> Option<i128>
    requires { IsTrue (is_numeral numeral.now) }
    ensures { SomeIff result (IsTrue (fits_128_bits (numeral_value numeral.now))) (numeral_value numeral.now) }
{
    match str::from_utf8(numeral) {
        Ok(text) => text.parse::<i128>().ok(),
        Err(_) => None,
    }
}

/// The number of the numeral: `None` exactly where the bytes are no numeral, which `is_numeral` tests, or the number
/// is outside -2^127 to 2^127 - 1. A numeral may have any number of digits.
pub fn read_numeral(bytes: &[u8]) -> Option<i128>
    ensures { result ≡ numeral_of bytes.now }
{
    if !is_numeral(bytes) {
        return None;
    }
    value_of(bytes)
}

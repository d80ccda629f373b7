//! Cutting bytes into parts.

ghost use Rattle.std.specs.{Prelude.{◌≡◌, ◌≤◌, length, take, drop, option_map}, Option.{option_copied}};
ghost use Rattle.fm_asm.specs.Cuts.{cut, split_once, after_prefix, without_leading_spaces, without_trailing, trimmed};

use bstr::ByteSlice;

/// What stands before the first such byte; and what stands after it, if it is there.
pub(crate) fn cut(byte: u8, bytes: &[u8]) -> (&[u8], Option<&[u8]>)
    ensures { (result.0.now, option_copied result.1) ≡ cut byte bytes.now }
{
    match bytes.find_byte(byte) {
        Some(at) => (&bytes[..at], Some(&bytes[at + 1..])),
        None => (bytes, None),
    }
}

/// The parts before and after the first such byte, if it is there.
#[tactic(auto, unfolding(crate::specs::Cuts::split_once))]
pub(crate) fn split_once(byte: u8, bytes: &[u8]) -> Option<(&[u8], &[u8])>
    ensures { option_map (λ parts. (parts.0.now, parts.1.now)) result ≡ split_once byte bytes.now }
{
    let (front, rest) = cut(byte, bytes);
    Some((front, rest?))
}

/// What stands after a prefix, if the bytes begin with it.
pub(crate) fn after_prefix<'a>(prefix: &[u8], bytes: &'a [u8]) -> Option<&'a [u8]>
    ensures { option_copied result ≡ after_prefix prefix.now bytes.now }
{
    bytes.strip_prefix(prefix)
}

/// The place of the first byte that is no space, or the length.
fn first_other(bytes: &[u8]) -> usize
    ensures value { drop result bytes.now ≡ without_leading_spaces bytes.now }
    ensures within { result ≤ length bytes.now }
{
    for (at, byte) in bytes.iter().enumerate() {
        if *byte != b' ' {
            return at;
        }
    }
    bytes.len()
}

/// The bytes without the spaces at the front.
pub(crate) fn without_leading_spaces(bytes: &[u8]) -> &[u8]
    ensures { result.now ≡ without_leading_spaces bytes.now }
{
    &bytes[first_other(bytes)..]
}

/// How many bytes there are up to the last that is no space.
fn used(bytes: &[u8]) -> usize
    ensures value { take result bytes.now ≡ without_trailing 32 bytes.now }
    ensures within { result ≤ length bytes.now }
{
    let mut used = 0;
    for (at, byte) in bytes.iter().enumerate() {
        if *byte != b' ' {
            used = at + 1;
        }
    }
    used
}

/// The bytes without the spaces at both ends.
#[tactic(auto, unfolding(crate::specs::Cuts::trimmed))]
pub(crate) fn trimmed(bytes: &[u8]) -> &[u8]
    ensures { result.now ≡ trimmed bytes.now }
{
    let left = without_leading_spaces(bytes);
    &left[..used(left)]
}

//! Lines of a text.

ghost use Rattle.std.specs.{Prelude.{◌≡◌}, List.{list_all}};
ghost use Rattle.stack_text.specs.Lines.{is_plain_byte, is_plain_line};

use crate::limits::MOST_LINE_BYTES;

/// Whether each byte is one from a space to a tilde.
fn are_plain(line: &[u8]) -> bool
    ensures { result ≡ list_all is_plain_byte line.now }
{
    line.iter().all(|byte| matches!(*byte, b' '..=b'~'))
}

/// Whether a line is short, at most 256 bytes, and has only bytes from a space to a tilde.
#[tactic(auto, unfolding(crate::specs::Lines::is_plain_line))]
pub fn is_plain_line(line: &[u8]) -> bool
    ensures { result ≡ is_plain_line line.now }
{
    line.len() <= MOST_LINE_BYTES && are_plain(line)
}

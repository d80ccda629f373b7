//! Lines of a stream that the system gives. Reads that were interrupted are tried again.
ghost use Rattle.std.specs.Prelude.{◌≡◌, ◌≤◌, length, Some, None, IfErr, IfOk, IfSome};
ghost use Rattle.stack_shelf.specs.Lines.{IsLine, ReadsByte, ReadsLine};

use crate::LineFault;
use std::alloc::Global;
use std::io::{ErrorKind, Read};

/// The next byte of a reader, and nothing at its end.
fn next_byte<R: Read>(reader: &mut R) -> Result<Option<u8>, LineFault>
    ensures reads { IfOk result (ReadsByte (R.remaining reader.old) (R.remaining reader.new)) }
    ensures failed { IfErr result (λ fault. fault ≡ LineFault.Failed) }
{
    let mut byte = [0u8; 1];
    for _ in 0..u64::MAX {
        match reader.read(&mut byte) {
            Ok(0) => return Ok(None),
            Ok(_) => return Ok(Some(byte[0])),
            Err(e) if e.kind() == ErrorKind::Interrupted => {}
            Err(_) => return Err(LineFault::Failed),
        }
    }
    Err(LineFault::Failed)
}

/// A line, if it has any byte.
fn if_any(line: Vec<u8>) -> Option<Vec<u8>>
    ensures some { IfSome result (λ given. (given ≡ line) × (1 ≤ length given.items)) }
    ensures none { result ≡ None → length line.items ≡ 0 }
{
    if line.is_empty() { None } else { Some(line) }
}

/// The next line of a reader, if it has at most `limit` bytes, and nothing at its end. It asks for one byte after the other, so the reader
/// should have a buffer.
pub fn line_from<R: Read>(
    alloc: Global,
    reader: &mut R,
    limit: u64,
) -> Result<Option<Vec<u8>>, LineFault>
    ensures reads { ReadsLine limit (R.remaining reader.old) (R.remaining reader.new) result }
    ensures line { IfOk result (λ next. IfSome next (λ line. IsLine line.items)) }
    ensures length { IfOk result (λ next. IfSome next (λ line. length line.items ≤ limit)) }
{
    let mut line = Vec::new(alloc);
    for _ in 0..u64::MAX {
        let Some(byte) = next_byte(reader)? else {
            return Ok(if_any(line));
        };
        if line.len() as u64 == limit {
            return Err(LineFault::TooLong);
        }
        line.push(byte)?;
        if byte == b'\n' {
            return Ok(Some(line));
        }
    }
    Err(LineFault::Failed)
}

//! What a shelf or a sink over the system does with the streams that the system gives: which fault an error is, and that
//! all bytes are read or written. Reads and writes that were interrupted are tried again.
ghost use Rattle.std.specs.{Prelude.{◌≡◌, ◌<◌, ℕ, take, IfOk, IfErr, OnOk, OnErr, IsErrOf}, Io.KnownBytes.{Appends}, IoError.{error_kind}};
ghost use Rattle.stack_shelf.specs.Streams.{opening_fault, ReadsWithin, WithWriter, WithWriterIfAny};

use crate::{FetchFault, PutFault, StoreFault};
use std::alloc::Global;
use std::io;
use std::io::{ErrorKind, Read, Write};

/// How many bytes one read asks for.
const PIECE: usize = 4096;

/// Why a file that could not be opened has no bytes.
fn opening_fault(kind: ErrorKind) -> FetchFault
    ensures { result ≡ opening_fault kind }
{
    match kind {
        ErrorKind::NotFound => FetchFault::Missing,
        _ => FetchFault::Failed,
    }
}

/// All bytes of a file that was opened, where they are at most `limit`.
pub fn fetch_from<R: Read + Drop>(
    alloc: Global,
    opened: io::Result<R>,
    limit: u64,
) -> Result<Vec<u8>, FetchFault>
    ensures unopened { IfErr opened (λ e. result ≡ Err (opening_fault (error_kind e))) }
    ensures read { IfOk opened (λ reader. ReadsWithin (R.remaining reader) limit result) }
{
    match opened {
        Ok(mut reader) => read_within(alloc, &mut reader, limit),
        Err(e) => Err(opening_fault(e.kind())),
    }
}

/// Writes all bytes to a file that was created. On an error the file has a prefix of them.
pub fn store_into<W: Write>(created: &mut io::Result<W>, bytes: &[u8]) -> Result<(), StoreFault>
    ensures all { OnOk result (WithWriter created.old created.new
        (λ old new. Appends (W.contents old) (W.contents new) bytes.now)) }
    ensures prefix { OnErr result (WithWriterIfAny created.old created.new
        (λ old new. (count : ℕ) × Appends (W.contents old) (W.contents new) (take count bytes.now))) }
    ensures memory { ¬ IsErrOf result StoreFault.Memory }
{
    match created {
        Ok(file) => match write_whole(file, bytes) {
            Ok(()) => Ok(()),
            Err(_) => Err(StoreFault::Failed),
        },
        Err(_) => Err(StoreFault::Failed),
    }
}

/// Writes all bytes to the output.
pub fn put_into<W: Write>(writer: &mut W, bytes: &[u8]) -> Result<(), PutFault>
    ensures all { OnOk result (Appends (W.contents writer.old) (W.contents writer.new) bytes.now) }
    ensures prefix { OnErr result ((count : ℕ) ×
        Appends (W.contents writer.old) (W.contents writer.new) (take count bytes.now)) }
    ensures memory { ¬ IsErrOf result PutFault.Memory }
{
    match write_whole(writer, bytes) {
        Ok(()) => Ok(()),
        Err(_) => Err(PutFault::Failed),
    }
}

/// All that a reader has left, where that is at most `limit` bytes. The end is where a read gives
/// no byte. It reads no further than the first piece that goes over the limit.
fn read_within<R: Read>(alloc: Global, reader: &mut R, limit: u64) -> Result<Vec<u8>, FetchFault>
    ensures { ReadsWithin (R.remaining reader.old) limit result }
{
    let mut bytes = Vec::new(alloc);
    let mut piece = [0u8; PIECE];
    for _ in 0..u64::MAX {
        match reader.read(&mut piece) {
            Ok(0) => return Ok(bytes),
            Ok(count) => {
                if count as u64 > limit - bytes.len() as u64 {
                    return Err(FetchFault::TooLong);
                }
                bytes.extend_from_slice(&piece[..count])?;
            }
            Err(e) if e.kind() == ErrorKind::Interrupted => {}
            Err(_) => return Err(FetchFault::Failed),
        }
    }
    Err(FetchFault::Failed)
}

/// Writes all the bytes, in as many writes as it takes. If the writer takes none of what is left,
/// that is a `WriteZero`.
pub fn write_whole<W: Write>(writer: &mut W, bytes: &[u8]) -> io::Result<()>
    ensures all { OnOk result (Appends (W.contents writer.old) (W.contents writer.new) bytes.now) }
    ensures prefix { OnErr result ((count : ℕ) ×
        Appends (W.contents writer.old) (W.contents writer.new) (take count bytes.now)) }
{
    let mut rest = bytes;
    for _ in 0..u64::MAX {
        if rest.is_empty() {
            return Ok(());
        }
        match writer.write(rest) {
            Ok(0) => return Err(ErrorKind::WriteZero.into()),
            Ok(count) => rest = &rest[count..],
            Err(e) if e.kind() == ErrorKind::Interrupted => {}
            Err(e) => return Err(e),
        }
    }
    Err(ErrorKind::WriteZero.into())
}

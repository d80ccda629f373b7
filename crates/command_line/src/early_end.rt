//! Ends before there is a reply.
ghost use Rattle.std.specs.Prelude.{◌≡◌};
ghost use Rattle.stack_heap.specs.Heaps.{IfOkUnless};
ghost use Rattle.command_line.specs.Ends.{end_line};

use crate::status::Status;
use crate::words::FileName;
use itoa::Buffer;
use stack_heap::Heap;
use stack_text::Memory;
use std::alloc::{AllocError, AllocFailed};

/// Why a command ended before there was a reply.
#[derive(Drop)]
pub enum EarlyEnd {
    /// A file of this name is not there.
    Missing { name: FileName },
    /// A file has more bytes than this, which is the most for its role.
    TooLong { limit: u64 },
    /// The shelf failed at this name.
    ShelfFault { name: FileName },
    /// There was no memory.
    OutOfMemory,
}

/// The line of a file that is not there.
fn missing_line<H: Heap>(heap: H, name: &str) -> Result<Vec<u8>, Memory>
    ensures { IfOkUnless (H.may_refuse heap) result (λ line. line.items ≡ end_line (EarlyEnd.Missing name.now)) }
{
    let mut line = heap.copied(b"missing ")?;
    heap.extend_from_slice(&mut line, name.as_bytes())?;
    heap.push(&mut line, b'\n')?;
    Ok(line)
}

/// The line of a name at which the shelf failed.
fn shelf_fault_line<H: Heap>(heap: H, name: &str) -> Result<Vec<u8>, Memory>
    ensures { IfOkUnless (H.may_refuse heap) result (λ line. line.items ≡ end_line (EarlyEnd.ShelfFault name.now)) }
{
    let mut line = heap.copied(b"shelf fault ")?;
    heap.extend_from_slice(&mut line, name.as_bytes())?;
    heap.push(&mut line, b'\n')?;
    Ok(line)
}

/// The line of a file that has more bytes than its role allows.
fn size_line<H: Heap>(heap: H, limit: u64) -> Result<Vec<u8>, Memory>
    ensures { IfOkUnless (H.may_refuse heap) result (λ line. line.items ≡ end_line (EarlyEnd.TooLong limit)) }
{
    let mut digits = Buffer::new();
    let mut line = heap.copied(b"size file ")?;
    heap.extend_from_slice(&mut line, digits.format(limit).as_bytes())?;
    heap.push(&mut line, b'\n')?;
    Ok(line)
}

impl EarlyEnd {
    ghost use Rattle.std.specs.Prelude.{◌≡◌};
    ghost use Rattle.stack_heap.specs.Heaps.{IfOkUnless};
    ghost use Rattle.command_line.specs.Ends.{end_status, end_line};

    /// The exit status.
    pub fn status(&self) -> Status
        ensures { result ≡ end_status self.now }
    {
        match self {
            EarlyEnd::Missing { .. } => Status::Missing,
            EarlyEnd::TooLong { .. } => Status::Size,
            EarlyEnd::ShelfFault { .. } => Status::ShelfFault,
            EarlyEnd::OutOfMemory => Status::OutOfMemory,
        }
    }

    /// The line that is printed, with its line feed. Out of memory prints nothing. The only error is out of memory.
    pub fn line<H: Heap>(&self, heap: H) -> Result<Vec<u8>, Memory>
        ensures { IfOkUnless (H.may_refuse heap) result (λ line. line.items ≡ end_line self.now) }
    {
        match self {
            EarlyEnd::Missing { name } => missing_line(heap, name.as_str()),
            EarlyEnd::TooLong { limit } => size_line(heap, *limit),
            EarlyEnd::ShelfFault { name } => shelf_fault_line(heap, name.as_str()),
            EarlyEnd::OutOfMemory => Ok(Vec::new(heap.handle())),
        }
    }
}

impl From<Memory> for EarlyEnd {
    ghost use Rattle.std.specs.Prelude.{◌≡◌};
    ghost use Rattle.command_line.specs.declared.early_end.EarlyEnd.TheVariants.{OutOfMemory};

    ghost from_gives = { λ _ e. e ≡ OutOfMemory };

    fn from(_: Memory) -> Self {
        EarlyEnd::OutOfMemory
    }
}

impl From<AllocError> for EarlyEnd {
    ghost use Rattle.std.specs.Prelude.{◌≡◌};
    ghost use Rattle.command_line.specs.declared.early_end.EarlyEnd.TheVariants.{OutOfMemory};

    ghost from_gives = { λ _ e. e ≡ OutOfMemory };

    fn from(_: AllocError) -> Self {
        EarlyEnd::OutOfMemory
    }
}

impl<T: Drop> From<AllocFailed<T>> for EarlyEnd {
    ghost use Rattle.std.specs.Prelude.{◌≡◌};
    ghost use Rattle.command_line.specs.declared.early_end.EarlyEnd.TheVariants.{OutOfMemory};

    ghost from_gives = { λ _ e. e ≡ OutOfMemory };

    fn from(_: AllocFailed<T>) -> Self {
        EarlyEnd::OutOfMemory
    }
}

//! Stores the file that a command writes.
ghost use Rattle.std.specs.Prelude.{◌≡◌, ◌⊎◌, IfErr, OnOk};
ghost use Rattle.stack_shelf.specs.{Causes.{NoneFell}, Shelf.{stored}};
ghost use Rattle.command_line.specs.Devices.{LeavesPart, IsFaultAt};

use crate::early_end::EarlyEnd;
use crate::words::FileName;
use stack_heap::Heap;
use stack_shelf::{Shelf, StoreFault};

/// Stores bytes under a name, which the shelf may keep.
///
/// On an error the files are as they were, or the shelf failed, counted a fault at this name, and left no file there or one
/// with a prefix of the bytes.
pub fn save<H: Heap, S: Shelf>(
    heap: H,
    shelf: &mut S,
    name: &str,
    bytes: Vec<u8>,
) -> Result<(), EarlyEnd>
    ensures ok { OnOk result (S.files shelf.new ≡ stored (S.files shelf.old) name.now bytes.items) }
    ensures got { OnOk result (shelf.new ≡ S.got shelf.old name.now bytes.items) }
    ensures err { IfErr result (λ _. LeavesPart (S.files shelf.old) (S.files shelf.new)
        (S.counts shelf.old) (S.counts shelf.new) name.now bytes.items) }
    ensures cause { IfErr result (IsFaultAt (H.may_refuse heap ⊎ S.may_refuse)
        (S.counts shelf.old) (S.counts shelf.new) name.now) }
    ensures counts { NoneFell (S.counts shelf.old) (S.counts shelf.new) }
{
    match shelf.store_owned(name, bytes) {
        Ok(()) => Ok(()),
        Err(StoreFault::Failed) => {
            let name = FileName::new(heap, name)?;
            Err(EarlyEnd::ShelfFault { name })
        }
        Err(StoreFault::Memory) => Err(EarlyEnd::OutOfMemory),
    }
}

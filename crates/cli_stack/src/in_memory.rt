//! The program over devices in memory.
ghost use Rattle.std.specs.Prelude.{◌≡◌, Some, map};
ghost use Rattle.stack_shelf.specs.InMemory.{counts_of};
ghost use Rattle.command_line.specs.{CommandRows.{command_of}, CommandWords.{spelled}, Status.{status_code}, declared.status.Status.{Status}};
ghost use Rattle.cli_stack.specs.{Answer.{answer}, Promises.{KeepsWithFiles}, World.{world}};

use crate::program::cli;
use fm_machine::Machine;
use level_debuggers::Watch;
use stack_heap::Heap;
use stack_shelf::{MemoryShelf, MemorySink};

/// Runs the program over files and an output in memory.
///
/// Such a shelf tells its files, and such a sink what it has taken. So the clause says what the program does with both: unless a device
/// fails or memory runs out, the status, the files, what was printed and the machine are those of `answer`, which is a function of the
/// words, the watches and the files. It also says what a failure leaves. If the shelf fails, for example, each file but the one that
/// the command stores is as before.
pub fn run_in_memory<H: Heap>(
    heap: H,
    words: &[String],
    shelf: &mut MemoryShelf,
    out: &mut MemorySink,
    kept: &mut Option<Machine>,
    watches: Vec<Box<dyn Watch>>,
) -> u8
    ensures { (status : Status) × (result ≡ status_code status)
        × KeepsWithFiles (command_of (spelled words.now))
        (answer (spelled words.now) (map watching watches.items) shelf.old.files) shelf.old.files
        (world (Some shelf.old.files) (counts_of shelf.old) (Some out.old.taken) out.old.faults kept.old)
        (world (Some shelf.new.files) (counts_of shelf.new) (Some out.new.taken) out.new.faults kept.new)
        status }
{
    cli(heap, words, shelf, out, kept, watches)
}

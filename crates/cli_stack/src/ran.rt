//! The program over devices that keep a log, as `main` runs it.
ghost use Rattle.std.specs.Prelude.{◌⊎◌, map};
ghost use Rattle.command_line.specs.{CommandWords.{spelled}, CommandRows.{command_of}};
ghost use Rattle.device_logs.specs.Logged.{logged_gave, logged_got, logged_took, may_refuse_logged};
ghost use Rattle.cli_stack.specs.{World.{shelf_of, world}, Promises.{Promises}, RepliesTo.{devices_of}, Ran.{HasRun, UnreadIsRefused, logs_of}};

use crate::program::cli;
use device_logs::{LoggedShelf, LoggedSink};
use fm_machine::Machine;
use level_debuggers::Watch;
use stack_build::{builds_implement, runs_are_meant};
use stack_heap::Heap;
use stack_shelf::{Shelf, Sink};

/// Runs the program over any shelf and any sink, each behind a log of the calls that went well.
///
/// The logs are lists in memory, so what the clause says of them is said of what was really fetched, stored and printed. A body that
/// doesn't make these calls, or makes others, is refused. Where the status is 0, `go` has handed to the shelf's `store` an image that
/// implements the very text that its `fetch` returned, and printed its reply to that text and to that of the values. A body that
/// gives up is refused too: out of memory, a missing file and a failed device each need their cause.
pub fn run_logged<H: Heap, S: Shelf + Drop, K: Sink + Drop>(
    heap: H,
    words: &[String],
    shelf: &mut LoggedShelf<H, S>,
    out: &mut LoggedSink<H, K>,
    kept: &mut Option<Machine>,
    watches: Vec<Box<dyn Watch>>,
) -> u8
    // What `cli` promises over any devices: so each failure has its cause, and memory runs out only if a heap may refuse a modest
    // request, or a device memory.
    ensures promises { let shelf_refuses = may_refuse_logged (λ heap. H.may_refuse heap) S.may_refuse in
        let sink_refuses = may_refuse_logged (λ heap. H.may_refuse heap) K.may_refuse in
        Promises (H.may_refuse heap ⊎ (shelf_refuses ⊎ sink_refuses))
        (devices_of (logged_gave S.gave) (logged_got S.got) (logged_took K.took) shelf.old shelf.new out.old out.new)
        (spelled words.now) (map watching watches.items)
        (world (S.files shelf.old.shelf) (S.counts shelf.old.shelf)
        (K.taken out.old.sink) (K.faults out.old.sink) kept.old)
        (world (S.files shelf.new.shelf) (S.counts shelf.new.shelf)
        (K.taken out.new.sink) (K.faults out.new.sink) kept.new)
        result }
    // What was really fetched, stored and printed, by the logs.
    ensures ran { HasRun (command_of (spelled words.now)) (map watching watches.items)
        (shelf_of (S.files shelf.old.shelf) (S.counts shelf.old.shelf))
        (shelf_of (S.files shelf.new.shelf) (S.counts shelf.new.shelf))
        (logs_of shelf.old out.old) (logs_of shelf.new out.new) result }
{
    builds_implement();
    runs_are_meant();
    cli(heap, words, shelf, out, kept, watches)
}

/// Over devices with logs a `check` that fetches nothing hasn't run: it can't end but for a missing or long file, a device's failure or
/// want of memory.
pub fn unread_is_refused()
    ensures { UnreadIsRefused }
{}

//! The whole program over a shelf and a sink.
ghost use Rattle.std.specs.Prelude.{◌⊎◌, map};
ghost use Rattle.command_line.specs.CommandWords.{spelled};
ghost use Rattle.cli_stack.specs.{AnswerMeans.{AnswersMean}, World.{world}, Promises.{Promises}, RepliesTo.{devices_of}};

use crate::driver::{conclude, run_words};
use crate::moments::moments_are_said;
use fm_machine::Machine;
use level_debuggers::{Watch, runs_walk, scripts_walk};
use quick_generate::quickened_images_mean;
use stack_build::{builds_implement, placed_are_words, runs_are_meant};
use stack_heap::Heap;
use stack_shelf::{Shelf, Sink};

/// The program: does what the words of a command line ask for, over the files of a shelf, prints to a sink, and answers
/// the exit status.
///
/// `words` are those after the program's name, as `go SRC VALS CTRL TEMP BUDGET IMG`. `kept` is a place for the machine
/// that was run: it holds that machine as it is after the run where the status is 0, 5 or 6 and the command runs one,
/// and is as it was in every other case. `watches` are those that a debug session may attach; no other command looks at
/// them.
///
/// `Status` lists the exit statuses, and `docs/program/cli.md` when each of them occurs. `specs/Promises.antt` has what the program
/// does with its devices, and `specs/AnswerMeans.antt` what its answers mean, each one by one, under the names of its fields.
pub fn cli<H: Heap, S: Shelf, K: Sink>(
    heap: H,
    words: &[String],
    shelf: &mut S,
    out: &mut K,
    kept: &mut Option<Machine>,
    watches: Vec<Box<dyn Watch>>,
) -> u8
    // It does with its devices what is answered, and what a failure of theirs leaves is told. Memory runs out only where the heap or
    // a device may refuse it.
    ensures promises { Promises (H.may_refuse heap ⊎ (S.may_refuse ⊎ K.may_refuse))
        (devices_of S.gave S.got K.took shelf.old shelf.new out.old out.new)
        (spelled words.now) (map watching watches.items)
        (world (S.files shelf.old) (S.counts shelf.old) (K.taken out.old) (K.faults out.old) kept.old)
        (world (S.files shelf.new) (S.counts shelf.new) (K.taken out.new) (K.faults out.new) kept.new)
        result }
    // What is answered means what the texts of the files mean, whatever these are.
    ensures means { AnswersMean (spelled words.now) (map watching watches.items) }
{
    builds_implement();
    runs_are_meant();
    placed_are_words();
    quickened_images_mean();
    scripts_walk();
    runs_walk();
    moments_are_said();
    let ran = run_words(heap, words, shelf);
    conclude(heap, ran, watches, out, kept).code()
}

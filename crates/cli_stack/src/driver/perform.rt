//! Performs a command over a shelf.
ghost use Rattle.std.specs.Prelude.{◌⊎◌, List, IfOk, IfErr, IfSome, Some};
ghost use Rattle.level_debuggers.specs.Tallies.{Watching};
ghost use Rattle.stack_shelf.specs.Causes.{NoneFell};
ghost use Rattle.command_line.specs.{CommandWords.{spelled}, CommandRows.{command_of}};
ghost use Rattle.cli_stack.specs.{World.{shelf_of}, RepliesTo.{IsReplyTo}, Driver.{Leaves, HasReason, replied}};
ghost use Rattle.stack_commands.specs.Works.{IsEnding, ending_reply};
ghost use Rattle.command_replies.specs.Replies.{reply_of};

use command_line::{Command, EarlyEnd, WordsFault, command_of, gather, save};
use stack_commands::{Ending, Reply, Verdict, Work, finish, prepare};
use stack_heap::Heap;
use stack_shelf::Shelf;

/// Performs a command: fetches what it reads, stores what it writes, and says how it ends.
fn perform<H: Heap, S: Shelf>(heap: H, command: &Command, shelf: &mut S) -> Result<Ending, EarlyEnd>
    ensures leaves { (watches : List Watching) → IfSome (S.files shelf.old)
        (λ files. Leaves (Some command.now) watches files
        (shelf_of (S.files shelf.old) (S.counts shelf.old))
        (shelf_of (S.files shelf.new) (S.counts shelf.new)) (replied watches result)) }
    ensures reason { IfErr result (HasReason (H.may_refuse heap ⊎ S.may_refuse)
        (S.counts shelf.old) (S.counts shelf.new) (Some command.now)) }
    ensures reply { IfOk result (λ ending. (watches : List Watching)
        → IsReplyTo S.gave S.got shelf.old shelf.new (Some command.now) watches
        (reply_of (ending_reply watches ending))) }
    ensures is { IfOk result IsEnding }
    ensures counts { NoneFell (S.counts shelf.old) (S.counts shelf.new) }
{
    let texts = gather(heap, shelf, &command.inputs(heap)?)?;
    let Work { stored, left } = prepare(heap, command, &texts)?;
    if let (Some(output), Some(bytes)) = (command.output(), stored) {
        save(heap, shelf, output.name.as_str(), bytes.into_vec())?;
    }
    Ok(finish(heap, left)?)
}

/// Performs the command that the words ask for.
pub fn run_words<H: Heap, S: Shelf>(
    heap: H,
    words: &[String],
    shelf: &mut S,
) -> Result<Ending, EarlyEnd>
    ensures leaves { (watches : List Watching) → IfSome (S.files shelf.old)
        (λ files. Leaves (command_of (spelled words.now)) watches files
        (shelf_of (S.files shelf.old) (S.counts shelf.old))
        (shelf_of (S.files shelf.new) (S.counts shelf.new)) (replied watches result)) }
    ensures reason { IfErr result (HasReason (H.may_refuse heap ⊎ S.may_refuse)
        (S.counts shelf.old) (S.counts shelf.new) (command_of (spelled words.now))) }
    ensures reply { IfOk result (λ ending. (watches : List Watching)
        → IsReplyTo S.gave S.got shelf.old shelf.new (command_of (spelled words.now)) watches
        (reply_of (ending_reply watches ending))) }
    ensures is { IfOk result IsEnding }
    ensures counts { NoneFell (S.counts shelf.old) (S.counts shelf.new) }
{
    match command_of(heap, words) {
        Ok(command) => perform(heap, &command, shelf),
        Err(WordsFault::Usage) => Ok(Ending::Reply(Reply::verdict_alone(
            heap.handle(),
            Verdict::Usage,
        ))),
        Err(WordsFault::Memory) => Err(EarlyEnd::OutOfMemory),
    }
}

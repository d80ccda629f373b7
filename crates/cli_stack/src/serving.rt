//! The program over devices that keep a log, as `main` runs it.
ghost use Rattle.std.specs.Prelude.{◌≡◌, ◌⊎◌, IfSome, None, map};
ghost use Rattle.command_line.specs.{CommandWords.{spelled}, CommandRows.{command_of}, Status.{status_code}, declared.status.Status.{Status}};
ghost use Rattle.device_logs.specs.Logged.{logged_broke, logged_came, logged_ended, logged_gave, logged_got, logged_overran, logged_took, may_refuse_logged};
ghost use Rattle.stack_commands.specs.Conversed.{line_acts};
ghost use Rattle.cli_stack.specs.{World.{shelf_of, world}, Promises.{Promises}, RepliesTo.{devices_of}, Ran.{HasRun, logs_of}, Converses.{Converses}};
ghost use Rattle.cli_stack.specs.{Converses.{shelf_acts, talk_acts, talk_in, talk_world}, TalkRan.{AheadIsRefused, TalkRan, talk_logs}};

use crate::conversing::{converse, talk_in};
use crate::ran::run_logged;
use command_line::Status;
use device_logs::{LoggedLines, LoggedShelf, LoggedSink};
use fm_machine::Machine;
use level_debuggers::Watch;
use stack_build::builds_implement;
use stack_heap::Heap;
use stack_shelf::{Lines, Shelf, Sink};
use stack_text::Memory;

/// Serves the words of a command line: runs them as `run_logged` does, or as a session that is asked line by line, if they ask for one.
///
/// No line is asked for unless the words ask for such a session. Then the logs show more than what was fetched and printed: which lines came, and
/// that all that is said to the lines before had been printed when each of them was asked for. A body that asks for a line ahead is refused, and so
/// is one that keeps an answer back.
pub fn serve<H: Heap, S: Shelf + Drop, K: Sink + Drop, L: Lines<K> + Drop>(
    heap: H,
    words: &[String],
    shelf: &mut LoggedShelf<H, S>,
    lines: &mut LoggedLines<H, L>,
    out: &mut LoggedSink<H, K>,
    kept: &mut Option<Machine>,
    watches: Vec<Box<dyn Watch>>,
) -> u8
    // Words that ask for no session by lines have what `run_logged` promises.
    ensures promises { talk_in (command_of (spelled words.now)) ≡ None →
        let shelf_refuses = may_refuse_logged (λ heap. H.may_refuse heap) S.may_refuse in
        let sink_refuses = may_refuse_logged (λ heap. H.may_refuse heap) K.may_refuse in
        Promises (H.may_refuse heap ⊎ (shelf_refuses ⊎ sink_refuses))
        (devices_of (logged_gave S.gave) (logged_got S.got) (logged_took K.took) shelf.old shelf.new out.old out.new)
        (spelled words.now) (map watching watches.items)
        (world (S.files shelf.old.shelf) (S.counts shelf.old.shelf)
        (K.taken out.old.sink) (K.faults out.old.sink) kept.old)
        (world (S.files shelf.new.shelf) (S.counts shelf.new.shelf)
        (K.taken out.new.sink) (K.faults out.new.sink) kept.new)
        result }
    ensures ran { talk_in (command_of (spelled words.now)) ≡ None →
        HasRun (command_of (spelled words.now)) (map watching watches.items)
        (shelf_of (S.files shelf.old.shelf) (S.counts shelf.old.shelf))
        (shelf_of (S.files shelf.new.shelf) (S.counts shelf.new.shelf))
        (logs_of shelf.old out.old) (logs_of shelf.new out.new) result }
    ensures unasked { talk_in (command_of (spelled words.now)) ≡ None → lines.new ≡ lines.old }
    // Words that ask for one: what is done with the devices, and what was really read and printed, in which order, by the logs.
    ensures converses { IfSome (talk_in (command_of (spelled words.now))) (λ talk.
        let shelf_refuses = may_refuse_logged (λ heap. H.may_refuse heap) S.may_refuse in
        let lines_refuse = may_refuse_logged (λ heap. H.may_refuse heap) L.may_refuse in
        let sink_refuses = may_refuse_logged (λ heap. H.may_refuse heap) K.may_refuse in
        (status : Status) × (result ≡ status_code status)
        × Converses (H.may_refuse heap) shelf_refuses lines_refuse sink_refuses
        (shelf_acts (λ s. S.files s.shelf) (λ s. S.counts s.shelf) (logged_gave S.gave))
        (talk_acts
        (line_acts (logged_came L.came) (logged_ended L.ended) (logged_overran L.overran) (logged_broke L.broke))
        (λ l. L.faults l.lines) (λ l. L.overruns l.lines)
        (logged_took K.took) (λ k. K.taken k.sink) (λ k. K.faults k.sink))
        talk (map watching watches.items)
        (talk_world shelf.old lines.old out.old) (talk_world shelf.new lines.new out.new) status
        × TalkRan talk (map watching watches.items)
        (shelf_of (S.files shelf.old.shelf) (S.counts shelf.old.shelf))
        (shelf_of (S.files shelf.new.shelf) (S.counts shelf.new.shelf))
        (talk_logs shelf.old lines.old out.old) (talk_logs shelf.new lines.new out.new) status) }
    ensures kept { IfSome (talk_in (command_of (spelled words.now))) (λ _. kept.new ≡ kept.old) }
{
    builds_implement();
    match talk_in(heap, words) {
        Ok(None) => run_logged(heap, words, shelf, out, kept, watches),
        Ok(Some(talk)) => converse(heap, &talk, shelf, lines, out, watches).code(),
        Err(Memory) => Status::OutOfMemory.code(),
    }
}

/// Of a body that asks for a line ahead `serve` doesn't hold: the log of the lines tells that nothing had been printed.
pub fn ahead_is_refused()
    ensures { AheadIsRefused }
{}

//! Sessions that are asked line by line: `debug LEVEL SRC VALS CTRL TEMP -`, `pdebug PIT -` and `idebug IMG VALS -`.
ghost use Rattle.std.specs.Prelude.{◌≡◌, ◌⊎◌, Err, IfErr, IfOk, codes, map};
ghost use Rattle.stack_heap.specs.Heaps.{IfOkUnless};
ghost use Rattle.level_debuggers.specs.Levels.{IsRunner, level_of};
ghost use Rattle.command_line.specs.{CommandWords.{spelled}, CommandRows.{command_of}, Gathered.{text_of}};
ghost use Rattle.command_line.specs.declared.role.Role.TheVariants as Role;
ghost use Rattle.stack_commands.specs.{Commands.Debug.{found_run, session_on}, Commands.Idebug.{image_run_in}, Conversed.{line_acts}};
ghost use Rattle.cli_stack.specs.Converses.{Converses, StopsEarly, FindsRun, IsTold, Says, if_lines, shelf_acts, talk_acts, talk_in, talk_of_command};
ghost use Rattle.cli_stack.specs.Converses.{talk_world};

use crate::driver::conclude_reply;
use command_line::{
    Command, EarlyEnd, FileName, Level, Role, StackSize, Status, Texts, WordsFault, command_of,
    gather,
};
use level_debuggers::{Runner, Watch};
use stack_commands::{
    Reply, TalkFault, Verdict, image_session_run, piton_session_run, session_run, talk_session,
};
use stack_heap::Heap;
use stack_shelf::{Lines, Shelf, Sink};
use stack_text::Memory;

/// A session that is asked line by line, by the run that it begins with.
#[derive(Drop)]
pub enum Talk {
    /// Of a source's program at a level, with these values and sizes of the stacks.
    Source {
        /// At which level the steps are made.
        level: Level,
        /// The source whose program is run.
        source: FileName,
        /// The values of main's formals.
        values: FileName,
        /// How many words the control stack has.
        control: StackSize,
        /// How many words the temporary stack has.
        temporary: StackSize,
    },
    /// Of a Piton text.
    Piton {
        /// The text.
        piton: FileName,
    },
    /// Of an image, with these values.
    Image {
        /// The image.
        image: FileName,
        /// The values of its slots.
        values: FileName,
    },
}

/// A session, if this script stands for lines.
fn if_lines(script: &FileName, talk: Talk) -> Option<Talk>
    ensures { result ≡ if_lines script.now talk }
{
    if script.as_str().as_bytes() == b"-".as_slice() {
        Some(talk)
    } else {
        None
    }
}

/// The session that a command asks for, if its script is `-`.
fn talk_of_command(command: Command) -> Option<Talk>
    ensures { result ≡ talk_of_command command }
{
    match command {
        Command::Debug {
            level,
            source,
            values,
            control,
            temporary,
            script,
        } => if_lines(
            &script,
            Talk::Source {
                level,
                source,
                values,
                control,
                temporary,
            },
        ),
        Command::Pdebug { piton, script } => if_lines(&script, Talk::Piton { piton }),
        Command::Idebug {
            image,
            values,
            script,
        } => if_lines(&script, Talk::Image { image, values }),
        _ => None,
    }
}

/// The session that words ask for, or none if they ask for another command or for none.
pub fn talk_in<H: Heap>(heap: H, words: &[String]) -> Result<Option<Talk>, Memory>
    ensures { IfOkUnless (H.may_refuse heap) result (λ talk. talk ≡ talk_in (command_of (spelled words.now))) }
{
    match command_of(heap, words) {
        Ok(command) => Ok(talk_of_command(command)),
        Err(WordsFault::Usage) => Ok(None),
        Err(WordsFault::Memory) => Err(Memory),
    }
}

/// The run of the image and the values among such texts, or the verdict if there is none.
fn image_run<H: Heap>(heap: H, texts: &Texts) -> Result<Result<Runner, Verdict>, Memory>
    ensures run { IfOkUnless (H.may_refuse heap) result (λ found. found_run found
        ≡ image_run_in (text_of Role.SessionImage texts.now) (text_of Role.Values texts.now)) }
    ensures is { IfOk result (λ found. IfOk found IsRunner) }
{
    image_session_run(heap, texts.of(Role::SessionImage), texts.of(Role::Values))
}

/// Fetches the files of a session, and finds the run that it begins with, or the verdict if there is none.
fn find_run<H: Heap, S: Shelf>(
    heap: H,
    talk: &Talk,
    shelf: &mut S,
) -> Result<Result<Runner, Verdict>, EarlyEnd>
    ensures found { IfOk result (λ found.
        FindsRun (shelf_acts S.files S.counts S.gave) shelf.old shelf.new talk.now (found_run found)) }
    ensures is { IfOk result (λ found. IfOk found IsRunner) }
    ensures early { IfErr result (StopsEarly (H.may_refuse heap ⊎ S.may_refuse)
        (shelf_acts S.files S.counts S.gave) shelf.old shelf.new talk.now) }
    ensures files { S.files shelf.new ≡ S.files shelf.old }
{
    match talk {
        Talk::Source {
            level,
            source,
            values,
            control,
            temporary,
        } => {
            let inputs = [Role::Source.file(source), Role::Values.file(values)];
            let texts = gather(heap, shelf, &inputs)?;
            Ok(session_run(heap, *level, &texts, control, temporary)?)
        }
        Talk::Piton { piton } => {
            let texts = gather(heap, shelf, &[Role::Piton.file(piton)])?;
            Ok(piton_session_run(heap, texts.of(Role::Piton))?)
        }
        Talk::Image { image, values } => {
            let inputs = [Role::SessionImage.file(image), Role::Values.file(values)];
            let texts = gather(heap, shelf, &inputs)?;
            Ok(image_run(heap, &texts)?)
        }
    }
}

/// Prints that a line could not be read, as of a file `-` at which the shelf failed.
fn print_unread<H: Heap, K: Sink>(heap: H, out: &mut K) -> Status
    ensures { Says (H.may_refuse heap ⊎ K.may_refuse) K.took K.taken K.faults out.old out.new
        (Err (EarlyEnd.ShelfFault (codes "-"))) result }
{
    match FileName::new(heap, "-") {
        Ok(name) => conclude_reply(heap, Err(EarlyEnd::ShelfFault { name }), out, &mut None),
        Err(Memory) => Status::OutOfMemory,
    }
}

/// Asks for the lines of a session, one by one, and prints what is said to each before it asks for the next one, to its end.
fn tell_run<H: Heap, K: Sink, L: Lines<K>>(
    heap: H,
    runner: Runner,
    watches: Vec<Box<dyn Watch>>,
    lines: &mut L,
    out: &mut K,
) -> Status
    requires { IsRunner runner }
    ensures { IsTold (H.may_refuse heap) L.may_refuse K.may_refuse
        (talk_acts (line_acts L.came L.ended L.overran L.broke) L.faults L.overruns K.took K.taken K.faults)
        lines.old lines.new out.old out.new (session_on (level_of runner) (map watching watches.items)) result }
{
    match talk_session(heap, runner, watches, lines, out) {
        Ok(status) => status,
        Err(TalkFault::Sink) => Status::SinkFault,
        Err(TalkFault::Memory) => Status::OutOfMemory,
        Err(TalkFault::Lines) => print_unread(heap, out),
    }
}

/// Serves a session that is asked line by line: fetches its files, opens it, and prints what is said to each line before it asks for the next one.
/// It answers the exit status.
pub fn converse<H: Heap, S: Shelf, K: Sink, L: Lines<K>>(
    heap: H,
    talk: &Talk,
    shelf: &mut S,
    lines: &mut L,
    out: &mut K,
    watches: Vec<Box<dyn Watch>>,
) -> Status
    ensures { Converses (H.may_refuse heap) S.may_refuse L.may_refuse K.may_refuse
        (shelf_acts S.files S.counts S.gave)
        (talk_acts (line_acts L.came L.ended L.overran L.broke) L.faults L.overruns K.took K.taken K.faults)
        talk.now (map watching watches.items)
        (talk_world shelf.old lines.old out.old) (talk_world shelf.new lines.new out.new) result }
{
    match find_run(heap, talk, shelf) {
        Ok(Ok(runner)) => tell_run(heap, runner, watches, lines, out),
        Ok(Err(verdict)) => {
            let reply = Reply::verdict_alone(heap.handle(), verdict);
            conclude_reply(heap, Ok(reply), out, &mut None)
        }
        Err(end) => conclude_reply(heap, Err(end), out, &mut None),
    }
}

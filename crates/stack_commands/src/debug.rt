//! The command `debug`.
ghost use Rattle.std.specs.Prelude.{◌≡◌, ◌≤◌, ◌^◌, List, None, Some, IfOk, OnErr, length};
ghost use Rattle.stack_heap.specs.Heaps.{IfOkUnless};
ghost use Rattle.gypsy_space.specs.Needs.{stack_sizes};
ghost use Rattle.gypsy_syntax.specs.Views.SourceView.{source_of};
ghost use Rattle.level_debuggers.specs.{Levels.{IsRunner, level_of}, Views.Sessions.{session_of}, Tallies.{Watching}};
ghost use Rattle.stack_build.specs.Starts.{GivesStartUnless};
ghost use Rattle.debug_script.specs.Scripts.{fault_of, script_of};
ghost use Rattle.command_line.specs.declared.role.Role.TheVariants as Role;
ghost use Rattle.command_line.specs.declared.words.reader.Level.TheVariants as Level;
ghost use Rattle.command_line.specs.Gathered.{text_of};
ghost use Rattle.command_replies.specs.Replies.{verdict_alone};
ghost use Rattle.stack_commands.specs.Commands.Debug.{run_at, run_in, found_run, end_verdict, script_verdict, script_reply, session_reply, debug_reply};
ghost use Rattle.stack_commands.specs.Works.{IsLeft, left_reply};

use crate::script_run::ScriptRun;
use crate::source_text::{read_accepted, start_verdict};
use crate::work::{Left, Work, planned};
use command_line::{Level, Role, StackSize, Texts};
use command_replies::{Plan, Verdict};
use debug_script::{ScriptFault, read_script};
use gypsy_check::Accepted;
use gypsy_space::needs;
use level_debuggers::{Runner, ScriptEnd, Session};
use stack_build::{StartFault, start_image, start_meaning, start_system};
use stack_heap::Heap;
use stack_text::Memory;
use std::alloc::Global;

/// What is left of `debug` once its texts are there.
pub fn prepare<H: Heap>(
    heap: H,
    level: Level,
    texts: &Texts,
    control: &StackSize,
    temporary: &StackSize,
) -> Result<Work, Memory>
    ensures stored { IfOkUnless (H.may_refuse heap) result (λ work. work.stored ≡ None) }
    ensures reply { IfOk result (λ work. (watches : List Watching) → left_reply watches work.left
        ≡ debug_reply level (text_of Role.Source texts.now) (text_of Role.Values texts.now) control.now temporary.now
        (text_of Role.Script texts.now) watches) }
    ensures is { IfOk result (λ work. IsLeft work.left) }
{
    match session_run(heap, level, texts, control, temporary)? {
        Ok(runner) => script_work(heap, runner, texts.of(Role::Script)),
        Err(verdict) => Ok(planned(Plan::verdict_alone(heap.handle(), verdict))),
    }
}

/// The run that a session begins with, of the source and the values among such texts, or the verdict if there is none.
pub fn session_run<H: Heap>(
    heap: H,
    level: Level,
    texts: &Texts,
    control: &StackSize,
    temporary: &StackSize,
) -> Result<Result<Runner, Verdict>, Memory>
    ensures run { IfOkUnless (H.may_refuse heap) result (λ found. found_run found
        ≡ run_in level (text_of Role.Source texts.now) (stack_sizes control.now temporary.now)
        (text_of Role.Values texts.now)) }
    ensures is { IfOk result (λ found. IfOk found IsRunner) }
{
    let (source, values) = (texts.of(Role::Source), texts.of(Role::Values));
    run_in(
        heap,
        level,
        source,
        values,
        control.words(),
        temporary.words(),
    )
}

/// A runner of an accepted source's own steps.
fn gypsy_runner<H: Heap>(
    heap: H,
    accepted: Accepted,
    values: &[u8],
    control: u32,
    temporary: u32,
) -> Result<Runner, StartFault>
    requires { length values.now ≤ 2 ^ 31 }
    ensures run { GivesStartUnless (H.may_refuse heap) level_of result
        (run_at Level.Gypsy (source_of accepted) (stack_sizes control temporary) values.now) }
    ensures is { IfOk result IsRunner }
{
    let needs = needs(heap, &accepted)?;
    let meaning = start_meaning(heap, &accepted, &needs, control, temporary, values)?;
    Ok(Runner::Gypsy {
        accepted,
        needs,
        meaning,
    })
}

/// A runner of the system that an accepted source compiles to.
fn piton_runner<H: Heap>(
    heap: H,
    accepted: &Accepted,
    values: &[u8],
    control: u32,
    temporary: u32,
) -> Result<Runner, StartFault>
    requires { length values.now ≤ 2 ^ 31 }
    ensures run { GivesStartUnless (H.may_refuse heap) level_of result
        (run_at Level.Piton (source_of accepted.now) (stack_sizes control temporary) values.now) }
    ensures is { IfOk result IsRunner }
{
    let start = start_system(heap, accepted, control, temporary, values)?;
    Ok(Runner::Piton {
        checked: start.checked,
        image: start.image,
        state: start.state,
    })
}

/// A runner of the image that is built of an accepted source.
fn image_runner<H: Heap>(
    heap: H,
    accepted: &Accepted,
    values: &[u8],
    control: u32,
    temporary: u32,
) -> Result<Runner, StartFault>
    requires { length values.now ≤ 2 ^ 31 }
    ensures run { GivesStartUnless (H.may_refuse heap) level_of result
        (run_at Level.Fm9001 (source_of accepted.now) (stack_sizes control temporary) values.now) }
    ensures is { IfOk result IsRunner }
{
    let start = start_image(heap, accepted, control, temporary, values)?;
    Ok(Runner::Fm {
        image: start.image,
        machine: start.machine,
    })
}

/// The runner of an accepted source, at a level.
fn run_at<H: Heap>(
    heap: H,
    level: Level,
    accepted: Accepted,
    values: &[u8],
    control: u32,
    temporary: u32,
) -> Result<Runner, StartFault>
    requires { length values.now ≤ 2 ^ 31 }
    ensures run { GivesStartUnless (H.may_refuse heap) level_of result
        (run_at level (source_of accepted) (stack_sizes control temporary) values.now) }
    ensures is { IfOk result IsRunner }
{
    match level {
        Level::Gypsy => gypsy_runner(heap, accepted, values, control, temporary),
        Level::Piton => piton_runner(heap, &accepted, values, control, temporary),
        Level::Fm9001 => image_runner(heap, &accepted, values, control, temporary),
    }
}

/// The runner of the source in a text, or the verdict where there is none.
#[tactic(auto, unfolding(crate::specs::Commands::Debug::run_in))]
fn run_in<H: Heap>(
    heap: H,
    level: Level,
    source: &[u8],
    values: &[u8],
    control: u32,
    temporary: u32,
) -> Result<Result<Runner, Verdict>, Memory>
    requires source { length source.now ≤ 2 ^ 31 }
    requires values { length values.now ≤ 2 ^ 31 }
    ensures run { IfOkUnless (H.may_refuse heap) result (λ found.
        found_run found ≡ run_in level source.now (stack_sizes control temporary) values.now) }
    ensures is { IfOk result (λ found. IfOk found IsRunner) }
{
    let accepted = match read_accepted(heap, source)? {
        Ok(accepted) => accepted,
        Err(verdict) => return Ok(Err(verdict)),
    };
    match run_at(heap, level, accepted, values, control, temporary) {
        Ok(runner) => Ok(Ok(runner)),
        Err(fault) => Ok(Err(start_verdict(fault)?)),
    }
}

/// The work where a script is refused.
fn refused_script(handle: Global, fault: ScriptFault) -> Result<Work, Memory>
    ensures known { IfOk result (λ _. fault_of fault ≡ Some fault) }
    ensures memory { OnErr result (fault_of fault ≡ None) }
    ensures stored { IfOk result (λ work. work.stored ≡ None) }
    ensures reply { IfOk result (λ work. (watches : List Watching) → left_reply watches work.left
        ≡ verdict_alone (script_verdict fault)) }
    ensures is { IfOk result (λ work. IsLeft work.left) }
{
    match fault {
        ScriptFault::Refused { rule, line } => {
            Ok(planned(Plan::verdict_alone(handle, Verdict::Script { rule, line })))
        }
        ScriptFault::Memory => Err(Memory),
    }
}

/// How the command ends with its script.
pub(crate) fn end_verdict<H: Heap>(
    heap: H,
    session: &Session,
    end: ScriptEnd,
) -> Result<Verdict, Memory>
    ensures { let session = session_of (λ w. watching (w.vtable, w.value)) session.now in
        IfOkUnless (H.may_refuse heap) result (λ verdict. verdict ≡ end_verdict session.level end) }
{
    match end {
        ScriptEnd::Done => Ok(Verdict::Done),
        ScriptEnd::Error {
            kind,
            program,
            place,
            after: count,
        } => match session.program_name(program) {
            Some(program) => Ok(Verdict::Error {
                kind,
                program: program.copied(heap)?,
                place,
                count,
            }),
            None => Ok(Verdict::Usage),
        },
        ScriptEnd::Outside {
            address,
            after: count,
        } => Ok(Verdict::Outside { address, count }),
        ScriptEnd::NoneWaits { line } => Ok(Verdict::Script { rule: 4, line }),
        ScriptEnd::NoneAttached { line } => Ok(Verdict::Script { rule: 5, line }),
        ScriptEnd::OtherLevel { line } => Ok(Verdict::Script { rule: 7, line }),
    }
}

/// What is left of a script and the run of its session.
fn script_work<H: Heap>(heap: H, runner: Runner, script: &[u8]) -> Result<Work, Memory>
    requires script { length script.now ≤ 2 ^ 31 }
    requires runner { IsRunner runner }
    ensures stored { IfOkUnless (H.may_refuse heap) result (λ work. work.stored ≡ None) }
    ensures reply { IfOk result (λ work. (watches : List Watching) → left_reply watches work.left
        ≡ script_reply (level_of runner) watches (script_of script.now)) }
    ensures is { IfOk result (λ work. IsLeft work.left) }
{
    match read_script(heap, script) {
        Ok(lines) => Ok(Work {
            stored: None,
            left: Left::Session(ScriptRun { runner, lines }),
        }),
        Err(fault) => {
            drop(runner);
            refused_script(heap.handle(), fault)
        }
    }
}

/// What is left of a script once the run of its session was sought: the session, or the verdict alone where there is no run.
pub(crate) fn session_work<H: Heap>(
    heap: H,
    found: Result<Runner, Verdict>,
    script: &[u8],
) -> Result<Work, Memory>
    requires script { length script.now ≤ 2 ^ 31 }
    requires runner { IfOk found IsRunner }
    ensures stored { IfOkUnless (H.may_refuse heap) result (λ work. work.stored ≡ None) }
    ensures reply { IfOk result (λ work. (watches : List Watching) → left_reply watches work.left
        ≡ session_reply (found_run found) watches script.now) }
    ensures is { IfOk result (λ work. IsLeft work.left) }
{
    match found {
        Ok(runner) => script_work(heap, runner, script),
        Err(verdict) => Ok(planned(Plan::verdict_alone(heap.handle(), verdict))),
    }
}

//! Sessions that no command makes: of a run that another session handed back, of a system that comes to an error, of a machine that leaves its window.

ghost use Rattle.std.specs.Prelude.{◌≤◌, ◌^◌, IfOk};
ghost use Rattle.piton_semantics.specs.{Fits.{system_in}, Placed.{placed}};
ghost use Rattle.level_debuggers.specs.{Levels.{IsRunner}, Views.Sessions.{IsSession}};

use fm_image::{Image, read_image};
use fm_machine::Machine;
use gypsy_check::{Accepted, check as check_source};
use gypsy_meaning::Meaning;
use gypsy_space::needs;
use gypsy_syntax::read_gypsy;
use level_debuggers::{Runner, Session, SessionRun};
use piton_check::{Checked, check as check_system};
use piton_linker::link;
use piton_machine::State;
use piton_semantics::ErrorKind;
use piton_syntax::read_piton;
use std::alloc::Global;
use std::test::Fail;

/// A source whose run takes five steps.
const SOURCE: &[u8] =
    b"(program main (proc main () () () () (call p () ())) (proc p () () () () (loop (signal leave))))";

/// A system whose second instruction is an error.
const SYSTEM: &[u8] =
    b"(piton main 2 2 0 () () (main () () (push-constant (nat 0)) (sub1-nat) (ret)))";

/// How many numbers an image has that has no names, no slots and no words.
const NUMBERS: u32 = 25;

/// The numbers of an image whose window is a word, with the program counter outside and no condition word.
fn number_at(place: u32) -> u32 {
    match place {
        0 | 2 | 19 => 1,
        21 => 0xffff_ffff,
        _ => 0,
    }
}

/// The source of a short text, once it is accepted.
fn accepted(alloc: Global, text: &[u8]) -> Result<Accepted, Fail> {
    if text.len() > 1000 {
        return Err(Fail::from("too long"));
    }
    Ok(check_source(alloc, read_gypsy(alloc, text)?)?)
}

/// A run of a source.
fn of_source(alloc: Global, text: &[u8]) -> Result<Runner, Fail>
    ensures { IfOk result IsRunner }
{
    let accepted = accepted(alloc, text)?;
    let needs = needs(alloc, &accepted)?;
    match Meaning::try_start(alloc, &accepted, &needs, &[], 100, 100)? {
        Some(meaning) => Ok(Runner::Gypsy {
            accepted,
            needs,
            meaning,
        }),
        None => Err(Fail::from("no start")),
    }
}

/// The checked system of a short text.
fn checked(alloc: Global, text: &[u8]) -> Result<Checked, Fail> {
    if text.len() > 1000 {
        return Err(Fail::from("too long"));
    }
    Ok(check_system(alloc, read_piton(alloc, text)?)?)
}

/// The checked system of a text whose words are few enough to be linked.
fn linkable(alloc: Global, text: &[u8]) -> Result<Checked, Fail>
    ensures { IfOk result (λ checked. (placed (system_in checked)).size ≤ 2 ^ 20) }
{
    let checked = checked(alloc, text)?;
    let _linked = link(alloc, &checked)?;
    Ok(checked)
}

fn image(alloc: Global) -> Result<Image, Fail> {
    let mut bytes = Vec::from_slice(alloc, b"FM91")?;
    for place in 0..NUMBERS {
        bytes.extend_from_slice(&number_at(place).to_be_bytes())?;
    }
    Ok(read_image(alloc, &bytes)?)
}

/// A run of a system, which no image belongs to.
fn of_system(alloc: Global, text: &[u8]) -> Result<Runner, Fail>
    ensures { IfOk result IsRunner }
{
    let checked = linkable(alloc, text)?;
    let state = State::start(alloc, &checked)?;
    let image = image(alloc)?;
    Ok(Runner::Piton {
        checked,
        image,
        state,
    })
}

/// A run of a machine whose program counter is outside its window of a word.
fn outside(alloc: Global) -> Result<Runner, Fail>
    ensures { IfOk result IsRunner }
{
    let mut machine = Machine::new(alloc, 0, 1)?;
    machine.set_register(15, 1);
    let image = image(alloc)?;
    Ok(Runner::Fm { image, machine })
}

/// How some steps of a session end.
fn steps(alloc: Global, session: &mut Session, count: u64) -> Result<SessionRun, Fail>
    requires { IsSession session.old }
    ensures { IsSession session.new }
{
    Ok(session.step(alloc, count)?)
}

/// A run after a step, handed back.
fn after_a_step(alloc: Global, runner: Runner) -> Result<Runner, Fail>
    requires { IsRunner runner }
    ensures { IfOk result IsRunner }
{
    let mut session = Session::new(alloc, runner, Vec::new(alloc))?;
    steps(alloc, &mut session, 1)?;
    Ok(session.finish())
}

/// How a session of a run ends that is asked for more steps than the run has.
fn ends(alloc: Global, runner: Runner) -> Result<SessionRun, Fail>
    requires { IsRunner runner }
{
    let mut session = Session::new(alloc, runner, Vec::new(alloc))?;
    let run = steps(alloc, &mut session, 100);
    drop(session);
    run
}

#[test]
fn a_run_that_is_handed_back_goes_on(rt: HostRuntime) -> Result<(), Fail> {
    let alloc = rt.alloc();
    let runner = after_a_step(alloc, of_source(alloc, SOURCE)?)?;
    assert!(rt; ends(alloc, runner)? == SessionRun::Ended { count: 4 });
    Ok(())
}

#[test]
fn an_error_ends_a_run(rt: HostRuntime) -> Result<(), Fail> {
    let alloc = rt.alloc();
    let error = SessionRun::Error {
        kind: ErrorKind::Range,
        program: 0,
        place: 1,
        after: 1,
    };
    assert!(rt; ends(alloc, of_system(alloc, SYSTEM)?)? == error);
    Ok(())
}

#[test]
fn an_address_outside_ends_a_run(rt: HostRuntime) -> Result<(), Fail> {
    let alloc = rt.alloc();
    let outside_its_window = SessionRun::Outside {
        address: 1,
        after: 0,
    };
    assert!(rt; ends(alloc, outside(alloc)?)? == outside_its_window);
    Ok(())
}

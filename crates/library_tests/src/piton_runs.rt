//! Runs of Piton's machine, with the names that its crate gives.

use piton_check::check;
use piton_machine::{ErrorKind, PitonRun, State, Stepped};
use piton_syntax::read_piton;
use std::alloc::Global;
use std::test::Fail;

/// A system whose second instruction is an error, for nothing is less than the natural number 0.
const SYSTEM: &[u8] =
    b"(piton main 2 2 0 () () (main () () (push-constant (nat 0)) (sub1-nat) (ret)))";

/// What two steps of the system answer, what a run then does, and how many steps were made.
fn steps_and_run(alloc: Global) -> Result<(Stepped, Stepped, PitonRun, u64), Fail> {
    let checked = check(alloc, read_piton(alloc, SYSTEM)?)?;
    let mut state = State::start(alloc, &checked)?;
    let first = state.step(&checked);
    let second = state.step(&checked);
    let run = state.run(&checked, 5);
    Ok((first, second, run, state.steps()))
}

#[test]
fn an_error_is_answered_again_and_changes_nothing(rt: HostRuntime) -> Result<(), Fail> {
    let error = ErrorKind::Range;
    let expected = (
        Stepped::Next,
        Stepped::Error(error),
        PitonRun::Error(error),
        1,
    );
    assert!(rt; steps_and_run(rt.alloc())? == expected);
    Ok(())
}

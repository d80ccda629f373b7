//! A program that uses the crates: it runs a source on values, and prints what `x` is at the end.
#![tactic(auto)]

ghost use Rattle.std.specs.Prelude.{◌≤◌, ◌^◌, length, IfOk};
ghost use Rattle.gypsy_space.specs.Needs.{stack_sizes};
ghost use Rattle.stack_build.specs.{SourceRuns.{TellsMeaning, source_run}, Starts.{GivesStart}};

use display_maps::{Ending, Shown, run_on};
use stack_build::{StartFault, build, source_runs_tell_meaning};
use std::alloc::Global;

/// Adds one to `x`.
const SOURCE: &str =
    "(program main (proc main ((x integer)) () ((one integer 1)) () (mg-integer-add x x one)))";

/// What `x` is at the beginning.
const VALUES: &str = "((x 41))";

/// The most instructions of the run.
const BUDGET: u64 = 1000;

/// Builds a source for stacks of 100 words each, and runs its image on values for at most so many instructions.
///
/// # Errors
///
/// Nothing is built of the source, or the values break a rule of values files, as `StartFault` says; or out of memory.
#[tactic(auto, unfolding(stack_build::specs::SourceRuns::source_run))]
fn run_source(
    alloc: Global,
    source: &[u8],
    values: &[u8],
    budget: u64,
) -> Result<Ending, StartFault>
    requires source { length source.now ≤ 2 ^ 31 }
    requires values { length values.now ≤ 2 ^ 31 }
    // How the run ends, and each fault, are those of the two texts and the budget.
    ensures value { GivesStart (λ ending. ending) result
        (source_run source.now (stack_sizes 100 100) values.now budget) }
    // What it tells at the end is what the source means; and where there is no end yet, the meaning isn't done within the budget.
    ensures meant { IfOk result (TellsMeaning source.now (stack_sizes 100 100) values.now budget) }
{
    source_runs_tell_meaning();
    let built = build(alloc, source, 100, 100, 0)?;
    let image = built.into_image();
    Ok(run_on(alloc, &image, values, budget)?)
}

fn main(rt: HostRuntime) -> anyhow::Result<()> {
    let ending = run_source(rt.alloc(), SOURCE.as_bytes(), VALUES.as_bytes(), BUDGET)?;
    if let Ending::Finished { count, reading } = &ending {
        if let Some([Shown::Number(x)]) = reading.items_of("x") {
            println!(rt; "x = {x} after {count} instructions")?;
        }
    }
    Ok(())
}

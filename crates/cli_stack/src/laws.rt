//! Laws of commands in a row, and one answer of `go` that is computed. The functions do nothing: their clauses hold of all files.

ghost use Rattle.cli_stack.specs.{Again.{AssembledIsTheSame, CheckIsOfBuild, MigratedRunsTheSame, NeedIsCertified}, First.{FirstGoes}, InARow.{BudgetsSettle}};
ghost use Rattle.cli_stack.specs.{InARow.{DebugIsBuildAndIdebug, GoIsBuildAndRun}, OneResult.{LargerStacksTellTheSame}, PitAndPbuild.{BuildIsPitAndPbuild}};
ghost use Rattle.cli_stack.specs.{PitAndPbuild.{PitCarriesMeanings}, Sooner.{QuickIsGoSooner}};
ghost use Rattle.std.specs.Prelude.{List};
ghost use Rattle.level_debuggers.specs.Tallies.{Watching};

use gypsy_codegen::{generated_is_acceptable, moments_are_reached, source_runs};
use piton_check::places_change_nothing;
use quick_generate::quickened_images_mean;
use stack_build::{builds_implement, runs_are_meant};

/// `go` is `build`, and then `run` on the file that it stored.
pub fn go_is_build_and_run()
    ensures { GoIsBuildAndRun }
{
    builds_implement();
}

/// `debug fm9001` is `build`, and then `idebug` on the file that it stored.
pub fn debug_is_build_and_idebug()
    ensures { DebugIsBuildAndIdebug }
{
    builds_implement();
}

/// `quick` refuses what `build` refuses, and else `run` of the file that it stored prints what `go` prints, after no more instructions.
pub fn quick_is_go_sooner()
    ensures { QuickIsGoSooner }
{
    builds_implement();
    runs_are_meant();
    quickened_images_mean();
}

/// A larger budget changes no answer of a run that came to an end.
pub fn budgets_settle()
    ensures { BudgetsSettle }
{}

/// The file that `migrate` stores runs as the one before.
pub fn migrated_runs_the_same()
    ensures { MigratedRunsTheSame }
{}

/// `asm` of the text that `unasm` stored stores the bytes of which the text was made.
pub fn assembled_is_the_same()
    ensures { AssembledIsTheSame }
{}

/// `check` says ok exactly where `build` refuses no text.
pub fn check_is_of_build()
    ensures { CheckIsOfBuild }
{}

/// Of what `need` stored `cert` says yes, at the sizes that it told and at all larger ones.
pub fn need_is_certified()
    ensures { NeedIsCertified }
{}

/// At all sizes of the stacks from those that `need` tells, `go` prints one report.
pub fn larger_stacks_tell_the_same()
    ensures { LargerStacksTellTheSame }
{
    builds_implement();
}

/// What `pit` stores carries the meaning of its source, and `pbuild` of it makes what `build` does.
pub fn build_is_pit_and_pbuild()
    ensures meaning { PitCarriesMeanings }
    ensures code { BuildIsPitAndPbuild }
{
    generated_is_acceptable();
    source_runs();
    moments_are_reached();
    places_change_nothing();
}

/// The answer of `go` on the files of `examples/first`: it stores an image, and prints these three lines. Nothing is left to assume.
pub fn first_goes()
    ensures { (watches : List Watching) → FirstGoes watches }
{
    builds_implement();
}

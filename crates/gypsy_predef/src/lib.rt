//! The predefined procedures of Micro-Gypsy as programs of Piton.
#![tactic(auto)]

ghost use Rattle.gypsy_predef.specs.{Runs.{PredefRuns, CountsAdd, WordsWritten}, Examples.{ProductRows}, Calls.{PredefCallRuns, BodiesStand, ArgumentsHold}};
ghost use Rattle.gypsy_predef.specs.{Calls.{ValuesKept}, Resolving.{BodiesFit, BodiesKeepRules, BodiesResolve, BodiesStandResolved}};

/// Instructions of a text, as the bodies here and other writers of Piton texts put them.
pub mod instruction_text;
mod line;
mod rows;
mod writing;

pub use writing::bodies;

/// A call of a predefined program does what its row says, in the row's steps and at the row's cost: from the call itself,
/// and from the first push until after the test for a fault. It does nothing: its clauses hold of all systems and states.
pub fn predefs_run()
    ensures runs { PredefRuns }
    ensures counts { CountsAdd }
    ensures calls { PredefCallRuns }
    ensures stand { BodiesStand }
    ensures arguments { ArgumentsHold }
    ensures values { ValuesKept }
    ensures written { WordsWritten }
    ensures rows { ProductRows }
{}

/// The texts of the predefined programs keep the form; in each system whose first area is `c-c` they break no rule, and
/// mean those programs. It does nothing: its clauses hold of all systems.
pub fn bodies_resolve()
    ensures fit { BodiesFit }
    ensures rules { BodiesKeepRules }
    ensures one { BodiesResolve }
    ensures all { BodiesStandResolved }
{}

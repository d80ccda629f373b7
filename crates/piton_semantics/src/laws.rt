//! What holds of the definitions.

ghost use Rattle.piton_semantics.specs.{Law.{EachStepKeeps, StepsAreRuns, StepsAreCounted, StepsHalt, StepsFail}, PlacedLaws.{TemplatesFit, CodeEnds}};
ghost use Rattle.piton_semantics.specs.PlacedLaws.{PlacedFills, NumbersTell, OpeningStands, EachPlaceDoesSteps};

/// The laws of steps: each step of a sound system keeps what a state has to keep, and steps put together are a run whose
/// counts tell them.
pub fn step_laws()
    ensures kept { EachStepKeeps }
    ensures runs { StepsAreRuns }
    ensures counted { StepsAreCounted }
    ensures halts { StepsHalt }
    ensures fails { StepsFail }
{}

/// The laws of what is placed: the code of each instruction has the size that addresses count, and the words fill the
/// size; the number of a word tells it from all other words of its tag; the machine with the placed words stands for the
/// opening state; and the code of each instruction does its steps.
pub fn placed_laws()
    ensures templates { TemplatesFit }
    ensures code { CodeEnds }
    ensures size { PlacedFills }
    ensures numbers { NumbersTell }
    ensures opening { OpeningStands }
    ensures steps { EachPlaceDoesSteps }
{}

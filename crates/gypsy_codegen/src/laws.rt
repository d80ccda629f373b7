//! Laws of the generated system. The functions do nothing: their clauses hold of all programs that fit, and of all sizes and states.

ghost use Rattle.gypsy_codegen.specs.{Acceptable.{GeneratedIsAcceptable, VariablesKeepNames, SourceRuns}, Examples.{ExamplesEnd}, GuardLaw.{GuardsCalls}};
ghost use Rattle.gypsy_codegen.specs.{GuardLaw.{GuardWantsTwo, CallsHaveTwo, FreeIsBefore}, Law.{StepsFollow}, MarkExamples.{MarksAre}};
ghost use Rattle.gypsy_codegen.specs.{Marks.{EachMomentIsMarked, MarksAscend, MarksArePlaces}, Moments.{EachMomentIsReached, EachStepCosts, CountsGrow}};
ghost use Rattle.gypsy_codegen.specs.StepRows.{NoOpRow, SignalRow, LoopRow, BackRow, ThenRow, ElseRow, JoinThenRow, JoinOneRow, GuardRow, CallRow};
ghost use Rattle.gypsy_codegen.specs.StepRows.{LackTemporaryRow, LackControlRow, WriteRow, FaultRow, BeyondRow, ReturnRow, OutRow, EndRow, MainOutRow};
ghost use Rattle.gypsy_codegen.specs.{Sizes.{ProceduresTakeWords}, Traces.{EachMomentHasFrames}, TextExamples.{TextsAre}, Whole.{StartShows, EachIsShown}};
ghost use Rattle.gypsy_codegen.specs.Whole.{CountedRuns, MeaningRuns, LimitedRunHalts, RaiseFollows, PlaceIsMark, VariablesStand, WaitingVariablesStand};
ghost use Rattle.gypsy_codegen.specs.Whole.{ActualsShare};

/// The guard of a call, in any system and any state that has two words free: it goes to its place exactly where a stack has
/// fewer words free than the call needs, and else falls through, and changes nothing. With one word free its second step is
/// an error, since it pushes two itself; before each call of the generated system two are free. What it pushes as free is
/// what was free before.
pub fn guards_tell_room()
    ensures goes { GuardsCalls }
    ensures wants_two { GuardWantsTwo }
    ensures calls_have_two { CallsHaveTwo }
    ensures free { FreeIsBefore }
{}

/// Each step of the step machine is so many steps of the generated system, at its cost: from a state that shows the
/// one of the step machine to one that shows the next, or that has halted where the program ends.
pub fn steps_follow()
    ensures { StepsFollow }
{
    gypsy_predef::predefs_run();
}

/// The same row by row: each item of work on top, with the state that it leads to, its cost and its steps. The law of a
/// call stands apart from those of what a procedure does by itself.
pub fn rows_follow()
    ensures no_op { NoOpRow }
    ensures signal { SignalRow }
    ensures loop_begins { LoopRow }
    ensures loop_again { BackRow }
    ensures then_branch { ThenRow }
    ensures else_branch { ElseRow }
    ensures join_then { JoinThenRow }
    ensures join_one { JoinOneRow }
    ensures guard { GuardRow }
    ensures call { CallRow }
    ensures lack_temporary { LackTemporaryRow }
    ensures lack_control { LackControlRow }
    ensures write { WriteRow }
    ensures fault { FaultRow }
    ensures beyond { BeyondRow }
    ensures returned { ReturnRow }
    ensures out { OutRow }
    ensures main_end { EndRow }
    ensures main_out { MainOutRow }
{
    gypsy_predef::predefs_run();
}

/// A condition that is raised comes from its target to the item that stops it.
pub fn raise_follows()
    ensures { RaiseFollows }
{
    gypsy_predef::predefs_run();
}

/// The opening state shows the start, and each state that the step machine comes to is shown after the steps that its
/// tally tells.
pub fn states_are_shown()
    ensures start { StartShows }
    ensures each { EachIsShown }
{
    gypsy_predef::predefs_run();
}

/// A state that shows one of the step machine stands at its mark, and its stack has the words of the variables: of the
/// activation on top, and of those that wait but where an actual stands, which has its formal's index.
pub fn shown_states_read()
    ensures place { PlaceIsMark }
    ensures variables { VariablesStand }
    ensures waiting { WaitingVariablesStand }
    ensures shared { ActualsShare }
{}

/// Micro-Gypsy runs on Piton: where the meaning is done, the generated system first halts with the same, after the
/// counted steps and at the counted cost, and no step before is an error. A run with a limit of so many steps or more
/// halts there.
pub fn meaning_runs()
    ensures meaning { MeaningRuns }
    ensures counted { CountedRuns }
    ensures limited { LimitedRunHalts }
{
    gypsy_predef::predefs_run();
}

/// Every moment of the step machine is one of the generated system: after exactly the counted steps, at the counted cost and
/// none an error, the system stands at the mark of the top item and reads as the activation on top. Where the step machine
/// has ended, the system has halted with the same, at the last of these steps.
pub fn moments_are_reached()
    ensures { EachMomentIsReached }
{
    gypsy_predef::predefs_run();
}

/// At every moment the frames are those of all activations, also of those that wait: each has the indices of its variables, and the
/// stack has there what the activation would get back now.
pub fn moments_have_frames()
    ensures { EachMomentHasFrames }
{
    gypsy_predef::predefs_run();
}

/// Each step of the step machine costs an instruction at least, so what is counted grows without bound along a run that
/// never ends.
pub fn steps_cost()
    ensures each { EachStepCosts }
    ensures grows { CountsGrow }
{}

/// Each mark of the step machine is among the marks of the generated program, with its procedure and its place in the source;
/// and these ascend, and stand at instructions.
pub fn moments_are_marked()
    ensures among { EachMomentIsMarked }
    ensures ascend { MarksAscend }
    ensures places { MarksArePlaces }
{}

/// Each generated procedure takes its code words on the processor, its prelude with them.
pub fn procedures_take_words()
    ensures { ProceduresTakeWords }
{}

/// The system of an accepted source, as a text with names and labels, keeps the form and breaks no rule of Piton, and
/// its names and labels resolve to the system by places.
pub fn generated_is_acceptable()
    ensures { GeneratedIsAcceptable }
{
    gypsy_predef::bodies_resolve();
}

/// The name that is written for a variable is the variable's own.
pub fn variables_keep_names()
    ensures { VariablesKeepNames }
{}

/// Micro-Gypsy runs on Piton, of the text: where the meaning of an accepted source is done, the system that its generated
/// text resolves to first halts with the same, after the counted steps and at the counted cost.
pub fn source_runs()
    ensures { SourceRuns }
{
    gypsy_predef::predefs_run();
    gypsy_predef::bodies_resolve();
}

/// Closed programs and sources, computed: their systems halt after these steps, at these costs, with these words; and the
/// lines of their texts, with labels and names, are these, as are their marks.
pub fn examples_compute()
    ensures runs { ExamplesEnd }
    ensures texts { TextsAre }
    ensures marks { MarksAre }
{}

//! Laws. The functions do nothing: their clauses hold of all sources, sizes, texts and systems.

ghost use Rattle.stack_build.specs.{Inside.{BuiltAtBase, BuiltRunsInside}, Joined.{GeneratedImageImplements, BuiltImplements, BuiltTakesValues}};
ghost use Rattle.stack_build.specs.{PlacedWords.{PlacedAreWords}, Meant.{KeptMeansOnly}, ReadMoments.{KeptMomentsAreSaid}};
ghost use Rattle.stack_build.specs.{StandsForPiton.{GeneratedImageStandsForPiton}, Traces.{GeneratedImageKeepsTraces}, SourceRuns.{SourceRunsTellMeaning}};
ghost use Rattle.stack_build.specs.SourceMoments.{MomentsAreRead, ShownMomentsAreRead};

/// The image of each accepted source, at sizes and a base within the limits, does what the source means: loaded with
/// any values that fit main's formals, where the meaning is done, the machine first comes to the final program counter
/// after exactly the counted instructions, and memory is read there as the meaning's values and condition.
pub fn images_implement()
    ensures { GeneratedImageImplements }
{
    gypsy_codegen::meaning_runs();
    gypsy_codegen::generated_is_acceptable();
}

/// The same of what is built of a text, at every moment too; and values that are read for its image fit main's formals.
pub fn builds_implement()
    ensures implements { BuiltImplements }
    ensures values { BuiltTakesValues }
{
    gypsy_codegen::meaning_runs();
    gypsy_codegen::moments_are_reached();
    gypsy_codegen::generated_is_acceptable();
}

/// Where a run of an image shows a state of the source's step machine at its mark, what is read there is that state: the
/// active procedure, the place of what comes next, the condition, and each variable. So it is with the memory of the
/// image's machine.
pub fn moments_are_read()
    ensures shown { ShownMomentsAreRead }
    ensures memory { MomentsAreRead }
{}

/// The registers and the words of each sound system that fits a window are numbers of 32 bits. So the file of an image that
/// has them is read again as that image.
pub fn placed_are_words()
    ensures { PlacedAreWords }
{}

/// The window of what is built of a text begins at the base, and each run of its image stays inside: on any values that fit main's
/// formals, no instruction before the first stand at the final program counter needs an address outside. So images whose windows
/// lie side by side in one memory leave each other's words alone.
pub fn builds_stay_inside()
    ensures base { BuiltAtBase }
    ensures inside { BuiltRunsInside }
{
    builds_implement();
}

/// What a run of an image that keeps to its source at every moment ends with is what the source means; no such run needs an address
/// outside the window; and where the meaning is done at no bound, none comes to an end.
pub fn runs_are_meant()
    ensures { KeptMeansOnly }
{}

/// What a run of the source in a text tells, on the values in a second text, is what the source means on them: the values and the
/// condition that its meaning is done with, after exactly the counted instructions, or that it isn't done within the budget. So a
/// program that calls `build` and then `run_on` of `display_maps` inherits the theorem.
pub fn source_runs_tell_meaning()
    ensures { SourceRunsTellMeaning }
{
    builds_implement();
    runs_are_meant();
}

/// After each number of steps of a source's step machine memory is read, by the image's own tables, as that state; and at the end as
/// the meaning.
pub fn images_say_moments()
    ensures { KeptMomentsAreSaid }
{}

/// At every step of Piton's machine, also between two moments of a source, the processor that is loaded with the source's image and
/// values stands for it, in the instructions that the steps cost.
pub fn images_stand_for_piton()
    ensures { GeneratedImageStandsForPiton }
{
    gypsy_codegen::generated_is_acceptable();
}

/// At every moment memory has all activations of the step machine, from the frame at r0 on: also those that wait, each with the variables
/// that it would get back now.
pub fn images_keep_traces()
    ensures { GeneratedImageKeepsTraces }
{
    gypsy_codegen::moments_have_frames();
    gypsy_codegen::generated_is_acceptable();
}

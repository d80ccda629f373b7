//! Laws of images. The functions do nothing: their clauses hold of all programs.

ghost use Rattle.std.specs.Prelude.{◌≡◌, ℕ, List, Ok};
ghost use Rattle.stack_text.specs.Values.{ValueOf};
ghost use Rattle.fm_image.specs.Image.{ImageOf};
ghost use Rattle.gypsy_syntax.specs.{GypsyReading.{gypsy_in}, Sources.{SourceOf}, Resolved.{program_of}};
ghost use Rattle.gypsy_space.specs.Needs.{StackSizes};
ghost use Rattle.gypsy_semantics.specs.Calls.{CurrentCondition};
ghost use Rattle.gypsy_logic.specs.{Counts.{MeansAfter, IsAfter}, Endless.{IsEndless}, Ends.{Means, Is}};
ghost use Rattle.stack_build.specs.{Build.{accepted_source}, Implements.{Implements, FitsFormals, meaning_shown}, ComesTo.{ComesTo}};
ghost use Rattle.stack_build.specs.StaysUnfinished.{StaysUnfinished};
ghost use Rattle.program_images.specs.Shows.{RunsOn, Shows};

/// Where the meaning of a source is done with these values and this condition, the memory of an image that implements the source
/// shows them.
pub fn means_are_shown()
    ensures { (image : ImageOf) (source : SourceOf) (sizes : StackSizes) (values finals : List ValueOf)
        (way : CurrentCondition) → Implements image source sizes → FitsFormals source values →
        Means (program_of source) sizes values (Is finals way) → Shows image values (meaning_shown source finals way) }
{}

/// Where the counted meaning of a source is done with these values, this condition and this number of instructions, the machine
/// that is loaded with an image that implements the source comes to its end after exactly so many, and memory shows them.
pub fn counts_are_shown()
    ensures { (image : ImageOf) (source : SourceOf) (sizes : StackSizes) (values finals : List ValueOf)
        (way : CurrentCondition) (count : ℕ) → Implements image source sizes → FitsFormals source values →
        MeansAfter (program_of source) sizes values (IsAfter finals way count) →
        ComesTo image values count (meaning_shown source finals way) }
{}

/// Where the meaning of a source is done within no bound, an image that is unfinished wherever the source never ends is
/// unfinished at every budget.
pub fn endless_runs_on()
    ensures { (image : ImageOf) (source : SourceOf) (sizes : StackSizes) (values : List ValueOf) →
        StaysUnfinished image source sizes → FitsFormals source values → IsEndless (program_of source) sizes values →
        RunsOn image values }
{}

/// A text that has the form of a source has no other one, where it breaks no rule.
pub fn text_has_one_source()
    ensures { (text : List ℕ) (s t : SourceOf) → gypsy_in text ≡ Ok s → accepted_source text ≡ Ok t → t ≡ s }
{}

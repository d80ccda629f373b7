//! Laws of runs of the step machine. The functions do nothing: their clauses hold of all programs.

ghost use Rattle.std.specs.Prelude.{ℕ, List, [], ◌∷◌};
ghost use Rattle.gypsy_syntax.specs.{Programs.{ConditionOf}, Sources.{SourceOf}};
ghost use Rattle.gypsy_space.specs.declared.need.Need.{Need};
ghost use Rattle.gypsy_semantics.specs.{Machine.{Item, Out}, Views.RunView.{IsOfRun, Seen, left_of, meaning_run}};
ghost use Rattle.gypsy_meaning.specs.{StackLaws.{CountsWaiting, GoesOnAsShown}, Views.Belongs.{BelongsTo, IsRunOf}, declared.running.Meaning.{Meaning}};

/// No step and no run changes the program, the sizes or the values with which a run was started; and what belongs to a
/// source is a run of its program, which fits it.
pub fn runs_keep_their_source()
    ensures step { (v : Seen) → IsOfRun v (left_of v) }
    ensures run { (limit : ℕ) (v : Seen) → IsOfRun v (meaning_run limit v).seen }
    ensures belongs { (s : SourceOf) (needs : List Need) (m : Meaning) → BelongsTo s needs m → IsRunOf s m }
{}

/// The activations that wait are shown as they go on. There is one for each but the active one. The active one ends or is
/// left by a condition: the first that was shown goes on with the variables that were shown of it, and the others wait as
/// they were shown.
pub fn activations_go_on_as_shown()
    ensures count { CountsWaiting }
    ensures ends { GoesOnAsShown [] }
    ensures leaves { (d : ConditionOf) (below : List Item) → GoesOnAsShown (Out d ∷ below) }
{}

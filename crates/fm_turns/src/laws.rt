//! The laws of tasks that take turns.

ghost use Rattle.fm_turns.specs.{Windows.{StepsAlike, RunsAlike}, Turns.{OverIsOver}, Alone.{AloneIsRun, AloneIsCounted, AloneIsLeast, AloneIsWhole}};
ghost use Rattle.fm_turns.specs.{Alone.{RoundsAsAlone}, Readings.{EachAsAlone}, EqualTurns.{RoundIsQuotient, EachEndsAsAlone}};

/// Each task that keeps to its own window is after any rounds as it is alone. The function does nothing: its clauses hold of
/// all tasks, turns and budgets.
pub fn each_as_alone()
    // A step inside a window is the same step in a wider one, and leaves all other words. So is a whole run.
    ensures steps { StepsAlike }
    ensures runs { RunsAlike }

    // Tasks that keep to their own windows come by any rounds to where each of them comes alone.
    ensures rounds { RoundsAsAlone }
    // So how each stands, its machine and its reading are those that it has alone.
    ensures alone { EachAsAlone }

    // What a task does alone is its run within the sum of the turns and the budget.
    ensures is_run { AloneIsRun }
    // Its machine is then the loaded machine after as many steps as the task has made,
    ensures counts { AloneIsCounted }
    // which are the least of the turns' sum, the budget, and the count at which it first comes to its final pc, if it does.
    ensures least { AloneIsLeast }
    ensures whole { AloneIsWhole }

    // A task that isn't running no longer changes.
    ensures over { OverIsOver }
{}

/// By turns of one length each task that keeps to its own window ends as it ends alone, and the round is its count divided by the
/// length, rounded up. The function does nothing: its clauses hold of all tasks, lengths and budgets.
pub fn each_ends_as_alone()
    ensures round { RoundIsQuotient }
    ensures ends { EachEndsAsAlone }
{}

//! Laws of statements. The functions do nothing: their clauses hold of all programs.

ghost use Rattle.std.specs.Prelude.{List};
ghost use Rattle.stack_text.specs.Values.{ValueOf};
ghost use Rattle.gypsy_syntax.specs.Programs.{Program, Stmt};
ghost use Rattle.gypsy_space.specs.Needs.{StackSizes};
ghost use Rattle.gypsy_semantics.specs.Calls.{CurrentCondition};
ghost use Rattle.gypsy_logic.specs.{Runs.{Runs}, Table.{FollowsTable}, CountedTable.{TakesCounts}, Written.{written, KeepsOthers}};

/// Statements do what the rows of the table of the language say.
pub fn statements_follow_table()
    ensures { (q : Program) (sizes : StackSizes) → FollowsTable q sizes }
{}

/// A statement changes no variable that it doesn't write.
pub fn statements_keep_others()
    ensures { (q : Program) (sizes u : StackSizes) (s : Stmt) (x y : List ValueOf) (c : CurrentCondition) →
        Runs q sizes u s x y c → KeepsOthers (written s) x y }
{}

/// Statements take as many instructions of the processor as the rows with their counts say.
pub fn statements_take_counts()
    ensures { (q : Program) (sizes : StackSizes) → TakesCounts q sizes }
{}

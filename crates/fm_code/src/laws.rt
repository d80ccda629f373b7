//! The laws of the code. These functions do nothing: their clauses hold of all machines.

ghost use Rattle.fm_code.specs.{Execution.{Parts, View}, CodeRows.{MoveRows, JumpRows, WordRows, TestRows}};

/// What the words of pushes, pops, fetches and deposits do.
pub fn move_rows()
    ensures { (P : Parts) (here : View) → MoveRows P here }
{}

/// What the words of jumps, tests, calls and returns do.
pub fn jump_rows()
    ensures { (P : Parts) (here : View) → JumpRows P here }
{}

/// What the words of operations on words do.
pub fn word_rows()
    ensures { (P : Parts) (here : View) → WordRows P here }
{}

/// What the conditions of the tests say.
pub fn test_rows()
    ensures { TestRows }
{}

//! The laws of quick code. The functions do nothing: their clauses hold of all machines.

ghost use Rattle.std.specs.Prelude.{ℕ};
ghost use Rattle.fm_code.specs.Execution.{Parts};
ghost use Rattle.quick_code.specs.{Moments.{Now}, PieceRows.{PieceRows}};

/// What each piece does, and in how many instructions.
pub fn piece_rows()
    ensures { (P : Parts) (table : ℕ → ℕ) (a : Now) → PieceRows P table a }
{}

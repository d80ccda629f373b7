//! Laws of the lowering. The functions do nothing: their clauses hold of all programs.

ghost use Rattle.std.specs.Prelude.{◌≡◌, ℕ, ◌≤◌, ◌^◌, List, length};
ghost use Rattle.gypsy_syntax.specs.{Resolved.{program_of}, Sources.{SourceOf}};
ghost use Rattle.mini_syntax.specs.{MiniReading.{IsFault, IsFaultless}, Grammar.{InfixProgram}, declared.program.Declared.{Declared}, Language.{Stmt}};
ghost use Rattle.mini_syntax.specs.Lawful.{IsLawful};
ghost use Rattle.mini_gypsy.specs.{Examples.{ProgramsDo}, Lowered.{lowered}, Promises.{Lowers, MeansSame}, Stored.{StandsFor, stored_text}};

/// The lowered source means what the program does, at every bound.
pub fn lowering_means_the_same()
    ensures { (ds : List Declared) (s : Stmt) → IsLawful ds s → MeansSame (program_of (lowered ds s)) s }
{}

/// A text that is lowered to a source is lowered to no other, and has no fault.
pub fn lowering_is_one()
    ensures source { (text : List ℕ) (s t : SourceOf) → Lowers text s → Lowers text t → s ≡ t }
    ensures either { (text : List ℕ) (rule place : ℕ) (s : SourceOf) → IsFault text rule place → Lowers text s → ⊥ }
{}

/// The text of the source that a program is lowered to is read again, as a source that breaks no static rule and means what
/// the program does.
pub fn stored_means_the_same()
    ensures { (text : List ℕ) (program : InfixProgram) → length text ≤ 2 ^ 20 → IsFaultless text program →
        StandsFor (stored_text program) program }
{}

/// Worked programs, computed: what they do.
pub fn examples_compute()
    ensures { ProgramsDo }
{}

//! Laws of certificates. The functions do nothing: their clauses hold of all programs.

ghost use Rattle.std.specs.{Prelude.{◌≡◌, ◌↔◌, ℕ, List, IsTrue}, Result.{MatchResult}};
ghost use Rattle.stack_text.specs.Values.{ValueOf};
ghost use Rattle.gypsy_syntax.specs.{ProgramFits.{ProgramFits}, Programs.{Program}};
ghost use Rattle.gypsy_space.specs.Needs.{StackSizes};
ghost use Rattle.gypsy_semantics.specs.Machine.{State, Next, gypsy_step, start};
ghost use Rattle.space_cert.specs.{Covers.{Bounds, Covers, IsAtMost, IsCertificate, sizes_for}, CoveredStates.{StateCovered}, Accepting.{is_covered}};
ghost use Rattle.space_cert.specs.{CertAgain.{CertificatesAreReadAgain}, Certified.{certified}, Larger.{CoveredRunsAreTheSame, LargerStacksChangeNothing}};
ghost use Rattle.space_cert.specs.{Least.{IsFirstRecursive, AreLeastBounds}, Never.{HasCallRoom, NeverSpaceError}, Reaches.{IsRecursive}};

/// Where a certificate covers a program at the sizes of the stacks, its start is covered, whatever the values are, each step
/// leads from a covered state to a covered state, and in a covered state a call on top has room. So `spaceerror` is never
/// raised in a run of a program that fits.
pub fn certificates_hold()
    ensures start { (q : Program) (bs : Bounds) (sizes : StackSizes) (v : List ValueOf) → Covers q bs sizes →
        StateCovered q bs sizes (start q v) }
    ensures step { (q : Program) (bs : Bounds) (sizes : StackSizes) (g h : State) → Covers q bs sizes →
        StateCovered q bs sizes g → gypsy_step q sizes g ≡ Next h → StateCovered q bs sizes h }
    ensures room { (q : Program) (bs : Bounds) (sizes : StackSizes) (g : State) → Covers q bs sizes →
        StateCovered q bs sizes g → HasCallRoom q sizes g }
    ensures never { (q : Program) (bs : Bounds) (sizes : StackSizes) (v : List ValueOf) → ProgramFits q →
        Covers q bs sizes → NeverSpaceError q sizes v }
{}

/// The least certificate covers its program at the sizes that it is enough for, and no certificate does at a smaller size of
/// either stack.
pub fn least_at_main()
    ensures covers { (q : Program) (bs : Bounds) → AreLeastBounds q bs → Covers q bs (sizes_for q bs) }
    ensures least { (q : Program) (bs ds : Bounds) (sizes : StackSizes) → AreLeastBounds q bs → Covers q ds sizes →
        IsAtMost (sizes_for q bs) sizes }
{}

/// Where main reaches a procedure that reaches itself, there is no certificate.
pub fn recursion_has_none()
    ensures { (q : Program) (p : ℕ) (bs : Bounds) → IsRecursive q p → ¬ IsCertificate q bs }
{}

/// The certificate that is computed is the least one, and where there is none, the procedure that is told is the first recursive
/// one. A certificate that is judged to cover a program does.
pub fn computed_as_defined()
    ensures certified { (q : Program) → ProgramFits q →
        MatchResult (certified q) (AreLeastBounds q) (IsFirstRecursive q) }
    ensures covered { (q : Program) (bs : Bounds) (sizes : StackSizes) → ProgramFits q →
        IsTrue (is_covered q bs sizes) ↔ Covers q bs sizes }
{}

/// Larger stacks change no run in which `spaceerror` is never raised: it is the same at every moment, and ends with the same after
/// the same costs. So all sizes from those that a certificate covers have one run.
pub fn larger_stacks_change_nothing()
    ensures never { LargerStacksChangeNothing }
    ensures covered { CoveredRunsAreTheSame }
{}

/// The text of a source's least certificate is read as that certificate again.
pub fn certificates_are_read_again()
    ensures { CertificatesAreReadAgain }
{}

//! Laws of the meaning and of the step machine. The functions do nothing: their clauses hold of all programs.

ghost use Rattle.std.specs.Prelude.{◌≡◌, ℕ, ◌≤◌, List};
ghost use Rattle.stack_text.specs.Values.{ValueOf};
ghost use Rattle.gypsy_syntax.specs.{Programs.{Program, Stmt, proc_at}, ProgramFits.{ProgramFits}, ValuesFit.{VarsFit}};
ghost use Rattle.gypsy_space.specs.Needs.{StackSizes, main_need};
ghost use Rattle.gypsy_semantics.specs.{Agree.{Agree}, Views.Moments.{IsMoment, moment_from}, Views.RunView.{after, lending, lending_move, opening}};
ghost use Rattle.gypsy_semantics.specs.{Counted.{counted_meaning, uncounted}, Machine.{State, start, gypsy_step}, Calls.{CurrentCondition}, Meaning.{Done}};
ghost use Rattle.gypsy_semantics.specs.{Meaning.{evaluate, meaning}, Kept.{StateFits, MoveFits}, Room.{StateRoom, MoveRoom}};

/// A statement that is done within a bound is done the same within each greater one, so it has one end.
pub fn statements_end_once()
    ensures longer { (q : Program) (sizes : StackSizes) (n m : ℕ) (s : Stmt) (u : StackSizes) (x y : List ValueOf)
        (c : CurrentCondition) → n ≤ m → evaluate q sizes n s u x ≡ Done y c → evaluate q sizes m s u x ≡ Done y c }
    ensures once { (q : Program) (sizes : StackSizes) (n m : ℕ) (s : Stmt) (u : StackSizes) (x y z : List ValueOf)
        (c d : CurrentCondition) → evaluate q sizes n s u x ≡ Done y c → evaluate q sizes m s u x ≡ Done z d →
        (y ≡ z) × (c ≡ d) }
{}

/// The step machine and the meaning agree, and count the same instructions and the same steps of Piton.
pub fn meanings_agree()
    ensures { (q : Program) (sizes : StackSizes) (v : List ValueOf) → Agree q sizes v }
{}

/// Counting changes no meaning.
pub fn counting_changes_nothing()
    ensures { (q : Program) (sizes : StackSizes) (v : List ValueOf) (n : ℕ) →
        uncounted (counted_meaning q sizes v n) ≡ meaning q sizes v n }
{}

/// A program that fits starts in a state that fits.
pub fn start_fits()
    ensures { (q : Program) (v : List ValueOf) → ProgramFits q → VarsFit (proc_at q q.main).formals v →
        StateFits q (start q v) }
{}

/// Each step of a program that fits leads from a state that fits to another, or to an end that fits.
pub fn steps_keep_fit()
    ensures { (q : Program) (sizes : StackSizes) (g : State) → ProgramFits q → StateFits q g →
        MoveFits q (gypsy_step q sizes g) }
{}

/// Where the sizes cover main's own needs, a program starts with room for its predefined calls, and each step keeps it.
pub fn steps_keep_room()
    ensures start { (q : Program) (sizes : StackSizes) (v : List ValueOf) →
        (main_need q).temp ≤ sizes.temp → (main_need q).ctrl ≤ sizes.ctrl → StateRoom q sizes (start q v) }
    ensures step { (q : Program) (sizes : StackSizes) (g : State) → StateRoom q sizes g →
        MoveRoom q sizes (gypsy_step q sizes g) }
{}

/// What those that wait have lent to their callees changes no step: `bare` leaves it out, and each step comes to the same.
pub fn lending_changes_no_step()
    ensures { (q : Program) (sizes : StackSizes) (g : State) →
        lending_move (gypsy_step q sizes (lending g)) ≡ lending_move (gypsy_step q sizes g) }
{}

/// What a run shows after so many steps is where the step machine then stands, and what is spent there: its state, in which
/// those that wait have what they would get back.
pub fn runs_show_moments()
    ensures { (q : Program) (sizes : StackSizes) (v : List ValueOf) (k : ℕ) →
        IsMoment (after k (opening q sizes v)) (moment_from q sizes v k) }
{}

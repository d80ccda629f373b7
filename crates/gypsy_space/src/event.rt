//! What costs instructions.

ghost use Rattle.std.specs.Prelude.{◌≡◌, ◌≤◌};
ghost use Rattle.gypsy_space.specs.Costs.{count_of};
ghost use Rattle.gypsy_space.specs.declared.event.CostEvent.TheVariants as event;

use gypsy_syntax::Predef;

/// How a predefined call ends.
#[derive(Clone, Copy, Debug, PartialEq, Eq)]
pub enum Outcome {
    /// The variable is written.
    Normal,
    /// The result doesn't fit 32 signed bits, or an index is negative.
    Fault,
    /// An index isn't below the array's length.
    Beyond,
}

/// A row of the table of costs.
#[derive(Clone, Copy, Debug)]
pub enum CostEvent {
    /// A `no-op` is taken off.
    NoOp,
    /// A `signal` is taken off, and its condition raised.
    Signal,
    /// A condition comes to the handler or the loop that stops it.
    Caught,
    /// A loop begins a round of its body.
    LoopRound,
    /// A body has ended normally, and its loop comes again.
    LoopBack,
    /// The variable of an `if` is true.
    IfTrue,
    /// The variable of an `if` is false.
    IfFalse,
    /// The first arm of an `if` has ended normally.
    JoinThen,
    /// The second arm of an `if`, or the arm of a `begin`, has ended normally.
    JoinOne,
    /// The body of a `begin` has ended normally.
    GuardNormal,
    /// A call without room on the temporary stack, where spaceerror is raised.
    LackTemporary,
    /// A call without room on the control stack alone, where spaceerror is raised.
    LackControl,
    /// A call with room of the procedure at this position.
    Call { callee: u32 },
    /// Main has ended normally.
    EndMain,
    /// Another procedure has ended normally.
    EndProc,
    /// A formal condition, or spaceerror, leaves a procedure.
    OutFormal,
    /// Another condition leaves a procedure.
    OutOther,
    /// A condition comes back from a call.
    ReturnRaised,
    /// A call of a predefined procedure, with how it ends.
    Predef { which: Predef, outcome: Outcome },
}

/// The instructions of a predefined call.
pub fn predef_count(which: Predef, outcome: Outcome) -> u64
    ensures count { result ≡ count_of (event.Predef which outcome) }
    ensures bounded { result ≤ 2599 }
{
    let cost = which.row().cost;
    match outcome {
        Outcome::Normal => cost.normal(),
        Outcome::Fault => cost.fault(),
        Outcome::Beyond => cost.beyond(),
    }
}

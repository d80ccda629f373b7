//! Lines that come one after the other.
ghost use Rattle.std.specs.Prelude.{◌≡◌, ◌≤◌, ℕ, List, length, Option, IfSome, IfOk, IsNone, IsErrOf};
ghost use Rattle.stack_shelf.specs.{Causes.{Rose}, Lines.{Comes, IsLine}};

use crate::LineFault;
use std::alloc::Global;

/// What gives lines, in order, to whoever asks for the next one.
///
/// A program that answers each line puts its answers in a sink, of the type `K`. A call is given that sink to look at, so clauses can say what
/// was put in it before the line was asked for.
pub trait Lines<K> {
    /// The text that is still to come, or `None` if it isn't known.
    ghost ahead: { Self → Option (List ℕ) };

    /// How often a call failed.
    ghost faults: { Self → ℕ };

    /// How often a line was over its limit.
    ghost overruns: { Self → ℕ };

    /// What it is after a call that was given this sink, and gave this line. So clauses of callers can say which lines came, and what was said
    /// before each of them.
    ghost came: { Self → K → List ℕ → Self };

    /// What it is after a call that was given this sink, and said that no line is left.
    ghost ended: { Self → K → Self };

    /// What it is after a call that was given this sink, and whose line was over its limit.
    ghost overran: { Self → K → Self };

    /// What it is after a call that was given this sink, and failed.
    ghost broke: { Self → K → Self };

    /// It may have no memory for a call.
    ghost may_refuse: { Type 0 };

    /// The next line, if it has at most `limit` bytes, and nothing if none is left. The line has its line feed; the last one may have none.
    ///
    /// # Errors
    ///
    /// `TooLong` only if the count of overruns rose; if the text is known, its first line has more than `limit` bytes. `Failed` only if
    /// the count of faults rose. `Memory` only if it may have none. What comes after a fault isn't said.
    fn next_line(
        &mut self,
        sink: &K,
        alloc: Global,
        limit: u64,
    ) -> Result<Option<Vec<u8>>, LineFault>
        ensures comes { Comes limit (ahead self.old) (ahead self.new) result }
        ensures line { IfOk result (λ next. IfSome next (λ line. IsLine line.items)) }
        ensures length { IfOk result (λ next. IfSome next (λ line. length line.items ≤ limit)) }
        ensures came { IfOk result (λ next. IfSome next (λ line. self.new ≡ came self.old sink.now line.items)) }
        ensures ended { IfOk result (λ next. IsNone next → self.new ≡ ended self.old sink.now) }
        ensures overran { IsErrOf result LineFault.TooLong → self.new ≡ overran self.old sink.now }
        ensures broke { IsErrOf result LineFault.Failed → self.new ≡ broke self.old sink.now }
        ensures refused { IsErrOf result LineFault.Memory → may_refuse }

        // The cause of each fault.
        ensures failed { IsErrOf result LineFault.Failed → Rose (faults self.old) (faults self.new) }
        ensures too_long { IsErrOf result LineFault.TooLong → Rose (overruns self.old) (overruns self.new) }
        ensures faults { faults self.old ≤ faults self.new }
        ensures overruns { overruns self.old ≤ overruns self.new };
}

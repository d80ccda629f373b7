//! Lines in memory.
ghost use Rattle.std.specs.Prelude.{◌≡◌, ◌≤◌, ◌++◌, length, IfOk, IfSome, IsErrOf, IsTrue};
ghost use Rattle.stack_shelf.specs.{InMemory.{fails_at, lines_after}, Lines.{Comes, IsFirstOf, IsLine}};

use crate::{LineFault, Lines};
use std::alloc::Global;
use std::marker::Model;

/// The lines of a text, which fail at the calls that `failing` numbers.
///
/// A counter, which starts at 0 and stops at `u64::MAX`, gives each call its number. A call fails if `failing` has its number, and never
/// otherwise. A call that fails, or whose line is over the limit, loses nothing of the text. A call that has a line to give may return out of
/// memory instead.
#[derive(Drop)]
pub struct MemoryLines {
    text: Vec<u8>,
    place: usize,
    failing: Vec<u64>,
    calls: u64,
    faults: u64,
    overruns: u64,
}

impl Model for MemoryLines {
    ghost use Rattle.std.specs.Prelude.{◌≤◌, drop, length};
    ghost use Rattle.stack_shelf.specs.InMemory.{MemoryLinesOf};

    ghost Value = { MemoryLinesOf };

    ghost view = { λ s. record {
      ahead = drop s.place s.text.items;
      failing = s.failing.items;
      calls = s.calls;
      faults = s.faults;
      overruns = s.overruns;
    } };

    ghost invariant = { λ s. s.place ≤ length s.text.items };
}

impl MemoryLines {
    /// The lines of a text, which fail at the calls whose numbers `failing` has. It takes no memory here.
    pub fn new(text: Vec<u8>, failing: Vec<u64>) -> MemoryLines
        ensures { result ≡ record {
          ahead = text.items;
          failing = failing.items;
          calls = 0;
          faults = 0;
          overruns = 0;
        } }
    {
        MemoryLines {
            text,
            place: 0,
            failing,
            calls: 0,
            faults: 0,
            overruns: 0,
        }
    }
}

/// Whether the call with this number is to fail.
fn fails_at(failing: &[u64], call: u64) -> bool
    ensures { result ≡ fails_at failing.now call }
{
    failing.iter().any(|number| *number == call)
}

/// The first line of a text, with its line feed, and the text behind it; what follows the last line feed is a line too.
fn first_line(text: &[u8]) -> (&[u8], &[u8])
    ensures whole { result.0.now ++ result.1.now ≡ text.now }
    ensures line { IsFirstOf result.0.now result.1.now }
{
    match text.iter().position(|byte| *byte == b'\n') {
        Some(end) => text.split_at(end + 1),
        None => text.split_at(text.len()),
    }
}

impl<K> Lines<K> for MemoryLines {
    ghost use Rattle.std.specs.Prelude.{Some};
    ghost use Rattle.stack_shelf.specs.InMemory.{line_call, line_fault, line_given_by, line_overrun};

    ghost ahead = { λ s. Some s.ahead };

    ghost faults = { λ s. s.faults };

    ghost overruns = { λ s. s.overruns };

    ghost came = { λ s _. line_given_by s };

    ghost ended = { λ s _. line_call s };

    ghost overran = { λ s _. line_overrun s };

    ghost broke = { λ s _. line_fault s };

    ghost may_refuse = { Unit {0} };

    fn next_line(&mut self, _: &K, alloc: Global, limit: u64) -> Result<Option<Vec<u8>>, LineFault>
        ensures comes { Comes limit (Some self.old.ahead) (Some self.new.ahead) result }
        ensures line { IfOk result (λ next. IfSome next (λ line. IsLine line.items)) }
        ensures length { IfOk result (λ next. IfSome next (λ line. length line.items ≤ limit)) }
        ensures faults { self.old.faults ≤ self.new.faults }
        ensures overruns { self.old.overruns ≤ self.new.overruns }

        // Exactly the calls that are to fail do.
        ensures succeeds { IsErrOf result LineFault.Failed → IsTrue (fails_at self.old.failing self.old.calls) }
        ensures fails { IsTrue (fails_at self.old.failing self.old.calls) → IsErrOf result LineFault.Failed }
        ensures after { self.new ≡ lines_after self.old result }
    {
        let fails = fails_at(&self.failing, self.calls);
        self.calls = self.calls.saturating_add(1);
        if fails {
            self.faults = self.faults.saturating_add(1);
            return Err(LineFault::Failed);
        }
        let (line, _behind) = first_line(&self.text[self.place..]);
        if line.is_empty() {
            return Ok(None);
        }
        if line.len() as u64 > limit {
            self.overruns = self.overruns.saturating_add(1);
            return Err(LineFault::TooLong);
        }
        let line = line.to_vec(alloc)?;
        self.place += line.len();
        Ok(Some(line))
    }
}

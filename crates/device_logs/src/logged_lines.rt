//! Lines that keep a log.
ghost use Rattle.std.specs.Prelude.{◌≡◌, ◌≤◌, ◌++◌, [], ◌∷◌, false, length, take};
ghost use Rattle.stack_heap.specs.Heaps.{OnOkUnless};
ghost use Rattle.device_logs.specs.Logged.{log_limit};

use crate::LoggedSink;
use crate::printed::{LOG_LIMIT, Printed};
use stack_heap::Heap;
use stack_shelf::{LineFault, Lines, Sink};
use std::alloc::{AllocError, Global};
use std::marker::Model;

/// Lines with the first 2^24 bytes of those that came, by the calls that went well, and with whether their end was seen. For each of the first
/// 2^24 lines it has how many bytes were in the log of the sink when the line was asked for: so the two logs show what was printed before.
///
/// It copies each line once. If its heap refuses that, a call returns out of memory, and that line is lost.
#[derive(Drop)]
pub struct LoggedLines<H: Heap, L: Drop> {
    heap: H,
    lines: L,
    came: Printed,
    printed_before: Vec<usize>,
    over: bool,
}

impl<H: Heap, L: Drop> Model for LoggedLines<H, L> {
    ghost use Rattle.std.specs.Prelude.{◌≤◌, length};
    ghost use Rattle.device_logs.specs.Logged.{LoggedLinesOf, log_limit};

    ghost Value = { LoggedLinesOf L };

    ghost view = { λ s. record {
      lines = s.lines;
      came = s.came;
      printed_before = s.printed_before.items;
      over = s.over;
    } };

    ghost invariant = { λ s. length s.printed_before.items ≤ log_limit };
}

impl<H: Heap, L: Drop> LoggedLines<H, L> {
    /// Lines with an empty log.
    pub fn new(heap: H, lines: L) -> LoggedLines<H, L>
        ensures { result ≡ record { lines = lines; came = []; printed_before = []; over = false } }
    {
        LoggedLines {
            heap,
            lines,
            came: Printed::new(heap.handle()),
            printed_before: Vec::new(heap.handle()),
            over: false,
        }
    }

    /// The bytes of the lines that came, from the first on, and no more than 2^24, in two pieces.
    pub fn came(&self) -> (&[u8], &[u8])
        ensures { result.0.now ++ result.1.now ≡ self.now.came }
    {
        self.came.pieces()
    }

    /// How many bytes were in the log of the sink when each line was asked for, from the first on, and no more than 2^24 numbers.
    pub fn printed_before(&self) -> &[usize]
        ensures { result.now ≡ self.now.printed_before }
    {
        &self.printed_before
    }
}

/// Notes a number behind the others, unless there are 2^24 of them.
fn note_count<H: Heap>(heap: H, counts: &mut Vec<usize>, count: usize) -> Result<(), AllocError>
    requires { length counts.old.items ≤ log_limit }
    ensures noted { OnOkUnless (H.may_refuse heap) result
        (counts.new.items ≡ take log_limit (counts.old.items ++ count ∷ [])) }
    ensures within { length counts.new.items ≤ log_limit }
{
    if counts.len() < LOG_LIMIT {
        heap.push(counts, count)?;
    }
    Ok(())
}

impl<H: Heap, K: Sink + Drop, L: Lines<K> + Drop> Lines<LoggedSink<H, K>> for LoggedLines<H, L> {
    ghost use Rattle.device_logs.specs.Logged.{logged_broke, logged_came, logged_ended, logged_overran, may_refuse_logged};

    ghost ahead = { λ s. L.ahead s.lines };

    ghost faults = { λ s. L.faults s.lines };

    ghost overruns = { λ s. L.overruns s.lines };

    ghost came = { logged_came L.came };

    ghost ended = { logged_ended L.ended };

    ghost overran = { logged_overran L.overran };

    ghost broke = { logged_broke L.broke };

    ghost may_refuse = { may_refuse_logged (λ heap. H.may_refuse heap) L.may_refuse };

    fn next_line(
        &mut self,
        sink: &LoggedSink<H, K>,
        alloc: Global,
        limit: u64,
    ) -> Result<Option<Vec<u8>>, LineFault> {
        match self.lines.next_line(sink.sink(), alloc, limit)? {
            Some(line) => {
                note_count(self.heap, &mut self.printed_before, sink.count())?;
                self.came.note(self.heap, line.as_slice())?;
                Ok(Some(line))
            }
            None => {
                self.over = true;
                Ok(None)
            }
        }
    }
}

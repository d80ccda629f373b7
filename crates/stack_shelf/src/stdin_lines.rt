//! Lines of standard input.
ghost use Rattle.std.specs.Prelude.{◌≡◌, ◌≤◌, IfOk, IfSome, false, length};
ghost use Rattle.stack_shelf.specs.{Lines.{IsLine}, System.{input_after}};

use crate::line_reading::line_from;
use crate::{LineFault, Lines};
use std::alloc::Global;
use std::io;
use std::io::{BufReader, Read};
use std::marker::Model;

/// The lines of standard input, or of another stream, as they come.
///
/// It reads as much as there is, up to its buffer, and waits only if no line is there yet. What a terminal sends at its end of file is a line,
/// also without a line feed. After the end no more is read, even if a terminal would go on. Contracts say nothing of the text. It counts
/// its failures and the lines over a limit, up to `u64::MAX`.
#[derive(Drop)]
pub struct StdinLines<R: Read + Drop> {
    reader: BufReader<R>,
    over: bool,
    faults: u64,
    overruns: u64,
}

impl<R: Read + Drop> Model for StdinLines<R> {
    ghost use Rattle.stack_shelf.specs.System.{StdinLinesOf};

    ghost Value = { StdinLinesOf };

    ghost view = { λ s. record { over = s.over; faults = s.faults; overruns = s.overruns } };
}

impl<R: Read + Drop> StdinLines<R> {
    /// The lines of a stream, of which nothing was read yet. It takes memory for a buffer.
    pub fn new(alloc: Global, stream: R) -> io::Result<StdinLines<R>>
        ensures { IfOk result (λ lines. lines ≡ record { over = false; faults = 0; overruns = 0 }) }
    {
        let reader = BufReader::new(alloc, stream)?;
        Ok(StdinLines {
            reader,
            over: false,
            faults: 0,
            overruns: 0,
        })
    }
}

impl<R: Read + Drop, K> Lines<K> for StdinLines<R> {
    ghost use Rattle.std.specs.Prelude.{None};
    ghost use Rattle.stack_shelf.specs.System.{input_fault, input_over, input_overrun};

    ghost ahead = { λ _. None };

    ghost faults = { λ s. s.faults };

    ghost overruns = { λ s. s.overruns };

    ghost came = { λ s _ _. s };

    ghost ended = { λ s _. input_over s };

    ghost overran = { λ s _. input_overrun s };

    ghost broke = { λ s _. input_fault s };

    ghost may_refuse = { Unit {0} };

    fn next_line(&mut self, _: &K, alloc: Global, limit: u64) -> Result<Option<Vec<u8>>, LineFault>
        ensures line { IfOk result (λ next. IfSome next (λ line. IsLine line.items)) }
        ensures length { IfOk result (λ next. IfSome next (λ line. length line.items ≤ limit)) }
        ensures faults { self.old.faults ≤ self.new.faults }
        ensures overruns { self.old.overruns ≤ self.new.overruns }
        ensures after { self.new ≡ input_after self.old result }
    {
        if self.over {
            return Ok(None);
        }
        let next = line_from(alloc, &mut self.reader, limit);
        match &next {
            Ok(None) => self.over = true,
            Err(LineFault::TooLong) => self.overruns = self.overruns.saturating_add(1),
            Err(LineFault::Failed) => self.faults = self.faults.saturating_add(1),
            Ok(Some(_)) | Err(LineFault::Memory) => {}
        }
        next
    }
}

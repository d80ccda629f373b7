//! Lines that take no memory before one is asked for.
ghost use Rattle.std.specs.Prelude.{◌≡◌, ◌≤◌, IfOk, IfSome, false, length};
ghost use Rattle.stack_shelf.specs.{Causes.{saturating_increment}, Lines.{IsLine}, System.{input_after}};
ghost use Rattle.cli_stack.specs.Late.{late_lines};

use stack_shelf::{LineFault, Lines, StdinLines};
use std::alloc::Global;
use std::io::{ErrorKind, Read};
use std::marker::Model;
use std::mem;

/// A stream before a line of it is asked for, and after.
#[derive(Drop)]
enum Opened<R: Read + Drop> {
    /// No line was asked for.
    No(R),
    /// There was memory when the first one was.
    Yes(StdinLines<R>),
    /// It could not be opened, and is lost. So many calls have failed for that.
    Lost(u64),
}

/// The lines of a stream, which take memory when the first one is asked for.
#[derive(Drop)]
pub struct LateLines<R: Read + Drop> {
    opened: Opened<R>,
}

impl<R: Read + Drop> Model for LateLines<R> {
    ghost use Rattle.stack_shelf.specs.System.{StdinLinesOf};
    ghost use Rattle.cli_stack.specs.Late.{late_lines};

    ghost Value = { StdinLinesOf };

    ghost view = { λ s. late_lines s.opened };
}

impl<R: Read + Drop> LateLines<R> {
    /// The lines of a stream, of which nothing was read yet. It takes no memory.
    pub fn new(stream: R) -> LateLines<R>
        ensures { result ≡ record { over = false; faults = 0; overruns = 0 } }
    {
        LateLines {
            opened: Opened::No(stream),
        }
    }

    /// A call that fails because the stream is lost, behind so many others.
    fn fail(&mut self, before: u64) -> LineFault
        ensures lost { self.new ≡ record { over = false; faults = saturating_increment before; overruns = 0 } }
        ensures failed { result ≡ LineFault.Failed }
    {
        self.opened = Opened::Lost(before.saturating_add(1));
        LineFault::Failed
    }
}

impl<R: Read + Drop, K> Lines<K> for LateLines<R> {
    ghost use Rattle.std.specs.Prelude.{None};
    ghost use Rattle.stack_shelf.specs.System.{input_fault, input_over, input_overrun};

    ghost ahead = { λ _. None };

    ghost faults = { λ s. s.faults };

    ghost overruns = { λ s. s.overruns };

    ghost came = { λ s _ _. s };

    ghost ended = { λ s _. input_over s };

    ghost overran = { λ s _. input_overrun s };

    ghost broke = { λ s _. input_fault s };

    ghost may_refuse = { Unit {0} };

    fn next_line(
        &mut self,
        sink: &K,
        alloc: Global,
        limit: u64,
    ) -> Result<Option<Vec<u8>>, LineFault>
        ensures line { IfOk result (λ next. IfSome next (λ line. IsLine line.items)) }
        ensures length { IfOk result (λ next. IfSome next (λ line. length line.items ≤ limit)) }
        ensures faults { self.old.faults ≤ self.new.faults }
        ensures overruns { self.old.overruns ≤ self.new.overruns }
        ensures after { self.new ≡ input_after self.old result }
    {
        let mut lines = match mem::replace(&mut self.opened, Opened::Lost(0)) {
            Opened::No(stream) => match StdinLines::new(alloc, stream) {
                Ok(lines) => lines,
                Err(e) if e.kind() == ErrorKind::OutOfMemory => return Err(LineFault::Memory),
                Err(_) => return Err(self.fail(0)),
            },
            Opened::Yes(lines) => lines,
            Opened::Lost(before) => return Err(self.fail(before)),
        };
        let next = lines.next_line(sink, alloc, limit);
        self.opened = Opened::Yes(lines);
        next
    }
}

//! A sink over standard output.
ghost use Rattle.std.specs.Prelude.{◌≡◌, ◌≤◌, IsErrOf};
ghost use Rattle.stack_shelf.specs.System.{faults_after_put};

use crate::streams::put_into;
use crate::{PutFault, Sink};
use std::io;
use std::marker::Model;

/// Standard output, with nothing kept back: what `put` took has been written.
///
/// Contracts say nothing of what it has taken. It counts its failures, up to `u64::MAX`, and takes no
/// memory. Writes that were interrupted are tried again.
#[derive(Drop)]
pub struct StdoutSink<P: Print + Drop> {
    rt: P,
    faults: u64,
}

impl<P: Print + Drop> Model for StdoutSink<P> {
    ghost use Rattle.std.specs.Prelude.{ℕ};

    ghost Value = { ℕ };

    ghost view = { λ s. s.faults };
}

impl<P: Print + Drop> StdoutSink<P> {
    /// A sink that hasn't failed yet.
    pub fn new(rt: P) -> StdoutSink<P>
        ensures { result ≡ 0 }
    {
        StdoutSink { rt, faults: 0 }
    }
}

impl<P: Print + Drop> Sink for StdoutSink<P> {
    ghost use Rattle.std.specs.Prelude.{None};

    ghost taken = { λ _. None };

    ghost faults = { λ s. s };

    ghost took = { λ s _. s };

    ghost may_refuse = { ⊥ };

    fn put(&mut self, bytes: &[u8]) -> Result<(), PutFault>
        ensures faults { self.old ≤ self.new }
        ensures after { self.new ≡ faults_after_put self.old result }
        ensures memory { ¬ IsErrOf result PutFault.Memory }
    {
        let put = put_into(&mut io::writer(&self.rt), bytes);
        if put.is_err() {
            self.faults = self.faults.saturating_add(1);
        }
        put
    }
}

//! A sink that keeps a log.
ghost use Rattle.std.specs.Prelude.{◌≡◌, ◌++◌, [], length};

use crate::printed::Printed;
use stack_heap::Heap;
use stack_shelf::{PutFault, Sink};
use std::marker::Model;
use std::rc::Rc;

/// A sink with the first 2^24 of the bytes that it took, by the calls that went well.
///
/// Of a text that was offered to it, and is then taken, it keeps the text. It copies each other byte once. If its heap refuses that,
/// a call returns out of memory.
#[derive(Drop)]
pub struct LoggedSink<H: Heap, K: Sink + Drop> {
    heap: H,
    sink: K,
    printed: Printed,
}

impl<H: Heap, K: Sink + Drop> Model for LoggedSink<H, K> {
    ghost use Rattle.device_logs.specs.Logged.{LoggedSinkOf};

    ghost Value = { LoggedSinkOf K };

    ghost view = { λ s. record { sink = s.sink; printed = s.printed } };
}

impl<H: Heap, K: Sink + Drop> LoggedSink<H, K> {
    /// A sink with an empty log.
    pub fn new(heap: H, sink: K) -> LoggedSink<H, K>
        ensures { result ≡ record { sink = sink; printed = [] } }
    {
        LoggedSink {
            heap,
            sink,
            printed: Printed::new(heap.handle()),
        }
    }

    /// The bytes that it took, from the first on, and no more than 2^24, in two pieces.
    pub fn printed(&self) -> (&[u8], &[u8])
        ensures { result.0.now ++ result.1.now ≡ self.now.printed }
    {
        self.printed.pieces()
    }

    /// The sink without its log.
    pub(crate) fn sink(&self) -> &K
        ensures { result.now ≡ self.now.sink }
    {
        &self.sink
    }

    /// How many bytes its log has.
    pub(crate) fn count(&self) -> usize
        ensures { result ≡ length self.now.printed }
    {
        self.printed.len()
    }
}

impl<H: Heap, K: Sink + Drop> Sink for LoggedSink<H, K> {
    ghost use Rattle.device_logs.specs.Logged.{logged_took, may_refuse_logged};

    ghost taken = { λ s. K.taken s.sink };

    ghost faults = { λ s. K.faults s.sink };

    ghost took = { logged_took K.took };

    ghost may_refuse = { may_refuse_logged (λ heap. H.may_refuse heap) K.may_refuse };

    fn put(&mut self, bytes: &[u8]) -> Result<(), PutFault> {
        let before = self.printed.len();
        self.printed.note(self.heap, bytes)?;
        let put = self.sink.put(bytes);
        if put.is_err() {
            self.printed.truncate(before);
        }
        put
    }

    fn offer(&mut self, text: &Rc<Vec<u8>>) {
        self.printed.offer(self.heap, text);
    }
}

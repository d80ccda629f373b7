//! A shelf that keeps a log.
ghost use Rattle.std.specs.Prelude.{◌≡◌, ◌+◌, ◌≤◌, [], ◌∷◌, ◌++◌, IfOk, string_bytes, vec_capacity, vec_len};
ghost use Rattle.stack_heap.specs.Heaps.{IfOkUnless, OnOkUnless};
ghost use Rattle.stack_shelf.specs.InMemory.{shown};
ghost use Rattle.device_logs.specs.Logged.{given};

use stack_heap::Heap;
use stack_shelf::{FetchFault, Shelf, StoreFault};
use std::alloc::{AllocError, Global};
use std::marker::Model;
use std::rc::Rc;

/// A shelf with the files that it gave and those that it got, each list in the order of the calls that went well.
///
/// It copies each name. Of a file that is fetched to be shared it is an owner, and it keeps the bytes that are handed over to be stored; by
/// the other two calls it copies each file once. If its heap refuses that, a call returns out of memory.
#[derive(Drop)]
pub struct LoggedShelf<H: Heap, S: Shelf + Drop> {
    heap: H,
    shelf: S,
    fetched: Vec<(String, Rc<Vec<u8>>)>,
    stored: Vec<(String, Vec<u8>)>,
}

impl<H: Heap, S: Shelf + Drop> Model for LoggedShelf<H, S> {
    ghost use Rattle.stack_shelf.specs.InMemory.{shown};
    ghost use Rattle.device_logs.specs.Logged.{LoggedShelfOf, given};

    ghost Value = { LoggedShelfOf S };

    ghost view = { λ s. record { shelf = s.shelf; fetched = given s.fetched.items; stored = shown s.stored.items } };
}

impl<H: Heap, S: Shelf + Drop> LoggedShelf<H, S> {
    /// A shelf with empty logs.
    pub fn new(heap: H, shelf: S) -> LoggedShelf<H, S>
        ensures { result ≡ record { shelf = shelf; fetched = []; stored = [] } }
    {
        LoggedShelf {
            heap,
            shelf,
            fetched: Vec::new(heap.handle()),
            stored: Vec::new(heap.handle()),
        }
    }

    /// The files that it gave, with their names, in the order of the fetches.
    pub fn fetched(&self) -> &[(String, Rc<Vec<u8>>)]
        ensures { given result.now ≡ self.now.fetched }
    {
        &self.fetched
    }

    /// The files that it got, with their names, in the order of the stores.
    pub fn stored(&self) -> &[(String, Vec<u8>)]
        ensures { shown result.now ≡ self.now.stored }
    {
        &self.stored
    }
}

/// Notes a file that was given.
fn note<H: Heap>(
    heap: H,
    log: &mut Vec<(String, Rc<Vec<u8>>)>,
    name: &str,
    bytes: Rc<Vec<u8>>,
) -> Result<(), AllocError>
    ensures { OnOkUnless (H.may_refuse heap) result
        (given log.new.items ≡ given log.old.items ++ (name.now, bytes.value.items) ∷ []) }
{
    let name = heap.text(name)?;
    heap.push(log, (name, bytes))?;
    Ok(())
}

/// A name for the log, which has room for one file more.
fn begin_note<H: Heap>(
    heap: H,
    log: &mut Vec<(String, Vec<u8>)>,
    name: &str,
) -> Result<String, AllocError>
    ensures name { IfOkUnless (H.may_refuse heap) result (λ noted. string_bytes noted ≡ name.now) }
    ensures items { log.new.items ≡ log.old.items }
    ensures room { IfOk result (λ _. vec_len log.new + 1 ≤ vec_capacity log.new) }
{
    let noted = heap.text(name)?;
    heap.reserve(log, 1)?;
    Ok(noted)
}

/// Notes a file that was stored, in a log that has room for it.
fn end_note(log: &mut Vec<(String, Vec<u8>)>, name: String, bytes: Vec<u8>)
    requires { vec_len log.old + 1 ≤ vec_capacity log.old }
    ensures { shown log.new.items ≡ shown log.old.items ++ (string_bytes name, bytes.items) ∷ [] }
{
    match log.push((name, bytes)) {
        Ok(()) => {}
        Err(_) => unreachable!(),
    }
}

impl<H: Heap, S: Shelf + Drop> Shelf for LoggedShelf<H, S> {
    ghost use Rattle.device_logs.specs.Logged.{logged_gave, logged_got, may_refuse_logged};

    ghost files = { λ s. S.files s.shelf };

    ghost counts = { λ s. S.counts s.shelf };

    ghost gave = { logged_gave S.gave };

    ghost got = { logged_got S.got };

    ghost may_refuse = { may_refuse_logged (λ heap. H.may_refuse heap) S.may_refuse };

    fn fetch(&mut self, alloc: Global, name: &str, limit: u64) -> Result<Vec<u8>, FetchFault> {
        let bytes = self.shelf.fetch(alloc, name, limit)?;
        let copy = self.heap.copied(bytes.as_slice())?;
        let copy = self.heap.shared(copy)?;
        note(self.heap, &mut self.fetched, name, copy)?;
        Ok(bytes)
    }

    fn fetch_shared<G: Heap>(
        &mut self,
        heap: G,
        name: &str,
        limit: u64,
    ) -> Result<Rc<Vec<u8>>, FetchFault> {
        let bytes = self.shelf.fetch_shared(heap, name, limit)?;
        let kept = self.heap.shared_again(&bytes)?;
        note(self.heap, &mut self.fetched, name, kept)?;
        Ok(bytes)
    }

    fn store(&mut self, name: &str, bytes: &[u8]) -> Result<(), StoreFault> {
        let noted = begin_note(self.heap, &mut self.stored, name)?;
        let copy = self.heap.copied(bytes)?;
        self.shelf.store(name, bytes)?;
        end_note(&mut self.stored, noted, copy);
        Ok(())
    }

    fn store_owned(&mut self, name: &str, bytes: Vec<u8>) -> Result<(), StoreFault> {
        let noted = begin_note(self.heap, &mut self.stored, name)?;
        self.shelf.store(name, bytes.as_slice())?;
        end_note(&mut self.stored, noted, bytes);
        Ok(())
    }
}

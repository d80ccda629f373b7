//! The shelf and the sink in memory, which fail at the calls that are named.

use stack_shelf::{FetchFault, MemoryShelf, MemorySink, PutFault, Shelf, Sink, StoreFault};
use std::alloc::Global;
use std::test::Fail;

/// The faults of two stores, with a fetch after each, in the order of the calls.
type ShelfFaults = (
    Option<StoreFault>,
    Option<FetchFault>,
    Option<StoreFault>,
    Option<FetchFault>,
);

fn shelf_faults(alloc: Global, shelf: &mut MemoryShelf) -> ShelfFaults {
    let stored = shelf.store("a", b"one").err();
    let fetched = shelf.fetch(alloc, "a", 9).err();
    let stored_again = shelf.store("a", b"four").err();
    let fetched_again = shelf.fetch(alloc, "a", 9).err();
    (stored, fetched, stored_again, fetched_again)
}

/// Whether there is one file, with these bytes.
fn is_only_file(shelf: &MemoryShelf, bytes: &[u8]) -> bool {
    match shelf.files() {
        [file] => file.1.as_slice() == bytes,
        _ => false,
    }
}

/// Whether, where the second store fails and keeps two bytes, that alone is a fault, and they are what is there.
fn fails_at_its_call(alloc: Global) -> Result<bool, Fail> {
    let failing = vec![in alloc; (2, 2)]?;
    let mut shelf = MemoryShelf::new(alloc, Vec::new(alloc), failing);
    let faults = shelf_faults(alloc, &mut shelf);
    Ok(faults == (None, None, Some(StoreFault::Failed), None) && is_only_file(&shelf, b"fo"))
}

#[test]
fn a_shelf_in_memory_fails_at_the_call_that_is_named(rt: HostRuntime) -> Result<(), Fail> {
    assert!(rt; fails_at_its_call(rt.alloc())?);
    Ok(())
}

/// The faults of two calls.
fn sink_faults(sink: &mut MemorySink) -> (Option<PutFault>, Option<PutFault>) {
    (sink.put(b"one").err(), sink.put(b"four").err())
}

/// Whether, where the second call fails and takes two bytes, that alone is a fault, and they are what was taken of it.
fn takes_part_of_its_call(alloc: Global) -> Result<bool, Fail> {
    let mut sink = MemorySink::new(alloc, vec![in alloc; (1, 2)]?);
    let faults = sink_faults(&mut sink);
    Ok(faults == (None, Some(PutFault::Failed)) && sink.bytes() == b"onefo".as_slice())
}

#[test]
fn a_sink_in_memory_fails_at_the_call_that_is_named(rt: HostRuntime) -> Result<(), Fail> {
    assert!(rt; takes_part_of_its_call(rt.alloc())?);
    Ok(())
}

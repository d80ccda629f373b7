//! A table of names.

ghost use Rattle.std.specs.{Prelude.{◌≡◌, ℕ, List, [], length, OnOk, OnErr, is_some}, Str.{bytes_eq}};
ghost use Rattle.stack_heap.specs.Heaps.{IfOkUnless, IsSmallItem, FitsBound};
ghost use Rattle.stack_text.specs.Options.{first_or};
ghost use Rattle.name_tables.specs.Entries.{entries_now, look_up, with_entry};

use crate::kept::KeptValues;
use crate::name_key::NameKey;
use crate::name_keys::NameKeys;
use indexmap::IndexMap;
use stack_heap::BoundedHeap;
use stack_text::Memory;
use std::alloc::Global;
use std::marker::Model;

/// Among so few names one is sought one by one, which takes less than its hash.
const FEW: usize = 8;

/// The value of a name's first entry, which is sought one by one.
fn first_of<'a, V: Copy>(values: &KeptValues<'a, V>, name: &[u8]) -> Option<V>
    ensures { result ≡ look_up (entries_now values.now.map.entries) name.now }
{
    for entry in values.map.iter() {
        let (key, value) = entry;
        if name == key.bytes {
            return Some(*value);
        }
    }
    None
}

/// The value with which each name was entered first.
///
/// A name is found, and entered, in time proportional to its length. Contracts see the names with their values.
#[derive(Drop)]
pub struct NameTable<'a, V> {
    values: KeptValues<'a, V>,
}

impl<'a, V> Model for NameTable<'a, V> {
    ghost use Rattle.name_tables.specs.Entries.{Entries, entries_now};

    ghost Value = { Entries V };

    ghost view = { λ t. entries_now t.values.map.entries };
}

impl<'a, V> NameTable<'a, V> {
    /// A table without names, which takes no memory until the first is entered.
    pub fn new(alloc: Global) -> NameTable<'a, V>
        ensures { result ≡ [] }
    {
        NameTable::keyed(alloc, NameKeys::new())
    }

    /// The same by a key that took in the names which are going to be entered: for names without a bound on how many.
    pub fn keyed(alloc: Global, keys: NameKeys) -> NameTable<'a, V>
        ensures { result ≡ [] }
    {
        NameTable {
            values: KeptValues {
                map: IndexMap::with_hasher(alloc, keys),
            },
        }
    }
}

impl<'a, V: Copy> NameTable<'a, V> {
    /// The value with which a name was entered first, or `None` for a name that wasn't entered.
    pub fn get(&self, name: &[u8]) -> Option<V>
        ensures { result ≡ look_up self.now name.now }
    {
        if self.values.map.len() > FEW {
            return self.values.map.get(NameKey { bytes: name }).copied();
        }
        first_of(&self.values, name)
    }

    /// Enters a name with its value, unless the name has one; says whether it had.
    ///
    /// # Errors
    ///
    /// `Memory` where the heap refuses it for a new name; the table is then as it was.
    pub fn enter<H: BoundedHeap>(
        &mut self,
        heap: H,
        name: &'a [u8],
        value: V,
    ) -> Result<bool, Memory>
        requires short { FitsBound (H.bound heap) (length self.old) }
        requires small { IsSmallItem V.row }
        ensures known { IfOkUnless (H.may_refuse heap) result
            (λ is_known. is_known ≡ is_some (look_up self.old name.now)) }
        ensures entered { OnOk result ((other : List ℕ) →
            look_up self.new other ≡ first_or (look_up self.old other) (bytes_eq other name.now) value) }
        ensures entries { OnOk result (self.new ≡ with_entry self.old name.now value) }
        ensures stays { OnErr result (self.new ≡ self.old) }
    {
        self.values.enter(heap, name, value)
    }
}

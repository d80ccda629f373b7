//! A list of names, each once.

ghost use Rattle.std.specs.Prelude.{◌≡◌, [], length, not, OnOk, OnErr};
ghost use Rattle.stack_heap.specs.Heaps.{IfOkUnless, FitsBound};
ghost use Rattle.stack_text.specs.Names.{is_among, place_among};
ghost use Rattle.name_tables.specs.Lists.{with_name};

use crate::kept::KeptValues;
use crate::name_key::NameKey;
use crate::name_keys::NameKeys;
use indexmap::IndexMap;
use stack_heap::BoundedHeap;
use stack_text::Memory;
use std::alloc::Global;
use std::marker::Model;

/// Names in the order in which they were entered, each once.
///
/// A name is found, and entered, in time proportional to its length. Contracts see the names.
#[derive(Drop)]
pub struct NameList<'a> {
    names: KeptValues<'a, ()>,
}

impl<'a> Model for NameList<'a> {
    ghost use Rattle.std.specs.{Prelude.{ℕ, List}, Map.{keys_of}};
    ghost use Rattle.name_tables.specs.Entries.{entries_now};

    ghost Value = { List (List ℕ) };

    ghost view = { λ l. keys_of (entries_now l.names.map.entries) };
}

impl<'a> NameList<'a> {
    /// A list without names, which takes no memory until the first is entered.
    pub fn new(alloc: Global) -> NameList<'a>
        ensures { result ≡ [] }
    {
        NameList {
            names: KeptValues {
                map: IndexMap::with_hasher(alloc, NameKeys::new()),
            },
        }
    }

    /// How many names there are.
    pub fn len(&self) -> usize
        ensures { result ≡ length self.now }
    {
        self.names.map.len()
    }

    /// The place of a name, from 0, or `None` for a name that wasn't entered.
    pub fn place(&self, name: &[u8]) -> Option<usize>
        ensures { result ≡ place_among name.now self.now }
    {
        self.names.map.get_index_of(NameKey { bytes: name })
    }

    /// Whether a name was entered.
    pub fn contains(&self, name: &[u8]) -> bool
        ensures { result ≡ is_among name.now self.now }
    {
        self.names.map.contains_key(NameKey { bytes: name })
    }

    /// Enters a name behind the others, unless it is there; says whether it is new.
    ///
    /// # Errors
    ///
    /// `Memory` where the heap refuses it; the list is then as it was.
    pub fn enter<H: BoundedHeap>(&mut self, heap: H, name: &'a [u8]) -> Result<bool, Memory>
        requires { FitsBound (H.bound heap) (length self.old) }
        ensures new { IfOkUnless (H.may_refuse heap) result (λ is_new. is_new ≡ not (is_among name.now self.old)) }
        ensures names { OnOk result (self.new ≡ with_name self.old name.now) }
        ensures stays { OnErr result (self.new ≡ self.old) }
    {
        let is_known = self.names.enter(heap, name, ())?;
        Ok(!is_known)
    }
}

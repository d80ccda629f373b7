//! The table of `indexmap` that this crate keeps names in. No other crate names it.

ghost use Rattle.std.specs.Prelude.{◌≡◌, length, OnOk, OnErr, is_some};
ghost use Rattle.stack_heap.specs.Heaps.{IfOkUnless, FitsBound};
ghost use Rattle.name_tables.specs.Entries.{entries_now, look_up, with_entry};

use crate::name_key::NameKey;
use crate::name_keys::NameKeys;
use indexmap::IndexMap;
use stack_heap::{BoundedHeap, HasRoom};
use stack_text::Memory;
use std::alloc::AllocError;

/// Values by their names, in the order in which these were entered.
#[derive(Drop)]
pub(crate) struct KeptValues<'a, V> {
    pub map: IndexMap<NameKey<'a>, V, NameKeys>,
}

impl<'a, V> HasRoom for KeptValues<'a, V> {
    ghost use Rattle.std.specs.Prelude.{◌≡◌, length};
    ghost use Rattle.indexmap.specs.IndexMap.{spare};

    ghost size = { λ v. length v.map.entries };

    ghost room = { λ v. spare v.map };

    ghost has_same = { λ old new. new.map.entries ≡ old.map.entries };

    fn make_room(&mut self, more: usize) -> Result<(), AllocError> {
        self.map.reserve(more)
    }
}

impl<'a, V: Copy> KeptValues<'a, V> {
    /// Enters a name with its value behind the others, unless the name has one; says whether it had.
    ///
    /// # Errors
    ///
    /// `Memory` where the heap refuses it for a new name; the entries are then as they were.
    pub fn enter<H: BoundedHeap>(
        &mut self,
        heap: H,
        name: &'a [u8],
        value: V,
    ) -> Result<bool, Memory>
        requires { FitsBound (H.bound heap) (length self.old.map.entries) }
        ensures known { IfOkUnless (H.may_refuse heap) result
            (λ is_known. is_known ≡ is_some (look_up (entries_now self.old.map.entries) name.now)) }
        ensures entered { OnOk result (entries_now self.new.map.entries
            ≡ with_entry (entries_now self.old.map.entries) name.now value) }
        ensures stays { OnErr result (entries_now self.new.map.entries ≡ entries_now self.old.map.entries) }
    {
        if self.map.contains_key(NameKey { bytes: name }) {
            return Ok(true);
        }
        heap.room_in(self, 1)?;
        self.map.insert(NameKey { bytes: name }, value).unwrap();
        Ok(false)
    }
}

//! Systems with the addresses of all their parts, and the numbers of their words.

use crate::data::{append_words, number};
use crate::placement::Layout;
use crate::sizes::layout;
use crate::table::{Table, tabulated};
use piton_check::Checked;
use piton_words::Word;
use stack_heap::Heap;
use stack_text::Memory;
use std::marker::Model;

/// A checked system with the addresses of its programs, places and areas, so that each of its words has its number at once.
///
/// Contracts see it as the checked system. Its placed words are at most 1,048,576, by the clause `small`.
#[derive(Drop)]
pub struct PlacedSystem {
    checked: Checked,
    layout: Layout,
    table: Table,
}

impl Model for PlacedSystem {
    ghost use Rattle.std.specs.Prelude.{◌≡◌, ◌≤◌, ◌^◌};
    ghost use Rattle.piton_check.specs.PitonChecking.{CheckedOf};
    ghost use Rattle.piton_semantics.specs.{Fits.{system_in}, Placed.{placed}};
    ghost use Rattle.piton_linker.specs.{Layouts.{layout_of}, Tables.{table_of}};

    ghost Value = { CheckedOf };

    ghost view = { λ p. p.checked };

    ghost invariant = { λ p. ((placed (system_in p.checked)).size ≤ 2 ^ 20)
        × (p.layout ≡ layout_of (system_in p.checked)) × (p.table ≡ table_of (system_in p.checked)) };
}

impl PlacedSystem {
    ghost use Rattle.std.specs.Prelude.{◌≡◌, ◌≤◌, ◌^◌};
    ghost use Rattle.stack_heap.specs.Heaps.{IfOkUnless};
    ghost use Rattle.piton_semantics.specs.{Fits.{Each, IsWordOf, system_in}, Addresses.{numbers, word_number}, Placed.{addresses_of, placed}};
    ghost use Rattle.piton_linker.specs.Layouts.{layout_of};

    /// A checked system with its addresses. The time is linear in the system's programs, instructions and areas.
    ///
    /// The only error is out of memory.
    #[tactic(auto, using(crate::proofs::ProcessorLaws::checked_end))]
    pub fn new<H: Heap>(heap: H, checked: Checked) -> Result<PlacedSystem, Memory>
        requires small { (placed (system_in checked)).size ≤ 2 ^ 20 }
        ensures { IfOkUnless (H.may_refuse heap) result (λ made. made ≡ checked) }
    {
        let layout = layout(&checked);
        let table = tabulated(heap, checked.resolved(), layout)?;
        Ok(PlacedSystem {
            checked,
            layout,
            table,
        })
    }

    /// The checked system.
    pub fn checked(&self) -> &Checked
        ensures value { result.now ≡ self.now }
        ensures small { (placed (system_in self.now)).size ≤ 2 ^ 20 }
    {
        &self.checked
    }

    /// The checked system, without its addresses.
    pub fn into_checked(self) -> Checked
        ensures value { result ≡ self }
        ensures small { (placed (system_in self)).size ≤ 2 ^ 20 }
    {
        self.checked
    }

    /// Where the parts of the placed system begin.
    pub fn layout(&self) -> Layout
        ensures { result ≡ layout_of (system_in self.now) }
    {
        self.layout
    }

    /// The number that a word has in the placed system: that of an address is where the system's part stands.
    #[tactic(auto, using(crate::proofs::ProcessorLaws::checked_end))]
    pub fn number(&self, word: Word) -> u32
        requires there { IsWordOf (system_in self.now) word }
        ensures { result ≡ word_number (addresses_of (system_in self.now)) word }
    {
        number(&self.table, self.checked.resolved(), word)
    }

    /// The number that each word has in the placed system.
    ///
    /// The only error is out of memory.
    #[tactic(auto, using(crate::proofs::ProcessorLaws::checked_end))]
    pub fn numbers<H: Heap>(&self, heap: H, words: &[Word]) -> Result<Vec<u32>, Memory>
        requires there { Each (IsWordOf (system_in self.now)) words.now }
        ensures { IfOkUnless (H.may_refuse heap) result
            (λ made. made.items ≡ numbers (addresses_of (system_in self.now)) words.now) }
    {
        let mut made = Vec::new(heap.handle());
        append_words(heap, &mut made, &self.table, self.checked.resolved(), words)?;
        Ok(made)
    }
}

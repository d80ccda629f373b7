//! A vector that contracts see as a list.

ghost use Rattle.std.specs.Prelude.{◌≡◌, ◌==◌, ◌∷◌, [], ◌++◌, length, OnErr};
ghost use Rattle.stack_heap.specs.Heaps.{IsSmallItem, FitsBound, OnOkUnless};

use stack_heap::BoundedHeap;
use std::alloc::{AllocFailed, Global};
use std::marker::Model;

/// A vector that contracts see as the list of its elements, so that `≡` compares elements and not capacities.
///
/// Use it for a field of an enum, of a struct with a ghost field, or of a small internal type: a clause then reads
/// `value.items` as a list. A public struct whose fields are plain vectors has an `impl Model` in place of it, whose
/// `Value` is a record of `specs/` with the same field names and lists in place of the vectors. A recursive type keeps
/// `Vec`, and clauses read it through one recursive function of the definitions.
///
/// To go over the elements, write `seq.as_slice().iter()`.
#[derive(Debug, Drop)]
pub struct Seq<T> {
    items: Vec<T>,
}

impl<T> Model for Seq<T> {
    ghost use Rattle.std.specs.Prelude.{List};

    ghost Value = { List T };

    ghost view = { λ s. s.items.items };
}

impl<T> Seq<T> {
    /// The empty list. It takes no memory.
    pub fn new(alloc: Global) -> Seq<T>
        ensures { result ≡ [] }
    {
        Seq {
            items: Vec::new(alloc),
        }
    }

    /// The elements of a vector, in its order.
    pub fn from_vec(items: Vec<T>) -> Seq<T>
        ensures { result ≡ items.items }
    {
        Seq { items }
    }

    /// The vector of the elements.
    pub fn into_vec(self) -> Vec<T>
        ensures { result.items ≡ self }
    {
        self.items
    }

    /// The elements as a slice.
    pub fn as_slice(&self) -> &[T]
        ensures { result.now ≡ self.now }
    {
        self.items.as_slice()
    }

    /// How many elements there are.
    pub fn len(&self) -> usize
        ensures { result ≡ length self.now }
    {
        self.items.len()
    }

    /// Whether there are none.
    pub fn is_empty(&self) -> bool
        ensures { result ≡ (length self.now == 0) }
    {
        self.items.is_empty()
    }

    /// Appends an element. Where memory runs out the list is unchanged, and the error has the element.
    pub fn push<H: BoundedHeap>(&mut self, heap: H, item: T) -> Result<(), AllocFailed<T>>
        requires short { FitsBound (H.bound heap) (length self.old) }
        requires small { IsSmallItem T.row }
        ensures ok { OnOkUnless (H.may_refuse heap) result (self.new ≡ self.old ++ item ∷ []) }
        ensures err { OnErr result (self.new ≡ self.old) }
    {
        heap.push(&mut self.items, item)
    }
}

//! Heaps without a bound, and with one that is known when the program runs.

use crate::bounded_heap::BoundedHeap;
use crate::has_room::HasRoom;
use crate::heap::Heap;
use std::alloc::{AllocError, AllocFailed, Global};
use std::rc::Rc;

/// Each heap, without a bound.
impl<H: Heap> BoundedHeap for H {
    ghost bound = { λ _. 0 };

    ghost may_refuse = { λ heap. H.may_refuse heap };

    ghost may_refuse_room = { λ heap count. H.may_refuse_room heap count };

    ghost refuses = { λ heap count may. H.refuses heap count may };

    fn handle(self) -> Global {
        Heap::handle(self)
    }

    fn with_room_for<T, X>(self, others: &[X]) -> Result<Vec<T>, AllocError> {
        Heap::with_room_for(self, others)
    }

    fn with_room<T>(self, count: usize) -> Result<Vec<T>, AllocError> {
        Heap::with_room(self, count)
    }

    fn zeros(self, count: usize) -> Result<Vec<u32>, AllocError> {
        Heap::zeros(self, count)
    }

    fn copied<T: Copy>(self, items: &[T]) -> Result<Vec<T>, AllocError> {
        Heap::copied(self, items)
    }

    fn push<T>(self, items: &mut Vec<T>, item: T) -> Result<(), AllocFailed<T>> {
        Heap::push(self, items, item)
    }

    fn extend_from_slice<T: Copy>(self, items: &mut Vec<T>, more: &[T]) -> Result<(), AllocError> {
        Heap::extend_from_slice(self, items, more)
    }

    fn append<T>(self, items: &mut Vec<T>, more: &mut Vec<T>) -> Result<(), AllocError> {
        Heap::append(self, items, more)
    }

    fn reserve<T>(self, items: &mut Vec<T>, more: usize) -> Result<(), AllocError> {
        Heap::reserve(self, items, more)
    }

    fn reserve_for<T, X>(self, items: &mut Vec<T>, others: &[X]) -> Result<(), AllocError> {
        Heap::reserve_for(self, items, others)
    }

    fn text(self, text: &str) -> Result<String, AllocError> {
        Heap::text(self, text)
    }

    fn resize<T: Copy>(self, items: &mut Vec<T>, count: usize, item: T) -> Result<(), AllocError> {
        Heap::resize(self, items, count, item)
    }

    fn boxed<T>(self, value: T) -> Result<Box<T>, AllocFailed<T>> {
        Heap::boxed(self, value)
    }

    fn shared<T>(self, value: T) -> Result<Rc<T>, AllocFailed<T>> {
        Heap::shared(self, value)
    }

    fn shared_again<T: Drop>(self, value: &Rc<T>) -> Result<Rc<T>, AllocError> {
        Heap::shared_again(self, value)
    }

    fn room_in<T: HasRoom>(self, table: &mut T, more: usize) -> Result<(), AllocError> {
        Heap::room_in(self, table, more)
    }
}

/// A heap, for lists of at most so many items and 257 more.
///
/// For example, a reader that gets `Within { inner, most }` runs out of memory only if `inner` may refuse what a list of
/// that length asks for.
#[derive(Clone, Copy)]
pub struct Within<H> {
    /// The heap that is asked.
    pub inner: H,
    /// How many items a list may have.
    pub most: u64,
}

impl<H: Heap> BoundedHeap for Within<H> {
    ghost use Rattle.std.specs.Prelude.{◌+◌};

    ghost bound = { λ heap. heap.most + 1 };

    ghost may_refuse = { λ heap. H.may_refuse heap.inner };

    ghost may_refuse_room = { λ heap count. H.may_refuse_room heap.inner count };

    ghost refuses = { λ heap count may. H.refuses heap.inner count may };

    fn handle(self) -> Global {
        Heap::handle(self.inner)
    }

    fn with_room_for<T, X>(self, others: &[X]) -> Result<Vec<T>, AllocError> {
        Heap::with_room_for(self.inner, others)
    }

    fn with_room<T>(self, count: usize) -> Result<Vec<T>, AllocError> {
        Heap::with_room(self.inner, count)
    }

    fn zeros(self, count: usize) -> Result<Vec<u32>, AllocError> {
        Heap::zeros(self.inner, count)
    }

    fn copied<T: Copy>(self, items: &[T]) -> Result<Vec<T>, AllocError> {
        Heap::copied(self.inner, items)
    }

    fn push<T>(self, items: &mut Vec<T>, item: T) -> Result<(), AllocFailed<T>> {
        Heap::push(self.inner, items, item)
    }

    fn extend_from_slice<T: Copy>(self, items: &mut Vec<T>, more: &[T]) -> Result<(), AllocError> {
        Heap::extend_from_slice(self.inner, items, more)
    }

    fn append<T>(self, items: &mut Vec<T>, more: &mut Vec<T>) -> Result<(), AllocError> {
        Heap::append(self.inner, items, more)
    }

    fn reserve<T>(self, items: &mut Vec<T>, more: usize) -> Result<(), AllocError> {
        Heap::reserve(self.inner, items, more)
    }

    fn reserve_for<T, X>(self, items: &mut Vec<T>, others: &[X]) -> Result<(), AllocError> {
        Heap::reserve_for(self.inner, items, others)
    }

    fn text(self, text: &str) -> Result<String, AllocError> {
        Heap::text(self.inner, text)
    }

    fn resize<T: Copy>(self, items: &mut Vec<T>, count: usize, item: T) -> Result<(), AllocError> {
        Heap::resize(self.inner, items, count, item)
    }

    fn boxed<T>(self, value: T) -> Result<Box<T>, AllocFailed<T>> {
        Heap::boxed(self.inner, value)
    }

    fn shared<T>(self, value: T) -> Result<Rc<T>, AllocFailed<T>> {
        Heap::shared(self.inner, value)
    }

    fn shared_again<T: Drop>(self, value: &Rc<T>) -> Result<Rc<T>, AllocError> {
        Heap::shared_again(self.inner, value)
    }

    fn room_in<T: HasRoom>(self, table: &mut T, more: usize) -> Result<(), AllocError> {
        Heap::room_in(self.inner, table, more)
    }
}

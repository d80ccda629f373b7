//! What takes memory for lists that have a bound.

ghost use Rattle.std.specs.Prelude.{◌≡◌, ℕ, ◌+◌, ◌-◌, ◌≤◌, ◌∷◌, [], ◌++◌, length, replicate, take, vec_capacity, vec_len, string_bytes, IfOk, OnOk, OnErr};
ghost use Rattle.std.specs.Prelude.{is_ok, if◌then◌else◌};
ghost use Rattle.stack_heap.specs.Heaps.{IfOkUnless, IsModest, NearlyFitsBound, IsSmallItem, RefusesWithin, room_after};

use crate::has_room::HasRoom;
use std::alloc::{AllocError, AllocFailed, Global};
use std::rc::Rc;

/// What takes memory, and no list that is longer than its bound: each method is one call of the library, and fails only if
/// the heap may refuse a modest request within the bound.
///
/// The methods are those of `Heap`. Each owes in addition that the list which it makes or lets grow is within the bound,
/// but for 256 items, so that names and other short lists owe nothing. So a body that appends until it is refused isn't
/// proved, and a refusal says of the heap that it may refuse what such lists ask for. Each `Heap` is one without a bound,
/// and `Within` is one whose bound is known when the program runs.
pub trait BoundedHeap: Copy {
    /// How many items a list may have, but for 256; or 0 if there is no bound.
    ghost bound: { Self → ℕ };

    /// The heap may refuse a modest request within the bound.
    ghost may_refuse: { Self → Type 0 };

    /// It may refuse room for so many items of one list.
    ghost may_refuse_room: { Self → ℕ → Type 0 };

    /// The library's handle, for what is empty yet, and for callees that say nothing of the heap.
    fn handle(self) -> Global;

    /// An empty vector with room for an item for each of these.
    fn with_room_for<T, X>(self, others: &[X]) -> Result<Vec<T>, AllocError>
        requires short { NearlyFitsBound (bound self) (length others.now) }
        requires small_others { IsSmallItem X.row }
        requires small { IsSmallItem T.row }
        ensures items { IfOkUnless (may_refuse self) result (λ made. made.items ≡ []) }
        ensures capacity { IfOk result (λ made. length others.now ≤ vec_capacity made) }
        ensures room { OnErr result (RefusesWithin (may_refuse_room self) (length others.now)) };

    /// An empty vector with room for so many items.
    fn with_room<T>(self, count: usize) -> Result<Vec<T>, AllocError>
        requires short { NearlyFitsBound (bound self) count }
        requires modest { IsModest count }
        requires small { IsSmallItem T.row }
        ensures items { IfOkUnless (may_refuse self) result (λ made. made.items ≡ []) }
        ensures capacity { IfOk result (λ made. count ≤ vec_capacity made) }
        ensures room { OnErr result (RefusesWithin (may_refuse_room self) count) };

    /// A vector of so many zeros.
    fn zeros(self, count: usize) -> Result<Vec<u32>, AllocError>
        requires short { NearlyFitsBound (bound self) count }
        requires modest { IsModest count }
        ensures items { IfOkUnless (may_refuse self) result (λ made. made.items ≡ replicate count 0) }
        ensures room { OnErr result (RefusesWithin (may_refuse_room self) count) };

    /// A vector of these items.
    fn copied<T: Copy>(self, items: &[T]) -> Result<Vec<T>, AllocError>
        requires short { NearlyFitsBound (bound self) (length items.now) }
        requires small { IsSmallItem T.row }
        ensures items { IfOkUnless (may_refuse self) result (λ made. made.items ≡ items.now) }
        ensures room { OnErr result (RefusesWithin (may_refuse_room self) (length items.now)) };

    /// Appends an item, or leaves the items as they were.
    fn push<T>(self, items: &mut Vec<T>, item: T) -> Result<(), AllocFailed<T>>
        requires short { NearlyFitsBound (bound self) (length items.old.items) }
        requires small { IsSmallItem T.row }
        ensures items { items.new.items ≡ (if is_ok result then items.old.items ++ item ∷ [] else items.old.items) }
        ensures refused { OnErr result (may_refuse self) }
        ensures room { OnErr result (RefusesWithin (may_refuse_room self) (room_after (length items.old.items))) };

    /// Appends items, or leaves those that are there as they were.
    fn extend_from_slice<T: Copy>(self, items: &mut Vec<T>, more: &[T]) -> Result<(), AllocError>
        requires short { NearlyFitsBound (bound self) (length items.old.items + length more.now) }
        requires small { IsSmallItem T.row }
        ensures items { items.new.items ≡ (if is_ok result then items.old.items ++ more.now else items.old.items) }
        ensures refused { OnErr result (may_refuse self) }
        ensures room { OnErr result
            (RefusesWithin (may_refuse_room self) (room_after (length items.old.items + length more.now))) };

    /// Appends the items of another vector, which then has none, or leaves both as they were.
    fn append<T>(self, items: &mut Vec<T>, more: &mut Vec<T>) -> Result<(), AllocError>
        requires short { NearlyFitsBound (bound self) (length items.old.items + length more.old.items) }
        requires small { IsSmallItem T.row }
        ensures items { items.new.items
            ≡ (if is_ok result then items.old.items ++ more.old.items else items.old.items) }
        ensures refused { OnErr result (may_refuse self) }
        ensures room { OnErr result
            (RefusesWithin (may_refuse_room self) (room_after (length items.old.items + length more.old.items))) };

    /// Makes room for so many items more, which are then appended without memory.
    fn reserve<T>(self, items: &mut Vec<T>, more: usize) -> Result<(), AllocError>
        requires short { NearlyFitsBound (bound self) (length items.old.items + more) }
        requires modest { IsModest more }
        requires small { IsSmallItem T.row }
        ensures items { items.new.items ≡ items.old.items }
        ensures len { vec_len items.new ≡ vec_len items.old }
        ensures ok { OnOk result (vec_len items.new + more ≤ vec_capacity items.new) }
        ensures refused { OnErr result (may_refuse self) }
        ensures room { OnErr result
            (RefusesWithin (may_refuse_room self) (room_after (length items.old.items + more))) };

    /// Makes room for an item more for each of these, which are then appended without memory.
    fn reserve_for<T, X>(self, items: &mut Vec<T>, others: &[X]) -> Result<(), AllocError>
        requires short { NearlyFitsBound (bound self) (length items.old.items + length others.now) }
        requires small_others { IsSmallItem X.row }
        requires small { IsSmallItem T.row }
        ensures items { items.new.items ≡ items.old.items }
        ensures len { vec_len items.new ≡ vec_len items.old }
        ensures ok { OnOk result (vec_len items.new + length others.now ≤ vec_capacity items.new) }
        ensures refused { OnErr result (may_refuse self) }
        ensures room { OnErr result
            (RefusesWithin (may_refuse_room self) (room_after (length items.old.items + length others.now))) };

    /// A text with these characters.
    fn text(self, text: &str) -> Result<String, AllocError>
        requires { NearlyFitsBound (bound self) (length text.now) }
        ensures { IfOkUnless (may_refuse self) result (λ made. string_bytes made ≡ text.now) };

    /// Cuts the items to so many, or appends copies of one until they are; or leaves them as they were.
    fn resize<T: Copy>(self, items: &mut Vec<T>, count: usize, item: T) -> Result<(), AllocError>
        requires short { NearlyFitsBound (bound self) count }
        requires modest { IsModest count }
        requires small { IsSmallItem T.row }
        ensures items { items.new.items ≡ (if is_ok result
            then take count items.old.items ++ replicate (count - vec_len items.old) item
            else items.old.items) }
        ensures refused { OnErr result (may_refuse self) }
        ensures room { OnErr result (RefusesWithin (may_refuse_room self) (room_after count)) };

    /// A value in a box.
    fn boxed<T>(self, value: T) -> Result<Box<T>, AllocFailed<T>>
        requires small { IsSmallItem T.row }
        ensures value { IfOkUnless (may_refuse self) result (λ made. made.value ≡ value) };

    /// A value that is shared.
    fn shared<T>(self, value: T) -> Result<Rc<T>, AllocFailed<T>>
        requires small { IsSmallItem T.row }
        ensures value { IfOkUnless (may_refuse self) result (λ made. made.value ≡ value) };

    /// The same shared value again, which takes no memory. It is refused if it is shared too often to be counted.
    fn shared_again<T: Drop>(self, value: &Rc<T>) -> Result<Rc<T>, AllocError>
        ensures value { IfOkUnless (may_refuse self) result (λ again. again.value ≡ value.now.value) };

    /// Makes room for so many items more in a table, which are then entered without memory.
    fn room_in<T: HasRoom>(self, table: &mut T, more: usize) -> Result<(), AllocError>
        requires short { NearlyFitsBound (bound self) (T.size table.old + more) }
        requires modest { IsModest more }
        ensures stays { T.has_same table.old table.new }
        ensures ok { OnOk result (more ≤ T.room table.new) }
        ensures refused { OnErr result (may_refuse self) };

    /// Who may refuse room may refuse.
    ghost refuses: { (heap : Self) (count : ℕ) → may_refuse_room heap count → may_refuse heap };
}

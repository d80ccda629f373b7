//! A law of heaps.

ghost use Rattle.stack_heap.specs.Held.{EachListIsHeld};

/// A heap that refuses nothing within its bound, which is below 2^62, contradicts no clause of `BoundedHeap` on vectors:
/// each vector that a method may be asked for is there, with any capacity that its clauses name. It does nothing: its
/// clause holds of all items.
pub fn each_list_is_held<T>()
    ensures { EachListIsHeld T }
{}

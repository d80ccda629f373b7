//! The heap as an argument: what takes memory, and what a call says where there is none.
//!
//! A function that is generic over `Heap` is proved for each heap. Its body knows nothing of what a heap may refuse but
//! that a method failed, so it runs out of memory only if the heap refused a modest request.
//!
//! A function that is generic over `BoundedHeap` is proved for each bound too, and makes no list that is longer.
#![tactic(auto)]

mod bounded_heap;
mod has_room;
mod heap;
mod laws;
mod within;

pub use bounded_heap::BoundedHeap;
pub use has_room::HasRoom;
pub use heap::{Heap, MODEST_COUNT};
pub use laws::each_list_is_held;
pub use within::Within;

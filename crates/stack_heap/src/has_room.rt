//! What has room for items more.

ghost use Rattle.std.specs.Prelude.{ℕ, ◌≤◌, OnOk};

use std::alloc::AllocError;

/// What has room for items more, as a table of names, which one call of a library makes.
///
/// So a method of `Heap` makes room in a table whose type it doesn't name.
pub trait HasRoom {
    /// How many items it has.
    ghost size: { Self → ℕ };

    /// For how many items more it has room.
    ghost room: { Self → ℕ };

    /// The second has what the first has.
    ghost has_same: { Self → Self → Type 0 };

    /// Makes room for so many items more, which are then entered without memory.
    fn make_room(&mut self, more: usize) -> Result<(), AllocError>
        ensures stays { has_same self.old self.new }
        ensures ok { OnOk result (more ≤ room self.new) };
}

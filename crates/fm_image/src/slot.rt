//! Where a variable is in memory.

use stack_text::{Name, Shape};

/// A variable in memory. Its item j, counted from 0, is the word at `address - j`.
#[derive(Debug, Drop)]
pub struct Slot {
    /// Its name, which no other slot of the image has.
    pub name: Name,
    /// The kind of its items; a length of 0 for a simple type, or else 1 to 4096.
    pub shape: Shape,
    /// The address of its first item.
    pub address: u32,
}

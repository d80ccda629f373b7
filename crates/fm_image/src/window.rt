//! The window of an image.

/// The part of memory that a run may use, and where the run ends.
#[derive(Clone, Copy, Debug)]
pub struct Window {
    /// The first address.
    pub base: u32,
    /// How many words there are.
    pub size: u32,
    /// The program counter at which a run ends.
    pub final_pc: u32,
}

//! How large a window of memory may be.

/// The most words of a window, of a placed system, of an image, and of several images together.
pub const MOST_WINDOW: u32 = 1 << 20;

//! Limits that several crates share.

/// The most words of a stack, and of a procedure's variables.
pub const MOST_STACK: u32 = 65_536;

/// The most items of an array.
pub const MOST_ARRAY: u32 = 4_096;

/// The most bytes of a source, and of the other texts that a command reads beside Piton's.
pub const MOST_TEXT: u32 = 1 << 20;

/// The most bytes of an image file, and of an assembly text.
pub const MOST_IMAGE_FILE: u32 = 1 << 25;

/// The most steps, or instructions, that a command asks for.
pub const MOST_STEPS: u64 = 1 << 40;

/// The most bytes of a name.
pub const MOST_NAME_BYTES: u32 = 64;

/// The most bytes of a line.
pub(crate) const MOST_LINE_BYTES: usize = 256;

/// The most variables that a procedure declares, and the most conditions.
pub const MOST_DECLARED: usize = 200;

/// The most procedures of a source.
pub const MOST_PROCEDURES: usize = 1000;

/// The most tasks that take turns.
pub const MOST_TASKS: u32 = 8;

//! The magic, the versions and the limits of the fields.

ghost use Rattle.std.specs.Prelude.{◌≡◌, ◌≤◌};
ghost use Rattle.fm_image.specs.Limits.{is_version, is_size, is_inside, is_condition_address, is_slot_address, most_conditions, is_after};
ghost use Rattle.fm_image.specs.Fields.{is_name_length};

use crate::procedure::Mark;
use crate::window::Window;
use fm_words::MOST_WINDOW;
use stack_text::{MOST_DECLARED, MOST_NAME_BYTES, Shape};

/// The bytes that an image file begins with.
pub const MAGIC: &[u8] = b"FM91";

/// The version without procedures and marks: 1.
pub const UNMARKED_VERSION: u32 = 1;

/// The version with procedures and marks, in which images are made: 2.
pub const MARKED_VERSION: u32 = 2;

/// The most names of conditions of a procedure.
pub(crate) const MOST_MARKED_CONDITIONS: u32 = 201;

/// Whether a window at the base may have so many words: 1 to 2^20, with base and size together at most 2^32 - 1.
pub fn is_size(base: u32, size: u32) -> bool
    ensures { result ≡ is_size base size }
{
    1 <= size && size <= MOST_WINDOW && u64::from(base) + u64::from(size) <= u64::from(u32::MAX)
}

/// Whether the address is in a window of so many words at the base.
pub(crate) fn is_inside(base: u32, size: u32, address: u32) -> bool
    ensures { result ≡ is_inside base size address }
{
    base <= address && u64::from(address) < u64::from(base) + u64::from(size)
}

/// Whether there is no condition word, or its address is in the window.
pub(crate) fn is_condition_address(window: Window, address: Option<u32>) -> bool
    ensures { result ≡ is_condition_address window address }
{
    match address {
        None => true,
        Some(address) => is_inside(window.base, window.size, address),
    }
}

/// The most names of conditions before the slots.
pub(crate) fn most_conditions(version: u32) -> u32
    ensures exact { result ≡ most_conditions version }
    ensures few { result ≤ 201 }
{
    if version == UNMARKED_VERSION {
        MOST_DECLARED as u32
    } else {
        MOST_MARKED_CONDITIONS
    }
}

/// Whether the file has such a version.
pub(crate) fn is_version(version: u32) -> bool
    ensures { result ≡ is_version version }
{
    version == UNMARKED_VERSION || version == MARKED_VERSION
}

/// Whether the address is greater than that of the mark before.
pub(crate) fn is_after(before: Option<Mark>, address: u32) -> bool
    ensures { result ≡ is_after before address }
{
    match before {
        None => true,
        Some(mark) => mark.address < address,
    }
}

/// Whether a name may have so many bytes.
pub(crate) fn is_name_length(length: u32) -> bool
    ensures { result ≡ is_name_length length }
{
    1 <= length && length <= MOST_NAME_BYTES
}

/// Whether the items, from the address downwards, are all in the window.
pub(crate) fn is_slot_address(window: Window, shape: Shape, address: u32) -> bool
    ensures { result ≡ is_slot_address window shape address }
{
    let (base, address) = (u64::from(window.base), u64::from(address));
    base + shape.item_count() as u64 <= address + 1 && address < base + u64::from(window.size)
}

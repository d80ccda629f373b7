//! Images.

ghost use Rattle.std.specs.Prelude.{◌≡◌, ◌≤◌, IsTrue, length};
ghost use Rattle.fm_image.specs.{Limits.{is_size, is_inside, in_version_2, is_image}, Bare.{bare_image}};

use crate::limit::MARKED_VERSION;
use crate::procedure::{Mark, ProcInfo};
use crate::slot::Slot;
use fm_words::Flags;
use stack_text::Name;
use std::alloc::Global;
use std::marker::Model;

/// What the FM9001 is loaded with. The limits that `docs/languages/image-file.md` gives for its fields hold of every image.
///
/// Contracts see an image as a record of the same fields, with lists in place of the vectors.
#[derive(Debug, Drop)]
pub struct Image {
    /// The version of its file: 1, or 2 with procedures and marks.
    pub version: u32,
    /// The first address of the window.
    pub base: u32,
    /// How many words the window has: 1 to 2^20.
    pub size: u32,
    /// The address in the window at which a run ends.
    pub final_pc: u32,
    /// The sixteen registers at the start.
    pub registers: Vec<u32>,
    /// The flags at the start.
    pub flags: Flags,
    /// The address in the window of the condition word, where there is one.
    pub condition_address: Option<u32>,
    /// The names of the conditions beside the standing ones: at most 200, or 201 in version 2, all different.
    pub conditions: Vec<Name>,
    /// The variables: at most 200, their names all different.
    pub slots: Vec<Slot>,
    /// The words of the window from `base` on. The rest of the window is zero.
    pub words: Vec<u32>,
    /// The procedures of its source: at most 1000, their names all different. Version 1 has none.
    pub procedures: Vec<ProcInfo>,
    /// Where memory can be read as a state of its source: at most 2^20 marks, with ascending addresses. Version 1 has
    /// none.
    pub marks: Vec<Mark>,
}

impl Model for Image {
    ghost use Rattle.std.specs.Prelude.{IsTrue};
    ghost use Rattle.fm_image.specs.{Image.{ImageOf}, Limits.{is_image}};

    ghost Value = { ImageOf };

    ghost view = { λ i. record { version = i.version; base = i.base; size = i.size; final_pc = i.final_pc; registers = i.registers.items; flags = i.flags; condition_address = i.condition_address; conditions = i.conditions.items; slots = i.slots.items; words = i.words.items; procedures = i.procedures.items; marks = i.marks.items } };

    ghost invariant = { λ i. IsTrue (is_image (record { version = i.version; base = i.base; size = i.size; final_pc = i.final_pc; registers = i.registers.items; flags = i.flags; condition_address = i.condition_address; conditions = i.conditions.items; slots = i.slots.items; words = i.words.items; procedures = i.procedures.items; marks = i.marks.items })) };
}

/// The image of this window, these registers and these words, with nothing else: no flag is set, and there is no condition
/// word, no name of a condition, no slot, no procedure and no mark. It takes no memory.
///
/// The window has 1 to 2^20 words, all of them at addresses below 2^32 - 1, and `final_pc` is one of its addresses. There
/// are sixteen registers, and no more words than the window has.
pub fn bare_image(
    alloc: Global,
    base: u32,
    size: u32,
    final_pc: u32,
    registers: Vec<u32>,
    words: Vec<u32>,
) -> Image
    requires sized { IsTrue (is_size base size) }
    requires inside { IsTrue (is_inside base size final_pc) }
    requires sixteen { length registers.items ≡ 16 }
    requires few { length words.items ≤ size }
    ensures { result ≡ bare_image base size final_pc registers.items words.items }
{
    Image {
        version: MARKED_VERSION,
        base,
        size,
        final_pc,
        registers,
        flags: Flags::NONE,
        condition_address: None,
        conditions: Vec::new(alloc),
        slots: Vec::new(alloc),
        words,
        procedures: Vec::new(alloc),
        marks: Vec::new(alloc),
    }
}

/// The same image in version 2: without procedures and marks, where it was one of version 1.
pub fn in_version_2(image: Image) -> Image
    ensures { result ≡ in_version_2 image }
{
    Image {
        version: MARKED_VERSION,
        ..image
    }
}

//! An image as lines of text.

ghost use Rattle.std.specs.{Prelude.{◌≡◌, ◌++◌, ◌+◌, ◌<◌, ◌^◌, length}, List.{flat_map}};
ghost use Rattle.stack_heap.specs.Heaps.{IfOkUnless, OnOkUnless};
ghost use Rattle.fm_show.specs.{Listing.{numbered_lines}, ImageListing.{window_lines, condition_line, name_line, shape_text, slot_line, word_line}};
ghost use Rattle.fm_show.specs.ImageListing.{variable_line, procedure_lines, procedure_name, mark_line, image_listing};

use crate::digits::hex_digits;
use crate::disassembly::push_instruction;
use crate::listing::{push_flags, push_registers};
use fm_image::{Image, Mark, ProcInfo, Slot, VarInfo};
use fm_words::decode;
use itoa::Buffer;
use stack_heap::Heap;
use stack_text::{Memory, Name, Shape, push_each};

/// An image as lines, each of which ends in LF: `base`, `size` and `final` with the window, the sixteen registers and
/// the flags as `show_machine` has them, `condition` with the address of the condition word where there is one, `name`
/// with each condition, `slot` with the name, kind, length and address of each slot, and each word with its address and
/// its instruction; then `procedure` with each procedure's name, under it `variable` with the name, kind, length and
/// offset of each of its variables, and `mark` with each mark's address, procedure and place. Addresses and words have eight hexadecimal digits; a simple type's length is 0.
///
/// The only error is out of memory.
pub fn show_image<H: Heap>(heap: H, image: &Image) -> Result<Vec<u8>, Memory>
    ensures { IfOkUnless (H.may_refuse heap) result (λ text. text.items ≡ image_listing image.now) }
{
    let mut text = Vec::new(heap.handle());
    push_window(heap, &mut text, image)?;
    push_registers(heap, &mut text, &image.registers)?;
    push_flags(heap, &mut text, image.flags)?;
    push_condition(heap, &mut text, image.condition_address)?;
    push_names(heap, &mut text, &image.conditions)?;
    push_slots(heap, &mut text, &image.slots)?;
    push_words(heap, &mut text, image.base, &image.words)?;
    push_procedures(heap, &mut text, &image.procedures)?;
    push_marks(heap, &mut text, &image.procedures, &image.marks)?;
    Ok(text)
}

/// Appends the lines of the window.
fn push_window<H: Heap>(heap: H, text: &mut Vec<u8>, image: &Image) -> Result<(), Memory>
    ensures { OnOkUnless (H.may_refuse heap) result (text.new.items ≡ text.old.items ++ window_lines image.now) }
{
    let base = hex_digits(image.base);
    let end = hex_digits(image.final_pc);
    let mut size = Buffer::new();
    let size = size.format(image.size).as_bytes();
    push_each(
        heap,
        text,
        &[b"base ", &base, b"\nsize ", size, b"\nfinal ", &end, b"\n"],
    )
}

/// Appends the line of the condition word, where there is one.
fn push_condition<H: Heap>(heap: H, text: &mut Vec<u8>, address: Option<u32>) -> Result<(), Memory>
    ensures { OnOkUnless (H.may_refuse heap) result (text.new.items ≡ text.old.items ++ condition_line address) }
{
    let Some(address) = address else {
        return Ok(());
    };
    push_each(heap, text, &[b"condition ", &hex_digits(address), b"\n"])
}

/// Appends the line of a condition's name.
fn push_name<H: Heap>(heap: H, text: &mut Vec<u8>, name: &Name) -> Result<(), Memory>
    ensures { OnOkUnless (H.may_refuse heap) result (text.new.items ≡ text.old.items ++ name_line name.now) }
{
    push_each(heap, text, &[b"name ", name.bytes(), b"\n"])
}

/// Appends the lines of names.
fn push_names<H: Heap>(heap: H, text: &mut Vec<u8>, names: &[Name]) -> Result<(), Memory>
    ensures { OnOkUnless (H.may_refuse heap) result (text.new.items ≡ text.old.items ++ flat_map name_line names.now) }
{
    for name in names {
        push_name(heap, text, name)?;
    }
    Ok(())
}

/// Appends the kind and the length of a shape.
fn push_shape<H: Heap>(heap: H, text: &mut Vec<u8>, shape: Shape) -> Result<(), Memory>
    ensures { OnOkUnless (H.may_refuse heap) result (text.new.items ≡ text.old.items ++ shape_text shape) }
{
    let mut digits = Buffer::new();
    let length = digits.format(shape.length).as_bytes();
    push_each(heap, text, &[shape.kind.name().as_bytes(), b" ", length])
}

/// Appends the line of a slot.
fn push_slot<H: Heap>(heap: H, text: &mut Vec<u8>, slot: &Slot) -> Result<(), Memory>
    ensures { OnOkUnless (H.may_refuse heap) result (text.new.items ≡ text.old.items ++ slot_line slot.now) }
{
    push_each(heap, text, &[b"slot ", slot.name.bytes(), b" "])?;
    push_shape(heap, text, slot.shape)?;
    push_each(heap, text, &[b" ", &hex_digits(slot.address), b"\n"])
}

/// Appends the lines of slots.
fn push_slots<H: Heap>(heap: H, text: &mut Vec<u8>, slots: &[Slot]) -> Result<(), Memory>
    ensures { OnOkUnless (H.may_refuse heap) result (text.new.items ≡ text.old.items ++ flat_map slot_line slots.now) }
{
    for slot in slots {
        push_slot(heap, text, slot)?;
    }
    Ok(())
}

/// Appends the line of a word.
fn push_word<H: Heap>(heap: H, text: &mut Vec<u8>, address: u32, word: u32) -> Result<(), Memory>
    ensures { OnOkUnless (H.may_refuse heap) result (text.new.items ≡ text.old.items ++ word_line address word) }
{
    push_each(
        heap,
        text,
        &[&hex_digits(address), b" ", &hex_digits(word), b" "],
    )?;
    push_instruction(heap, text, decode(word))?;
    Ok(heap.push(text, b'\n')?)
}

/// Appends the lines of words, from the base upwards.
fn push_words<H: Heap>(heap: H, text: &mut Vec<u8>, base: u32, words: &[u32]) -> Result<(), Memory>
    requires { base + length words.now < 2 ^ 32 }
    ensures { OnOkUnless (H.may_refuse heap) result
        (text.new.items ≡ text.old.items ++ numbered_lines word_line base words.now) }
{
    for (place, word) in words.iter().enumerate() {
        push_word(heap, text, base + place as u32, *word)?;
    }
    Ok(())
}

/// Appends the line of a variable.
fn push_variable<H: Heap>(heap: H, text: &mut Vec<u8>, variable: &VarInfo) -> Result<(), Memory>
    ensures { OnOkUnless (H.may_refuse heap) result (text.new.items ≡ text.old.items ++ variable_line variable.now) }
{
    push_each(heap, text, &[b"variable ", variable.name.bytes(), b" "])?;
    push_shape(heap, text, variable.shape)?;
    let mut offset = Buffer::new();
    push_each(
        heap,
        text,
        &[b" ", offset.format(variable.offset).as_bytes(), b"\n"],
    )
}

/// Appends the lines of variables.
fn push_variables<H: Heap>(heap: H, text: &mut Vec<u8>, variables: &[VarInfo]) -> Result<(), Memory>
    ensures { OnOkUnless (H.may_refuse heap) result
        (text.new.items ≡ text.old.items ++ flat_map variable_line variables.now) }
{
    for variable in variables {
        push_variable(heap, text, variable)?;
    }
    Ok(())
}

/// Appends the line of a procedure, and those of its variables.
fn push_procedure<H: Heap>(heap: H, text: &mut Vec<u8>, procedure: &ProcInfo) -> Result<(), Memory>
    ensures { OnOkUnless (H.may_refuse heap) result (text.new.items ≡ text.old.items ++ procedure_lines procedure.now) }
{
    push_each(heap, text, &[b"procedure ", procedure.name.bytes(), b"\n"])?;
    push_variables(heap, text, &procedure.variables)
}

/// Appends the lines of procedures.
fn push_procedures<H: Heap>(
    heap: H,
    text: &mut Vec<u8>,
    procedures: &[ProcInfo],
) -> Result<(), Memory>
    ensures { OnOkUnless (H.may_refuse heap) result
        (text.new.items ≡ text.old.items ++ flat_map procedure_lines procedures.now) }
{
    for procedure in procedures {
        push_procedure(heap, text, procedure)?;
    }
    Ok(())
}

/// Appends the name of the procedure of a number.
fn push_procedure_name<H: Heap>(
    heap: H,
    text: &mut Vec<u8>,
    procedures: &[ProcInfo],
    number: u32,
) -> Result<(), Memory>
    ensures { OnOkUnless (H.may_refuse heap) result
        (text.new.items ≡ text.old.items ++ procedure_name procedures.now number) }
{
    let Some(procedure) = procedures.get(number as usize) else {
        return Ok(());
    };
    Ok(heap.extend_from_slice(text, procedure.name.bytes())?)
}

/// Appends the line of a mark.
fn push_mark<H: Heap>(
    heap: H,
    text: &mut Vec<u8>,
    procedures: &[ProcInfo],
    mark: &Mark,
) -> Result<(), Memory>
    ensures { OnOkUnless (H.may_refuse heap) result
        (text.new.items ≡ text.old.items ++ mark_line procedures.now mark.now) }
{
    push_each(heap, text, &[b"mark ", &hex_digits(mark.address), b" "])?;
    push_procedure_name(heap, text, procedures, mark.procedure)?;
    let mut place = Buffer::new();
    push_each(
        heap,
        text,
        &[b" ", place.format(mark.place).as_bytes(), b"\n"],
    )
}

/// Appends the lines of marks.
fn push_marks<H: Heap>(
    heap: H,
    text: &mut Vec<u8>,
    procedures: &[ProcInfo],
    marks: &[Mark],
) -> Result<(), Memory>
    ensures { OnOkUnless (H.may_refuse heap) result
        (text.new.items ≡ text.old.items ++ flat_map (mark_line procedures.now) marks.now) }
{
    for mark in marks {
        push_mark(heap, text, procedures, mark)?;
    }
    Ok(())
}

//! Writing images.

ghost use Rattle.std.specs.{Prelude.{◌≡◌, ◌≤◌, ◌<◌, ◌^◌, ◌++◌, length, IsTrue}, List.{list_all}};
ghost use Rattle.stack_heap.specs.Heaps.{IfOkUnless, FitsBound, OnOkUnless};
ghost use Rattle.fm_image.specs.{Limits.{Tables}, Spelling.{is_small, number_bytes, numbers_bytes, name_bytes, counted_bytes, slot_bytes, opening_bytes}};
ghost use Rattle.fm_image.specs.Spelling.{window_bytes, variable_bytes, procedure_bytes, mark_bytes, tables_bytes, spelling};

use crate::code::{address_bits, kind_bits};
use crate::image::Image;
use crate::limit::{MAGIC, UNMARKED_VERSION};
use crate::procedure::{Mark, ProcInfo, VarInfo};
use crate::slot::Slot;
use stack_heap::BoundedHeap;
use stack_text::{Memory, Name};

fn push_number<H: BoundedHeap>(heap: H, bytes: &mut Vec<u8>, number: u32) -> Result<(), Memory>
    requires { FitsBound (H.bound heap) (length (bytes.old.items ++ number_bytes number)) }
    ensures { OnOkUnless (H.may_refuse heap) result (bytes.new.items ≡ bytes.old.items ++ number_bytes number) }
{
    Ok(heap.extend_from_slice(bytes, &number.to_be_bytes())?)
}

fn push_numbers<H: BoundedHeap>(heap: H, bytes: &mut Vec<u8>, numbers: &[u32]) -> Result<(), Memory>
    requires { FitsBound (H.bound heap) (length (bytes.old.items ++ numbers_bytes numbers.now)) }
    ensures { OnOkUnless (H.may_refuse heap) result (bytes.new.items ≡ bytes.old.items ++ numbers_bytes numbers.now) }
{
    for number in numbers {
        push_number(heap, bytes, *number)?;
    }
    Ok(())
}

/// A name by its length and its bytes.
fn push_name<H: BoundedHeap>(heap: H, bytes: &mut Vec<u8>, name: &Name) -> Result<(), Memory>
    requires { FitsBound (H.bound heap) (length (bytes.old.items ++ name_bytes name.now)) }
    ensures { OnOkUnless (H.may_refuse heap) result (bytes.new.items ≡ bytes.old.items ++ name_bytes name.now) }
{
    let name = name.bytes();
    push_number(heap, bytes, name.len() as u32)?;
    Ok(heap.extend_from_slice(bytes, name)?)
}

fn push_conditions<H: BoundedHeap>(
    heap: H,
    bytes: &mut Vec<u8>,
    conditions: &[Name],
) -> Result<(), Memory>
    requires few { length conditions.now ≤ 201 }
    requires short { FitsBound (H.bound heap) (length (bytes.old.items ++ counted_bytes name_bytes conditions.now)) }
    ensures { OnOkUnless (H.may_refuse heap) result
        (bytes.new.items ≡ bytes.old.items ++ counted_bytes name_bytes conditions.now) }
{
    push_number(heap, bytes, conditions.len() as u32)?;
    for name in conditions {
        push_name(heap, bytes, name)?;
    }
    Ok(())
}

/// A slot by its name, the number of its kind, its length and its address.
fn push_slot<H: BoundedHeap>(heap: H, bytes: &mut Vec<u8>, slot: &Slot) -> Result<(), Memory>
    requires { FitsBound (H.bound heap) (length (bytes.old.items ++ slot_bytes slot.now)) }
    ensures { OnOkUnless (H.may_refuse heap) result (bytes.new.items ≡ bytes.old.items ++ slot_bytes slot.now) }
{
    push_name(heap, bytes, &slot.name)?;
    push_number(heap, bytes, kind_bits(slot.shape.kind))?;
    push_number(heap, bytes, slot.shape.length)?;
    push_number(heap, bytes, slot.address)
}

fn push_slots<H: BoundedHeap>(heap: H, bytes: &mut Vec<u8>, slots: &[Slot]) -> Result<(), Memory>
    requires few { length slots.now ≤ 200 }
    requires short { FitsBound (H.bound heap) (length (bytes.old.items ++ counted_bytes slot_bytes slots.now)) }
    ensures { OnOkUnless (H.may_refuse heap) result
        (bytes.new.items ≡ bytes.old.items ++ counted_bytes slot_bytes slots.now) }
{
    push_number(heap, bytes, slots.len() as u32)?;
    for slot in slots {
        push_slot(heap, bytes, slot)?;
    }
    Ok(())
}

fn push_words<H: BoundedHeap>(heap: H, bytes: &mut Vec<u8>, words: &[u32]) -> Result<(), Memory>
    requires few { length words.now ≤ 2 ^ 20 }
    requires short { FitsBound (H.bound heap) (length (bytes.old.items ++ counted_bytes number_bytes words.now)) }
    ensures { OnOkUnless (H.may_refuse heap) result
        (bytes.new.items ≡ bytes.old.items ++ counted_bytes number_bytes words.now) }
{
    push_number(heap, bytes, words.len() as u32)?;
    push_numbers(heap, bytes, words)
}

/// A variable by its name, the number of its kind, its length and its offset.
fn push_variable<H: BoundedHeap>(
    heap: H,
    bytes: &mut Vec<u8>,
    variable: &VarInfo,
) -> Result<(), Memory>
    requires { FitsBound (H.bound heap) (length (bytes.old.items ++ variable_bytes variable.now)) }
    ensures { OnOkUnless (H.may_refuse heap) result (bytes.new.items ≡ bytes.old.items ++ variable_bytes variable.now) }
{
    push_name(heap, bytes, &variable.name)?;
    push_number(heap, bytes, kind_bits(variable.shape.kind))?;
    push_number(heap, bytes, variable.shape.length)?;
    push_number(heap, bytes, variable.offset)
}

fn push_variables<H: BoundedHeap>(
    heap: H,
    bytes: &mut Vec<u8>,
    variables: &[VarInfo],
) -> Result<(), Memory>
    requires few { length variables.now ≤ 200 }
    requires short { FitsBound (H.bound heap) (length (bytes.old.items ++ counted_bytes variable_bytes variables.now)) }
    ensures { OnOkUnless (H.may_refuse heap) result
        (bytes.new.items ≡ bytes.old.items ++ counted_bytes variable_bytes variables.now) }
{
    push_number(heap, bytes, variables.len() as u32)?;
    for variable in variables {
        push_variable(heap, bytes, variable)?;
    }
    Ok(())
}

/// A procedure by its name, its conditions and its variables.
fn push_procedure<H: BoundedHeap>(
    heap: H,
    bytes: &mut Vec<u8>,
    procedure: &ProcInfo,
) -> Result<(), Memory>
    requires conditions { length procedure.now.conditions ≤ 201 }
    requires variables { length procedure.now.variables ≤ 200 }
    requires short { FitsBound (H.bound heap) (length (bytes.old.items ++ procedure_bytes procedure.now)) }
    ensures { OnOkUnless (H.may_refuse heap) result
        (bytes.new.items ≡ bytes.old.items ++ procedure_bytes procedure.now) }
{
    push_name(heap, bytes, &procedure.name)?;
    push_conditions(heap, bytes, &procedure.conditions)?;
    push_variables(heap, bytes, &procedure.variables)
}

fn push_procedures<H: BoundedHeap>(
    heap: H,
    bytes: &mut Vec<u8>,
    procedures: &[ProcInfo],
) -> Result<(), Memory>
    requires count { length procedures.now ≤ 1000 }
    requires small { IsTrue (list_all is_small procedures.now) }
    requires short { FitsBound (H.bound heap)
        (length (bytes.old.items ++ counted_bytes procedure_bytes procedures.now)) }
    ensures { OnOkUnless (H.may_refuse heap) result
        (bytes.new.items ≡ bytes.old.items ++ counted_bytes procedure_bytes procedures.now) }
{
    push_number(heap, bytes, procedures.len() as u32)?;
    for procedure in procedures {
        push_procedure(heap, bytes, procedure)?;
    }
    Ok(())
}

/// A mark by its address, its procedure and its place.
fn push_mark<H: BoundedHeap>(heap: H, bytes: &mut Vec<u8>, mark: &Mark) -> Result<(), Memory>
    requires { FitsBound (H.bound heap) (length (bytes.old.items ++ mark_bytes mark.now)) }
    ensures { OnOkUnless (H.may_refuse heap) result (bytes.new.items ≡ bytes.old.items ++ mark_bytes mark.now) }
{
    push_numbers(heap, bytes, &[mark.address, mark.procedure, mark.place])
}

fn push_marks<H: BoundedHeap>(heap: H, bytes: &mut Vec<u8>, marks: &[Mark]) -> Result<(), Memory>
    requires few { length marks.now ≤ 2 ^ 20 }
    requires short { FitsBound (H.bound heap) (length (bytes.old.items ++ counted_bytes mark_bytes marks.now)) }
    ensures { OnOkUnless (H.may_refuse heap) result
        (bytes.new.items ≡ bytes.old.items ++ counted_bytes mark_bytes marks.now) }
{
    push_number(heap, bytes, marks.len() as u32)?;
    for mark in marks {
        push_mark(heap, bytes, mark)?;
    }
    Ok(())
}

/// The fields that only version 2 has.
fn push_tables<H: BoundedHeap>(
    heap: H,
    bytes: &mut Vec<u8>,
    version: u32,
    procedures: &[ProcInfo],
    marks: &[Mark],
) -> Result<(), Memory>
    requires procedures { length procedures.now ≤ 1000 }
    requires small { IsTrue (list_all is_small procedures.now) }
    requires marks { length marks.now ≤ 2 ^ 20 }
    requires short { let tables : Tables = record { procedures = procedures.now; marks = marks.now } in
        FitsBound (H.bound heap) (length (bytes.old.items ++ tables_bytes version tables)) }
    ensures { let tables : Tables = record { procedures = procedures.now; marks = marks.now } in
        OnOkUnless (H.may_refuse heap) result (bytes.new.items ≡ bytes.old.items ++ tables_bytes version tables) }
{
    if version == UNMARKED_VERSION {
        return Ok(());
    }
    push_procedures(heap, bytes, procedures)?;
    push_marks(heap, bytes, marks)
}

/// The fields before the registers.
fn opening<H: BoundedHeap>(
    heap: H,
    version: u32,
    base: u32,
    size: u32,
    final_pc: u32,
) -> Result<Vec<u8>, Memory>
    requires { FitsBound (H.bound heap)
        (length (opening_bytes version ++ window_bytes (record { base = base; size = size; final_pc = final_pc }))) }
    ensures { IfOkUnless (H.may_refuse heap) result (λ bytes. bytes.items
        ≡ opening_bytes version ++ window_bytes (record { base = base; size = size; final_pc = final_pc })) }
{
    let mut bytes = heap.copied(MAGIC)?;
    push_numbers(heap, &mut bytes, &[version, base, size, final_pc])?;
    Ok(bytes)
}

/// The bytes of an image file: the one spelling of the image.
#[tactic(auto, unfolding(crate::specs::Spelling::spelling))]
pub fn write_image<H: BoundedHeap>(heap: H, image: &Image) -> Result<Vec<u8>, Memory>
    requires { FitsBound (H.bound heap) (length (spelling image.now)) }
    ensures { IfOkUnless (H.may_refuse heap) result (λ bytes. bytes.items ≡ spelling image.now) }
{
    let mut bytes = opening(heap, image.version, image.base, image.size, image.final_pc)?;
    push_numbers(heap, &mut bytes, &image.registers)?;
    push_number(heap, &mut bytes, image.flags.bits())?;
    push_number(heap, &mut bytes, address_bits(image.condition_address))?;
    push_conditions(heap, &mut bytes, &image.conditions)?;
    push_slots(heap, &mut bytes, &image.slots)?;
    push_words(heap, &mut bytes, &image.words)?;
    push_tables(
        heap,
        &mut bytes,
        image.version,
        &image.procedures,
        &image.marks,
    )?;
    Ok(bytes)
}

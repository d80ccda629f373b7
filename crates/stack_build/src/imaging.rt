//! The image of a linked system, and that of a source whose system was generated.
ghost use Rattle.std.specs.Prelude.{◌≡◌, ◌≤◌, ◌^◌, ◌∷◌, IfOk, IfErr, map};
ghost use Rattle.stack_heap.specs.Heaps.{IfOkUnless};
ghost use Rattle.display_maps.specs.Reading.{space_name};
ghost use Rattle.piton_check.specs.PitonChecking.{IsChecked};
ghost use Rattle.piton_semantics.specs.{Fits.{system_in}, Placed.{placed}};
ghost use Rattle.piton_linker.specs.{Layouts.{places_of, IsFaultUnless}, Theorem.{RunsOnProcessor}};
ghost use Rattle.gypsy_syntax.specs.{Resolved.{program_of, shape_of}, Views.SourceView.{source_of}};
ghost use Rattle.gypsy_check.specs.Accepted.{IsAccepted};
ghost use Rattle.gypsy_space.specs.{Events.{AreNeeds}, Nodes.{declared_names, seen_proc_names, seen_program}};
ghost use Rattle.stack_build.specs.{Image.{slots_from, linked_image, image_on}, Internal.Listing.{IsGenerated}, Internal.Showing.{HaveShortArrays}};

use crate::shown::{formal_conditions, shown_formals};
use crate::tables::tables;
use display_maps::space_name;
use fm_image::{Image, Slot, bare_image};
use gypsy_check::Accepted;
use gypsy_space::{Needs, Program};
use gypsy_syntax::{Decl, TypeText};
use piton_check::Checked;
use piton_linker::{LinkFault, Linked, layout_behind, link};
use stack_heap::Heap;
use stack_text::{MOST_ARRAY, Memory, Name, Named, Shape};

/// The image of a linked system, and the address of each instruction of each program.
fn placed_image<H: Heap>(heap: H, piton: &Checked) -> Result<(Image, Vec<Vec<u32>>), LinkFault>
    requires { IsChecked piton.now }
    ensures image { IfOk result (λ linked. linked.0 ≡ linked_image (system_in piton.now)) }
    ensures places { IfOk result
        (λ linked. map (λ row. row.items) linked.1.items
        ≡ places_of (system_in piton.now) 0 (system_in piton.now).programs) }
    ensures small { IfOk result (λ linked. (placed (system_in piton.now)).size ≤ 2 ^ 20) }
    ensures fault { IfErr result (IsFaultUnless (H.may_refuse heap) (system_in piton.now)) }
    ensures runs { IfOk result (λ linked. RunsOnProcessor (system_in piton.now)) }
{
    let Linked {
        base,
        size,
        final_pc,
        registers,
        words,
        places,
    } = link(heap, piton)?;
    let image = bare_image(heap.handle(), base, size, final_pc, registers, words);
    Ok((image, places))
}

/// The image of a linked system, which tells of no source: it has no condition word, no slot, no procedure and no mark.
///
/// # Errors
///
/// The placed words of the system are over 1,048,576, or memory runs out.
pub fn linked_image<H: Heap>(heap: H, piton: &Checked) -> Result<Image, LinkFault>
    requires { IsChecked piton.now }
    ensures image { IfOk result (λ image. image ≡ linked_image (system_in piton.now)) }
    ensures small { IfOk result (λ image. (placed (system_in piton.now)).size ≤ 2 ^ 20) }
    ensures fault { IfErr result (IsFaultUnless (H.may_refuse heap) (system_in piton.now)) }
{
    let (image, _places) = placed_image(heap, piton)?;
    Ok(image)
}

/// The shape of a type that keeps the rules.
fn shape_of(text: TypeText) -> Shape
    requires { (shape_of text).length ≤ 4096 }
    ensures { result ≡ shape_of text }
{
    let length = match text.length {
        Some(length) if 0 <= length && length <= i128::from(MOST_ARRAY) => length as u32,
        _ => 0,
    };
    Shape {
        kind: text.kind,
        length,
    }
}

/// The formals, each with the address of its first item: the first at `address`, each further one below the items
/// before it.
pub fn slots_from<H: Heap>(heap: H, address: u32, formals: &[Decl]) -> Result<Vec<Slot>, Memory>
    requires { HaveShortArrays formals.now }
    ensures { IfOkUnless (H.may_refuse heap) result (λ slots. slots.items ≡ slots_from address formals.now) }
{
    let mut slots = Vec::new(heap.handle());
    let mut next = address;
    for formal in formals {
        let shape = shape_of(formal.shape);
        let name = formal.name.name.copied(heap)?;
        let slot = Slot {
            name,
            shape,
            address: next,
        };
        heap.push(&mut slots, slot)?;
        next = next.saturating_sub(shape.item_count() as u32);
    }
    Ok(slots)
}

/// The names of spaceerror and of these conditions.
fn names<H: Heap>(heap: H, conditions: &[Named]) -> Result<Vec<Name>, Memory>
    ensures { IfOkUnless (H.may_refuse heap) result
        (λ names. names.items ≡ space_name ∷ map (λ n. n.name) conditions.now) }
{
    let mut names = Vec::new(heap.handle());
    heap.push(&mut names, space_name(heap)?)?;
    for condition in conditions {
        heap.push(&mut names, condition.name.copied(heap)?)?;
    }
    Ok(names)
}

/// The image of a source from its system.
pub fn image<H: Heap>(
    heap: H,
    accepted: &Accepted,
    program: &Program,
    needs: &Needs,
    piton: &Checked,
) -> Result<Image, LinkFault>
    requires checked { IsChecked piton.now }
    requires program { seen_program program.now ≡ program_of (source_of accepted.now) }
    requires names { map seen_proc_names program.now.procedures.items
        ≡ map declared_names (source_of accepted.now).procs }
    requires needs { AreNeeds (program_of (source_of accepted.now)) needs.now.procedures.items }
    requires generated { IsGenerated (source_of accepted.now) (system_in piton.now) }
    ensures image { IfOk result (λ image. image ≡ image_on (source_of accepted.now) (system_in piton.now)) }
    ensures small { IfOk result (λ image. (placed (system_in piton.now)).size ≤ 2 ^ 20) }
    ensures fault { IfErr result (IsFaultUnless (H.may_refuse heap) (system_in piton.now)) }
    ensures runs { IfOk result (λ image. RunsOnProcessor (system_in piton.now)) }
    ensures accepted { IfOk result (λ image. IsAccepted (source_of accepted.now)) }
{
    let (linked, places) = placed_image(heap, piton)?;
    let source = accepted.source();
    let parts = layout_behind(piton, u64::from(linked.final_pc));
    let bottom = parts.end - 1;
    let (procedures, marks) = tables(heap, accepted, program, needs, &places)?;
    Ok(Image {
        condition_address: Some(parts.areas_start as u32),
        conditions: names(heap, formal_conditions(source))?,
        slots: slots_from(heap, bottom as u32, shown_formals(source))?,
        procedures,
        marks,
        ..linked
    })
}

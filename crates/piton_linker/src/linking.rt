//! Linked systems.

ghost use Rattle.std.specs.Prelude.{◌≡◌, ◌≤◌, IfOk, IfErr, map};
ghost use Rattle.stack_heap.specs.Heaps.{IfOkUnless};
ghost use Rattle.fm_words.specs.WindowLimit.{most_window};
ghost use Rattle.piton_semantics.specs.{Fits.{system_in}, Placed.{placed}};
ghost use Rattle.piton_linker.specs.{Layouts.{layout_of, places_of, trimmed, IsFaultUnless}, Theorem.{RunsOnProcessor}};

use crate::fault::LinkFault;
use crate::memory::{memory, registers, trim};
use crate::placement::Layout;
use crate::sizes::layout;
use crate::table::completed;
use crate::words::{Pass, code};
use fm_words::MOST_WINDOW;
use piton_check::Checked;
use stack_heap::Heap;
use stack_text::Memory;

/// A system with all its words in their places.
#[derive(Debug, Drop)]
pub struct Linked {
    /// The first address.
    pub base: u32,
    /// How many words the memory has from there on.
    pub size: u32,
    /// The address after the code, where the program has ended.
    pub final_pc: u32,
    /// The sixteen registers at the start.
    pub registers: Vec<u32>,
    /// The words from the first address on, up to the last that isn't zero.
    pub words: Vec<u32>,
    /// The address of each instruction of each program.
    pub places: Vec<Vec<u32>>,
}

/// Links a system: gives each program, area and stack its place in memory, and each instruction its words.
///
/// Each run of the system without an error is then one of its words on the processor, in as many instructions as the
/// steps cost. The time is linear in the words.
///
/// # Errors
///
/// Its placed words are over 1,048,576, or memory runs out.
pub fn link<H: Heap>(heap: H, checked: &Checked) -> Result<Linked, LinkFault>
    ensures small { IfOk result (λ linked. (placed (system_in checked.now)).size ≤ most_window) }
    ensures fault { IfErr result (IsFaultUnless (H.may_refuse heap) (system_in checked.now)) }
    ensures base { IfOk result (λ linked. linked.base ≡ (system_in checked.now).base) }
    ensures size { IfOk result (λ linked. linked.size ≡ (placed (system_in checked.now)).size) }
    ensures final_pc { IfOk result (λ linked. linked.final_pc ≡ (placed (system_in checked.now)).final_pc) }
    ensures registers { IfOk result (λ linked. linked.registers.items ≡ (placed (system_in checked.now)).registers) }
    ensures words { IfOk result (λ linked. linked.words.items ≡ trimmed (placed (system_in checked.now)).words) }
    ensures places { IfOk result
        (λ linked. map (λ row. row.items) linked.places.items
        ≡ places_of (system_in checked.now) 0 (system_in checked.now).programs) }
    ensures runs { IfOk result (λ linked. RunsOnProcessor (system_in checked.now)) }
{
    let parts = layout(checked);
    if parts.size > u64::from(MOST_WINDOW) {
        return Err(LinkFault::Large { words: parts.size });
    }
    Ok(link_small(heap, checked, parts)?)
}

/// Links a system whose placed words are few enough.
#[tactic(auto, using(crate::proofs::ProcessorLaws::checked_end))]
fn link_small<H: Heap>(heap: H, checked: &Checked, parts: Layout) -> Result<Linked, Memory>
    requires small { (placed (system_in checked.now)).size ≤ most_window }
    requires parts { parts ≡ layout_of (system_in checked.now) }
    ensures base { IfOkUnless (H.may_refuse heap) result (λ linked. linked.base ≡ (system_in checked.now).base) }
    ensures size { IfOk result (λ linked. linked.size ≡ (placed (system_in checked.now)).size) }
    ensures final_pc { IfOk result (λ linked. linked.final_pc ≡ (placed (system_in checked.now)).final_pc) }
    ensures registers { IfOk result (λ linked. linked.registers.items ≡ (placed (system_in checked.now)).registers) }
    ensures words { IfOk result (λ linked. linked.words.items ≡ trimmed (placed (system_in checked.now)).words) }
    ensures places { IfOk result
        (λ linked. map (λ row. row.items) linked.places.items
        ≡ places_of (system_in checked.now) 0 (system_in checked.now).programs) }
    ensures runs { IfOk result (λ linked. RunsOnProcessor (system_in checked.now)) }
{
    let resolved = checked.resolved();
    let Pass {
        draft,
        entries,
        places,
    } = code(heap, checked)?;
    let table = completed(heap, resolved, parts, entries, places)?;
    let registers = registers(heap, &table, checked, parts)?;
    let code = draft.complete(&table, resolved);
    let mut words = memory(heap, code, &table, checked, parts.final_pc as u32)?;
    trim(&mut words);
    Ok(Linked {
        base: resolved.base,
        size: parts.size as u32,
        final_pc: parts.final_pc as u32,
        registers,
        words,
        places: table.places,
    })
}

//! What a run of Piton's machine says of variables.

ghost use Rattle.std.specs.{Prelude.{◌≡◌, ◌≤◌, length, map, unwrap_or}, List.{list_all}, Option.{option_map}};
ghost use Rattle.stack_heap.specs.Heaps.{IfOkUnless};
ghost use Rattle.stack_text.specs.Values.{item_count};
ghost use Rattle.fm_machine.specs.State.{word_at};
ghost use Rattle.display_maps.specs.Reading.{condition_of, item_of};
ghost use Rattle.piton_check.specs.Instruction.{system_view};
ghost use Rattle.level_debuggers.specs.PitonReadings.{area_words, element_at, covers, elements_down, variable_at};

use display_maps::{Shown, condition_of, item_of};
use fm_image::Slot;
use piton_check::Resolved;
use piton_machine::State;
use piton_words::Word;
use stack_heap::Heap;
use stack_text::{Memory, Name};

/// The element at an address, where the stack ends below `above`; 0 where there is none.
fn element_at(above: u64, elements: &[u32], address: u32) -> u32
    ensures { result ≡ element_at above elements.now address }
{
    let place = above.saturating_sub(1).saturating_sub(u64::from(address)) as usize;
    elements.get(place).copied().unwrap_or(0)
}

/// Whether the stack has an element for each item of a slot.
fn covers(above: u64, elements: &[u32], slot: &Slot) -> bool
    ensures { result ≡ covers above elements.now slot.now }
{
    let needed = u128::from(above) + slot.shape.item_count() as u128;
    u64::from(slot.address) < above
        && needed <= u128::from(slot.address) + 1 + elements.len() as u128
}

/// Whether the stack has an element for each item of all slots.
pub(crate) fn covers_all(above: u64, elements: &[u32], slots: &[Slot]) -> bool
    ensures { result ≡ list_all (covers above elements.now) slots.now }
{
    slots.iter().all(|slot| covers(above, elements, slot))
}

/// The items of a variable, from its address downwards.
fn items_of<H: Heap>(
    heap: H,
    above: u64,
    elements: &[u32],
    slot: &Slot,
) -> Result<Vec<Shown>, Memory>
    ensures { IfOkUnless (H.may_refuse heap) result (λ items. items.items
        ≡ map (item_of slot.now.shape.kind)
        (elements_down above elements.now slot.now.address (item_count slot.now.shape))) }
{
    let mut items = Vec::new(heap.handle());
    let mut address = slot.address;
    for _ in 0..slot.shape.item_count() {
        heap.push(
            &mut items,
            item_of(slot.shape.kind, element_at(above, elements, address)),
        )?;
        address = address.saturating_sub(1);
    }
    Ok(items)
}

/// The variables, each by its name and its items.
pub(crate) fn variables<H: Heap>(
    heap: H,
    above: u64,
    elements: &[u32],
    slots: &[Slot],
) -> Result<Vec<(Name, Vec<Shown>)>, Memory>
    ensures { IfOkUnless (H.may_refuse heap) result (λ variables.
        map (λ item. (item.0, item.1.items)) variables.items ≡ map (variable_at above elements.now) slots.now) }
{
    let mut variables = Vec::new(heap.handle());
    for slot in slots {
        let items = items_of(heap, above, elements, slot)?;
        heap.push(&mut variables, (slot.name.copied(heap)?, items))?;
    }
    Ok(variables)
}

/// The number at an address, where the first of these stands at `start`.
#[tactic(auto, unfolding(fm_machine::specs::State::word_at))]
pub(crate) fn number_there(start: u64, numbers: &[u32], address: u32) -> Option<u32>
    ensures { result ≡ word_at start numbers.now address }
{
    let address = u64::from(address);
    if address < start {
        return None;
    }
    numbers.get((address - start) as usize).copied()
}

/// The number at an address, where the first of these stands at `start`; 0 where there is none.
fn number_at(start: u64, numbers: &[u32], address: u32) -> u32
    ensures { result ≡ unwrap_or (word_at start numbers.now address) 0 }
{
    number_there(start, numbers, address).unwrap_or(0)
}

/// The condition that the number at an image's condition address says, where the first of these stands at `start`.
pub(crate) fn condition<H: Heap>(
    heap: H,
    names: &[Name],
    address: Option<u32>,
    start: u64,
    numbers: &[u32],
) -> Result<Option<Shown>, Memory>
    ensures { IfOkUnless (H.may_refuse heap) result (λ condition. condition
        ≡ option_map (λ a. condition_of names.now (unwrap_or (word_at start numbers.now a) 0)) address) }
{
    match address {
        Some(address) => {
            let condition = condition_of(heap, names, number_at(start, numbers, address))?;
            Ok(Some(condition))
        }
        None => Ok(None),
    }
}

/// How many areas a system has.
fn area_count(checked: &Resolved) -> u32
    requires { length (system_view checked.now).areas ≤ 1000 }
    ensures { result ≡ length (system_view checked.now).areas }
{
    checked.areas.len() as u32
}

/// The words of all areas of a state of a system, one area after the other.
pub(crate) fn area_words<H: Heap>(
    heap: H,
    checked: &Resolved,
    state: &State,
) -> Result<Vec<Word>, Memory>
    requires few { length (system_view checked.now).areas ≤ 1000 }
    requires same { length state.now.state.areas ≡ length (system_view checked.now).areas }
    ensures { IfOkUnless (H.may_refuse heap) result (λ words. words.items ≡ area_words state.now.state) }
{
    let mut words = Vec::new(heap.handle());
    for area in 0..area_count(checked) {
        heap.extend_from_slice(&mut words, state.area(area))?;
    }
    Ok(words)
}

//! Memory read as a condition and variables.

ghost use Rattle.std.specs.{Prelude.{◌≡◌, map}, List.{find}, Option.{option_map}, Str.{bytes_eq}};
ghost use Rattle.stack_heap.specs.Heaps.{IfOkUnless};
ghost use Rattle.stack_text.specs.Values.{item_count};
ghost use Rattle.display_maps.specs.Reading.{word_or_zero, condition_of, item_of, words_down, variable_of, reading};

use crate::shown::{Shown, condition_of, item_of};
use fm_image::{Image, Slot};
use fm_machine::Machine;
use stack_heap::Heap;
use stack_text::{Memory, Name};
use std::marker::Model;

/// What the memory of an image's machine says.
///
/// Contracts see it as a record of the same fields, with lists in place of the vectors.
#[derive(Debug, Drop)]
pub struct Reading {
    /// The condition, where the image has a condition word.
    pub condition: Option<Shown>,
    /// The name and the items of each variable, in the order of the slots.
    pub items: Vec<(Name, Vec<Shown>)>,
}

impl Model for Reading {
    ghost use Rattle.std.specs.Prelude.{map};
    ghost use Rattle.display_maps.specs.Reading.{ReadingOf};

    ghost Value = { ReadingOf };

    ghost view = { λ r. record { condition = r.condition; items = map (λ item. (item.0, item.1.items)) r.items.items } };
}

impl Reading {
    ghost use Rattle.std.specs.{Prelude.{◌≡◌}, Option.{option_map}};
    ghost use Rattle.display_maps.specs.Reading.{items_named};

    /// The items of the variable of a name, where there is one: a single item, or as many as an array has.
    pub fn items_of(&self, name: &str) -> Option<&[Shown]>
        ensures { option_map (λ items. items.now) result ≡ items_named name.now self.now.items }
    {
        match first_named(&self.items, name) {
            Some((_, items)) => Some(items.as_slice()),
            None => None,
        }
    }
}

/// The first variable of a name.
fn first_named<'a>(
    variables: &'a [(Name, Vec<Shown>)],
    name: &str,
) -> Option<&'a (Name, Vec<Shown>)>
    ensures { option_map (λ variable. variable.now) result
        ≡ find (λ variable. bytes_eq variable.0 name.now) variables.now }
{
    variables
        .iter()
        .find(|variable| variable.0.bytes() == name.as_bytes())
}

/// The word at an address, or 0 outside the window.
fn word_or_zero(machine: &Machine, address: u32) -> u32
    ensures { result ≡ word_or_zero machine.now.state address }
{
    machine.peek(address).unwrap_or(0)
}

/// The condition that the word at an address says.
fn condition_read<H: Heap>(
    heap: H,
    machine: &Machine,
    names: &[Name],
    address: Option<u32>,
) -> Result<Option<Shown>, Memory>
    ensures { IfOkUnless (H.may_refuse heap) result (λ condition.
        condition ≡ option_map (λ a. condition_of names.now (word_or_zero machine.now.state a)) address) }
{
    match address {
        Some(address) => {
            let word = word_or_zero(machine, address);
            Ok(Some(condition_of(heap, names, word)?))
        }
        None => Ok(None),
    }
}

/// The items of a variable, from its address downwards.
fn items_of<H: Heap>(heap: H, machine: &Machine, slot: &Slot) -> Result<Vec<Shown>, Memory>
    ensures { IfOkUnless (H.may_refuse heap) result (λ items. items.items
        ≡ map (item_of slot.now.shape.kind)
        (words_down machine.now.state slot.now.address (item_count slot.now.shape))) }
{
    let mut items = Vec::new(heap.handle());
    let mut address = slot.address;
    for _ in 0..slot.shape.item_count() {
        heap.push(
            &mut items,
            item_of(slot.shape.kind, word_or_zero(machine, address)),
        )?;
        address = address.saturating_sub(1);
    }
    Ok(items)
}

/// The variables, each by its name and its items.
fn variables<H: Heap>(
    heap: H,
    machine: &Machine,
    slots: &[Slot],
) -> Result<Vec<(Name, Vec<Shown>)>, Memory>
    ensures { IfOkUnless (H.may_refuse heap) result (λ variables.
        map (λ item. (item.0, item.1.items)) variables.items ≡ map (variable_of machine.now.state) slots.now) }
{
    let mut variables = Vec::new(heap.handle());
    for slot in slots {
        let items = items_of(heap, machine, slot)?;
        heap.push(&mut variables, (slot.name.copied(heap)?, items))?;
    }
    Ok(variables)
}

/// What memory says: the condition, where the image has a condition word, and the variables.
///
/// The machine has the window of the image. In another window an address that is not there reads as 0.
pub fn read_up<H: Heap>(heap: H, machine: &Machine, image: &Image) -> Result<Reading, Memory>
    ensures { IfOkUnless (H.may_refuse heap) result (λ read. read ≡ reading image.now machine.now.state) }
{
    Ok(Reading {
        condition: condition_read(heap, machine, &image.conditions, image.condition_address)?,
        items: variables(heap, machine, &image.slots)?,
    })
}

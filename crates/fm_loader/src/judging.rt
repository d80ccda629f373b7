//! Judging the entries of a text.

ghost use Rattle.std.specs.{Prelude.{◌≡◌, map, length, replicate, None, Some, IfSome, option_map, slice_get}, List.{list_all}};
ghost use Rattle.stack_heap.specs.Heaps.{IfOkUnless};
ghost use Rattle.stack_text.specs.Gives as memory;
ghost use Rattle.fm_loader.specs.{Rules.{GivesValuesUnless}, Values.{is_within, single_mismatch, array_mismatch, mismatch, value_or_fault, number_of}};
ghost use Rattle.fm_loader.specs.Values.{numbers_of, slot_named, found_in, all_found, HaveOwnNames};
ghost use Rattle.stack_text.specs.Values.{same_kind};

use crate::fault::{Rule, ValuesFault, refused};
use crate::parsed::{Entry, ParsedValue, Scalar};
use fm_image::Slot;
use name_tables::NameList;
use stack_heap::Heap;
use stack_text::{Kind, Memory, Shape, Value};

/// Whether all are of the kind.
fn are_of_kind(kind: Kind, scalars: &[Scalar]) -> bool
    ensures { result ≡ list_all (λ scalar. same_kind kind scalar.kind) scalars.now }
{
    scalars.iter().all(|scalar| kind.is(scalar.kind))
}

/// Whether the number is one that its kind has.
fn is_within(scalar: Scalar) -> bool
    ensures { result ≡ is_within scalar }
{
    match scalar.number {
        Some(number) => scalar.kind.has(number),
        None => false,
    }
}

/// Whether each number is one that its kind has.
fn are_within(scalars: &[Scalar]) -> bool
    ensures { result ≡ list_all is_within scalars.now }
{
    scalars.iter().all(|scalar| is_within(*scalar))
}

/// The rule by which a single value doesn't fit the shape, if there is one.
fn single_mismatch(shape: Shape, scalar: Scalar) -> Option<Rule>
    ensures { result ≡ single_mismatch shape scalar }
{
    if shape.length != 0 || !shape.kind.is(scalar.kind) {
        return Some(Rule::Kind);
    }
    if !is_within(scalar) {
        return Some(Rule::Range);
    }
    None
}

/// The rule by which the values of an array don't fit the shape, if there is one.
fn array_mismatch(shape: Shape, scalars: &[Scalar]) -> Option<Rule>
    ensures { result ≡ array_mismatch shape scalars.now }
{
    if shape.length == 0 || !are_of_kind(shape.kind, scalars) {
        return Some(Rule::Kind);
    }
    if scalars.len() != shape.length as usize {
        return Some(Rule::Length);
    }
    if !are_within(scalars) {
        return Some(Rule::Range);
    }
    None
}

/// The rule by which a value doesn't fit the shape, if there is one.
fn mismatch(shape: Shape, value: &ParsedValue) -> Option<Rule>
    ensures { result ≡ mismatch shape value.now }
{
    match value {
        ParsedValue::Single(scalar) => single_mismatch(shape, *scalar),
        ParsedValue::Several(scalars) => array_mismatch(shape, scalars.as_slice()),
    }
}

/// The number of a single value. Where it has none, the entry is refused before its number counts.
fn number_of(scalar: Scalar) -> i32
    ensures { result ≡ number_of scalar }
{
    scalar.number.unwrap_or(0)
}

/// The numbers of an array's values.
fn array_numbers<H: Heap>(heap: H, scalars: &[Scalar]) -> Result<Vec<i32>, Memory>
    ensures { memory.ReturnsUnless (H.may_refuse heap) (λ numbers. numbers.items) result (map number_of scalars.now) }
{
    let mut numbers = Vec::new(heap.handle());
    for scalar in scalars {
        heap.push(&mut numbers, number_of(*scalar))?;
    }
    Ok(numbers)
}

/// The numbers of a value.
fn numbers<H: Heap>(heap: H, value: &ParsedValue) -> Result<Vec<i32>, Memory>
    ensures { memory.ReturnsUnless (H.may_refuse heap) (λ numbers. numbers.items) result (numbers_of value.now) }
{
    match value {
        ParsedValue::Single(scalar) => array_numbers(heap, &[*scalar]),
        ParsedValue::Several(scalars) => array_numbers(heap, scalars.as_slice()),
    }
}

/// The value of an entry for a slot of the shape, or the fault of the entry.
fn value<H: Heap>(heap: H, shape: Shape, entry: &Entry) -> Result<Value, ValuesFault>
    ensures { GivesValuesUnless (H.may_refuse heap) (λ value. value) result (value_or_fault shape entry.now) }
{
    if let Some(rule) = mismatch(shape, &entry.value) {
        return Err(refused(rule, entry.place));
    }
    let items = numbers(heap, &entry.value)?;
    Ok(Value { shape, items })
}

/// The names of the slots, in their order.
fn names<'a, H: Heap>(heap: H, slots: &'a [Slot]) -> Result<NameList<'a>, Memory>
    requires { HaveOwnNames slots.now }
    ensures { IfOkUnless (H.may_refuse heap) result (λ names. names ≡ map (λ slot. slot.name) slots.now) }
{
    let mut names = NameList::new(heap.handle());
    for slot in slots {
        names.enter(heap, slot.name.bytes())?;
    }
    Ok(names)
}

/// No value for each slot.
fn nothing_found<H: Heap>(heap: H, slots: &[Slot]) -> Result<Vec<Option<Value>>, Memory>
    ensures { memory.ReturnsUnless (H.may_refuse heap) (λ found. found.items) result
        (replicate (length slots.now) None) }
{
    let mut found = Vec::new(heap.handle());
    for _ in 0..slots.len() {
        heap.push(&mut found, None)?;
    }
    Ok(found)
}

/// The slot of a name, with its position.
fn slot_named<'a>(names: &NameList<'_>, slots: &'a [Slot], name: &[u8]) -> Option<(usize, &'a Slot)>
    requires { names.now ≡ map (λ slot. slot.name) slots.now }
    ensures slot { option_map (λ found. found.1.now) result ≡ slot_named name.now slots.now }
    ensures position { IfSome result (λ found. slice_get slots.now found.0 ≡ Some found.1.now) }
{
    let index = names.place(name)?;
    let slot = slots.get(index)?;
    Some((index, slot))
}

/// What each slot gets of the entries: none without one.
pub(crate) fn found<H: Heap>(
    heap: H,
    slots: &[Slot],
    entries: &[Entry],
) -> Result<Vec<Option<Value>>, ValuesFault>
    requires { HaveOwnNames slots.now }
    ensures { GivesValuesUnless (H.may_refuse heap) (λ found. found.items) result (found_in slots.now entries.now) }
{
    let names = names(heap, slots)?;
    let mut found = nothing_found(heap, slots)?;
    for entry in entries {
        let place = entry.place;
        let Some((index, slot)) = slot_named(&names, slots, entry.name.bytes()) else {
            return Err(refused(Rule::Unknown, place));
        };
        if found[index].is_some() {
            return Err(refused(Rule::Repeated, place));
        }
        found[index] = Some(value(heap, slot.shape, entry)?);
    }
    Ok(found)
}

/// The values that were found, where each is there.
pub(crate) fn all_found<H: Heap>(
    heap: H,
    place: u32,
    found: Vec<Option<Value>>,
) -> Result<Vec<Value>, ValuesFault>
    ensures { GivesValuesUnless (H.may_refuse heap) (λ values. values.items) result (all_found place found.items) }
{
    let mut values = Vec::new(heap.handle());
    for value in found {
        match value {
            Some(value) => heap.push(&mut values, value)?,
            None => return Err(refused(Rule::Missing, place)),
        }
    }
    Ok(values)
}

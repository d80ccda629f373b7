//! Loading an image.

ghost use Rattle.std.specs.Prelude.{◌≡◌, ◌+◌, ◌/◌, ◌≤◌, ◌<◌, ◌^◌, length, OnErr};
ghost use Rattle.stack_heap.specs.Heaps.{IfOkUnless, RefusesWithin};
ghost use Rattle.fm_machine.specs.State.{with_word};
ghost use Rattle.stack_text.specs.Values.{item_count};
ghost use Rattle.fm_loader.specs.Loaded.{Fits, HaveRoom, with_words, with_items, with_values, loaded};

use fm_image::{Image, Slot};
use fm_machine::{Machine, NewFault};
use fm_words::word_of_int;
use stack_heap::Heap;
use stack_text::{Memory, Value};

/// Sets a word of the window from the base on. Beyond the end of the window there is nothing to set.
fn set(machine: &mut Machine, base: u32, address: u32, word: u32)
    requires base { machine.old.state.base ≡ base }
    requires above { base ≤ address }
    ensures { machine.new.state
        ≡ record machine.old.state { memory = with_word base machine.old.state.memory address word } }
{
    let _ = machine.poke(address, word);
}

/// Sets words from the base upwards.
fn set_words(machine: &mut Machine, base: u32, words: &[u32])
    requires base { machine.old.state.base ≡ base }
    requires few { base + length words.now < 2 ^ 32 }
    ensures { machine.new.state
        ≡ record machine.old.state { memory = with_words base base words.now machine.old.state.memory } }
{
    for (place, word) in words.iter().enumerate() {
        set(machine, base, base + place as u32, *word);
    }
}

/// Sets items from an address downwards.
fn set_items(machine: &mut Machine, base: u32, address: u32, items: &[i32])
    requires base { machine.old.state.base ≡ base }
    requires room { base + length items.now ≤ address + 1 }
    ensures { machine.new.state
        ≡ record machine.old.state { memory = with_items base address items.now machine.old.state.memory } }
{
    for (place, item) in items.iter().enumerate() {
        set(machine, base, address - place as u32, word_of_int(*item));
    }
}

/// Sets a value in the words from an address downwards.
fn set_value(machine: &mut Machine, base: u32, address: u32, value: &Value)
    requires base { machine.old.state.base ≡ base }
    requires room { base + item_count value.now.shape ≤ address + 1 }
    ensures { machine.new.state
        ≡ record machine.old.state { memory = with_items base address value.now.items machine.old.state.memory } }
{
    set_items(machine, base, address, value.items.as_slice());
}

/// Sets the value of each slot.
fn set_values(machine: &mut Machine, base: u32, slots: &[Slot], values: &[Value])
    requires base { machine.old.state.base ≡ base }
    requires room { HaveRoom base slots.now }
    requires fits { Fits slots.now values.now }
    ensures { machine.new.state
        ≡ record machine.old.state { memory = with_values base slots.now values.now machine.old.state.memory } }
{
    for (place, slot) in slots.iter().enumerate() {
        match values.get(place) {
            Some(value) => set_value(machine, base, slot.address, value),
            None => return,
        }
    }
}

/// Sets all registers.
fn set_registers(machine: &mut Machine, registers: &[u32])
    requires sixteen { length registers.now ≡ 16 }
    requires all { length machine.old.state.registers ≡ 16 }
    ensures { machine.new.state ≡ record machine.old.state { registers = registers.now } }
{
    for (number, word) in registers.iter().enumerate() {
        machine.set_register(number as u8, *word);
    }
}

/// The machine of an image, with a value of its shape in each slot.
///
/// The window is zero but for the image's words, from its base on, and the values: the item j of a value, counted from
/// 0, is at the slot's address minus j. Registers and flags are the image's.
pub fn load<H: Heap>(heap: H, image: &Image, values: &[Value]) -> Result<Machine, Memory>
    requires { Fits image.now.slots values.now }
    ensures value { IfOkUnless (H.may_refuse heap) result
        (λ machine. machine.state ≡ loaded image.now values.now) }
    ensures room { OnErr result (RefusesWithin (H.may_refuse_room heap) (image.now.size / 256 + 2)) }
{
    let base = image.base;
    let mut machine = match Machine::new(heap, base, image.size) {
        Ok(machine) => machine,
        Err(NewFault::Memory) => return Err(Memory),
        Err(NewFault::Size) => unreachable!(),
    };
    set_registers(&mut machine, image.registers.as_slice());
    machine.set_flags(image.flags);
    set_words(&mut machine, base, image.words.as_slice());
    set_values(&mut machine, base, image.slots.as_slice(), values);
    Ok(machine)
}

//! Choices, as trees of choices of two.

ghost use Rattle.std.specs.Prelude.{◌≡◌, ◌≤◌, ◌++◌, codes, length, OnOk};
ghost use Rattle.fm_netlist.specs.Pieces.{pin_text, choice_0, choice_1, choice_2, choice_3, choice_4, word_0, word_1, word_2, word_3, word_4};

use crate::bits::{FileBit, PinBit, push, push_bit};
use fm_circuit::Pin;
use stack_text::Memory;
use std::alloc::Global;

/// Appends how a choice begins, with the bit by which it is made.
fn push_by(alloc: Global, text: &mut Vec<u8>, by: Pin, i: u32) -> Result<(), Memory>
    ensures { OnOk result (text.new.items ≡ text.old.items ++ (codes "(" ++ pin_text by i ++ codes " ? ")) }
{
    let bit = PinBit(by, i);
    let line = format!(in alloc; "({bit} ? ")?;
    Ok(text.extend_from_slice(line.as_bytes())?)
}

/// Appends a bit of the first of several pins.
#[tactic(auto, unfolding(crate::specs::Pieces::choice_0))]
fn choose_0(alloc: Global, text: &mut Vec<u8>, by: Pin, among: &[Pin], i: u32) -> Result<(), Memory>
    ensures { OnOk result (text.new.items ≡ text.old.items ++ choice_0 by among.now i) }
{
    match among.first() {
        Some(pin) => push_bit(alloc, text, *pin, i),
        None => push(text, "1'd0"),
    }
}

/// Appends a bit of one of 2 pins, by the lowest 1 bit of a pin.
#[tactic(auto, unfolding(crate::specs::Pieces::choice_1))]
pub(crate) fn choose_1(
    alloc: Global,
    text: &mut Vec<u8>,
    by: Pin,
    among: &[Pin],
    i: u32,
) -> Result<(), Memory>
    requires { 2 ≤ length among.now }
    ensures { OnOk result (text.new.items ≡ text.old.items ++ choice_1 by among.now i) }
{
    push_by(alloc, text, by, 0)?;
    choose_0(alloc, text, by, &among[1..], i)?;
    push(text, " : ")?;
    choose_0(alloc, text, by, among, i)?;
    push(text, ")")
}

/// Appends a bit of one of 4 pins, by the lowest 2 bits of a pin.
#[tactic(auto, unfolding(crate::specs::Pieces::choice_2))]
pub(crate) fn choose_2(
    alloc: Global,
    text: &mut Vec<u8>,
    by: Pin,
    among: &[Pin],
    i: u32,
) -> Result<(), Memory>
    requires { 4 ≤ length among.now }
    ensures { OnOk result (text.new.items ≡ text.old.items ++ choice_2 by among.now i) }
{
    push_by(alloc, text, by, 1)?;
    choose_1(alloc, text, by, &among[2..], i)?;
    push(text, " : ")?;
    choose_1(alloc, text, by, among, i)?;
    push(text, ")")
}

/// Appends a bit of one of 8 pins, by the lowest 3 bits of a pin.
#[tactic(auto, unfolding(crate::specs::Pieces::choice_3))]
pub(crate) fn choose_3(
    alloc: Global,
    text: &mut Vec<u8>,
    by: Pin,
    among: &[Pin],
    i: u32,
) -> Result<(), Memory>
    requires { 8 ≤ length among.now }
    ensures { OnOk result (text.new.items ≡ text.old.items ++ choice_3 by among.now i) }
{
    push_by(alloc, text, by, 2)?;
    choose_2(alloc, text, by, &among[4..], i)?;
    push(text, " : ")?;
    choose_2(alloc, text, by, among, i)?;
    push(text, ")")
}

/// Appends a bit of one of 16 pins, by the lowest 4 bits of a pin.
#[tactic(auto, unfolding(crate::specs::Pieces::choice_4))]
pub(crate) fn choose_4(
    alloc: Global,
    text: &mut Vec<u8>,
    by: Pin,
    among: &[Pin],
    i: u32,
) -> Result<(), Memory>
    requires { 16 ≤ length among.now }
    ensures { OnOk result (text.new.items ≡ text.old.items ++ choice_4 by among.now i) }
{
    push_by(alloc, text, by, 3)?;
    choose_3(alloc, text, by, &among[8..], i)?;
    push(text, " : ")?;
    choose_3(alloc, text, by, among, i)?;
    push(text, ")")
}

/// Appends a bit of a word of the register file.
#[tactic(auto, unfolding(crate::specs::Pieces::word_0))]
fn word_0(alloc: Global, text: &mut Vec<u8>, by: Pin, r: u8, i: u32) -> Result<(), Memory>
    ensures { OnOk result (text.new.items ≡ text.old.items ++ word_0 by r i) }
{
    let bit = FileBit(r, i);
    let line = format!(in alloc; "{bit}")?;
    Ok(text.extend_from_slice(line.as_bytes())?)
}

/// Appends a bit of one of 2 words of the register file, from one on, by the lowest 1 bit of a pin.
#[tactic(auto, unfolding(crate::specs::Pieces::word_1))]
fn word_1(alloc: Global, text: &mut Vec<u8>, by: Pin, r: u8, i: u32) -> Result<(), Memory>
    requires { r ≤ 14 }
    ensures { OnOk result (text.new.items ≡ text.old.items ++ word_1 by r i) }
{
    push_by(alloc, text, by, 0)?;
    word_0(alloc, text, by, r + 1, i)?;
    push(text, " : ")?;
    word_0(alloc, text, by, r, i)?;
    push(text, ")")
}

/// Appends a bit of one of 4 words of the register file, from one on, by the lowest 2 bits of a pin.
#[tactic(auto, unfolding(crate::specs::Pieces::word_2))]
fn word_2(alloc: Global, text: &mut Vec<u8>, by: Pin, r: u8, i: u32) -> Result<(), Memory>
    requires { r ≤ 12 }
    ensures { OnOk result (text.new.items ≡ text.old.items ++ word_2 by r i) }
{
    push_by(alloc, text, by, 1)?;
    word_1(alloc, text, by, r + 2, i)?;
    push(text, " : ")?;
    word_1(alloc, text, by, r, i)?;
    push(text, ")")
}

/// Appends a bit of one of 8 words of the register file, from one on, by the lowest 3 bits of a pin.
#[tactic(auto, unfolding(crate::specs::Pieces::word_3))]
fn word_3(alloc: Global, text: &mut Vec<u8>, by: Pin, r: u8, i: u32) -> Result<(), Memory>
    requires { r ≤ 8 }
    ensures { OnOk result (text.new.items ≡ text.old.items ++ word_3 by r i) }
{
    push_by(alloc, text, by, 2)?;
    word_2(alloc, text, by, r + 4, i)?;
    push(text, " : ")?;
    word_2(alloc, text, by, r, i)?;
    push(text, ")")
}

/// Appends a bit of a word of the register file, by the lowest 4 bits of a pin.
#[tactic(auto, unfolding(crate::specs::Pieces::word_4))]
pub(crate) fn word_4(alloc: Global, text: &mut Vec<u8>, by: Pin, i: u32) -> Result<(), Memory>
    ensures { OnOk result (text.new.items ≡ text.old.items ++ word_4 by i) }
{
    push_by(alloc, text, by, 3)?;
    word_3(alloc, text, by, 8, i)?;
    push(text, " : ")?;
    word_3(alloc, text, by, 0, i)?;
    push(text, ")")
}

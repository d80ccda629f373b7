//! Bits of pins, carries and words as text.

ghost use Rattle.std.specs.{Prelude.{◌≡◌, ◌++◌, codes, OnOk, Some}, Int.{bit_at}};
ghost use Rattle.fm_netlist.specs.{NetlistText.{carry_text, file_text}, Pieces.{pin_text, between}};

use fm_circuit::{Pin, Wire};
use fm_verilog::name;
use stack_text::Memory;
use std::alloc::Global;
use std::fmt;

/// A bit of a constant, which is 0 from the 32nd on.
pub(crate) fn bit_of(value: u32, i: u32) -> u32
    ensures { result ≡ bit_at value i }
{
    if i < 32 { (value >> i) % 2 } else { 0 }
}

/// A bit of a pin.
#[derive(Clone, Copy)]
pub(crate) struct PinBit(pub(crate) Pin, pub(crate) u32);

impl fmt::Display for PinBit {
    ghost output = { λ bit. Some (pin_text bit.0 bit.1) };

    fn fmt<W: fmt::Write>(&self, f: &mut fmt::Formatter<W>) -> fmt::Result {
        let PinBit(pin, i) = *self;
        match pin {
            Pin::Whole(wire) => {
                let name = name(wire);
                write!(f, "{name}[{i}]")
            }
            Pin::Bits(wire, _, low) => {
                let name = name(wire);
                let at = u64::from(low) + u64::from(i);
                write!(f, "{name}[{at}]")
            }
            Pin::Constant(_, value) => {
                let bit = bit_of(value, i);
                write!(f, "1'd{bit}")
            }
        }
    }
}

/// The carry into a bit of a wire that is a sum.
#[derive(Clone, Copy)]
pub(crate) struct Carry(pub(crate) Wire, pub(crate) u32);

impl fmt::Display for Carry {
    ghost output = { λ bit. Some (carry_text bit.0 bit.1) };

    fn fmt<W: fmt::Write>(&self, f: &mut fmt::Formatter<W>) -> fmt::Result {
        let Carry(wire, i) = *self;
        let name = name(wire);
        write!(f, "{name}_carries[{i}]")
    }
}

/// A bit of a word of the register file.
#[derive(Clone, Copy)]
pub(crate) struct FileBit(pub(crate) u8, pub(crate) u32);

impl fmt::Display for FileBit {
    ghost output = { λ bit. Some (file_text bit.0 bit.1) };

    fn fmt<W: fmt::Write>(&self, f: &mut fmt::Formatter<W>) -> fmt::Result {
        let FileBit(r, i) = *self;
        write!(f, "file_{r}[{i}]")
    }
}

/// Two pins' bits with an operator between them.
#[derive(Clone, Copy)]
pub(crate) struct Differ(pub(crate) Pin, pub(crate) Pin, pub(crate) u32);

impl fmt::Display for Differ {
    ghost output = { λ bit. Some (between (codes " ^ ") bit.0 bit.1 bit.2) };

    fn fmt<W: fmt::Write>(&self, f: &mut fmt::Formatter<W>) -> fmt::Result {
        let Differ(p, q, i) = *self;
        let p = PinBit(p, i);
        let q = PinBit(q, i);
        write!(f, "({p} ^ {q})")
    }
}

/// Appends a text.
pub(crate) fn push(text: &mut Vec<u8>, piece: &str) -> Result<(), Memory>
    ensures { OnOk result (text.new.items ≡ text.old.items ++ piece.now) }
{
    Ok(text.extend_from_slice(piece.as_bytes())?)
}

/// Appends a bit of a pin.
pub(crate) fn push_bit(alloc: Global, text: &mut Vec<u8>, pin: Pin, i: u32) -> Result<(), Memory>
    ensures { OnOk result (text.new.items ≡ text.old.items ++ pin_text pin i) }
{
    let bit = PinBit(pin, i);
    let line = format!(in alloc; "{bit}")?;
    Ok(text.extend_from_slice(line.as_bytes())?)
}

/// Appends two pins' bits with an operator between them.
pub(crate) fn push_between(
    alloc: Global,
    text: &mut Vec<u8>,
    operator: &str,
    p: Pin,
    q: Pin,
    i: u32,
) -> Result<(), Memory>
    ensures { OnOk result (text.new.items ≡ text.old.items ++ between operator.now p q i) }
{
    let p = PinBit(p, i);
    let q = PinBit(q, i);
    let line = format!(in alloc; "({p}{operator}{q})")?;
    Ok(text.extend_from_slice(line.as_bytes())?)
}

//! A small language of circuits of words.

ghost use Rattle.std.specs.Prelude.{◌≡◌};
ghost use Rattle.fm_circuit.specs.Circuit.{pin_width};

use crate::wire::{Wire, width};

/// What an operation takes: a wire, some of its bits, or a constant.
#[derive(Clone, Copy)]
pub enum Pin {
    /// A whole wire.
    Whole(Wire),
    /// The bits of a wire from the first of these numbers down to the second.
    Bits(Wire, u8, u8),
    /// A constant, as its width in bits and its value.
    Constant(u8, u32),
}

/// What drives a wire.
#[derive(Clone, Copy)]
pub enum Driver {
    /// A register: its number, its value at a reset, and what it takes at the end of each cycle.
    Register(u8, u32, Pin),
    /// An input, by its number.
    Input(u8),
    /// The register file's word of this number.
    FileRead(Pin),
    /// Each bit inverted.
    Not(Pin),
    /// The and of both, bit by bit.
    And(Pin, Pin),
    /// The or of both, bit by bit.
    Or(Pin, Pin),
    /// The exclusive or of both, bit by bit.
    Xor(Pin, Pin),
    /// The first above the second.
    Join(Pin, Pin),
    /// The sum of both and a carry, with one bit more.
    Add(Pin, Pin, Pin),
    /// Whether both are equal.
    Equal(Pin, Pin),
    /// One of two by a bit.
    Two(Pin, [Pin; 2]),
    /// One of four by two bits.
    Four(Pin, [Pin; 4]),
    /// One of eight by three bits.
    Eight(Pin, [Pin; 8]),
    /// One of sixteen by four bits.
    Sixteen(Pin, [Pin; 16]),
}

/// How many bits a pin has.
pub fn pin_width(pin: Pin) -> u32
    ensures { result ≡ pin_width pin }
{
    match pin {
        Pin::Whole(wire) => u32::from(width(wire)),
        Pin::Bits(_, high, low) => (u32::from(high) + 1).saturating_sub(u32::from(low)),
        Pin::Constant(width, _) => u32::from(width),
    }
}

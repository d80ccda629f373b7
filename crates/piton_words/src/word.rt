//! Tagged words.

/// A word of Piton: a number, bits or a truth value, or the name of something in the system, by its position from 0.
#[derive(Clone, Copy, Debug, PartialEq, Eq)]
pub enum Word {
    /// An integer from -2^31 to 2^31 - 1.
    Int(i32),
    /// A natural number below 2^32.
    Nat(u32),
    /// A vector of 32 bits.
    Bitv(u32),
    /// A truth value.
    Bool(bool),
    /// A word of a data area, by its offset from 0.
    Addr { area: u32, offset: u32 },
    /// An instruction of a program, by its place from 0.
    Pc { program: u32, place: u32 },
    /// A program.
    Subr { program: u32 },
}

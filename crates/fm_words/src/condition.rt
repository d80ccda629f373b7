//! The four flags, and the sixteen conditions under which an instruction stores its result.

ghost use Rattle.std.specs.Prelude.{◌≡◌};
ghost use Rattle.fm_words.specs.Alu.{does_hold};

/// The four flags of the processor.
#[derive(Clone, Copy, PartialEq, Eq, Debug)]
pub struct Flags {
    /// Carry, or for a subtraction borrow.
    pub c: bool,
    /// Overflow of the signed reading.
    pub v: bool,
    /// Negative: bit 31 of the result.
    pub n: bool,
    /// Zero: no bit of the result is set.
    pub z: bool,
}

impl Flags {
    ghost use Rattle.std.specs.Prelude.{◌<◌};
    ghost use Rattle.fm_words.specs.{Code.{flags_of}, Encoding.{flags_number}};

    /// Each flag clear.
    pub const NONE: Flags = Flags {
        c: false,
        v: false,
        n: false,
        z: false,
    };

    /// The flags of the number 8c + 4v + 2n + z. Above 15 its lowest four bits count.
    #[tactic(auto, using(crate::proofs::FlagsLaws::flags_number_back))]
    pub fn from_bits(number: u32) -> Flags
        ensures value { result ≡ flags_of number }
        ensures back { number < 16 → flags_number result ≡ number }
    {
        Flags {
            c: number / 8 % 2 == 1,
            v: number / 4 % 2 == 1,
            n: number / 2 % 2 == 1,
            z: number % 2 == 1,
        }
    }

    /// The number 8c + 4v + 2n + z of four flags, from 0 to 15.
    #[tactic(auto, using(crate::proofs::FlagsLaws::flags_of_back))]
    pub fn bits(self) -> u32
        ensures value { result ≡ flags_number self }
        ensures below { result < 16 }
        ensures back { flags_of result ≡ self }
    {
        8 * u32::from(self.c) + 4 * u32::from(self.v) + 2 * u32::from(self.n) + u32::from(self.z)
    }
}

/// A store condition, in the order of their numbers from 0 to 15.
#[derive(Clone, Copy, PartialEq, Eq, Debug)]
pub enum Cc {
    /// Carry clear.
    Cc,
    /// Carry set.
    Cs,
    /// Overflow clear.
    Vc,
    /// Overflow set.
    Vs,
    /// Negative clear.
    Nc,
    /// Negative set.
    Ns,
    /// Zero clear.
    Zc,
    /// Zero set.
    Zs,
    /// Higher, of unsigned words.
    Hi,
    /// Lower or the same, of unsigned words.
    Ls,
    /// Greater or equal, of signed words.
    Ge,
    /// Less, of signed words.
    Lt,
    /// Greater, of signed words.
    Gt,
    /// Less or equal, of signed words.
    Le,
    /// Always.
    Al,
    /// Never.
    Nv,
}

/// Whether a store condition holds of the flags.
#[inline(always)]
pub fn holds(cc: Cc, flags: Flags) -> bool
    ensures { result ≡ does_hold cc flags }
{
    let Flags { c, v, n, z } = flags;
    match cc {
        Cc::Cc => !c,
        Cc::Cs => c,
        Cc::Vc => !v,
        Cc::Vs => v,
        Cc::Nc => !n,
        Cc::Ns => n,
        Cc::Zc => !z,
        Cc::Zs => z,
        Cc::Hi => !c && !z,
        Cc::Ls => c || z,
        Cc::Ge => n == v,
        Cc::Lt => n != v,
        Cc::Gt => n == v && !z,
        Cc::Le => n != v || z,
        Cc::Al => true,
        Cc::Nv => false,
    }
}

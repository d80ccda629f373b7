//! The word operations.

/// An operation on the words at the top of the temporary stack. T, S and U are the top word, the second and the third.
#[derive(Clone, Copy, Debug, PartialEq, Eq)]
pub enum WordOp {
    /// Whether S and T, of one tag, are the same.
    Eq,
    /// S + T of two integers.
    AddInt,
    /// S + T of two naturals.
    AddNat,
    /// S - T of two integers.
    SubInt,
    /// S - T of two naturals.
    SubNat,
    /// The address S moved up by the natural T.
    AddAddr,
    /// The address S moved down by the natural T.
    SubAddr,
    /// Whether S < T, two integers.
    LtInt,
    /// Whether S < T, two naturals.
    LtNat,
    /// Whether S < T, two addresses of one area.
    LtAddr,
    /// T + 1 of an integer.
    Add1Int,
    /// T + 1 of a natural.
    Add1Nat,
    /// T - 1 of an integer.
    Sub1Int,
    /// T - 1 of a natural.
    Sub1Nat,
    /// -T.
    NegInt,
    /// T as a natural.
    IntToNat,
    /// 2 T.
    Mult2Nat,
    /// S + T + U of two integers, with the truth value U as 0 or 1: whether that is out of range, and then it wrapped.
    AddIntWithCarry,
    /// S + T + U of two naturals, with the truth value U as 0 or 1: whether that is out of range, and then it wrapped.
    AddNatWithCarry,
    /// S - T - U of two integers, with the truth value U as 0 or 1: whether that is out of range, and then it wrapped.
    SubIntWithCarry,
    /// S - T - U of two naturals, with the truth value U as 0 or 1: whether that is out of range, and then it wrapped.
    SubNatWithCarry,
    /// Whether 2 T is out of range, and then it wrapped.
    Mult2NatWithCarryOut,
    /// T div 2, and then T mod 2.
    Div2Nat,
    /// S or T, bit by bit.
    OrBitv,
    /// S and T, bit by bit.
    AndBitv,
    /// S exclusive-or T, bit by bit.
    XorBitv,
    /// Whether S or T, two truth values, or both are true.
    OrBool,
    /// Whether S and T, two truth values, are both true.
    AndBool,
    /// T with each bit the opposite.
    NotBitv,
    /// T shifted by one bit to the right, with 0 shifted in.
    RshBitv,
    /// T shifted by one bit to the left, with 0 shifted in.
    LshBitv,
    /// The opposite of the truth value T.
    NotBool,
}

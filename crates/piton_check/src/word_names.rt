//! The operations on words, as the text of Piton names them.

ghost use Rattle.std.specs.Prelude.{◌≡◌};
ghost use Rattle.piton_check.specs.WordOperations.{word_operation};

use piton_syntax::PitonOp;
use piton_words::WordOp;

/// The operation on words that an operation is, if it is one.
pub fn word_operation(op: PitonOp) -> Option<WordOp>
    ensures { result ≡ word_operation op }
{
    match op {
        PitonOp::Eq => Some(WordOp::Eq),
        PitonOp::AddInt => Some(WordOp::AddInt),
        PitonOp::AddNat => Some(WordOp::AddNat),
        PitonOp::SubInt => Some(WordOp::SubInt),
        PitonOp::SubNat => Some(WordOp::SubNat),
        PitonOp::AddAddr => Some(WordOp::AddAddr),
        PitonOp::SubAddr => Some(WordOp::SubAddr),
        PitonOp::LtInt => Some(WordOp::LtInt),
        PitonOp::LtNat => Some(WordOp::LtNat),
        PitonOp::LtAddr => Some(WordOp::LtAddr),
        PitonOp::Add1Int => Some(WordOp::Add1Int),
        PitonOp::Add1Nat => Some(WordOp::Add1Nat),
        PitonOp::Sub1Int => Some(WordOp::Sub1Int),
        PitonOp::Sub1Nat => Some(WordOp::Sub1Nat),
        PitonOp::NegInt => Some(WordOp::NegInt),
        PitonOp::IntToNat => Some(WordOp::IntToNat),
        PitonOp::Mult2Nat => Some(WordOp::Mult2Nat),
        PitonOp::AddIntWithCarry => Some(WordOp::AddIntWithCarry),
        PitonOp::AddNatWithCarry => Some(WordOp::AddNatWithCarry),
        PitonOp::SubIntWithCarry => Some(WordOp::SubIntWithCarry),
        PitonOp::SubNatWithCarry => Some(WordOp::SubNatWithCarry),
        PitonOp::Mult2NatWithCarryOut => Some(WordOp::Mult2NatWithCarryOut),
        PitonOp::Div2Nat => Some(WordOp::Div2Nat),
        PitonOp::OrBitv => Some(WordOp::OrBitv),
        PitonOp::AndBitv => Some(WordOp::AndBitv),
        PitonOp::XorBitv => Some(WordOp::XorBitv),
        PitonOp::OrBool => Some(WordOp::OrBool),
        PitonOp::AndBool => Some(WordOp::AndBool),
        PitonOp::NotBitv => Some(WordOp::NotBitv),
        PitonOp::RshBitv => Some(WordOp::RshBitv),
        PitonOp::LshBitv => Some(WordOp::LshBitv),
        PitonOp::NotBool => Some(WordOp::NotBool),
        _ => None,
    }
}

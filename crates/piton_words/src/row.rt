//! The word operations.
ghost use Rattle.std.specs.Prelude.{◌≡◌};
ghost use Rattle.piton_words.specs.OperationRows.{row_of};

use crate::arithmetic::{
    addr_down, addr_up, div2, int_carried, int_difference, int_difference_with_carry, int_sum,
    int_sum_with_carry, int_word, nat_carried, nat_difference, nat_difference_with_carry, nat_sum,
    nat_sum_with_carry, nat_word,
};
use crate::logic::{addr_lt, are_same, bitv_word, bool_word};
use crate::op::WordOp;
use crate::outcome::{Outcome, WordError};
use crate::view::{addr, bitv, int, nat, truth};
use crate::word::Word;

/// One of the operations on the three words at the top of the stack, of which it looks at those that it takes.
///
/// `areas` are the lengths of the data areas; an address that names none of them can't be moved. Tags are judged from
/// the top: [`WordError::Tag`] where one is wrong, and [`WordError::Range`] where all are right and the numbers break
/// the operation's condition. It takes no memory.
pub fn apply(
    op: WordOp,
    third: Word,
    second: Word,
    top: Word,
    areas: &[u32],
) -> Result<Outcome, WordError>
    ensures { result ≡ row_of op third second top areas.now }
{
    match op {
        WordOp::Eq => bool_word(are_same(second, top)?),
        WordOp::AddInt => int_word(int_sum(int(top)?, int(second)?)),
        WordOp::AddNat => nat_word(nat_sum(nat(top)?, nat(second)?)),
        WordOp::SubInt => int_word(int_difference(int(top)?, int(second)?)),
        WordOp::SubNat => nat_word(nat_difference(nat(top)?, nat(second)?)),
        WordOp::AddAddr => addr_up(areas, nat(top)?, addr(second)?),
        WordOp::SubAddr => addr_down(areas, nat(top)?, addr(second)?),
        WordOp::LtInt => bool_word(int(top)? > int(second)?),
        WordOp::LtNat => bool_word(nat(top)? > nat(second)?),
        WordOp::LtAddr => addr_lt(addr(top)?, addr(second)?),
        WordOp::Add1Int => int_word(i64::from(int(top)?) + 1),
        WordOp::Add1Nat => nat_word(i64::from(nat(top)?) + 1),
        WordOp::Sub1Int => int_word(i64::from(int(top)?) - 1),
        WordOp::Sub1Nat => nat_word(i64::from(nat(top)?) - 1),
        WordOp::NegInt => int_word(-i64::from(int(top)?)),
        WordOp::IntToNat => nat_word(i64::from(int(top)?)),
        WordOp::Mult2Nat => nat_word(2 * i64::from(nat(top)?)),
        WordOp::AddIntWithCarry => {
            int_carried(int_sum_with_carry(int(top)?, int(second)?, truth(third)?))
        }
        WordOp::AddNatWithCarry => {
            nat_carried(nat_sum_with_carry(nat(top)?, nat(second)?, truth(third)?))
        }
        WordOp::SubIntWithCarry => {
            int_carried(int_difference_with_carry(int(top)?, int(second)?, truth(third)?))
        }
        WordOp::SubNatWithCarry => {
            nat_carried(nat_difference_with_carry(nat(top)?, nat(second)?, truth(third)?))
        }
        WordOp::Mult2NatWithCarryOut => nat_carried(2 * i64::from(nat(top)?)),
        WordOp::Div2Nat => div2(nat(top)?),
        WordOp::OrBitv => bitv_word(bitv(top)? | bitv(second)?),
        WordOp::AndBitv => bitv_word(bitv(top)? & bitv(second)?),
        WordOp::XorBitv => bitv_word(bitv(top)? ^ bitv(second)?),
        WordOp::OrBool => bool_word(truth(top)? | truth(second)?),
        WordOp::AndBool => bool_word(truth(top)? & truth(second)?),
        WordOp::NotBitv => bitv_word(!bitv(top)?),
        WordOp::RshBitv => bitv_word(bitv(top)? >> 1),
        WordOp::LshBitv => bitv_word(bitv(top)? << 1),
        WordOp::NotBool => bool_word(!truth(top)?),
    }
}

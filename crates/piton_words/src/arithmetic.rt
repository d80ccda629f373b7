//! Numbers and addresses: exact results, and where they are in range.
ghost use Rattle.std.specs.Prelude.{◌≡◌, ◌+ℤ◌, ◌-ℤ◌, ◌/◌, ◌%◌, pos, get_or, Ok};
ghost use Rattle.piton_words.specs.OperationRows.{int_word, nat_word, int_carried, nat_carried, carry, addr_word};

use crate::outcome::{Outcome, WordError};
use crate::word::Word;
use fm_words::{is_int, is_nat, wrapped};

/// An exact number as a word, where it is in range.
pub fn int_word(number: i64) -> Result<Outcome, WordError>
    ensures { result ≡ int_word number }
{
    if !is_int(number) {
        return Err(WordError::Range);
    }
    Ok(Outcome::One(Word::Int(number as i32)))
}

/// An exact number as a word, where it is in range.
pub fn nat_word(number: i64) -> Result<Outcome, WordError>
    ensures { result ≡ nat_word number }
{
    if !is_nat(number) {
        return Err(WordError::Range);
    }
    Ok(Outcome::One(Word::Nat(number as u32)))
}

/// Whether a number is out of range, and then what 32 bits keep of it.
pub fn int_carried(number: i64) -> Result<Outcome, WordError>
    ensures { result ≡ int_carried number }
{
    Ok(Outcome::Two(
        Word::Bool(!is_int(number)),
        Word::Int(wrapped(number).cast_signed()),
    ))
}

/// Whether a number is out of range, and then what 32 bits keep of it.
pub fn nat_carried(number: i64) -> Result<Outcome, WordError>
    ensures { result ≡ nat_carried number }
{
    Ok(Outcome::Two(Word::Bool(!is_nat(number)), Word::Nat(wrapped(number))))
}

// The top is the first argument, since its tag is looked at first.

/// S + T of two integers, which may be no integer of 32 bits.
pub fn int_sum(t: i32, s: i32) -> i64
    ensures { result ≡ s +ℤ t }
{
    i64::from(s) + i64::from(t)
}

/// S + T of two naturals, which may be 2^32 or more.
pub fn nat_sum(t: u32, s: u32) -> i64
    ensures { result ≡ pos s +ℤ pos t }
{
    i64::from(s) + i64::from(t)
}

/// S - T of two integers, which may be no integer of 32 bits.
pub fn int_difference(t: i32, s: i32) -> i64
    ensures { result ≡ s -ℤ t }
{
    i64::from(s) - i64::from(t)
}

/// S - T of two naturals, which may be negative.
pub fn nat_difference(t: u32, s: u32) -> i64
    ensures { result ≡ pos s -ℤ pos t }
{
    i64::from(s) - i64::from(t)
}

/// A sum with a truth value that counts 1.
pub fn int_sum_with_carry(t: i32, s: i32, u: bool) -> i64
    ensures { result ≡ s +ℤ t +ℤ carry u }
{
    int_sum(t, s) + i64::from(u)
}

/// A difference with a truth value that counts 1.
pub fn int_difference_with_carry(t: i32, s: i32, u: bool) -> i64
    ensures { result ≡ s -ℤ t -ℤ carry u }
{
    int_difference(t, s) - i64::from(u)
}

/// A sum with a truth value that counts 1.
pub fn nat_sum_with_carry(t: u32, s: u32, u: bool) -> i64
    ensures { result ≡ pos s +ℤ pos t +ℤ carry u }
{
    nat_sum(t, s) + i64::from(u)
}

/// A difference with a truth value that counts 1.
pub fn nat_difference_with_carry(t: u32, s: u32, u: bool) -> i64
    ensures { result ≡ pos s -ℤ pos t -ℤ carry u }
{
    nat_difference(t, s) - i64::from(u)
}

/// Half of a number, and what is left over.
pub fn div2(t: u32) -> Result<Outcome, WordError>
    ensures { result ≡ Ok (Outcome.Two (Word.Nat (t / 2)) (Word.Nat (t % 2))) }
{
    Ok(Outcome::Two(Word::Nat(t / 2), Word::Nat(t % 2)))
}

/// How many words an area has; none where there is no such area.
fn length_of(areas: &[u32], area: u32) -> u32
    ensures { result ≡ get_or areas.now area 0 }
{
    areas.get(area as usize).copied().unwrap_or(0)
}

/// An address in an area, where the area has such a word.
fn addr_word(areas: &[u32], area: u32, offset: i64) -> Result<Outcome, WordError>
    ensures { result ≡ addr_word areas.now area offset }
{
    if offset < 0 || offset >= i64::from(length_of(areas, area)) {
        return Err(WordError::Range);
    }
    Ok(Outcome::One(Word::Addr {
        area,
        offset: offset as u32,
    }))
}

/// An address moved up.
pub fn addr_up(areas: &[u32], t: u32, address: (u32, u32)) -> Result<Outcome, WordError>
    ensures { result ≡ addr_word areas.now address.0 (pos address.1 +ℤ pos t) }
{
    addr_word(areas, address.0, i64::from(address.1) + i64::from(t))
}

/// An address moved down.
pub fn addr_down(areas: &[u32], t: u32, address: (u32, u32)) -> Result<Outcome, WordError>
    ensures { result ≡ addr_word areas.now address.0 (pos address.1 -ℤ pos t) }
{
    addr_word(areas, address.0, i64::from(address.1) - i64::from(t))
}

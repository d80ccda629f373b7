//! The sixteen operations on words.

ghost use Rattle.std.specs.{Prelude.{◌≡◌, ◌+◌, ◌-◌, ◌%◌, ◌^◌, pos, ◌+ℤ◌, ◌-ℤ◌, nat_lt, not, false, FitsSigned}, Int.{from_bool, int_div_euclid, w32}};
ghost use Rattle.fm_words.specs.{Word.{signed_of, is_int}, Alu.{alu_of, plain}};

use crate::word::{is_int, signed_of};

/// An operation, in the order of their numbers from 0 to 15. Below, `a` and `b` are its operands
/// and `c` is the carry flag as 0 or 1. Sums and differences are taken modulo 2^32.
#[derive(Clone, Copy, PartialEq, Eq, Debug)]
pub enum Op {
    /// `a`.
    Move,
    /// `a + 1`.
    Inc,
    /// `a + b + c`.
    Addc,
    /// `a + b`.
    Add,
    /// `-a`.
    Neg,
    /// `a - 1`.
    Dec,
    /// `b - a - c`.
    Subb,
    /// `b - a`.
    Sub,
    /// `a` shifted right by one, with the carry flag shifted in.
    Ror,
    /// `a` shifted right by one, with its sign bit kept.
    Asr,
    /// `a` shifted right by one, with 0 shifted in.
    Lsr,
    /// The exclusive or of `a` and `b`, bit by bit.
    Xor,
    /// The or of `a` and `b`, bit by bit.
    Or,
    /// The and of `a` and `b`, bit by bit.
    And,
    /// `a` with each bit inverted.
    Not,
    /// `a` again, by the last number.
    M15,
}

/// What an operation gives: its result, and the two flags that the result does not tell.
#[derive(Clone, Copy, PartialEq, Eq, Debug)]
pub struct AluOut {
    /// The result.
    pub word: u32,
    /// The carry, or for a subtraction the borrow, or the bit that a shift drops.
    pub c: bool,
    /// Whether the exact signed result is outside 32 bits.
    pub v: bool,
}

/// One of the sixteen operations on two words and the carry flag. `Asr` halves the signed reading,
/// rounded down.
#[inline(always)]
pub fn alu(op: Op, carry: bool, a: u32, b: u32) -> AluOut
    ensures value { result ≡ alu_of op carry a b }
    ensures halved { op ≡ Op.Asr → signed_of result.word ≡ int_div_euclid (signed_of a) (pos 2) }
{
    match op {
        Op::Move | Op::M15 => plain(a),
        Op::Inc => increment(a),
        Op::Addc => add_with_carry(carry, a, b),
        Op::Add => add(a, b),
        Op::Neg => negate(a),
        Op::Dec => decrement(a),
        Op::Subb => subtract_with_borrow(carry, a, b),
        Op::Sub => subtract(a, b),
        Op::Ror => rotate_right(carry, a),
        Op::Asr => arithmetic_shift_right(a),
        Op::Lsr => logical_shift_right(a),
        Op::Xor => plain(a ^ b),
        Op::Or => plain(a | b),
        Op::And => plain(a & b),
        Op::Not => plain(!a),
    }
}

/// A result with neither carry nor overflow.
fn plain(word: u32) -> AluOut
    ensures { result ≡ plain word }
{
    AluOut {
        word,
        c: false,
        v: false,
    }
}

/// The signed reading of a word, with room for sums.
fn signed(word: u32) -> i64
    ensures value { result ≡ signed_of word }
    ensures fits { FitsSigned w32 result }
{
    i64::from(signed_of(word))
}

/// Whether an exact signed result is outside 32 bits.
fn overflows(exact: i64) -> bool
    ensures { result ≡ not (is_int exact) }
{
    !is_int(exact)
}

fn increment(a: u32) -> AluOut
    ensures { result ≡ alu_of Op.Inc false a 0 }
{
    AluOut {
        word: a.wrapping_add(1),
        c: a == u32::MAX,
        v: overflows(signed(a) + 1),
    }
}

fn decrement(a: u32) -> AluOut
    ensures { result ≡ alu_of Op.Dec false a 0 }
{
    AluOut {
        word: a.wrapping_sub(1),
        c: a == 0,
        v: overflows(signed(a) - 1),
    }
}

fn negate(a: u32) -> AluOut
    ensures { result ≡ alu_of Op.Neg false a 0 }
{
    AluOut {
        word: a.wrapping_neg(),
        c: a > 0,
        v: a == 0x8000_0000,
    }
}

fn add(a: u32, b: u32) -> AluOut
    ensures { result ≡ alu_of Op.Add false a b }
{
    let (word, c) = a.overflowing_add(b);
    let v = overflows(signed(a) + signed(b));
    AluOut { word, c, v }
}

fn add_with_carry(carry: bool, a: u32, b: u32) -> AluOut
    ensures { result ≡ alu_of Op.Addc carry a b }
{
    let (word, c) = a.carrying_add(b, carry);
    let v = overflows(sum_with_carry(carry, signed(a), signed(b)));
    AluOut { word, c, v }
}

/// The exact sum of two readings and a carry.
fn sum_with_carry(carry: bool, s: i64, t: i64) -> i64
    requires first { FitsSigned w32 s }
    requires second { FitsSigned w32 t }
    ensures { result ≡ s +ℤ t +ℤ pos (from_bool carry) }
{
    s + t + i64::from(carry)
}

fn subtract(a: u32, b: u32) -> AluOut
    ensures { result ≡ alu_of Op.Sub false a b }
{
    let (word, c) = b.overflowing_sub(a);
    let v = overflows(signed(b) - signed(a));
    AluOut { word, c, v }
}

fn subtract_with_borrow(borrow: bool, a: u32, b: u32) -> AluOut
    ensures { result ≡ alu_of Op.Subb borrow a b }
{
    let (word, c) = borrowing_difference(borrow, a, b);
    let v = overflows(difference_with_borrow(borrow, signed(b), signed(a)));
    AluOut { word, c, v }
}

/// The difference with a borrow, modulo 2^32, and whether it borrows in turn.
#[tactic(auto, using(crate::proofs::BorrowLaws::borrow_word, crate::proofs::BorrowLaws::borrow_carry))]
fn borrowing_difference(borrow: bool, a: u32, b: u32) -> (u32, bool)
    ensures word { result.0 ≡ (b + 2 ^ 32 - (a + from_bool borrow)) % 2 ^ 32 }
    ensures carry { result.1 ≡ nat_lt b (a + from_bool borrow) }
{
    b.borrowing_sub(a, borrow)
}

/// The exact difference of two readings, less a borrow.
fn difference_with_borrow(borrow: bool, s: i64, t: i64) -> i64
    requires first { FitsSigned w32 s }
    requires second { FitsSigned w32 t }
    ensures { result ≡ s -ℤ t -ℤ pos (from_bool borrow) }
{
    s - t - i64::from(borrow)
}

fn rotate_right(carry: bool, a: u32) -> AluOut
    ensures { result ≡ alu_of Op.Ror carry a 0 }
{
    let half = a / 2;
    AluOut {
        word: if carry { half + 0x8000_0000 } else { half },
        c: a % 2 == 1,
        v: false,
    }
}

/// The sign bit is kept, so the signed reading is halved, rounded down.
#[tactic(auto, using(crate::proofs::ShiftLaws::halved))]
fn arithmetic_shift_right(a: u32) -> AluOut
    ensures value { result ≡ alu_of Op.Asr false a 0 }
    ensures halved { signed_of result.word ≡ int_div_euclid (signed_of a) (pos 2) }
{
    let half = a / 2;
    AluOut {
        word: if a < 0x8000_0000 {
            half
        } else {
            half + 0x8000_0000
        },
        c: a % 2 == 1,
        v: false,
    }
}

fn logical_shift_right(a: u32) -> AluOut
    ensures { result ≡ alu_of Op.Lsr false a 0 }
{
    AluOut {
        word: a / 2,
        c: a % 2 == 1,
        v: false,
    }
}

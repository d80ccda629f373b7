//! Choices whose rows stand by their names.

ghost use Rattle.std.specs.Prelude.{◌≡◌};
ghost use Rattle.fm_circuit.specs.Rows.{by_phase, in_each_phase, by_mode, by_operation, for_each_operation, for_each_sum, by_sum, in_each_sum, by_condition};
ghost use Rattle.fm_circuit.specs.Rows.{by_mask};

use crate::circuit::Pin::{Bits, Whole};
use crate::circuit::{Driver, Pin};
use crate::wire::Wire;

/// What a wire is in each phase.
#[derive(Clone, Copy)]
pub struct ByPhase {
    /// Where memory is asked for the instruction.
    pub fetch: Pin,
    /// Where the instruction comes.
    pub fetched: Pin,
    /// At the first operand.
    pub read_a: Pin,
    /// Where its word comes from memory.
    pub got_a: Pin,
    /// At the second operand.
    pub read_b: Pin,
    /// Where its word comes from memory.
    pub got_b: Pin,
    /// Where the operation is done.
    pub execute: Pin,
    /// Where memory tells whether the result was stored.
    pub stored: Pin,
    /// Where an address was outside.
    pub fault: Pin,
    /// At a number that no phase has.
    pub rest: Pin,
}

/// What a wire is by the mode of the operand that the phase is at.
#[derive(Clone, Copy)]
pub struct ByMode {
    /// A register.
    pub register: Pin,
    /// The word at the register's address.
    pub indirect: Pin,
    /// The same, once the register went down by one.
    pub pre_decrement: Pin,
    /// The same, and then the register goes up by one.
    pub post_increment: Pin,
}

/// What a wire is for each operation.
#[derive(Clone, Copy)]
pub struct ByOperation {
    /// `Op::Move`.
    pub move_: Pin,
    /// `Op::Inc`.
    pub inc: Pin,
    /// `Op::Addc`.
    pub addc: Pin,
    /// `Op::Add`.
    pub add: Pin,
    /// `Op::Neg`.
    pub neg: Pin,
    /// `Op::Dec`.
    pub dec: Pin,
    /// `Op::Subb`.
    pub subb: Pin,
    /// `Op::Sub`.
    pub sub: Pin,
    /// `Op::Ror`.
    pub ror: Pin,
    /// `Op::Asr`.
    pub asr: Pin,
    /// `Op::Lsr`.
    pub lsr: Pin,
    /// `Op::Xor`.
    pub xor: Pin,
    /// `Op::Or`.
    pub or: Pin,
    /// `Op::And`.
    pub and: Pin,
    /// `Op::Not`.
    pub not: Pin,
    /// `Op::M15`.
    pub m15: Pin,
}

/// What a wire of the adder is for each sum and difference.
#[derive(Clone, Copy)]
pub struct BySum {
    /// `a + 1`.
    pub inc: Pin,
    /// `a + b + c`.
    pub addc: Pin,
    /// `a + b`.
    pub add: Pin,
    /// `-a`.
    pub neg: Pin,
    /// `a - 1`.
    pub dec: Pin,
    /// `b - a - c`.
    pub subb: Pin,
    /// `b - a`.
    pub sub: Pin,
    /// The number of no sum.
    pub rest: Pin,
}

/// What a wire is for each store condition.
#[derive(Clone, Copy)]
pub struct ByCondition {
    /// Carry clear.
    pub cc: Pin,
    /// Carry set.
    pub cs: Pin,
    /// Overflow clear.
    pub vc: Pin,
    /// Overflow set.
    pub vs: Pin,
    /// Negative clear.
    pub nc: Pin,
    /// Negative set.
    pub ns: Pin,
    /// Zero clear.
    pub zc: Pin,
    /// Zero set.
    pub zs: Pin,
    /// Unsigned above.
    pub hi: Pin,
    /// Unsigned not above.
    pub ls: Pin,
    /// Signed not below.
    pub ge: Pin,
    /// Signed below.
    pub lt: Pin,
    /// Signed above.
    pub gt: Pin,
    /// Signed not above.
    pub le: Pin,
    /// Always.
    pub al: Pin,
    /// Never.
    pub nv: Pin,
}

/// What a flag becomes by its bit of the instruction's mask.
#[derive(Clone, Copy)]
pub struct ByMask {
    /// The bit of the instruction, 16 to 19.
    pub bit: u8,
    /// Where the instruction doesn't ask for the flag.
    pub unasked: Pin,
    /// Where it does.
    pub asked: Pin,
}

/// A choice by the phase. Seven of its sixteen numbers are no phase.
pub fn by_phase(row: ByPhase) -> Driver
    ensures { result ≡ by_phase row }
{
    Driver::Sixteen(
        Whole(Wire::Phase),
        [
            row.fetch,
            row.fetched,
            row.read_a,
            row.got_a,
            row.read_b,
            row.got_b,
            row.execute,
            row.stored,
            row.fault,
            row.rest,
            row.rest,
            row.rest,
            row.rest,
            row.rest,
            row.rest,
            row.rest,
        ],
    )
}

/// The same in each phase.
pub fn in_each_phase(pin: Pin) -> ByPhase
    ensures { result ≡ in_each_phase pin }
{
    ByPhase {
        fetch: pin,
        fetched: pin,
        read_a: pin,
        got_a: pin,
        read_b: pin,
        got_b: pin,
        execute: pin,
        stored: pin,
        fault: pin,
        rest: pin,
    }
}

/// A choice by the mode.
pub fn by_mode(row: ByMode) -> Driver
    ensures { result ≡ by_mode row }
{
    Driver::Four(
        Whole(Wire::Mode),
        [
            row.register,
            row.indirect,
            row.pre_decrement,
            row.post_increment,
        ],
    )
}

/// A choice by the instruction's operation.
pub fn by_operation(row: ByOperation) -> Driver
    ensures { result ≡ by_operation row }
{
    Driver::Sixteen(
        Bits(Wire::Ir, 27, 24),
        [
            row.move_, row.inc, row.addc, row.add, row.neg, row.dec, row.subb, row.sub, row.ror,
            row.asr, row.lsr, row.xor, row.or, row.and, row.not, row.m15,
        ],
    )
}

/// The same for each operation.
pub fn for_each_operation(pin: Pin) -> ByOperation
    ensures { result ≡ for_each_operation pin }
{
    ByOperation {
        move_: pin,
        inc: pin,
        addc: pin,
        add: pin,
        neg: pin,
        dec: pin,
        subb: pin,
        sub: pin,
        ror: pin,
        asr: pin,
        lsr: pin,
        xor: pin,
        or: pin,
        and: pin,
        not: pin,
        m15: pin,
    }
}

/// One for the seven sums and differences, and another for the rest.
pub fn for_each_sum(sum: Pin, rest: Pin) -> ByOperation
    ensures { result ≡ for_each_sum sum rest }
{
    ByOperation {
        inc: sum,
        addc: sum,
        add: sum,
        neg: sum,
        dec: sum,
        subb: sum,
        sub: sum,
        ..for_each_operation(rest)
    }
}

/// A choice by the instruction's sum or difference, in the lower three bits of its operation.
pub fn by_sum(row: BySum) -> Driver
    ensures { result ≡ by_sum row }
{
    Driver::Eight(
        Bits(Wire::Ir, 26, 24),
        [
            row.rest, row.inc, row.addc, row.add, row.neg, row.dec, row.subb, row.sub,
        ],
    )
}

/// The same for each sum and difference.
pub fn in_each_sum(pin: Pin) -> BySum
    ensures { result ≡ in_each_sum pin }
{
    BySum {
        inc: pin,
        addc: pin,
        add: pin,
        neg: pin,
        dec: pin,
        subb: pin,
        sub: pin,
        rest: pin,
    }
}

/// A choice by the instruction's store condition.
pub fn by_condition(row: ByCondition) -> Driver
    ensures { result ≡ by_condition row }
{
    Driver::Sixteen(
        Bits(Wire::Ir, 23, 20),
        [
            row.cc, row.cs, row.vc, row.vs, row.nc, row.ns, row.zc, row.zs, row.hi, row.ls, row.ge,
            row.lt, row.gt, row.le, row.al, row.nv,
        ],
    )
}

/// A choice by a bit of the instruction's mask, which asks for a flag.
pub fn by_mask(row: ByMask) -> Driver
    ensures { result ≡ by_mask row }
{
    Driver::Two(Bits(Wire::Ir, row.bit, row.bit), [row.unasked, row.asked])
}

//! The templates of Piton's instructions that have no literal.

ghost use Rattle.std.specs.Prelude.{◌≡◌};
ghost use Rattle.fm_code.specs.Templates.{fetch_code, deposit_code, pop_code, popn_code, no_op_code, popj_code, two_code, one_code, not_bool_code, eq_code};
ghost use Rattle.fm_code.specs.Templates.{lt_code, carry_code, mult2_carry_code, div2_code};

use crate::word::{
    ALL_FLAGS, FLAG_C, FLAG_Z, FLAGS_CV, add, always, at, immediate, mov, pop, push, reg, setting,
    when,
};
use fm_words::{Cc, Op};

/// `MOVE r3,(r2); MOVE (r2),(r3)`
pub fn fetch_code() -> [u32; 2]
    ensures { result ≡ fetch_code }
{
    [mov(reg(3), at(2)), mov(at(2), at(3))]
}

/// `MOVE r3,(r2)+; MOVE (r3),(r2)+`
pub fn deposit_code() -> [u32; 2]
    ensures { result ≡ deposit_code }
{
    [mov(reg(3), pop(2)), mov(at(3), pop(2))]
}

/// `INC r2,r2`
pub fn pop_code() -> [u32; 1]
    ensures { result ≡ pop_code }
{
    [always(Op::Inc, reg(2), reg(2))]
}

/// `MOVE r3,(r2)+; ADD r2,r3`
pub fn popn_code() -> [u32; 2]
    ensures { result ≡ popn_code }
{
    [mov(reg(3), pop(2)), add(reg(2), reg(3))]
}

/// `MOVE r3,r3`, for no-op and for int-to-nat.
pub fn no_op_code() -> [u32; 1]
    ensures { result ≡ no_op_code }
{
    [mov(reg(3), reg(3))]
}

/// `MOVE r15,(r2)+`
pub fn popj_code() -> [u32; 1]
    ensures { result ≡ popj_code }
{
    [mov(reg(15), pop(2))]
}

/// `OP (r2),(r2)+`, on the two words at the top.
pub fn two_code(op: Op) -> [u32; 1]
    ensures { result ≡ two_code op }
{
    [always(op, at(2), pop(2))]
}

/// `OP (r2),(r2)`, on the word at the top.
pub fn one_code(op: Op) -> [u32; 1]
    ensures { result ≡ one_code op }
{
    [always(op, at(2), at(2))]
}

/// `XOR (r2),#1`
pub fn not_bool_code() -> [u32; 1]
    ensures { result ≡ not_bool_code }
{
    [always(Op::Xor, at(2), immediate(1))]
}

/// `MOVE r3,(r2)+; XOR{z} r3,(r2); MOVE (r2),#0; MOVE[zs] (r2),#1`
pub fn eq_code() -> [u32; 4]
    ensures { result ≡ eq_code }
{
    [
        mov(reg(3), pop(2)),
        setting(FLAG_Z, Op::Xor, reg(3), at(2)),
        mov(at(2), immediate(0)),
        when(Cc::Zs, Op::Move, at(2), immediate(1)),
    ]
}

/// `MOVE r3,(r2)+; MOVE r4,(r2); SUB{cvnz} r4,r3; MOVE (r2),#0; MOVE[cc] (r2),#1`, where the condition
/// `cc` is the comparison.
pub fn lt_code(cc: Cc) -> [u32; 5]
    ensures { result ≡ lt_code cc }
{
    [
        mov(reg(3), pop(2)),
        mov(reg(4), at(2)),
        setting(ALL_FLAGS, Op::Sub, reg(4), reg(3)),
        mov(at(2), immediate(0)),
        when(cc, Op::Move, at(2), immediate(1)),
    ]
}

/// `MOVE r3,(r2)+; MOVE r4,(r2)+; LSR{c} (r2),(r2); MOVE (r2),#0; OP{cv} r4,r3; MOVE[cc] (r2),#1;
/// MOVE -(r2),r4`, where the condition `cc` is that the result of `OP` is out of range.
pub fn carry_code(op: Op, cc: Cc) -> [u32; 7]
    ensures { result ≡ carry_code op cc }
{
    [
        mov(reg(3), pop(2)),
        mov(reg(4), pop(2)),
        setting(FLAG_C, Op::Lsr, at(2), at(2)),
        mov(at(2), immediate(0)),
        setting(FLAGS_CV, op, reg(4), reg(3)),
        when(cc, Op::Move, at(2), immediate(1)),
        mov(push(2), reg(4)),
    ]
}

/// `MOVE r3,(r2); ADD{c} r3,r3; MOVE (r2),#0; MOVE[cs] (r2),#1; MOVE -(r2),r3`
pub fn mult2_carry_code() -> [u32; 5]
    ensures { result ≡ mult2_carry_code }
{
    [
        mov(reg(3), at(2)),
        setting(FLAG_C, Op::Add, reg(3), reg(3)),
        mov(at(2), immediate(0)),
        when(Cc::Cs, Op::Move, at(2), immediate(1)),
        mov(push(2), reg(3)),
    ]
}

/// `MOVE r3,(r2); MOVE r4,#1; AND r4,r3; LSR (r2),r3; MOVE -(r2),r4`
pub fn div2_code() -> [u32; 5]
    ensures { result ≡ div2_code }
{
    [
        mov(reg(3), at(2)),
        mov(reg(4), immediate(1)),
        always(Op::And, reg(4), reg(3)),
        always(Op::Lsr, at(2), reg(3)),
        mov(push(2), reg(4)),
    ]
}

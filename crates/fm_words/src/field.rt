//! The fields of an instruction's word, each as a number of a few bits.

ghost use Rattle.std.specs.Prelude.{◌≡◌, ◌<◌, ◌^◌};
ghost use Rattle.fm_words.specs.{Code.{op_of, cc_of, mode_of, imm_of, operand_of}, Encoding.{op_number, cc_number, mode_number, operand_number, IsOperand}};

use crate::condition::Cc;
use crate::instruction::{Mode, OperandA};
use crate::operation::Op;

/// The operation of a number.
pub(crate) fn op_of(number: u32) -> Op
    requires { number < 16 }
    ensures { result ≡ op_of number }
{
    match number {
        0 => Op::Move,
        1 => Op::Inc,
        2 => Op::Addc,
        3 => Op::Add,
        4 => Op::Neg,
        5 => Op::Dec,
        6 => Op::Subb,
        7 => Op::Sub,
        8 => Op::Ror,
        9 => Op::Asr,
        10 => Op::Lsr,
        11 => Op::Xor,
        12 => Op::Or,
        13 => Op::And,
        14 => Op::Not,
        _ => Op::M15,
    }
}

/// The store condition of a number.
pub(crate) fn cc_of(number: u32) -> Cc
    requires { number < 16 }
    ensures { result ≡ cc_of number }
{
    match number {
        0 => Cc::Cc,
        1 => Cc::Cs,
        2 => Cc::Vc,
        3 => Cc::Vs,
        4 => Cc::Nc,
        5 => Cc::Ns,
        6 => Cc::Zc,
        7 => Cc::Zs,
        8 => Cc::Hi,
        9 => Cc::Ls,
        10 => Cc::Ge,
        11 => Cc::Lt,
        12 => Cc::Gt,
        13 => Cc::Le,
        14 => Cc::Al,
        _ => Cc::Nv,
    }
}

/// The mode of a number.
pub(crate) fn mode_of(number: u32) -> Mode
    requires { number < 4 }
    ensures { result ≡ mode_of number }
{
    match number {
        0 => Mode::Register,
        1 => Mode::Indirect,
        2 => Mode::PreDecrement,
        _ => Mode::PostIncrement,
    }
}

/// The first operand of an instruction's word.
pub(crate) fn operand_of(word: u32) -> OperandA
    ensures { result ≡ operand_of word }
{
    if (word >> 9) % 2 == 1 {
        OperandA::Immediate(imm_of((word % 512) as u16))
    } else {
        OperandA::Place {
            mode: mode_of((word >> 4) % 4),
            reg: (word % 16) as u8,
        }
    }
}

/// Nine bits as a signed number.
fn imm_of(bits: u16) -> i16
    requires { bits < 2 ^ 9 }
    ensures { result ≡ imm_of bits }
{
    if bits < 256 {
        bits as i16
    } else {
        bits as i16 - 512
    }
}

/// The number of an operation.
pub(crate) fn op_number(op: Op) -> u32
    ensures value { result ≡ op_number op }
    ensures below { result < 16 }
{
    op as u32
}

/// The number of a store condition.
pub(crate) fn cc_number(cc: Cc) -> u32
    ensures value { result ≡ cc_number cc }
    ensures below { result < 16 }
{
    cc as u32
}

/// The number of a mode.
pub(crate) fn mode_number(mode: Mode) -> u32
    ensures value { result ≡ mode_number mode }
    ensures below { result < 4 }
{
    mode as u32
}

/// Bits 0 to 9 of a first operand.
pub(crate) fn operand_number(a: OperandA) -> u32
    requires { IsOperand a }
    ensures value { result ≡ operand_number a }
    ensures below { result < 1024 }
{
    match a {
        OperandA::Immediate(n) => {
            if n < 0 {
                512 + (n + 512) as u32
            } else {
                512 + n as u32
            }
        }
        OperandA::Place { mode, reg } => 16 * mode_number(mode) + u32::from(reg),
    }
}

//! Instructions, and their words.

ghost use Rattle.std.specs.Prelude.{◌≡◌};
ghost use Rattle.fm_words.specs.{Code.{decode_of}, Encoding.{encode_of, IsInstr, significant}};

use crate::condition::{Cc, Flags};
use crate::field::{
    cc_number, cc_of, mode_number, mode_of, op_number, op_of, operand_number, operand_of,
};
use crate::operation::Op;

/// How an operand is found from its register, in the order of their numbers from 0 to 3.
#[derive(Clone, Copy, PartialEq, Eq, Debug)]
pub enum Mode {
    /// The register itself.
    Register,
    /// The word at the register's address: `(r)`.
    Indirect,
    /// The same, after the register has gone down by one: `-(r)`.
    PreDecrement,
    /// The word at the register's address, before the register goes up by one: `(r)+`.
    PostIncrement,
}

/// The first operand of an instruction.
#[derive(Clone, Copy, PartialEq, Eq, Debug)]
pub enum OperandA {
    /// A number from -256 to 255, in nine bits of the instruction's word.
    Immediate(i16),
    /// A register, from 0 to 15, or the memory that it names.
    Place { mode: Mode, reg: u8 },
}

/// An instruction: `b := op(a, b)` where the store condition holds.
///
/// Any register is from 0 to 15, and an immediate is from -256 to 255, as `IsInstr` says.
#[derive(Clone, Copy, PartialEq, Eq, Debug)]
pub struct Instr {
    /// The operation.
    pub op: Op,
    /// The condition under which the result is stored.
    pub cc: Cc,
    /// The flags that the instruction sets.
    pub set: Flags,
    /// How the second operand, where the result goes, is found.
    pub mode_b: Mode,
    /// The register of the second operand.
    pub reg_b: u8,
    /// The first operand.
    pub a: OperandA,
}

/// The instruction that a word is. Every word is one: bits 28 to 31 are passed over, and so are
/// bits 6 to 8 where the first operand is no immediate. The other bits can be read back from
/// the instruction.
#[inline(always)]
#[tactic(auto, using(crate::proofs::FieldLaws::encode_decode))]
pub fn decode(word: u32) -> Instr
    ensures value { result ≡ decode_of word }
    ensures limits { IsInstr result }
    ensures back { encode_of result ≡ significant word }
{
    taken_apart(word)
}

/// The word of an instruction, with each unused bit zero. Decoding it gives the instruction back.
#[tactic(auto, using(crate::proofs::FieldLaws::decode_encode))]
pub fn encode(instr: Instr) -> u32
    requires { IsInstr instr }
    ensures value { result ≡ encode_of instr }
    ensures inverse { decode_of result ≡ instr }
{
    put_together(instr)
}

/// The six fields of a word.
#[inline(always)]
fn taken_apart(word: u32) -> Instr
    ensures value { result ≡ decode_of word }
    ensures limits { IsInstr result }
{
    Instr {
        op: op_of((word >> 24) % 16),
        cc: cc_of((word >> 20) % 16),
        set: Flags::from_bits((word >> 16) % 16),
        mode_b: mode_of((word >> 14) % 4),
        reg_b: ((word >> 10) % 16) as u8,
        a: operand_of(word),
    }
}

/// The six fields in one word.
fn put_together(instr: Instr) -> u32
    requires { IsInstr instr }
    ensures { result ≡ encode_of instr }
{
    (op_number(instr.op) << 24)
        + (cc_number(instr.cc) << 20)
        + (instr.set.bits() << 16)
        + (mode_number(instr.mode_b) << 14)
        + (u32::from(instr.reg_b) << 10)
        + operand_number(instr.a)
}

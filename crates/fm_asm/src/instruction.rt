//! Instructions, read from the text that the disassembler writes.

ghost use Rattle.std.specs.{Prelude.{◌≡◌, ◌<◌, IfSome, option_map}, Option.{option_copied}};
ghost use Rattle.fm_words.specs.Encoding.{encode_of, IsOperand};
ghost use Rattle.fm_asm.specs.Instructions.{operation_in, condition_named, condition_in, letter_in, flag_letters_in, flags_in, named_in, head_in};
ghost use Rattle.fm_asm.specs.Instructions.{instruction_of, instruction_in};

use crate::cuts::{after_prefix, cut, split_once};
use crate::operand::{closed, operand_in, place_in};
use fm_show::{name_of_condition, name_of_operation};
use fm_words::{Cc, Flags, Instr, Mode, Op, OperandA, encode};

/// The operations.
const OPERATIONS: [Op; 16] = [
    Op::Move,
    Op::Inc,
    Op::Addc,
    Op::Add,
    Op::Neg,
    Op::Dec,
    Op::Subb,
    Op::Sub,
    Op::Ror,
    Op::Asr,
    Op::Lsr,
    Op::Xor,
    Op::Or,
    Op::And,
    Op::Not,
    Op::M15,
];

/// The store conditions that are written: all but `al`, which holds always.
const WRITTEN_CONDITIONS: [Cc; 15] = [
    Cc::Cc,
    Cc::Cs,
    Cc::Vc,
    Cc::Vs,
    Cc::Nc,
    Cc::Ns,
    Cc::Zc,
    Cc::Zs,
    Cc::Hi,
    Cc::Ls,
    Cc::Ge,
    Cc::Lt,
    Cc::Gt,
    Cc::Le,
    Cc::Nv,
];

/// The operation of a name.
#[tactic(auto, unfolding(crate::specs::Instructions::operation_in))]
fn operation_in(name: &[u8]) -> Option<Op>
    ensures { result ≡ operation_in name.now }
{
    OPERATIONS
        .iter()
        .copied()
        .find(|op| name_of_operation(*op).as_bytes() == name)
}

/// The store condition of a name.
#[tactic(auto, unfolding(crate::specs::Instructions::condition_named))]
fn condition_named(name: &[u8]) -> Option<Cc>
    ensures { result ≡ condition_named name.now }
{
    WRITTEN_CONDITIONS
        .iter()
        .copied()
        .find(|cc| name_of_condition(*cc).as_bytes() == name)
}

/// The store condition after a `[`; always, where there is no `[`.
#[tactic(auto, unfolding(crate::specs::Instructions::condition_in))]
fn condition_in(text: Option<&[u8]>) -> Option<Cc>
    ensures { result ≡ condition_in (option_copied text.entry) }
{
    match text {
        None => Some(Cc::Al),
        Some(text) => condition_named(closed(b']', text)?),
    }
}

/// A letter that may be there, and the text after it.
#[tactic(auto, unfolding(crate::specs::Instructions::letter_in))]
fn letter_in<'a>(letter: &[u8], text: &'a [u8]) -> (bool, &'a [u8])
    ensures { (result.0, result.1.now) ≡ letter_in letter.now text.now }
{
    match after_prefix(letter, text) {
        None => (false, text),
        Some(rest) => (true, rest),
    }
}

/// One letter or more of flags, in their order, and a `}` that ends the text.
#[tactic(auto, unfolding(crate::specs::Instructions::flag_letters_in))]
fn flag_letters_in(text: &[u8]) -> Option<Flags>
    ensures { result ≡ flag_letters_in text.now }
{
    let (c, rest) = letter_in(b"c", text);
    let (v, rest) = letter_in(b"v", rest);
    let (n, rest) = letter_in(b"n", rest);
    let (z, rest) = letter_in(b"z", rest);
    if rest == b"}".as_slice() && (c || v || n || z) {
        Some(Flags { c, v, n, z })
    } else {
        None
    }
}

/// The flags after a `{`; none, where there is no `{`.
#[tactic(auto, unfolding(crate::specs::Instructions::flags_in))]
fn flags_in(text: Option<&[u8]>) -> Option<Flags>
    ensures { result ≡ flags_in (option_copied text.entry) }
{
    match text {
        None => Some(Flags::NONE),
        Some(text) => flag_letters_in(text),
    }
}

/// The operation, and the store condition after the first `[`.
#[tactic(auto, unfolding(crate::specs::Instructions::named_in))]
fn named_in(text: &[u8]) -> Option<(Op, Cc)>
    ensures { result ≡ named_in text.now }
{
    let (name, condition) = cut(b'[', text);
    let op = operation_in(name)?;
    let condition = condition_in(condition)?;
    Some((op, condition))
}

/// What stands before the operands: the operation, the store condition and the flags to set.
#[tactic(auto, unfolding(crate::specs::Instructions::head_in))]
fn head_in(text: &[u8]) -> Option<(Op, Cc, Flags)>
    ensures { result ≡ head_in text.now }
{
    let (named, flags) = cut(b'{', text);
    let (op, cc) = named_in(named)?;
    let flags = flags_in(flags)?;
    Some((op, cc, flags))
}

/// The word of an instruction by its parts; it is `None` where the immediate is out of range.
fn word_of(head: (Op, Cc, Flags), b: (Mode, u8), a: Option<OperandA>) -> Option<u32>
    requires place { b.1 < 16 }
    requires operand { IfSome a IsOperand }
    ensures { result ≡ option_map (λ a. encode_of (instruction_of head b a)) a }
{
    let (op, cc, set) = head;
    let (mode_b, reg_b) = b;
    let a = a?;
    Some(encode(Instr {
        op,
        cc,
        set,
        mode_b,
        reg_b,
        a,
    }))
}

/// The word of the instruction with this before its space, and after it operand B, a `,` and operand A; the word is `None`
/// where the immediate is out of range.
#[tactic(auto, unfolding(crate::specs::Instructions::instruction_in))]
pub(crate) fn instruction_in(before: &[u8], operands: &[u8]) -> Option<Option<u32>>
    ensures { result ≡ instruction_in before.now operands.now }
{
    let (b, a) = split_once(b',', operands)?;
    let head = head_in(before)?;
    let b = place_in(b)?;
    let a = operand_in(a)?;
    Some(word_of(head, b, a))
}

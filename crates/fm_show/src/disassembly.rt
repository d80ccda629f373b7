//! Instructions as text.

ghost use Rattle.std.specs.Prelude.{◌≡◌, ◌↔◌, ℕ, ◌++◌};
ghost use Rattle.stack_heap.specs.Heaps.{IfOkUnless, OnOkUnless};
ghost use Rattle.fm_words.specs.Encoding.{significant};
ghost use Rattle.fm_show.specs.Disassembly.{operation_name, condition_name, condition_text, shown_if, flags_text, register_name, place_text, operand_text};
ghost use Rattle.fm_show.specs.Disassembly.{instruction_text, disassembly_text};

use crate::digits::push_number;
use fm_words::{Cc, Flags, Instr, Mode, Op, OperandA, decode};
use stack_heap::Heap;
use stack_text::{Memory, push_each};

/// The instruction that a word is, as text: the operation, the store condition in brackets unless
/// it is always, the flags to set in braces unless there are none, a space, the second operand, a
/// comma and the first operand, as in `MOVE r3,#5` and `ADD[zs]{cz} -(r2),(r15)+`.
///
/// Two words have one text exactly where they are one but for the bits that decoding passes over.
/// The only error is out of memory.
#[tactic(auto, using(crate::proofs::LosslessLaws::lossless))]
pub fn disassemble<H: Heap>(heap: H, word: u32) -> Result<Vec<u8>, Memory>
    ensures text { IfOkUnless (H.may_refuse heap) result (λ text. text.items ≡ disassembly_text word) }
    ensures lossless { (other : ℕ)
        → (disassembly_text word ≡ disassembly_text other) ↔ (significant word ≡ significant other) }
{
    let mut text = Vec::new(heap.handle());
    push_instruction(heap, &mut text, decode(word))?;
    Ok(text)
}

/// Appends the text of an instruction.
#[tactic(auto, unfolding(crate::specs::Disassembly::instruction_text))]
pub(crate) fn push_instruction<H: Heap>(
    heap: H,
    text: &mut Vec<u8>,
    instruction: Instr,
) -> Result<(), Memory>
    ensures { OnOkUnless (H.may_refuse heap) result
        (text.new.items ≡ text.old.items ++ instruction_text instruction) }
{
    heap.extend_from_slice(text, name_of_operation(instruction.op).as_bytes())?;
    push_condition(heap, text, instruction.cc)?;
    push_set_flags(heap, text, instruction.set)?;
    heap.push(text, b' ')?;
    push_place(heap, text, instruction.mode_b, instruction.reg_b)?;
    heap.push(text, b',')?;
    push_operand(heap, text, instruction.a)?;
    Ok(())
}

/// The name of an operation, as `MOVE`.
pub fn name_of_operation(op: Op) -> &'static str
    ensures { result.now ≡ operation_name op }
{
    match op {
        Op::Move => "MOVE",
        Op::Inc => "INC",
        Op::Addc => "ADDC",
        Op::Add => "ADD",
        Op::Neg => "NEG",
        Op::Dec => "DEC",
        Op::Subb => "SUBB",
        Op::Sub => "SUB",
        Op::Ror => "ROR",
        Op::Asr => "ASR",
        Op::Lsr => "LSR",
        Op::Xor => "XOR",
        Op::Or => "OR",
        Op::And => "AND",
        Op::Not => "NOT",
        Op::M15 => "M15",
    }
}

/// The name of a store condition, as `zs`; also of `al`, which an instruction's text leaves out.
pub fn name_of_condition(cc: Cc) -> &'static str
    ensures { result.now ≡ condition_name cc }
{
    match cc {
        Cc::Cc => "cc",
        Cc::Cs => "cs",
        Cc::Vc => "vc",
        Cc::Vs => "vs",
        Cc::Nc => "nc",
        Cc::Ns => "ns",
        Cc::Zc => "zc",
        Cc::Zs => "zs",
        Cc::Hi => "hi",
        Cc::Ls => "ls",
        Cc::Ge => "ge",
        Cc::Lt => "lt",
        Cc::Gt => "gt",
        Cc::Le => "le",
        Cc::Al => "al",
        Cc::Nv => "nv",
    }
}

/// Appends a store condition in brackets, and nothing where it is always.
fn push_condition<H: Heap>(heap: H, text: &mut Vec<u8>, condition: Cc) -> Result<(), Memory>
    ensures { OnOkUnless (H.may_refuse heap) result (text.new.items ≡ text.old.items ++ condition_text condition) }
{
    match condition {
        Cc::Al => Ok(()),
        condition => push_each(
            heap,
            text,
            &[b"[", name_of_condition(condition).as_bytes(), b"]"],
        ),
    }
}

/// Appends the flags that an instruction sets, in braces, and nothing where there are none.
fn push_set_flags<H: Heap>(heap: H, text: &mut Vec<u8>, flags: Flags) -> Result<(), Memory>
    ensures { OnOkUnless (H.may_refuse heap) result (text.new.items ≡ text.old.items ++ flags_text flags) }
{
    let Flags { c, v, n, z } = flags;
    if !(c || v || n || z) {
        return Ok(());
    }
    let c = shown(c, b"c");
    let v = shown(v, b"v");
    let n = shown(n, b"n");
    let z = shown(z, b"z");
    push_each(heap, text, &[b"{", c, v, n, z, b"}"])
}

/// The letter of a flag where it is set, else nothing.
fn shown(is_set: bool, letter: &[u8]) -> &[u8]
    ensures { result.now ≡ shown_if is_set letter.now }
{
    if is_set { letter } else { b"" }
}

/// Appends the name of a register, as `r3`.
pub(crate) fn push_register_name<H: Heap>(
    heap: H,
    text: &mut Vec<u8>,
    r: usize,
) -> Result<(), Memory>
    ensures { OnOkUnless (H.may_refuse heap) result (text.new.items ≡ text.old.items ++ register_name r) }
{
    heap.push(text, b'r')?;
    push_number(heap, text, r)
}

/// Appends a register, or the memory that it names.
fn push_place<H: Heap>(heap: H, text: &mut Vec<u8>, mode: Mode, reg: u8) -> Result<(), Memory>
    ensures { OnOkUnless (H.may_refuse heap) result (text.new.items ≡ text.old.items ++ place_text mode reg) }
{
    match mode {
        Mode::Register => push_register_name(heap, text, reg as usize),
        Mode::Indirect => {
            heap.push(text, b'(')?;
            push_register_name(heap, text, reg as usize)?;
            Ok(heap.push(text, b')')?)
        }
        Mode::PreDecrement => {
            heap.extend_from_slice(text, b"-(")?;
            push_register_name(heap, text, reg as usize)?;
            Ok(heap.push(text, b')')?)
        }
        Mode::PostIncrement => {
            heap.push(text, b'(')?;
            push_register_name(heap, text, reg as usize)?;
            Ok(heap.extend_from_slice(text, b")+")?)
        }
    }
}

/// Appends the first operand.
fn push_operand<H: Heap>(heap: H, text: &mut Vec<u8>, operand: OperandA) -> Result<(), Memory>
    ensures { OnOkUnless (H.may_refuse heap) result (text.new.items ≡ text.old.items ++ operand_text operand) }
{
    match operand {
        OperandA::Immediate(number) => {
            heap.push(text, b'#')?;
            push_number(heap, text, number)
        }
        OperandA::Place { mode, reg } => push_place(heap, text, mode, reg),
    }
}

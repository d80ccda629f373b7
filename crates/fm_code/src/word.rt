//! The notation of instruction words: an operation, then its target, then its source.

ghost use Rattle.std.specs.Prelude.{◌≡◌};
ghost use Rattle.fm_words.specs.Encoding.{IsOperand};
ghost use Rattle.fm_code.specs.InstructionWords.{reg, at, push, pop, immediate, literal, literal_at, instruction, always, setting, when, mov, add, sub};

use fm_words::{Cc, Flags, Instr, Mode, Op, OperandA, encode};

/// `DEC r15,r15`, which jumps to itself: the word after the code.
pub const HALT_WORD: u32 = 0x05e0_3c0f;

/// `{z}`
pub const FLAG_Z: Flags = Flags {
    c: false,
    v: false,
    n: false,
    z: true,
};

/// `{c}`
pub const FLAG_C: Flags = Flags {
    c: true,
    v: false,
    n: false,
    z: false,
};

/// `{cv}`
pub const FLAGS_CV: Flags = Flags {
    c: true,
    v: true,
    n: false,
    z: false,
};

/// `{cvnz}`
pub const ALL_FLAGS: Flags = Flags {
    c: true,
    v: true,
    n: true,
    z: true,
};

/// `r3`
pub fn reg(number: u8) -> OperandA
    ensures { result ≡ reg number }
{
    OperandA::Place {
        mode: Mode::Register,
        reg: number,
    }
}

/// `(r3)`
pub fn at(number: u8) -> OperandA
    ensures { result ≡ at number }
{
    OperandA::Place {
        mode: Mode::Indirect,
        reg: number,
    }
}

/// `-(r3)`
pub fn push(number: u8) -> OperandA
    ensures { result ≡ push number }
{
    OperandA::Place {
        mode: Mode::PreDecrement,
        reg: number,
    }
}

/// `(r3)+`
pub fn pop(number: u8) -> OperandA
    ensures { result ≡ pop number }
{
    OperandA::Place {
        mode: Mode::PostIncrement,
        reg: number,
    }
}

/// `#1`
pub fn immediate(number: u8) -> OperandA
    ensures { result ≡ immediate number }
{
    OperandA::Immediate(i16::from(number))
}

/// `=X`: the word X after the instruction, which is then skipped.
pub fn literal() -> OperandA
    ensures { result ≡ literal }
{
    pop(15)
}

/// `@X`: the word X after the instruction, which a jump leaves anyway.
pub fn literal_at() -> OperandA
    ensures { result ≡ literal_at }
{
    at(15)
}

/// An instruction with its target and its source. An immediate is no target.
fn instruction(op: Op, cc: Cc, set: Flags, target: OperandA, source: OperandA) -> Instr
    ensures { result ≡ instruction op cc set target source }
{
    let (mode_b, reg_b) = match target {
        OperandA::Place { mode, reg } => (mode, reg),
        OperandA::Immediate(_) => (Mode::Register, 0),
    };
    Instr {
        op,
        cc,
        set,
        mode_b,
        reg_b,
        a: source,
    }
}

/// The word of `OP TARGET,SOURCE`, which always stores and sets no flag.
pub fn always(op: Op, target: OperandA, source: OperandA) -> u32
    requires target { IsOperand target }
    requires source { IsOperand source }
    ensures { result ≡ always op target source }
{
    encode(instruction(op, Cc::Al, Flags::NONE, target, source))
}

/// The word of `OP{set} TARGET,SOURCE`, which always stores.
pub fn setting(set: Flags, op: Op, target: OperandA, source: OperandA) -> u32
    requires target { IsOperand target }
    requires source { IsOperand source }
    ensures { result ≡ setting set op target source }
{
    encode(instruction(op, Cc::Al, set, target, source))
}

/// The word of `OP[cc] TARGET,SOURCE`, which sets no flag.
pub fn when(cc: Cc, op: Op, target: OperandA, source: OperandA) -> u32
    requires target { IsOperand target }
    requires source { IsOperand source }
    ensures { result ≡ when cc op target source }
{
    encode(instruction(op, cc, Flags::NONE, target, source))
}

/// The word of `MOVE TARGET,SOURCE`.
pub fn mov(target: OperandA, source: OperandA) -> u32
    requires target { IsOperand target }
    requires source { IsOperand source }
    ensures { result ≡ mov target source }
{
    always(Op::Move, target, source)
}

/// The word of `ADD TARGET,SOURCE`.
pub fn add(target: OperandA, source: OperandA) -> u32
    requires target { IsOperand target }
    requires source { IsOperand source }
    ensures { result ≡ add target source }
{
    always(Op::Add, target, source)
}

/// The word of `SUB TARGET,SOURCE`.
pub fn sub(target: OperandA, source: OperandA) -> u32
    requires target { IsOperand target }
    requires source { IsOperand source }
    ensures { result ≡ sub target source }
{
    always(Op::Sub, target, source)
}

//! The wires of the processor.

ghost use Rattle.std.specs.Prelude.{◌≡◌};
ghost use Rattle.fm_circuit.specs.Widths.{width_of, wires};

/// A wire, which carries a word. The first nine come out of registers, the next two out of memory.
#[derive(Clone, Copy)]
pub enum Wire {
    /// What the processor does in this cycle, as the number of a phase.
    Phase,
    /// The instruction.
    Ir,
    /// The first operand's value.
    A,
    /// The second operand's value.
    B,
    /// The address that was last asked for.
    At,
    /// The carry flag.
    C,
    /// The overflow flag.
    V,
    /// The negative flag.
    N,
    /// The zero flag.
    Z,
    /// The word that memory gives, one cycle after its address.
    Read,
    /// Whether that address was outside the window.
    Outside,
    /// The mode of the first operand: that of a register where it is an immediate.
    ModeA,
    /// The mode of the operand that this phase is at; the fetch is at `(r15)+`.
    Mode,
    /// The number of its register.
    Number,
    /// That register's word.
    Own,
    /// What a register that moves is moved by: 1, or -1 as a word.
    Delta,
    /// That register's word, moved.
    Moved,
    /// The operand's address.
    Address,
    /// Whether the operand is in memory.
    InMemory,
    /// The sign of an immediate, as 23 bits.
    Sign,
    /// An immediate, as a word.
    Immediate,
    /// The first operand, where it is not in memory.
    First,
    /// Whether the operation reads its second operand.
    ReadsB,
    /// Whether it reads it from memory.
    LoadsB,
    /// The first operand, inverted.
    NotA,
    /// The carry flag, inverted.
    NotC,
    /// What the adder takes first.
    Left,
    /// What it takes second.
    Right,
    /// What it takes as a carry.
    CarryIn,
    /// Its sum, with its carry as bit 32.
    Sum,
    /// The carry of a sum, and the borrow of a difference.
    SumCarry,
    /// Whether the sum has another sign than the first of the adder's words.
    LeftTurns,
    /// Whether it has another sign than the second.
    RightTurns,
    /// Whether the sum of the signed readings does not fit.
    Overflow,
    /// The first operand rotated right through the carry flag.
    Ror,
    /// The first operand shifted right, with its sign kept.
    Asr,
    /// The first operand shifted right.
    Lsr,
    /// The exclusive or of both operands.
    AXorB,
    /// Their or.
    AOrB,
    /// Their and.
    AAndB,
    /// The operation's result.
    Out,
    /// Its carry.
    OutC,
    /// Its overflow.
    OutV,
    /// Whether it is zero.
    OutZ,
    /// The overflow flag, inverted.
    NotV,
    /// The negative flag, inverted.
    NotN,
    /// The zero flag, inverted.
    NotZ,
    /// Neither carry nor zero.
    Hi,
    /// Carry or zero.
    Ls,
    /// Negative is not overflow.
    Lt,
    /// Negative is overflow.
    Ge,
    /// Negative is overflow, and not zero.
    Gt,
    /// Negative is not overflow, or zero.
    Le,
    /// Whether the store condition holds.
    Holds,
    /// Whether the result is stored in memory.
    Stores,
    /// Whether the register of the second operand is written.
    Keeps,
    /// Whether a register is written in this cycle.
    FileWrite,
    /// What is written there.
    FileData,
    /// Whether memory is written in this cycle.
    MemoryWrite,
    /// The phase after `Fetched`.
    AfterFetched,
    /// The phase after `ReadA`.
    AfterReadA,
    /// The phase after `GotA`.
    AfterGotA,
    /// The phase after `ReadB`.
    AfterReadB,
    /// The phase after `GotB`.
    AfterGotB,
    /// The phase after `Execute`.
    AfterExecute,
    /// The phase after `Stored`.
    AfterStored,
    /// What `Phase` takes at the end of the cycle.
    NextPhase,
    /// What `Ir` takes at the end of the cycle.
    NextIr,
    /// What `A` takes at the end of the cycle.
    NextA,
    /// What `B` takes at the end of the cycle.
    NextB,
    /// What `At` takes at the end of the cycle.
    NextAt,
    /// What `C` takes where an instruction is carried out.
    SetC,
    /// What `C` takes at the end of the cycle.
    NextC,
    /// What `V` takes where an instruction is carried out.
    SetV,
    /// What `V` takes at the end of the cycle.
    NextV,
    /// What `N` takes where an instruction is carried out.
    SetN,
    /// What `N` takes at the end of the cycle.
    NextN,
    /// What `Z` takes where an instruction is carried out.
    SetZ,
    /// What `Z` takes at the end of the cycle.
    NextZ,
}

/// How many bits a wire has.
pub fn width(wire: Wire) -> u8
    ensures { result ≡ width_of wire }
{
    match wire {
        Wire::Phase => 4,
        Wire::Ir => 32,
        Wire::A => 32,
        Wire::B => 32,
        Wire::At => 32,
        Wire::C => 1,
        Wire::V => 1,
        Wire::N => 1,
        Wire::Z => 1,
        Wire::Read => 32,
        Wire::Outside => 1,
        Wire::ModeA => 2,
        Wire::Mode => 2,
        Wire::Number => 4,
        Wire::Own => 32,
        Wire::Delta => 32,
        Wire::Moved => 33,
        Wire::Address => 32,
        Wire::InMemory => 1,
        Wire::Sign => 23,
        Wire::Immediate => 32,
        Wire::First => 32,
        Wire::ReadsB => 1,
        Wire::LoadsB => 1,
        Wire::NotA => 32,
        Wire::NotC => 1,
        Wire::Left => 32,
        Wire::Right => 32,
        Wire::CarryIn => 1,
        Wire::Sum => 33,
        Wire::SumCarry => 1,
        Wire::LeftTurns => 1,
        Wire::RightTurns => 1,
        Wire::Overflow => 1,
        Wire::Ror => 32,
        Wire::Asr => 32,
        Wire::Lsr => 32,
        Wire::AXorB => 32,
        Wire::AOrB => 32,
        Wire::AAndB => 32,
        Wire::Out => 32,
        Wire::OutC => 1,
        Wire::OutV => 1,
        Wire::OutZ => 1,
        Wire::NotV => 1,
        Wire::NotN => 1,
        Wire::NotZ => 1,
        Wire::Hi => 1,
        Wire::Ls => 1,
        Wire::Lt => 1,
        Wire::Ge => 1,
        Wire::Gt => 1,
        Wire::Le => 1,
        Wire::Holds => 1,
        Wire::Stores => 1,
        Wire::Keeps => 1,
        Wire::FileWrite => 1,
        Wire::FileData => 32,
        Wire::MemoryWrite => 1,
        Wire::AfterFetched => 4,
        Wire::AfterReadA => 4,
        Wire::AfterGotA => 4,
        Wire::AfterReadB => 4,
        Wire::AfterGotB => 4,
        Wire::AfterExecute => 4,
        Wire::AfterStored => 4,
        Wire::NextPhase => 4,
        Wire::NextIr => 32,
        Wire::NextA => 32,
        Wire::NextB => 32,
        Wire::NextAt => 32,
        Wire::SetC => 1,
        Wire::NextC => 1,
        Wire::SetV => 1,
        Wire::NextV => 1,
        Wire::SetN => 1,
        Wire::NextN => 1,
        Wire::SetZ => 1,
        Wire::NextZ => 1,
    }
}

/// All wires, in their order.
pub fn wires() -> [Wire; 79]
    ensures { result ≡ wires }
{
    [
        Wire::Phase,
        Wire::Ir,
        Wire::A,
        Wire::B,
        Wire::At,
        Wire::C,
        Wire::V,
        Wire::N,
        Wire::Z,
        Wire::Read,
        Wire::Outside,
        Wire::ModeA,
        Wire::Mode,
        Wire::Number,
        Wire::Own,
        Wire::Delta,
        Wire::Moved,
        Wire::Address,
        Wire::InMemory,
        Wire::Sign,
        Wire::Immediate,
        Wire::First,
        Wire::ReadsB,
        Wire::LoadsB,
        Wire::NotA,
        Wire::NotC,
        Wire::Left,
        Wire::Right,
        Wire::CarryIn,
        Wire::Sum,
        Wire::SumCarry,
        Wire::LeftTurns,
        Wire::RightTurns,
        Wire::Overflow,
        Wire::Ror,
        Wire::Asr,
        Wire::Lsr,
        Wire::AXorB,
        Wire::AOrB,
        Wire::AAndB,
        Wire::Out,
        Wire::OutC,
        Wire::OutV,
        Wire::OutZ,
        Wire::NotV,
        Wire::NotN,
        Wire::NotZ,
        Wire::Hi,
        Wire::Ls,
        Wire::Lt,
        Wire::Ge,
        Wire::Gt,
        Wire::Le,
        Wire::Holds,
        Wire::Stores,
        Wire::Keeps,
        Wire::FileWrite,
        Wire::FileData,
        Wire::MemoryWrite,
        Wire::AfterFetched,
        Wire::AfterReadA,
        Wire::AfterGotA,
        Wire::AfterReadB,
        Wire::AfterGotB,
        Wire::AfterExecute,
        Wire::AfterStored,
        Wire::NextPhase,
        Wire::NextIr,
        Wire::NextA,
        Wire::NextB,
        Wire::NextAt,
        Wire::SetC,
        Wire::NextC,
        Wire::SetV,
        Wire::NextV,
        Wire::SetN,
        Wire::NextN,
        Wire::SetZ,
        Wire::NextZ,
    ]
}

//! How an instruction finds its operands in the registers, and which flags it sets.

ghost use Rattle.std.specs.Prelude.{◌≡◌, ◌<◌};
ghost use Rattle.fm_machine.specs.Step.{address_of, registers_after, reads_b};

use fm_words::{Mode, Op};

/// The sixteen registers, by number.
pub(crate) type Registers = [u32; 16];

/// The address of an operand's place, or None for the register itself.
pub(crate) fn address_of(mode: Mode, reg: u8, registers: &Registers) -> Option<u32>
    requires { reg < 16 }
    ensures { result ≡ address_of mode reg registers.now }
{
    let value = registers[reg as usize];
    if matches!(mode, Mode::Register) {
        None
    } else if matches!(mode, Mode::PreDecrement) {
        Some(value.wrapping_sub(1))
    } else {
        Some(value)
    }
}

/// The registers once a place is found.
pub(crate) fn pass(mode: Mode, reg: u8, registers: &mut Registers)
    requires { reg < 16 }
    ensures { registers.new ≡ registers_after mode reg registers.old }
{
    let at = reg as usize;
    match mode {
        Mode::PreDecrement => registers[at] = registers[at].wrapping_sub(1),
        Mode::PostIncrement => registers[at] = registers[at].wrapping_add(1),
        Mode::Register | Mode::Indirect => {}
    }
}

/// Whether an operation reads the second operand.
pub(crate) fn reads_b(op: Op) -> bool
    ensures { result ≡ reads_b op }
{
    matches!(
        op,
        Op::Addc | Op::Add | Op::Subb | Op::Sub | Op::Xor | Op::Or | Op::And
    )
}

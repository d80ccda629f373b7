//! The instructions of a system.

ghost use Rattle.std.specs.Prelude.{◌≡◌, option_map};
ghost use Rattle.piton_check.specs.Instruction.{system_view, instruction_view};
ghost use Rattle.piton_semantics.specs.{Groups.{resolved_at}, State.{instruction_at}};

use piton_check::{Resolved, ResolvedInstr};

/// The instruction at a place of a program.
pub fn instruction(checked: &Resolved, program: u32, place: u32) -> Option<&ResolvedInstr>
    ensures instruction { option_map (λ instr. instruction_view instr.now) result ≡
        instruction_at (system_view checked.now) program place }
    ensures resolved { option_map (λ instr. instr.now) result ≡ resolved_at checked.now program place }
{
    checked
        .programs
        .get(program as usize)?
        .instrs
        .get(place as usize)
}

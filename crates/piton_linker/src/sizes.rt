//! How many words each part of a placed system takes.

ghost use Rattle.std.specs.Prelude.{◌≡◌, ◌<◌, ◌^◌, ℕ, sum_by};
ghost use Rattle.piton_check.specs.Instruction.{instruction_view, program_view};
ghost use Rattle.piton_semantics.specs.{Fits.{system_in}, Placed.{final_pc_of, instruction_size, prelude_size, program_size}, Step.{operation_cost}};
ghost use Rattle.piton_linker.specs.Layouts.{layout_of};

use crate::placement::Layout;
use piton_check::{Checked, ResolvedInstr, ResolvedProgram};
use piton_semantics::{PitonInstr, operation_cost};
use piton_words::Word;

/// Where the parts of a system are placed.
#[tactic(auto, using(crate::proofs::BoundLaws::checked_programs, crate::proofs::BoundLaws::programs_seen))]
pub fn layout(checked: &Checked) -> Layout
    ensures { result ≡ layout_of (system_in checked.now) }
{
    let resolved = checked.resolved();
    let code = total(resolved.programs.as_slice());
    layout_behind(checked, u64::from(resolved.base) + code)
}

/// The same, where it is known at which address the code has ended.
#[tactic(auto, using(crate::proofs::BoundLaws::checked_programs, crate::proofs::BoundLaws::checked_areas, crate::proofs::BoundLaws::areas_seen))]
pub fn layout_behind(checked: &Checked, final_pc: u64) -> Layout
    requires { final_pc ≡ final_pc_of (system_in checked.now) }
    ensures { result ≡ layout_of (system_in checked.now) }
{
    let resolved = checked.resolved();
    let words = total(resolved.areas.as_slice());
    let base = u64::from(resolved.base);
    let areas_start = final_pc + 1;
    let ctrl_start = areas_start + words;
    let temp_start = ctrl_start + u64::from(resolved.ctrl);
    let end = temp_start + u64::from(resolved.temp);
    Layout {
        size: end - base,
        final_pc,
        areas_start,
        ctrl_start,
        temp_start,
        end,
    }
}

/// A part of a system that takes words of the memory.
pub(crate) trait TakesWords {
    /// How many words it takes.
    ghost words: { Self → ℕ };

    /// How many words it takes.
    fn size(&self) -> u64
        requires { words self.now < 2 ^ 40 }
        ensures { result ≡ words self.now };
}

/// The words of all these parts.
fn total<T: TakesWords>(parts: &[T]) -> u64
    requires { sum_by T.words parts.now < 2 ^ 40 }
    ensures { result ≡ sum_by T.words parts.now }
{
    let mut sum = 0;
    for part in parts {
        sum += part.size();
    }
    sum
}

impl TakesWords for ResolvedProgram {
    ghost use Rattle.piton_check.specs.Instruction.{program_view};
    ghost use Rattle.piton_semantics.specs.Placed.{program_size};

    ghost words = { λ program. program_size (program_view program) };

    fn size(&self) -> u64 {
        program_size(self)
    }
}

impl TakesWords for ResolvedInstr {
    ghost use Rattle.piton_check.specs.Instruction.{instruction_view};
    ghost use Rattle.piton_semantics.specs.Placed.{instruction_size};

    ghost words = { λ instr. instruction_size (instruction_view instr) };

    fn size(&self) -> u64 {
        instruction_size(self)
    }
}

// An area.
impl TakesWords for Vec<Word> {
    ghost use Rattle.std.specs.Prelude.{length};

    ghost words = { λ area. length area.items };

    fn size(&self) -> u64 {
        self.len() as u64
    }
}

/// The words of a program.
#[tactic(auto, using(crate::proofs::BoundLaws::instructions_seen))]
pub(crate) fn program_size(program: &ResolvedProgram) -> u64
    requires { program_size (program_view program.now) < 2 ^ 40 }
    ensures { result ≡ program_size (program_view program.now) }
{
    prelude_size(program) + total(program.instrs.as_slice())
}

/// The words of a program's prelude.
pub(crate) fn prelude_size(program: &ResolvedProgram) -> u64
    requires { prelude_size (program_view program.now) < 2 ^ 40 }
    ensures { result ≡ prelude_size (program_view program.now) }
{
    let temporaries = program.temporaries.len() as u64;
    1 + 2 * temporaries + u64::from(program.formals) + 1
}

/// The words of an instruction.
pub(crate) fn instruction_size(instr: &ResolvedInstr) -> u64
    requires { instruction_size (instruction_view instr.now) < 2 ^ 40 }
    ensures { result ≡ instruction_size (instruction_view instr.now) }
{
    match PitonInstr::decode(instr) {
        PitonInstr::Pop | PitonInstr::NoOp | PitonInstr::Popj => 1,
        PitonInstr::PushConstant(_)
        | PitonInstr::Fetch
        | PitonInstr::Deposit
        | PitonInstr::PopStar(_)
        | PitonInstr::Popn
        | PitonInstr::Jump(_) => 2,
        PitonInstr::PushGlobal(_)
        | PitonInstr::PopGlobal(_)
        | PitonInstr::SetGlobal(_)
        | PitonInstr::TestAndJump(_, _, _) => 3,
        PitonInstr::PushLocal(_)
        | PitonInstr::PopLocal(_)
        | PitonInstr::SetLocal(_)
        | PitonInstr::PushTempStkIndex(_)
        | PitonInstr::PushTempStkFreeSize
        | PitonInstr::PushCtrlStkFreeSize
        | PitonInstr::FetchTempStk
        | PitonInstr::DepositTempStk
        | PitonInstr::Pushj(_)
        | PitonInstr::Call(_)
        | PitonInstr::PopCall => 4,
        PitonInstr::JumpIfTempStkFull(_) | PitonInstr::JumpIfTempStkEmpty(_) | PitonInstr::Ret => 5,
        PitonInstr::JumpCase(labels) => 4 + labels.len() as u64,
        PitonInstr::Apply(op) => operation_cost(op),
    }
}

//! What an instruction does, and what it costs.

ghost use Rattle.std.specs.Prelude.{◌≡◌, ◌==◌, ◌+◌, ◌^◌, ◌<◌, ◌≤◌, ℕ, IfErr, OnOk, OnErr, length};
ghost use Rattle.piton_check.specs.Instruction.{system_view};
ghost use Rattle.piton_semantics.specs.{PitonInstr.{decoded_view}, State.{variables_of}, InstructionRows.{row_of}, Step.{variables_on_top, cost_of}};

use crate::state::State;
use piton_check::Resolved;
use piton_semantics::{ErrorKind, PitonInstr, operation_cost, variables};
use piton_words::Word;

impl State {
    /// An instruction done.
    #[inline(always)]
    pub(crate) fn act(&mut self, checked: &Resolved, instr: PitonInstr<'_>) -> Result<(), ErrorKind>
        requires next { self.old.state.place + 1 < 2 ^ 32 }
        requires temp { self.old.temp ≡ checked.now.temp }
        requires ctrl { self.old.ctrl ≡ checked.now.ctrl }
        requires few { (program : ℕ) → variables_of (system_view checked.now) program ≤ 400 }
        ensures ok { OnOk result
            (row_of (system_view checked.now) self.old.state (decoded_view instr.entry) ≡ Ok self.new.state) }
        ensures err { IfErr result (λ e.
            row_of (system_view checked.now) self.old.state (decoded_view instr.entry) ≡ Err e) }
        ensures rest { self.new ≡ record self.old { state = self.new.state } }
        ensures unchanged { OnErr result (self.new ≡ self.old) }
    {
        match instr {
            PitonInstr::PushConstant(word) => self.push(word),
            PitonInstr::PushLocal(offset) => self.push_local(offset),
            PitonInstr::PopLocal(offset) => self.pop_local(offset),
            PitonInstr::SetLocal(offset) => self.set_local(offset),
            PitonInstr::PushGlobal(area) => self.push_global(area),
            PitonInstr::PopGlobal(area) => self.pop_global(area),
            PitonInstr::SetGlobal(area) => self.set_global(area),
            PitonInstr::PushTempStkIndex(depth) => self.push_temp_stk_index(depth),
            PitonInstr::PushTempStkFreeSize => self.push_temp_stk_free_size(),
            PitonInstr::PushCtrlStkFreeSize => self.push_ctrl_stk_free_size(),
            PitonInstr::FetchTempStk => self.fetch_temp_stk(),
            PitonInstr::DepositTempStk => self.deposit_temp_stk(),
            PitonInstr::Fetch => self.fetch(),
            PitonInstr::Deposit => self.deposit(),
            PitonInstr::Pop => self.pop(),
            PitonInstr::PopStar(count) => self.pop_star(count),
            PitonInstr::Popn => self.popn(),
            PitonInstr::NoOp => self.no_op(),
            PitonInstr::Jump(place) => self.jump(place),
            PitonInstr::JumpIfTempStkFull(place) => self.jump_where(self.is_full(), place, 0),
            PitonInstr::JumpIfTempStkEmpty(place) => self.jump_where(self.is_empty(), place, 0),
            PitonInstr::JumpCase(labels) => self.jump_case(labels),
            PitonInstr::Pushj(place) => self.pushj(place),
            PitonInstr::Popj => self.popj(),
            PitonInstr::TestAndJump(family, kind, place) => self.test_and_jump(family, kind, place),
            PitonInstr::Call(program) => self.call(checked, program, 0),
            PitonInstr::PopCall => self.pop_call(checked),
            PitonInstr::Ret => {
                self.ret();
                Ok(())
            }
            PitonInstr::Apply(op) => self.apply(op),
        }
    }

    /// Whether the temporary stack has no room left.
    fn is_full(&self) -> bool
        ensures { result ≡ (length self.now.state.stack == self.now.temp) }
    {
        self.stack.len() == self.stack.room()
    }

    /// Whether the temporary stack has no word.
    fn is_empty(&self) -> bool
        ensures { result ≡ (length self.now.state.stack == 0) }
    {
        self.stack.len() == 0
    }

    /// What an instruction costs.
    #[inline(always)]
    pub(crate) fn cost(&self, checked: &Resolved, instr: PitonInstr<'_>) -> u64
        requires { (program : ℕ) → variables_of (system_view checked.now) program ≤ 400 }
        ensures value { result ≡ cost_of (system_view checked.now) self.now.state (decoded_view instr.entry) }
    {
        match instr {
            PitonInstr::PushConstant(_)
            | PitonInstr::Pop
            | PitonInstr::PopStar(_)
            | PitonInstr::NoOp
            | PitonInstr::Jump(_)
            | PitonInstr::Popj => 1,
            PitonInstr::PushGlobal(_)
            | PitonInstr::PopGlobal(_)
            | PitonInstr::SetGlobal(_)
            | PitonInstr::Fetch
            | PitonInstr::Deposit
            | PitonInstr::Popn
            | PitonInstr::Pushj(_)
            | PitonInstr::TestAndJump(_, _, _) => 2,
            PitonInstr::PushLocal(_)
            | PitonInstr::PopLocal(_)
            | PitonInstr::SetLocal(_)
            | PitonInstr::PushTempStkIndex(_)
            | PitonInstr::PushTempStkFreeSize
            | PitonInstr::PushCtrlStkFreeSize
            | PitonInstr::FetchTempStk
            | PitonInstr::DepositTempStk
            | PitonInstr::JumpIfTempStkFull(_)
            | PitonInstr::JumpIfTempStkEmpty(_)
            | PitonInstr::JumpCase(_) => 3,
            PitonInstr::Ret => 4,
            PitonInstr::Call(program) => 4 + variables(checked, program),
            PitonInstr::PopCall => 5 + self.variables_on_top(checked),
            PitonInstr::Apply(op) => operation_cost(op),
        }
    }

    /// How many locals the program has that the top word names.
    fn variables_on_top(&self, checked: &Resolved) -> u64
        requires { (program : ℕ) → variables_of (system_view checked.now) program ≤ 400 }
        ensures value { result ≡ variables_on_top (system_view checked.now) self.now.state.stack }
        ensures few { result ≤ 400 }
    {
        match self.stack.get(0) {
            Some(Word::Subr { program }) => variables(checked, program),
            _ => 0,
        }
    }
}

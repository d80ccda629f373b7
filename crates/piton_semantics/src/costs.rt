//! What an operation costs, and how many locals a program has.

ghost use Rattle.std.specs.Prelude.{◌≡◌, ◌≤◌, ℕ};
ghost use Rattle.piton_check.specs.Instruction.{system_view};
ghost use Rattle.piton_semantics.specs.{State.{variables_of}, Step.{operation_cost}};

use piton_check::Resolved;
use piton_words::WordOp;

/// How many locals a program has.
pub fn variables(checked: &Resolved, program: u32) -> u64
    requires { (program : ℕ) → variables_of (system_view checked.now) program ≤ 400 }
    ensures value { result ≡ variables_of (system_view checked.now) program }
    ensures few { result ≤ 400 }
{
    match checked.programs.get(program as usize) {
        Some(found) => u64::from(found.formals) + found.temporaries.len() as u64,
        None => 0,
    }
}

/// What an operation on words costs: as many instructions as it has words of code.
pub fn operation_cost(op: WordOp) -> u64
    ensures { result ≡ operation_cost op }
{
    match op {
        WordOp::Eq => 4,
        WordOp::LtInt
        | WordOp::LtNat
        | WordOp::LtAddr
        | WordOp::Mult2NatWithCarryOut
        | WordOp::Div2Nat => 5,
        WordOp::AddIntWithCarry
        | WordOp::AddNatWithCarry
        | WordOp::SubIntWithCarry
        | WordOp::SubNatWithCarry => 7,
        _ => 1,
    }
}

//! A turn, and a round of turns.

ghost use Rattle.std.specs.Prelude.{◌≡◌, ◌≤◌, length};
ghost use Rattle.fm_machine.specs.Outcome.{outcome};
ghost use Rattle.fm_turns.specs.{declared.task.Task.TheVariants.{Running}, Turns.{turn_length, running_or_spent, state_after, after_turn_in, after_turn}};
ghost use Rattle.fm_turns.specs.Turns.{after_turns, IsWithin, AreWithin};

use crate::context::TaskContext;
use crate::round::Round;
use crate::task::Task;
use fm_machine::{Machine, Run};
use fm_words::Flags;

/// How many registers there are.
fn register_count(registers: &[u32; 16]) -> usize
    ensures { length registers.now ≡ 16 }
{
    registers.len()
}

/// Sets all registers.
fn set_registers(machine: &mut Machine, registers: &[u32; 16])
    ensures { machine.new.state ≡ record machine.old.state { registers = registers.now } }
{
    // A machine's registers are as many as these.
    let _ = register_count(machine.registers());
    for (number, word) in registers.iter().enumerate() {
        machine.set_register(number as u8, *word);
    }
}

/// How a task stands that has made `count` instructions, and isn't at its final program counter.
fn running_or_spent(round: Round, count: u64) -> Task
    ensures { result ≡ running_or_spent round count }
{
    if count == round.budget {
        Task::Spent {
            count,
            round: round.number,
        }
    } else {
        Task::Running { count }
    }
}

/// Runs the machine for a turn of a task that has made `count` instructions, and says how the task stands then.
fn run_turn(machine: &mut Machine, final_pc: u32, round: Round, count: u64) -> Task
    requires { count ≤ round.budget }
    ensures machine { machine.new.state ≡ (outcome (turn_length round count) final_pc machine.old.state).state }
    ensures task { result ≡ state_after round count (outcome (turn_length round count) final_pc machine.old.state).run }
{
    let most = round.turn.min(round.budget - count);
    match machine.run(most, final_pc) {
        Run::Ended { count: made } => Task::Ended {
            count: count + made,
            round: round.number,
        },
        Run::Spent => running_or_spent(round, count + most),
        Run::Outside {
            address,
            count: made,
        } => Task::Outside {
            address,
            count: count + made,
            round: round.number,
        },
    }
}

/// Gives a running task, which has made `count` instructions, its turn.
fn run_task(machine: &mut Machine, context: &mut TaskContext, round: Round, count: u64)
    requires { count ≤ round.budget }
    ensures base { machine.new.state.base ≡ machine.old.state.base }
    ensures memory { machine.new.state.memory
        ≡ (after_turn_in round machine.old.state.base machine.old.state.memory context.old (Running count)).memory }
    ensures context { context.new
        ≡ (after_turn_in round machine.old.state.base machine.old.state.memory context.old (Running count)).context }
{
    set_registers(machine, &context.registers);
    machine.set_flags(context.flags);
    context.state = run_turn(machine, context.image.final_pc, round, count);
    context.registers = *machine.registers();
    context.flags = machine.flags();
}

/// Gives a task its turn. One that isn't running is left as it is.
fn take_turn(machine: &mut Machine, context: &mut TaskContext, round: Round)
    requires { IsWithin round.budget context.old.state }
    ensures base { machine.new.state.base ≡ machine.old.state.base }
    ensures memory { machine.new.state.memory
        ≡ (after_turn round machine.old.state.base machine.old.state.memory context.old).memory }
    ensures context { context.new
        ≡ (after_turn round machine.old.state.base machine.old.state.memory context.old).context }
{
    match context.state {
        Task::Running { count } => run_task(machine, context, round, count),
        Task::Ended { .. } | Task::Spent { .. } | Task::Outside { .. } => {}
    }
}

/// Gives each task its turn.
pub(crate) fn go_round(machine: &mut Machine, contexts: &mut [TaskContext], round: Round)
    requires within { AreWithin round.budget contexts.old }
    ensures base { machine.new.state.base ≡ machine.old.state.base }
    ensures memory { machine.new.state.memory
        ≡ (after_turns round machine.old.state.base machine.old.state.memory contexts.old).memory }
    ensures contexts { contexts.new
        ≡ (after_turns round machine.old.state.base machine.old.state.memory contexts.old).contexts }
{
    for context in contexts.iter_mut() {
        take_turn(machine, context, round);
    }
}

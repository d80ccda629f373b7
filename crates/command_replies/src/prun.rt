//! The command `prun`.
ghost use Rattle.std.specs.{Prelude.{◌≡◌, ◌≤◌, ◌^◌, ◌++◌, None, IfOk, length}, List.{flat_map, enumerate_from}};
ghost use Rattle.stack_heap.specs.Heaps.{IfOkUnless, OnOkUnless};
ghost use Rattle.command_replies.specs.{Commands.Prun.{area_line, halted_text, run_end_reply, system_run_reply, prun_reply}, Plans.{pending_reply}};

use crate::lines::line_of;
use crate::piton_text::read_checked;
use crate::plan::Plan;
use crate::reply::Verdict;
use itoa::Buffer;
use piton_check::{Checked, program_name, words_line};
use piton_machine::State;
use piton_semantics::PitonRun;
use piton_syntax::System;
use stack_heap::Heap;
use stack_text::{Memory, Seq};

/// What is left of `prun` once its text is there.
pub fn prepare<H: Heap>(heap: H, piton: &[u8], limit: u64) -> Result<Plan, Memory>
    requires { length piton.now ≤ 2 ^ 31 }
    ensures stored { IfOkUnless (H.may_refuse heap) result (λ plan. plan.stored ≡ None) }
    ensures reply { IfOk result (λ plan. pending_reply plan.pending ≡ prun_reply piton.now limit) }
{
    match read_checked(heap, piton)? {
        Ok(checked) => run_system(heap, &checked, limit),
        Err(verdict) => Ok(Plan::verdict_alone(heap.handle(), verdict)),
    }
}

/// The run of a checked system.
#[tactic(auto, unfolding(crate::specs::Commands::Prun::system_run_reply))]
fn run_system<H: Heap>(heap: H, checked: &Checked, limit: u64) -> Result<Plan, Memory>
    ensures stored { IfOkUnless (H.may_refuse heap) result (λ plan. plan.stored ≡ None) }
    ensures reply { IfOk result (λ plan. pending_reply plan.pending ≡ system_run_reply checked.now limit) }
{
    let mut state = State::start(heap, checked)?;
    let run = state.run(checked, limit);
    plan_of(heap, checked.system(), limit, run, &state)
}

/// The reply to a run that ended in this way, in this state.
fn plan_of<H: Heap>(
    heap: H,
    system: &System,
    limit: u64,
    run: PitonRun,
    state: &State,
) -> Result<Plan, Memory>
    requires { length system.now.areas ≤ 1000 }
    ensures stored { IfOkUnless (H.may_refuse heap) result (λ plan. plan.stored ≡ None) }
    ensures reply { IfOk result (λ plan.
        pending_reply plan.pending ≡ run_end_reply system.now limit run state.now) }
{
    match run {
        PitonRun::Halted => Ok(Plan::all_said(halted_text(heap, system, state)?)),
        PitonRun::Spent => Ok(Plan::verdict_alone(heap.handle(), Verdict::Unfinished { limit })),
        PitonRun::Error(kind) => {
            let (program, place) = state.at();
            Ok(Plan::verdict_alone(
                heap.handle(),
                Verdict::Error {
                    kind,
                    program: program_name(system, program).copied(heap)?,
                    place,
                    count: state.steps(),
                },
            ))
        }
    }
}

/// What is said of a state that has halted.
fn halted_text<H: Heap>(heap: H, system: &System, state: &State) -> Result<Seq<u8>, Memory>
    requires { length system.now.areas ≤ 1000 }
    ensures { IfOkUnless (H.may_refuse heap) result (λ text. text ≡ halted_text system.now state.now) }
{
    let mut step_digits = Buffer::new();
    let mut count_digits = Buffer::new();
    let steps = step_digits.format(state.steps()).as_bytes();
    let counted = count_digits.format(state.counted()).as_bytes();
    let mut out = line_of(heap, &[b"halted ", steps, b"\ncounted ", counted])?;
    area_lines(heap, &mut out, system, state)?;
    words_line(heap, &mut out, system, b"stack", state.stack())?;
    Ok(Seq::from_vec(out))
}

/// Appends a line for each area.
fn area_lines<H: Heap>(
    heap: H,
    out: &mut Vec<u8>,
    system: &System,
    state: &State,
) -> Result<(), Memory>
    requires { length system.now.areas ≤ 1000 }
    ensures { OnOkUnless (H.may_refuse heap) result (out.new.items ≡ out.old.items
        ++ flat_map (area_line system.now state.now.state.areas) (enumerate_from 0 system.now.areas)) }
{
    for (index, area) in system.areas.iter().enumerate() {
        words_line(
            heap,
            out,
            system,
            area.name.name.bytes(),
            state.area(index as u32),
        )?;
    }
    Ok(())
}

//! The command `mean`.
ghost use Rattle.std.specs.Prelude.{◌≡◌, ◌≤◌, ◌^◌, None, IfOk, length, map};
ghost use Rattle.stack_heap.specs.Heaps.{IfOkUnless};
ghost use Rattle.gypsy_syntax.specs.Views.SourceView.{source_of};
ghost use Rattle.gypsy_space.specs.Needs.{stack_sizes};
ghost use Rattle.gypsy_meaning.specs.{Views.Belongs.{BelongsTo}, Views.Running.{seen}};
ghost use Rattle.stack_commands.specs.Commands.Mean.{said_text, ended_text, mean_end_reply, mean_run_reply, mean_source_reply, mean_reply};
ghost use Rattle.command_replies.specs.Plans.{pending_reply};

use crate::lines::push_line;
use crate::source_text::{read_accepted, start_verdict};
use command_line::StackSize;
use command_replies::{Plan, Verdict};
use display_maps::push_run;
use gypsy_check::Accepted;
use gypsy_meaning::Meaning;
use gypsy_semantics::{Current, MeanRun};
use gypsy_space::{Needs, needs};
use stack_build::start_meaning;
use stack_heap::Heap;
use stack_text::{Memory, Name, Seq, Value};

/// What is left of `mean` once its texts are there.
pub fn prepare<H: Heap>(
    heap: H,
    source: &[u8],
    values: &[u8],
    control: &StackSize,
    temporary: &StackSize,
    limit: u64,
) -> Result<Plan, Memory>
    requires source { length source.now ≤ 2 ^ 31 }
    requires values { length values.now ≤ 2 ^ 31 }
    ensures stored { IfOkUnless (H.may_refuse heap) result (λ plan. plan.stored ≡ None) }
    ensures reply { IfOk result (λ plan.
        pending_reply plan.pending ≡ mean_reply source.now values.now control.now temporary.now limit) }
{
    match read_accepted(heap, source)? {
        Ok(accepted) => run_source(
            heap,
            &accepted,
            values,
            control.words(),
            temporary.words(),
            limit,
        ),
        Err(verdict) => Ok(Plan::verdict_alone(heap.handle(), verdict)),
    }
}

/// The run of an accepted source, with stacks of these sizes.
fn run_source<H: Heap>(
    heap: H,
    accepted: &Accepted,
    values: &[u8],
    control: u32,
    temporary: u32,
    limit: u64,
) -> Result<Plan, Memory>
    requires { length values.now ≤ 2 ^ 31 }
    ensures stored { IfOkUnless (H.may_refuse heap) result (λ plan. plan.stored ≡ None) }
    ensures reply { IfOk result (λ plan. pending_reply plan.pending
        ≡ mean_source_reply (source_of accepted.now) (stack_sizes control temporary) values.now limit) }
{
    let needs = needs(heap, accepted)?;
    match start_meaning(heap, accepted, &needs, control, temporary, values) {
        Ok(meaning) => run_meaning(heap, accepted, &needs, meaning, limit),
        Err(fault) => Ok(Plan::verdict_alone(heap.handle(), start_verdict(fault)?)),
    }
}

/// The run of a source's steps from a state on.
fn run_meaning<H: Heap>(
    heap: H,
    accepted: &Accepted,
    needs: &Needs,
    meaning: Meaning,
    limit: u64,
) -> Result<Plan, Memory>
    requires { BelongsTo (source_of accepted.now) needs.now.procedures.items meaning }
    ensures stored { IfOkUnless (H.may_refuse heap) result (λ plan. plan.stored ≡ None) }
    ensures reply { IfOk result (λ plan. pending_reply plan.pending
        ≡ mean_run_reply (source_of accepted.now) (seen meaning) limit) }
{
    let mut meaning = meaning;
    make_run(heap, accepted, needs, &mut meaning, limit)
}

/// Makes the steps of a run, and tells how it ended.
#[tactic(auto, unfolding(crate::specs::Commands::Mean::mean_run_reply))]
fn make_run<H: Heap>(
    heap: H,
    accepted: &Accepted,
    needs: &Needs,
    meaning: &mut Meaning,
    limit: u64,
) -> Result<Plan, Memory>
    requires { BelongsTo (source_of accepted.now) needs.now.procedures.items meaning.old }
    ensures stored { IfOkUnless (H.may_refuse heap) result (λ plan. plan.stored ≡ None) }
    ensures reply { IfOk result (λ plan. pending_reply plan.pending
        ≡ mean_run_reply (source_of accepted.now) (seen meaning.old) limit) }
{
    let run = meaning.run(heap, accepted, needs, limit)?;
    plan_of(heap, accepted, needs, limit, run, meaning)
}

/// The reply to a run that ended in this way.
fn plan_of<H: Heap>(
    heap: H,
    accepted: &Accepted,
    needs: &Needs,
    limit: u64,
    run: MeanRun,
    meaning: &Meaning,
) -> Result<Plan, Memory>
    requires { BelongsTo (source_of accepted.now) needs.now.procedures.items meaning.now }
    ensures stored { IfOkUnless (H.may_refuse heap) result (λ plan. plan.stored ≡ None) }
    ensures reply { IfOk result (λ plan. pending_reply plan.pending
        ≡ mean_end_reply (source_of accepted.now) limit run (seen meaning.now)) }
{
    match run {
        MeanRun::Ended => Ok(Plan::all_said(ended_text(heap, accepted, needs, meaning)?)),
        MeanRun::Spent => Ok(Plan::verdict_alone(heap.handle(), Verdict::Unfinished { limit })),
    }
}

/// The lines of how many steps a run made and at which cost, its condition and its variables.
fn run_text<H: Heap>(
    heap: H,
    steps: u64,
    counted: u64,
    condition: &Current,
    variables: &[(Name, Value)],
) -> Result<Vec<u8>, Memory>
    ensures { IfOkUnless (H.may_refuse heap) result (λ text. text.items
        ≡ said_text steps counted condition.now (map (λ v. v.0) variables.now) (map (λ v. v.1) variables.now)) }
{
    let mut text = Vec::new(heap.handle());
    push_line(heap, &mut text, b"steps ", steps)?;
    push_line(heap, &mut text, b"counted ", counted)?;
    push_run(heap, &mut text, condition, variables)?;
    Ok(text)
}

/// What is said of a run that ended.
fn ended_text<H: Heap>(
    heap: H,
    accepted: &Accepted,
    needs: &Needs,
    meaning: &Meaning,
) -> Result<Seq<u8>, Memory>
    requires { BelongsTo (source_of accepted.now) needs.now.procedures.items meaning.now }
    ensures { IfOkUnless (H.may_refuse heap) result
        (λ text. text ≡ ended_text (source_of accepted.now) (seen meaning.now)) }
{
    let (steps, counted) = (meaning.steps(), meaning.counted());
    let text = run_text(
        heap,
        steps,
        counted,
        meaning.condition(),
        meaning.variables(),
    )?;
    Ok(Seq::from_vec(text))
}

//! Runs of images on values, and the command `run`.
ghost use Rattle.std.specs.Prelude.{◌≡◌, ◌≤◌, ◌^◌, None, IfOk, length};
ghost use Rattle.stack_heap.specs.Heaps.{IfOkUnless};
ghost use Rattle.fm_loader.specs.Values.{values_in};
ghost use Rattle.command_replies.specs.{Replies.{reply_of}, Commands.Run.{end_reply, run_reply, values_reply, image_file_reply}, Plans.{pending_reply}};

use crate::image_run::ImageRun;
use crate::plan::{Pending, Plan};
use crate::reply::{Reply, Verdict};
use display_maps::{read_up, report};
use fm_image::{Image, ImageFault, read_image};
use fm_loader::{ValuesFault, load, read_image_values};
use fm_machine::{Machine, Run};
use stack_heap::Heap;
use stack_text::{Memory, Seq};

/// What is left of `run` once its texts are there.
pub fn prepare<H: Heap>(heap: H, image: &[u8], values: &[u8], budget: u64) -> Result<Plan, Memory>
    requires { length values.now ≤ 2 ^ 31 }
    ensures stored { IfOkUnless (H.may_refuse heap) result (λ plan. plan.stored ≡ None) }
    ensures reply { IfOk result (λ plan. pending_reply plan.pending ≡ image_file_reply image.now values.now budget) }
{
    match read_image(heap, image) {
        Ok(image) => Ok(Plan {
            stored: None,
            pending: begin(heap, image, values, budget)?,
        }),
        Err(ImageFault::Refused { rule, place }) => {
            Ok(Plan::verdict_alone(heap.handle(), Verdict::Image { rule, place }))
        }
        Err(ImageFault::Memory) => Err(Memory),
    }
}

/// The run of an image on the values of a text, or the rule that the values break.
pub fn begin<H: Heap>(heap: H, image: Image, values: &[u8], budget: u64) -> Result<Pending, Memory>
    requires { length values.now ≤ 2 ^ 31 }
    ensures { IfOkUnless (H.may_refuse heap) result (λ pending.
        pending_reply pending ≡ values_reply image budget (values_in image.slots values.now)) }
{
    match read_image_values(heap, values, &image) {
        Ok(values) => Ok(Pending::Run(ImageRun {
            image,
            values: Seq::from_vec(values),
            budget,
        })),
        Err(ValuesFault::Refused { rule, place }) => {
            let verdict = Verdict::Values { rule, place };
            Ok(Pending::Reply(Reply::verdict_alone(heap.handle(), verdict)))
        }
        Err(ValuesFault::Memory) => Err(Memory),
    }
}

/// Runs an image on values of its variables.
#[tactic(auto, unfolding(crate::specs::Commands::Run::run_reply))]
pub fn run_image<H: Heap>(heap: H, run: &ImageRun) -> Result<Reply, Memory>
    ensures { IfOkUnless (H.may_refuse heap) result
        (λ reply. reply_of reply ≡ run_reply run.now.image run.now.values run.now.budget) }
{
    let mut machine = load(heap, &run.image, run.values.as_slice())?;
    let end = machine.run(run.budget, run.image.final_pc);
    reply_to(heap, &run.image, run.budget, end, machine)
}

/// The reply to a run that ended in this way.
fn reply_to<H: Heap>(
    heap: H,
    image: &Image,
    budget: u64,
    end: Run,
    machine: Machine,
) -> Result<Reply, Memory>
    ensures { IfOkUnless (H.may_refuse heap) result
        (λ reply. reply_of reply ≡ end_reply image.now budget end machine.state) }
{
    let (said, verdict) = match end {
        Run::Ended { count } => {
            let reading = read_up(heap, &machine, image)?;
            let report = report(heap, image, &reading, count)?;
            (Seq::from_vec(report), Verdict::Done)
        }
        Run::Spent => (
            Seq::new(heap.handle()),
            Verdict::Unfinished { limit: budget },
        ),
        Run::Outside { address, count } => (
            Seq::new(heap.handle()),
            Verdict::Outside { address, count },
        ),
    };
    Ok(Reply {
        said,
        verdict,
        machine: Some(machine),
    })
}

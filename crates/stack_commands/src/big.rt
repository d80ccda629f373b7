//! The command `big`.
ghost use Rattle.std.specs.Prelude.{◌≡◌, [], None, IfOk, codes};
ghost use Rattle.stack_heap.specs.Heaps.{IfOkUnless};
ghost use Rattle.stack_text.specs.SharedLimits.{most_steps};
ghost use Rattle.gypsy_syntax.specs.{GypsyReading.{KeepsForm}, Views.SourceView.{source_of}};
ghost use Rattle.gypsy_check.specs.Rules.{violations};
ghost use Rattle.gypsy_gen.specs.Large.{large_of};
ghost use Rattle.fm_loader.specs.Values.{values_in};
ghost use Rattle.command_replies.specs.{Commands.Run.{values_reply}, Plans.{pending_reply}, Replies.{reply_of}};
ghost use Rattle.stack_commands.specs.Commands.Big.{after_text, source_line, go_on_source, big_reply};

use crate::build::image_of;
use crate::lines::push_line;
use crate::source_text::verdict_of;
use command_line::ProcedureCount;
use command_replies::run::begin;
use command_replies::{Pending, Plan, Reply, complete};
use fm_image::Image;
use gypsy_check::{Accepted, CheckFault, check};
use gypsy_gen::large;
use gypsy_syntax::{Source, print_gypsy};
use stack_build::build_accepted;
use stack_heap::Heap;
use stack_text::{MOST_STEPS, Memory, Seq};

/// The value of the source's variable.
const VALUES: &[u8] = b"((x 0))";

/// The words of each stack.
const WORDS: u32 = 64;

/// Runs an image of the source on the value 0.
fn run_on_value<H: Heap>(heap: H, image: Image) -> Result<Reply, Memory>
    ensures { IfOkUnless (H.may_refuse heap) result (λ reply. reply_of reply
        ≡ values_reply image most_steps (values_in image.slots (codes "((x 0))"))) }
{
    let pending = begin(heap, image, VALUES, MOST_STEPS)?;
    complete(heap, pending)
}

/// Builds a source, and runs it on the value 0.
#[tactic(auto, unfolding(crate::specs::Commands::Big::go_on_source))]
fn run_accepted<H: Heap>(heap: H, accepted: &Accepted) -> Result<Reply, Memory>
    ensures { IfOkUnless (H.may_refuse heap) result
        (λ reply. reply_of reply ≡ go_on_source (source_of accepted.now)) }
{
    match build_accepted(heap, accepted, WORDS, WORDS, 0) {
        Ok(built) => run_on_value(heap, image_of(built)),
        Err(fault) => Ok(Reply::verdict_alone(heap.handle(), verdict_of(fault)?)),
    }
}

/// Builds and runs a source that breaks no rule.
fn run_source<H: Heap>(heap: H, source: Source) -> Result<Reply, Memory>
    requires form { KeepsForm (source_of source) }
    requires rules { violations (source_of source) ≡ [] }
    ensures { IfOkUnless (H.may_refuse heap) result (λ reply. reply_of reply ≡ go_on_source (source_of source)) }
{
    match check(heap, source) {
        Ok(accepted) => run_accepted(heap, &accepted),
        Err(CheckFault::Memory) => Err(Memory),
        Err(CheckFault::Violation { rule: _, place: _ }) => unreachable!(),
    }
}

/// A reply with a text before all that it says.
fn after_text<H: Heap>(heap: H, text: Vec<u8>, reply: Reply) -> Result<Reply, Memory>
    ensures { IfOkUnless (H.may_refuse heap) result
        (λ after. reply_of after ≡ after_text text.items (reply_of reply)) }
{
    let mut said = text;
    heap.extend_from_slice(&mut said, reply.said.as_slice())?;
    Ok(Reply {
        said: Seq::from_vec(said),
        verdict: reply.verdict,
        machine: reply.machine,
    })
}

/// The line of how many bytes the printed source has.
#[tactic(auto, unfolding(crate::specs::Commands::Big::source_line))]
fn source_line<H: Heap>(
    heap: H,
    source: &Source,
    number: u32,
    procedures: u32,
) -> Result<Vec<u8>, Memory>
    requires form { KeepsForm (source_of source.now) }
    requires large { source_of source.now ≡ large_of number procedures }
    ensures { IfOkUnless (H.may_refuse heap) result (λ line. line.items ≡ source_line number procedures) }
{
    let bytes = print_gypsy(heap, source)?.len();
    let mut line = Vec::new(heap.handle());
    push_line(heap, &mut line, b"source ", bytes as u64)?;
    Ok(line)
}

/// What is left of `big`: nothing is read and nothing stored.
#[tactic(auto, unfolding(crate::specs::Commands::Big::big_reply))]
pub fn prepare<H: Heap>(heap: H, number: u32, procedures: &ProcedureCount) -> Result<Plan, Memory>
    ensures stored { IfOkUnless (H.may_refuse heap) result (λ plan. plan.stored ≡ None) }
    ensures reply { IfOk result (λ plan. pending_reply plan.pending ≡ big_reply number procedures.now) }
{
    let procedures = procedures.procedures();
    let source = large(heap, number, procedures)?;
    let first = source_line(heap, &source, number, procedures)?;
    let reply = after_text(heap, first, run_source(heap, source)?)?;
    Ok(Plan {
        stored: None,
        pending: Pending::Reply(reply),
    })
}

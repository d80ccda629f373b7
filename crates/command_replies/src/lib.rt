//! What commands reply, and the commands that read no source of Micro-Gypsy: what each makes of its texts.
#![tactic(auto)]

ghost use Rattle.std.specs.Prelude.{◌≡◌};
ghost use Rattle.stack_heap.specs.Heaps.{IfOkUnless};
ghost use Rattle.command_replies.specs.{Plans.{pending_reply}, Replies.{reply_of}};

pub mod asm;
mod image_run;
mod lines;
pub mod migrate;
pub mod mini;
pub mod pcheck;
mod piton_text;
mod plan;
pub mod prun;
mod reply;
pub mod run;
pub mod show;
pub mod unasm;

pub use image_run::ImageRun;
pub use piton_text::read_checked;
pub use plan::{Pending, Plan};
pub use reply::{Reply, RuleLetter, SizeOf, Verdict, text_rule_number};
use stack_heap::Heap;
use stack_text::Memory;

/// The reply of what a plan has left.
pub fn complete<H: Heap>(heap: H, pending: Pending) -> Result<Reply, Memory>
    ensures { IfOkUnless (H.may_refuse heap) result (λ reply. reply_of reply ≡ pending_reply pending) }
{
    match pending {
        Pending::Reply(reply) => Ok(reply),
        Pending::Run(run) => run::run_image(heap, &run),
    }
}

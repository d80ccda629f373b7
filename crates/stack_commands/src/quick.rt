//! The command `quick`.
ghost use Rattle.std.specs.Prelude.{◌≡◌, ◌≤◌, ◌^◌, IfOk, length};
ghost use Rattle.stack_heap.specs.Heaps.{IfOkUnless};
ghost use Rattle.stack_build.specs.Build.{GivesBuiltUnless};
ghost use Rattle.stack_commands.specs.Commands.Quick.{quick_built, quick_reply, quick_stored};
ghost use Rattle.command_replies.specs.Plans.{pending_reply};

use crate::source_text::refused;
use command_line::StackSize;
use command_replies::Plan;
use fm_image::Image;
use gypsy_space::resolve;
use quick_generate::quicken;
use stack_build::{BuildFault, accept, build_accepted};
use stack_heap::Heap;
use stack_text::Memory;

/// What `quick` stores, and what is left to do.
pub fn prepare<H: Heap>(
    heap: H,
    source: &[u8],
    control: &StackSize,
    temporary: &StackSize,
) -> Result<Plan, Memory>
    requires { length source.now ≤ 2 ^ 31 }
    ensures stored { IfOkUnless (H.may_refuse heap) result (λ plan.
        plan.stored ≡ quick_stored (quick_built source.now control.now temporary.now)) }
    ensures reply { IfOk result (λ plan.
        pending_reply plan.pending ≡ quick_reply (quick_built source.now control.now temporary.now)) }
{
    match build_quick(heap, source, control.words(), temporary.words()) {
        Ok(image) => Plan::holds_image(heap, &image),
        Err(fault) => refused(heap.handle(), fault),
    }
}

/// The image that `build` makes of a source, or in its place the quick image of the source, if it has one.
#[tactic(auto, unfolding(crate::specs::Commands::Quick::quick_built))]
fn build_quick<H: Heap>(heap: H, text: &[u8], ctrl: u32, temp: u32) -> Result<Image, BuildFault>
    requires { length text.now ≤ 2 ^ 31 }
    ensures { GivesBuiltUnless (H.may_refuse heap) (λ image. image) result (quick_built text.now ctrl temp) }
{
    let accepted = accept(heap, text)?;
    let built = build_accepted(heap, &accepted, ctrl, temp, 0)?;
    let plain = built.into_image();
    let program = resolve(heap, &accepted)?;
    Ok(quicken(heap, &accepted, &program, ctrl, temp, plain)?)
}

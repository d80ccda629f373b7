//! The command `build`.
ghost use Rattle.std.specs.Prelude.{◌≡◌, ◌≤◌, ◌^◌, Some, IfOk, length};
ghost use Rattle.stack_heap.specs.Heaps.{IfOkUnless};
ghost use Rattle.stack_build.specs.Build.{built};
ghost use Rattle.stack_commands.specs.Commands.Build.{image_stored, build_reply};
ghost use Rattle.command_replies.specs.{Plans.{pending_reply}, Replies.{built_reply}};

use crate::source_text::refused;
use command_line::StackSize;
use command_replies::Plan;
use fm_image::Image;
use stack_build::{Built, Origins, build_with_origins};
use stack_heap::Heap;
use stack_text::{Memory, Seq};
use std::mem::forget;

/// What `build` stores, and what is left to do.
pub fn prepare<H: Heap>(
    heap: H,
    source: &[u8],
    control: &StackSize,
    temporary: &StackSize,
) -> Result<Plan, Memory>
    requires { length source.now ≤ 2 ^ 31 }
    ensures stored { IfOkUnless (H.may_refuse heap) result (λ plan.
        plan.stored ≡ image_stored (built source.now control.now temporary.now 0)) }
    ensures reply { IfOk result (λ plan.
        pending_reply plan.pending ≡ build_reply (built source.now control.now temporary.now 0)) }
{
    match build_with_origins(heap, source, control.words(), temporary.words(), 0) {
        Ok((built, origins)) => store(heap, built, origins),
        Err(fault) => refused(heap.handle(), fault),
    }
}

/// Stores an image's file. The process ends next, and with it the memory of all that was built.
fn store<H: Heap>(heap: H, built: Built, origins: Origins) -> Result<Plan, Memory>
    ensures stored { IfOkUnless (H.may_refuse heap) result (λ plan. plan.stored ≡ Some built.bytes) }
    ensures reply { IfOk result (λ plan. pending_reply plan.pending ≡ built_reply built.image.size) }
{
    let Built {
        image,
        bytes,
        piton,
    } = built;
    let size = image.size;
    forget(piton);
    forget(image);
    forget(origins);
    Plan::stores_image(heap, size, Seq::from_vec(bytes))
}

/// The image alone of what was built.
pub fn image_of(built: Built) -> Image
    ensures { result ≡ built.image }
{
    built.image
}

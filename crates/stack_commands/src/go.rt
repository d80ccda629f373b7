//! The command `go`: builds a program, stores its image, and runs it.
ghost use Rattle.std.specs.Prelude.{◌≡◌, ◌≤◌, ◌^◌, Some, IfOk, length};
ghost use Rattle.stack_heap.specs.Heaps.{IfOkUnless};
ghost use Rattle.fm_loader.specs.Values.{values_in};
ghost use Rattle.stack_build.specs.Build.{built};
ghost use Rattle.stack_commands.specs.{Commands.Build.{image_stored}, Commands.Go.{go_reply}};
ghost use Rattle.command_replies.specs.{Commands.Run.{values_reply}, Plans.{pending_reply}};

use crate::source_text::refused;
use command_line::StackSize;
use command_replies::Plan;
use command_replies::run::begin;
use stack_build::{Built, Origins, build_with_origins};
use stack_heap::Heap;
use stack_text::{Memory, Seq};
use std::mem::forget;

/// What `go` stores, and what is left to do.
///
/// The values are read here, before the store; a refusal of them waits in `pending`, so the image is stored all the same.
pub fn prepare<H: Heap>(
    heap: H,
    source: &[u8],
    values: &[u8],
    control: &StackSize,
    temporary: &StackSize,
    budget: u64,
) -> Result<Plan, Memory>
    requires source { length source.now ≤ 2 ^ 31 }
    requires values { length values.now ≤ 2 ^ 31 }
    ensures stored { IfOkUnless (H.may_refuse heap) result (λ plan.
        plan.stored ≡ image_stored (built source.now control.now temporary.now 0)) }
    ensures reply { IfOk result (λ plan.
        pending_reply plan.pending ≡ go_reply (built source.now control.now temporary.now 0) values.now budget) }
{
    match build_with_origins(heap, source, control.words(), temporary.words(), 0) {
        Ok((built, origins)) => store_and_begin(heap, built, origins, values, budget),
        Err(fault) => refused(heap.handle(), fault),
    }
}

/// Stores an image's file, and begins the image's run on the values of a text. What the image was made of stays until the process
/// ends: to give it back takes longer than most runs.
fn store_and_begin<H: Heap>(
    heap: H,
    built: Built,
    origins: Origins,
    values: &[u8],
    budget: u64,
) -> Result<Plan, Memory>
    requires { length values.now ≤ 2 ^ 31 }
    ensures stored { IfOkUnless (H.may_refuse heap) result (λ plan. plan.stored ≡ Some built.bytes) }
    ensures reply { IfOk result (λ plan.
        pending_reply plan.pending ≡ values_reply built.image budget (values_in built.image.slots values.now)) }
{
    let Built {
        image,
        bytes,
        piton,
    } = built;
    forget(piton);
    forget(origins);
    let pending = begin(heap, image, values, budget)?;
    Ok(Plan {
        stored: Some(Seq::from_vec(bytes)),
        pending,
    })
}

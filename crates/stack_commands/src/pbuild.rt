//! The command `pbuild`.
ghost use Rattle.std.specs.Prelude.{◌≡◌, ◌≤◌, ◌^◌, IfOk, length};
ghost use Rattle.stack_heap.specs.Heaps.{IfOkUnless};
ghost use Rattle.piton_check.specs.PitonChecking.{IsChecked};
ghost use Rattle.piton_semantics.specs.Fits.{system_in};
ghost use Rattle.stack_commands.specs.Commands.Pbuild.{linked_stored, linked_reply, pbuild_stored, pbuild_reply};
ghost use Rattle.command_replies.specs.Plans.{pending_reply};

use command_replies::{Plan, SizeOf, Verdict, read_checked};
use piton_check::Checked;
use piton_linker::LinkFault;
use stack_build::linked_image;
use stack_heap::Heap;
use stack_text::Memory;

/// What `pbuild` stores, and what is left to do.
pub fn prepare<H: Heap>(heap: H, piton: &[u8]) -> Result<Plan, Memory>
    requires { length piton.now ≤ 2 ^ 31 }
    ensures stored { IfOkUnless (H.may_refuse heap) result (λ plan. plan.stored ≡ pbuild_stored piton.now) }
    ensures reply { IfOk result (λ plan. pending_reply plan.pending ≡ pbuild_reply piton.now) }
{
    match read_checked(heap, piton)? {
        Ok(checked) => link_system(heap, &checked),
        Err(verdict) => Ok(Plan::verdict_alone(heap.handle(), verdict)),
    }
}

/// Links a checked system.
fn link_system<H: Heap>(heap: H, checked: &Checked) -> Result<Plan, Memory>
    requires { IsChecked checked.now }
    ensures stored { IfOkUnless (H.may_refuse heap) result
        (λ plan. plan.stored ≡ linked_stored (system_in checked.now)) }
    ensures reply { IfOk result (λ plan. pending_reply plan.pending ≡ linked_reply (system_in checked.now)) }
{
    match linked_image(heap, checked) {
        Ok(image) => Plan::holds_image(heap, &image),
        Err(LinkFault::Large { words: need }) => Ok(Plan::verdict_alone(
            heap.handle(),
            Verdict::Size {
                of: SizeOf::Words,
                need,
            },
        )),
        Err(LinkFault::Memory) => Err(Memory),
    }
}

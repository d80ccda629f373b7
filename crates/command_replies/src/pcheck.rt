//! The command `pcheck`.
ghost use Rattle.std.specs.Prelude.{◌≡◌, ◌≤◌, ◌^◌, None, IfOk, length};
ghost use Rattle.stack_heap.specs.Heaps.{IfOkUnless};
ghost use Rattle.command_replies.specs.{Commands.Pcheck.{pcheck_reply}, Plans.{pending_reply}};

use crate::piton_text::read_checked;
use crate::plan::Plan;
use stack_heap::Heap;
use stack_text::Memory;

/// What is left of `pcheck` once its text is there.
pub fn prepare<H: Heap>(heap: H, piton: &[u8]) -> Result<Plan, Memory>
    requires { length piton.now ≤ 2 ^ 31 }
    ensures stored { IfOkUnless (H.may_refuse heap) result (λ plan. plan.stored ≡ None) }
    ensures reply { IfOk result (λ plan. pending_reply plan.pending ≡ pcheck_reply piton.now) }
{
    match read_checked(heap, piton)? {
        Ok(_) => Plan::says_ok(heap),
        Err(verdict) => Ok(Plan::verdict_alone(heap.handle(), verdict)),
    }
}

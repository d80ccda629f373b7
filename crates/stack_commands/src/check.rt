//! The command `check`.
ghost use Rattle.std.specs.Prelude.{◌≡◌, ◌≤◌, ◌^◌, None, IfOk, length};
ghost use Rattle.stack_heap.specs.Heaps.{IfOkUnless};
ghost use Rattle.stack_commands.specs.Commands.Check.{check_reply};
ghost use Rattle.command_replies.specs.Plans.{pending_reply};

use crate::source_text::read_accepted;
use command_replies::Plan;
use stack_heap::Heap;
use stack_text::Memory;

/// What is left of `check` once its text is there.
pub fn prepare<H: Heap>(heap: H, source: &[u8]) -> Result<Plan, Memory>
    requires { length source.now ≤ 2 ^ 31 }
    ensures stored { IfOkUnless (H.may_refuse heap) result (λ plan. plan.stored ≡ None) }
    ensures reply { IfOk result (λ plan. pending_reply plan.pending ≡ check_reply source.now) }
{
    match read_accepted(heap, source)? {
        Ok(_) => Plan::says_ok(heap),
        Err(verdict) => Ok(Plan::verdict_alone(heap.handle(), verdict)),
    }
}

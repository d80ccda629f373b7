//! The command `pit`.
ghost use Rattle.std.specs.Prelude.{◌≡◌, ◌≤◌, ◌^◌, Some, IfOk, length};
ghost use Rattle.stack_heap.specs.Heaps.{IfOkUnless};
ghost use Rattle.piton_syntax.specs.{PitonReading.{KeepsForm}, Printed.{piton_text}};
ghost use Rattle.stack_build.specs.Build.{compiled};
ghost use Rattle.command_replies.specs.{Replies.{written_reply}, Plans.{pending_reply}};
ghost use Rattle.stack_commands.specs.Commands.Pit.{pit_stored, pit_reply};

use crate::source_text::refused;
use command_line::{FileName, StackSize};
use command_replies::Plan;
use piton_syntax::{System, print_piton};
use stack_build::compile;
use stack_heap::Heap;
use stack_text::{Memory, Seq};

/// What `pit` stores under this name, and what is left to do.
pub fn prepare<H: Heap>(
    heap: H,
    source: &[u8],
    control: &StackSize,
    temporary: &StackSize,
    name: &FileName,
) -> Result<Plan, Memory>
    requires { length source.now ≤ 2 ^ 31 }
    ensures stored { IfOkUnless (H.may_refuse heap) result (λ plan.
        plan.stored ≡ pit_stored (compiled source.now control.now temporary.now 0)) }
    ensures reply { IfOk result (λ plan.
        pending_reply plan.pending ≡ pit_reply name.now (compiled source.now control.now temporary.now 0)) }
{
    match compile(heap, source, control.words(), temporary.words(), 0) {
        Ok(checked) => store(heap, checked.system(), name),
        Err(fault) => refused(heap.handle(), fault),
    }
}

/// Stores the text of a system, and says under which name.
fn store<H: Heap>(heap: H, system: &System, name: &FileName) -> Result<Plan, Memory>
    requires { KeepsForm system.now }
    ensures stored { IfOkUnless (H.may_refuse heap) result (λ plan. plan.stored ≡ Some (piton_text system.now)) }
    ensures reply { IfOk result (λ plan. pending_reply plan.pending ≡ written_reply name.now) }
{
    let file = Seq::from_vec(print_piton(heap, system)?);
    Plan::written(heap, name, file)
}

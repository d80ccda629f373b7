//! The command `asm`.
ghost use Rattle.std.specs.Prelude.{◌≡◌, ◌≤◌, ◌^◌, IfOk, length};
ghost use Rattle.stack_heap.specs.Heaps.{IfOkUnless};
ghost use Rattle.command_replies.specs.{Commands.Asm.{asm_stored, asm_reply}, Plans.{pending_reply}};

use crate::plan::Plan;
use crate::reply::{RuleLetter, Verdict};
use fm_asm::{AsmFault, assemble};
use stack_heap::Heap;
use stack_text::Memory;

/// What `asm` stores, and what is left to do.
pub fn prepare<H: Heap>(heap: H, assembly: &[u8]) -> Result<Plan, Memory>
    requires { length assembly.now ≤ 2 ^ 31 }
    ensures stored { IfOkUnless (H.may_refuse heap) result (λ plan. plan.stored ≡ asm_stored assembly.now) }
    ensures reply { IfOk result (λ plan. pending_reply plan.pending ≡ asm_reply assembly.now) }
{
    match assemble(heap, assembly) {
        Ok(image) => Plan::holds_image(heap, &image),
        Err(
            AsmFault::Refused {
                rule: number,
                place,
            },
        ) => Ok(Plan::verdict_alone(
            heap.handle(),
            Verdict::Refused {
                letter: RuleLetter::A,
                number,
                place,
            },
        )),
        Err(AsmFault::Memory) => Err(Memory),
    }
}

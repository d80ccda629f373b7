//! The command `mini`.
ghost use Rattle.std.specs.Prelude.{◌≡◌, ◌≤◌, ◌^◌, Some, IfOk, length};
ghost use Rattle.stack_heap.specs.Heaps.{IfOkUnless};
ghost use Rattle.gypsy_syntax.specs.{Printed.{gypsy_text}, Views.SourceView.{source_of}};
ghost use Rattle.command_replies.specs.{Commands.Mini.{mini_stored, mini_reply}, Replies.{written_reply}, Plans.{pending_reply}};

use crate::plan::Plan;
use crate::reply::{RuleLetter, Verdict};
use command_line::FileName;
use gypsy_check::Accepted;
use gypsy_syntax::print_gypsy;
use mini_gypsy::{MiniFault, lower};
use stack_heap::Heap;
use stack_text::{Memory, Seq};

/// What `mini` stores under this name, and what is left to do.
pub fn prepare<H: Heap>(heap: H, program: &[u8], name: &FileName) -> Result<Plan, Memory>
    requires { length program.now ≤ 2 ^ 20 }
    ensures stored { IfOkUnless (H.may_refuse heap) result (λ plan. plan.stored ≡ mini_stored program.now) }
    ensures reply { IfOk result (λ plan. pending_reply plan.pending ≡ mini_reply name.now program.now) }
{
    match lower(heap, program) {
        Ok(accepted) => store(heap, &accepted, name),
        Err(
            MiniFault::Refused {
                rule: number,
                place,
            },
        ) => Ok(Plan::verdict_alone(
            heap.handle(),
            Verdict::Refused {
                letter: RuleLetter::Y,
                number,
                place,
            },
        )),
        Err(MiniFault::Memory) => Err(Memory),
    }
}

/// Stores the text of an accepted source, and says under which name.
fn store<H: Heap>(heap: H, accepted: &Accepted, name: &FileName) -> Result<Plan, Memory>
    ensures stored { IfOkUnless (H.may_refuse heap) result
        (λ plan. plan.stored ≡ Some (gypsy_text (source_of accepted.now))) }
    ensures reply { IfOk result (λ plan. pending_reply plan.pending ≡ written_reply name.now) }
{
    let file = Seq::from_vec(print_gypsy(heap, accepted.source())?);
    Plan::written(heap, name, file)
}

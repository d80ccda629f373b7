//! The command `unasm`.
ghost use Rattle.std.specs.Prelude.{◌≡◌, IfOk};
ghost use Rattle.stack_heap.specs.Heaps.{IfOkUnless};
ghost use Rattle.command_replies.specs.{Commands.Unasm.{plain_stored, plain_reply, unasm_stored, unasm_reply}, Plans.{pending_reply}};

use crate::plan::Plan;
use crate::reply::Verdict;
use command_line::FileName;
use fm_asm::{plain, print_asm};
use fm_image::{Image, ImageFault, read_image};
use stack_heap::Heap;
use stack_text::{Memory, Seq};

/// What `unasm` stores, and what is left to do.
pub fn prepare<H: Heap>(heap: H, image: &[u8], name: &FileName) -> Result<Plan, Memory>
    ensures stored { IfOkUnless (H.may_refuse heap) result (λ plan. plan.stored ≡ unasm_stored image.now) }
    ensures reply { IfOk result (λ plan. pending_reply plan.pending ≡ unasm_reply name.now image.now) }
{
    match read_image(heap, image) {
        Ok(image) => store(heap, &image, name),
        Err(ImageFault::Refused { rule, place }) => {
            Ok(Plan::verdict_alone(heap.handle(), Verdict::Image { rule, place }))
        }
        Err(ImageFault::Memory) => Err(Memory),
    }
}

/// Stores the text of an image, and says under which name.
fn store<H: Heap>(heap: H, image: &Image, name: &FileName) -> Result<Plan, Memory>
    ensures stored { IfOkUnless (H.may_refuse heap) result (λ plan. plan.stored ≡ plain_stored image.now) }
    ensures reply { IfOk result (λ plan. pending_reply plan.pending ≡ plain_reply name.now image.now) }
{
    if !plain(image) {
        return Ok(Plan::verdict_alone(heap.handle(), Verdict::NotPlain));
    }
    let file = Seq::from_vec(print_asm(heap, image)?);
    Plan::written(heap, name, file)
}

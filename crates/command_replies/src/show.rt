//! The command `show`.
ghost use Rattle.std.specs.Prelude.{◌≡◌, None, IfOk};
ghost use Rattle.stack_heap.specs.Heaps.{IfOkUnless};
ghost use Rattle.command_replies.specs.{Commands.Show.{show_reply}, Plans.{pending_reply}};

use crate::plan::Plan;
use crate::reply::Verdict;
use fm_image::{ImageFault, read_image};
use fm_show::show_image;
use stack_heap::Heap;
use stack_text::{Memory, Seq};

/// What is left of `show` once its text is there.
pub fn prepare<H: Heap>(heap: H, image: &[u8]) -> Result<Plan, Memory>
    ensures stored { IfOkUnless (H.may_refuse heap) result (λ plan. plan.stored ≡ None) }
    ensures reply { IfOk result (λ plan. pending_reply plan.pending ≡ show_reply image.now) }
{
    match read_image(heap, image) {
        Ok(image) => Ok(Plan::all_said(Seq::from_vec(show_image(heap, &image)?))),
        Err(ImageFault::Refused { rule, place }) => {
            Ok(Plan::verdict_alone(heap.handle(), Verdict::Image { rule, place }))
        }
        Err(ImageFault::Memory) => Err(Memory),
    }
}

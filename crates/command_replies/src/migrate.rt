//! The command `migrate`.
ghost use Rattle.std.specs.Prelude.{◌≡◌, Some, IfOk};
ghost use Rattle.stack_heap.specs.Heaps.{IfOkUnless};
ghost use Rattle.fm_image.specs.{Limits.{in_version_2}, Spelling.{spelling}};
ghost use Rattle.command_replies.specs.{Commands.Migrate.{migrate_stored, migrate_reply}, Replies.{written_reply}, Plans.{pending_reply}};

use crate::plan::Plan;
use crate::reply::Verdict;
use command_line::FileName;
use fm_image::{Image, ImageFault, in_version_2, read_image, write_image};
use stack_heap::Heap;
use stack_text::{Memory, Seq};

/// What `migrate` stores under this name, and what is left to do.
pub fn prepare<H: Heap>(heap: H, image: &[u8], name: &FileName) -> Result<Plan, Memory>
    ensures stored { IfOkUnless (H.may_refuse heap) result (λ plan. plan.stored ≡ migrate_stored image.now) }
    ensures reply { IfOk result (λ plan. pending_reply plan.pending ≡ migrate_reply name.now image.now) }
{
    match read_image(heap, image) {
        Ok(image) => store(heap, image, name),
        Err(ImageFault::Refused { rule, place }) => {
            Ok(Plan::verdict_alone(heap.handle(), Verdict::Image { rule, place }))
        }
        Err(ImageFault::Memory) => Err(Memory),
    }
}

/// Stores the file of an image in version 2, and says under which name.
fn store<H: Heap>(heap: H, image: Image, name: &FileName) -> Result<Plan, Memory>
    ensures stored { IfOkUnless (H.may_refuse heap) result
        (λ plan. plan.stored ≡ Some (spelling (in_version_2 image))) }
    ensures reply { IfOk result (λ plan. pending_reply plan.pending ≡ written_reply name.now) }
{
    let image = in_version_2(image);
    let file = Seq::from_vec(write_image(heap, &image)?);
    Plan::written(heap, name, file)
}

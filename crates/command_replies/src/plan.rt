//! What a command makes of its texts: first what it stores, then its reply.

use crate::image_run::ImageRun;
use crate::lines::line_of;
use crate::reply::{Reply, Verdict};
use command_line::FileName;
use fm_image::{Image, write_image};
use itoa::Buffer;
use stack_heap::Heap;
use stack_text::{Memory, Seq};
use std::alloc::Global;

/// What is left to do once the file is stored.
#[derive(Drop)]
pub enum Pending {
    /// The reply, which is made already.
    Reply(Reply),
    /// A run of the image, of which the reply is made.
    Run(ImageRun),
}

/// What a command stores, and what is left to do.
#[derive(Drop)]
pub struct Plan {
    /// The bytes of the file that is stored, or none where the command stores nothing.
    pub stored: Option<Seq<u8>>,
    /// The reply, or the run that is still to be made.
    pub pending: Pending,
}

impl Plan {
    ghost use Rattle.std.specs.Prelude.{◌≡◌, Some, None, IfOk, codes};
    ghost use Rattle.stack_heap.specs.Heaps.{IfOkUnless};
    ghost use Rattle.stack_text.specs.Lines.{line};
    ghost use Rattle.fm_image.specs.Spelling.{spelling};
    ghost use Rattle.command_replies.specs.{Replies.{built_reply, written_reply, verdict_alone, all_said}, Plans.{pending_reply}};

    /// Stores nothing, and replies a verdict alone. It takes no memory.
    pub fn verdict_alone(handle: Global, verdict: Verdict) -> Plan
        ensures stored { result.stored ≡ None }
        ensures reply { pending_reply result.pending ≡ verdict_alone verdict }
    {
        Plan {
            stored: None,
            pending: Pending::Reply(Reply::verdict_alone(handle, verdict)),
        }
    }

    /// Stores an image's file, and says how many words its window has.
    pub fn stores_image<H: Heap>(heap: H, size: u32, file: Seq<u8>) -> Result<Plan, Memory>
        ensures stored { IfOkUnless (H.may_refuse heap) result (λ plan. plan.stored ≡ Some file) }
        ensures reply { IfOk result (λ plan. pending_reply plan.pending ≡ built_reply size) }
    {
        let mut digits = Buffer::new();
        let said = line_of(heap, &[b"built ", digits.format(size).as_bytes()])?;
        Ok(Plan {
            stored: Some(file),
            pending: Pending::Reply(Reply {
                said: Seq::from_vec(said),
                verdict: Verdict::Done,
                machine: None,
            }),
        })
    }

    /// Stores a file, and says under which name.
    pub fn written<H: Heap>(heap: H, name: &FileName, file: Seq<u8>) -> Result<Plan, Memory>
        ensures stored { IfOkUnless (H.may_refuse heap) result (λ plan. plan.stored ≡ Some file) }
        ensures reply { IfOk result (λ plan. pending_reply plan.pending ≡ written_reply name.now) }
    {
        let said = line_of(heap, &[b"written ", name.as_str().as_bytes()])?;
        Ok(Plan {
            stored: Some(file),
            pending: Pending::Reply(Reply {
                said: Seq::from_vec(said),
                verdict: Verdict::Done,
                machine: None,
            }),
        })
    }

    /// Stores nothing, and replies a text after which the command came to its defined end.
    pub fn all_said(said: Seq<u8>) -> Plan
        ensures stored { result.stored ≡ None }
        ensures reply { pending_reply result.pending ≡ all_said said }
    {
        Plan {
            stored: None,
            pending: Pending::Reply(Reply {
                said,
                verdict: Verdict::Done,
                machine: None,
            }),
        }
    }

    /// Stores an image, and says how many words its window has.
    pub fn holds_image<H: Heap>(heap: H, image: &Image) -> Result<Plan, Memory>
        ensures stored { IfOkUnless (H.may_refuse heap) result (λ plan. plan.stored ≡ Some (spelling image.now)) }
        ensures reply { IfOk result (λ plan. pending_reply plan.pending ≡ built_reply image.now.size) }
    {
        let file = Seq::from_vec(write_image(heap, image)?);
        Plan::stores_image(heap, image.size, file)
    }

    /// Stores nothing, and replies that a text was accepted.
    pub fn says_ok<H: Heap>(heap: H) -> Result<Plan, Memory>
        ensures stored { IfOkUnless (H.may_refuse heap) result (λ plan. plan.stored ≡ None) }
        ensures reply { IfOk result (λ plan. pending_reply plan.pending ≡ all_said (line (codes "ok"))) }
    {
        Ok(Plan::all_said(Seq::from_vec(heap.copied(b"ok\n")?)))
    }
}

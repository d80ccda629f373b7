//! The command `cert`.
ghost use Rattle.std.specs.Prelude.{◌≡◌, ◌≤◌, ◌^◌, None, IfOk, length};
ghost use Rattle.stack_heap.specs.Heaps.{IfOkUnless};
ghost use Rattle.gypsy_syntax.specs.Views.SourceView.{source_of};
ghost use Rattle.gypsy_space.specs.Needs.{stack_sizes};
ghost use Rattle.stack_commands.specs.Commands.Cert.{yes_or_no, certificate_reply, cert_reply};
ghost use Rattle.command_replies.specs.{Plans.{pending_reply}, Replies.{all_said}};

use crate::source_text::read_accepted;
use command_line::StackSize;
use command_replies::{Plan, Verdict};
use gypsy_check::Accepted;
use gypsy_space::needs;
use space_cert::{CertTextFault, accepts, read_certificate};
use stack_heap::Heap;
use stack_text::{Memory, Seq};

/// What is left of `cert` once its texts are there.
pub fn prepare<H: Heap>(
    heap: H,
    source: &[u8],
    certificate: &[u8],
    control: &StackSize,
    temporary: &StackSize,
) -> Result<Plan, Memory>
    requires source { length source.now ≤ 2 ^ 31 }
    requires certificate { length certificate.now ≤ 2 ^ 31 }
    ensures stored { IfOkUnless (H.may_refuse heap) result (λ plan. plan.stored ≡ None) }
    ensures reply { IfOk result (λ plan.
        pending_reply plan.pending ≡ cert_reply source.now certificate.now control.now temporary.now) }
{
    match read_accepted(heap, source)? {
        Ok(accepted) => judge(
            heap,
            &accepted,
            certificate,
            control.words(),
            temporary.words(),
        ),
        Err(verdict) => Ok(Plan::verdict_alone(heap.handle(), verdict)),
    }
}

/// Whether a certificate covers an accepted source, in stacks of these sizes.
#[tactic(auto, unfolding(crate::specs::Commands::Cert::certificate_reply))]
fn judge<H: Heap>(
    heap: H,
    accepted: &Accepted,
    certificate: &[u8],
    control: u32,
    temporary: u32,
) -> Result<Plan, Memory>
    requires { length certificate.now ≤ 2 ^ 31 }
    ensures stored { IfOkUnless (H.may_refuse heap) result (λ plan. plan.stored ≡ None) }
    ensures reply { IfOk result (λ plan. pending_reply plan.pending
        ≡ certificate_reply (source_of accepted.now) (stack_sizes control temporary) certificate.now) }
{
    let needs = needs(heap, accepted)?;
    match read_certificate(heap, certificate, accepted) {
        Ok(certificate) => say(
            heap,
            accepts(accepted, &needs, &certificate, control, temporary),
        ),
        Err(CertTextFault::Refused { rule, place }) => {
            Ok(Plan::verdict_alone(heap.handle(), Verdict::Certificate { rule, place }))
        }
        Err(CertTextFault::Memory) => Err(Memory),
    }
}

/// Says yes or no.
fn say<H: Heap>(heap: H, answer: bool) -> Result<Plan, Memory>
    ensures stored { IfOkUnless (H.may_refuse heap) result (λ plan. plan.stored ≡ None) }
    ensures reply { IfOk result (λ plan. pending_reply plan.pending ≡ all_said (yes_or_no answer)) }
{
    let said = if answer {
        b"yes\n".as_slice()
    } else {
        b"no\n".as_slice()
    };
    Ok(Plan::all_said(Seq::from_vec(heap.copied(said)?)))
}

//! The command `need`.
ghost use Rattle.std.specs.Prelude.{◌≡◌, ◌≤◌, ◌<◌, ◌^◌, [], Some, None, Err, IfOk, get_or, length, map};
ghost use Rattle.stack_heap.specs.Heaps.{IfOkUnless};
ghost use Rattle.gypsy_syntax.specs.{Resolved.{procedure_names, program_of}, Views.SourceView.{proc_of, source_of}};
ghost use Rattle.gypsy_space.specs.Events.{AreNeeds, AreSmall};
ghost use Rattle.space_cert.specs.{CertText.{certificate_text}, Covers.{as_words, sizes_for}};
ghost use Rattle.stack_commands.specs.Commands.Need.{sizes_text, bounds_reply, certified_stored, certified_reply, need_stored, need_reply};
ghost use Rattle.command_replies.specs.{Plans.{pending_reply}, Replies.{all_said}};

use crate::lines::push_line;
use crate::source_text::read_accepted;
use command_replies::{Pending, Plan, Reply, Verdict};
use gypsy_check::Accepted;
use gypsy_space::{Needs, needs};
use gypsy_syntax::Proc;
use space_cert::{CertFault, Certificate, certify, print_certificate, sizes_for};
use stack_heap::Heap;
use stack_text::{Memory, Name, Seq};

/// What `need` stores, and what is left to do.
pub fn prepare<H: Heap>(heap: H, source: &[u8]) -> Result<Plan, Memory>
    requires { length source.now ≤ 2 ^ 31 }
    ensures stored { IfOkUnless (H.may_refuse heap) result (λ plan. plan.stored ≡ need_stored source.now) }
    ensures reply { IfOk result (λ plan. pending_reply plan.pending ≡ need_reply source.now) }
{
    match read_accepted(heap, source)? {
        Ok(accepted) => certify_source(heap, &accepted),
        Err(verdict) => Ok(Plan::verdict_alone(heap.handle(), verdict)),
    }
}

/// The certificate of an accepted source, or the procedure that reaches itself.
#[tactic(auto, unfolding(crate::specs::Commands::Need::certified_stored, crate::specs::Commands::Need::certified_reply))]
fn certify_source<H: Heap>(heap: H, accepted: &Accepted) -> Result<Plan, Memory>
    ensures stored { IfOkUnless (H.may_refuse heap) result
        (λ plan. plan.stored ≡ certified_stored (source_of accepted.now)) }
    ensures reply { IfOk result (λ plan. pending_reply plan.pending ≡ certified_reply (source_of accepted.now)) }
{
    let needs = needs(heap, accepted)?;
    match certify(heap, accepted, &needs) {
        Ok(certificate) => store(heap, accepted, &needs, &certificate),
        Err(CertFault::Recursive { procedure }) => recursive(heap, accepted, procedure),
        Err(CertFault::Memory) => Err(Memory),
    }
}

/// The procedure at a position.
fn procedure_at(procs: &[Proc], procedure: u32) -> &Proc
    requires { procedure < length procs.now }
    ensures { result.now.name.name
        ≡ get_or (map (λ proc. proc.name.name) (map proc_of procs.now)) procedure [] }
{
    let place = procedure as usize;
    &procs[place]
}

/// The name of a procedure.
fn name_of<H: Heap>(heap: H, proc: &Proc) -> Result<Name, Memory>
    ensures { IfOkUnless (H.may_refuse heap) result (λ name. name ≡ proc.now.name.name) }
{
    proc.name.name.copied(heap)
}

/// The name of the procedure at a position of an accepted source.
fn procedure_name<H: Heap>(heap: H, accepted: &Accepted, procedure: u32) -> Result<Name, Memory>
    requires { procedure < length (program_of (source_of accepted.now)).procs }
    ensures { IfOkUnless (H.may_refuse heap) result
        (λ name. name ≡ get_or (procedure_names (source_of accepted.now)) procedure []) }
{
    let source = accepted.source();
    let procs = source.procs.as_slice();
    name_of(heap, procedure_at(procs, procedure))
}

/// The reply where the procedure at a position reaches itself.
fn recursive<H: Heap>(heap: H, accepted: &Accepted, procedure: u32) -> Result<Plan, Memory>
    requires { procedure < length (program_of (source_of accepted.now)).procs }
    ensures stored { IfOkUnless (H.may_refuse heap) result (λ plan. plan.stored ≡ None) }
    ensures reply { IfOk result (λ plan. pending_reply plan.pending
        ≡ bounds_reply (source_of accepted.now) (Err procedure)) }
{
    let procedure = procedure_name(heap, accepted, procedure)?;
    Ok(Plan::verdict_alone(heap.handle(), Verdict::Recursive { procedure }))
}

/// The lines of the sizes of both stacks.
fn sizes_text<H: Heap>(heap: H, sizes: (u64, u64)) -> Result<Seq<u8>, Memory>
    ensures { IfOkUnless (H.may_refuse heap) result (λ text. text ≡ sizes_text (as_words sizes)) }
{
    let (temporary, control) = sizes;
    let mut text = Vec::new(heap.handle());
    push_line(heap, &mut text, b"control ", control)?;
    push_line(heap, &mut text, b"temporary ", temporary)?;
    Ok(Seq::from_vec(text))
}

/// Stores a certificate, and says which sizes it is enough for.
fn store<H: Heap>(
    heap: H,
    accepted: &Accepted,
    needs: &Needs,
    certificate: &Certificate,
) -> Result<Plan, Memory>
    requires number { length certificate.now.bounds.items ≡ length (source_of accepted.now).procs }
    requires needs { AreNeeds (program_of (source_of accepted.now)) needs.now.procedures.items }
    requires small { AreSmall needs.now.procedures.items }
    ensures stored { let names = procedure_names (source_of accepted.now) in
        IfOkUnless (H.may_refuse heap) result
        (λ plan. plan.stored ≡ Some (certificate_text names certificate.now.bounds.items)) }
    ensures reply { let program = program_of (source_of accepted.now) in
        IfOk result (λ plan.
        pending_reply plan.pending ≡ all_said (sizes_text (sizes_for program certificate.now.bounds.items))) }
{
    let said = sizes_text(heap, sizes_for(accepted, needs, certificate))?;
    let file = print_certificate(heap, accepted, certificate)?;
    Ok(Plan {
        stored: Some(Seq::from_vec(file)),
        pending: Pending::Reply(Reply {
            said,
            verdict: Verdict::Done,
            machine: None,
        }),
    })
}

//! The least certificate.

ghost use Rattle.std.specs.{Prelude.{◌≡◌, ℕ, ◌+◌, ◌<◌, ◌≤◌, ◌^◌, ◌++◌, None, get_or, length, map, reverse, take, IfErr}, Result.{MatchResult}, List.{All}};
ghost use Rattle.stack_heap.specs.Heaps.{IfOkUnless, OnOkUnless};
ghost use Rattle.gypsy_syntax.specs.{ProgramFits.{ProgramFits}, Resolved.{program_of}, Views.SourceView.{source_of}};
ghost use Rattle.gypsy_space.specs.{Events.{AreNeeds, AreSmall, IsSmall}, Nodes.{seen_program, seen_statement, seen_statements}};
ghost use Rattle.space_cert.specs.{Covers.{as_words, callees}, Certified.{GivesCertifiedUnless, certified}, Order.{AreBounds, bounds_by_needs, call_bound_by}};
ghost use Rattle.space_cert.specs.{Order.{run_bound_by}, Least.{IsCertFaultUnless, AreLeastBounds, IsThere}, Internal.SearchView.{seen_calls}};

use crate::certificate::Certificate;
use crate::filling::filled;
use crate::search::call_order;
use gypsy_check::Accepted;
use gypsy_space::{Need, Needs, Node, Program, resolve};
use gypsy_syntax::plain_form;
use stack_heap::Heap;
use stack_text::Memory;
use std::rc::Rc;
use thiserror::Error;

/// Why no certificate of a source was made.
#[derive(Clone, Copy, Debug, PartialEq, Eq, Error)]
pub enum CertFault {
    /// Main reaches the procedure, which reaches itself, by one call or more. None before it in the source is so. Its
    /// position is counted from 0.
    #[error("procedure {procedure} reaches itself")]
    Recursive { procedure: u32 },
    /// An allocation failed.
    #[error("out of memory")]
    Memory,
}

impl From<Memory> for CertFault {
    ghost use Rattle.std.specs.Prelude.{◌≡◌};
    ghost use Rattle.space_cert.specs.declared.certifying.CertFault.TheVariants as faults;

    ghost from_gives = { λ _ e. e ≡ faults.Memory };

    fn from(_error: Memory) -> CertFault {
        CertFault::Memory
    }
}

/// Appends the callees of the calls in a statement.
#[cycle(statements)]
fn append_callees<H: Heap>(heap: H, calls: &mut Vec<u32>, node: &Rc<Node>) -> Result<(), Memory>
    ensures { OnOkUnless (H.may_refuse heap) result
        (calls.new.items ≡ calls.old.items ++ callees (seen_statement node.now.value)) }
{
    match &**node {
        Node::NoOp(_) | Node::Signal(_, _) | Node::Apply(_) => Ok(()),
        Node::Seq(parts) => append_all(heap, calls, parts),
        Node::Loop(_, body) => append_callees(heap, calls, body),
        Node::If(_, _, yes, no) => {
            append_callees(heap, calls, yes)?;
            append_callees(heap, calls, no)
        }
        Node::Begin(_, body, _, arm) => {
            append_callees(heap, calls, body)?;
            append_callees(heap, calls, arm)
        }
        Node::Call(call) => {
            heap.push(calls, call.callee)?;
            Ok(())
        }
    }
}

/// Appends the callees of the calls in the parts of a sequence.
#[cycle(statements)]
fn append_all<H: Heap>(
    heap: H,
    calls: &mut Vec<u32>,
    parts: &Rc<Vec<Rc<Node>>>,
) -> Result<(), Memory>
    ensures { OnOkUnless (H.may_refuse heap) result
        (calls.new.items ≡ calls.old.items ++ callees (seen_statements parts.now.value.items)) }
{
    for index in 0..parts.len() {
        append_callees(heap, calls, &parts[index])?;
    }
    Ok(())
}

/// The callees of the calls in a procedure.
fn callees_of<H: Heap>(heap: H, body: &Rc<Node>) -> Result<Vec<u32>, Memory>
    ensures { IfOkUnless (H.may_refuse heap) result (λ calls. calls.items ≡ callees (seen_statement body.now.value)) }
{
    let mut calls = Vec::new(heap.handle());
    append_callees(heap, &mut calls, body)?;
    Ok(calls)
}

/// The callees of the calls in each procedure.
fn all_callees<H: Heap>(heap: H, program: &Program) -> Result<Vec<Vec<u32>>, Memory>
    ensures { IfOkUnless (H.may_refuse heap) result (λ calls.
        seen_calls calls.items ≡ map (λ p. callees p.body) (seen_program program.now).procs) }
{
    let mut calls = Vec::new(heap.handle());
    for procedure in program.procedures.as_slice() {
        heap.push(&mut calls, callees_of(heap, &procedure.body)?)?;
    }
    Ok(calls)
}

/// The bounds of a procedure.
pub(crate) fn bound_of(bounds: &[Option<(u64, u64)>], procedure: usize) -> Option<(u64, u64)>
    ensures { result ≡ get_or bounds.now procedure None }
{
    match bounds.get(procedure) {
        Some(bound) => *bound,
        None => None,
    }
}

/// What a call takes, by its callee's needs and bounds.
pub(crate) fn call_bound(need: Need, bound: (u64, u64)) -> (u64, u64)
    requires small { IsSmall need }
    requires temp { bound.0 ≤ 2 ^ 40 }
    requires ctrl { bound.1 ≤ 2 ^ 40 }
    ensures { as_words result ≡ call_bound_by need (as_words bound) }
{
    let (temp, ctrl) = bound;
    let above = (need.locals_words + need.vars).max(need.locals_words + temp);
    (above, 2 + need.vars + ctrl)
}

/// What a run of a procedure takes beside its own words.
fn run_bound(
    needs: &Needs,
    bounds: &[Option<(u64, u64)>],
    calls: &[u32],
    procedure: u32,
) -> (u64, u64)
    requires small { AreSmall needs.now.procedures.items }
    requires bounds { AreBounds bounds.now }
    ensures { as_words result ≡ run_bound_by needs.now.procedures.items bounds.now calls.now procedure }
{
    let own = needs.need_of(procedure);
    let mut temp = own.temp;
    let mut ctrl = own.ctrl;
    for callee in calls {
        let bound = bound_of(bounds, *callee as usize).unwrap_or((0, 0));
        let taken = call_bound(needs.need_of(*callee), bound);
        temp = temp.max(taken.0);
        ctrl = ctrl.max(taken.1);
    }
    (temp, ctrl)
}

/// The bounds of the procedures in an order, in which each one stands after those that it calls.
fn bounds_in<H: Heap>(
    heap: H,
    needs: &Needs,
    calls: &[Vec<u32>],
    order: &[u32],
) -> Result<Vec<Option<(u64, u64)>>, Memory>
    requires small { AreSmall needs.now.procedures.items }
    requires there { All (λ p. p < length calls.now) order.now }
    requires bounds { (k : ℕ) → AreBounds
        (bounds_by_needs needs.now.procedures.items (seen_calls calls.now) (reverse (take k order.now))) }
    ensures { IfOkUnless (H.may_refuse heap) result (λ bounds.
        bounds.items ≡ bounds_by_needs needs.now.procedures.items (seen_calls calls.now) (reverse order.now)) }
{
    let mut bounds = filled(heap, None, calls.len())?;
    for procedure in order {
        let callees = calls[*procedure as usize].as_slice();
        let need = run_bound(needs, bounds.as_slice(), callees, *procedure);
        bounds[*procedure as usize] = Some(need);
    }
    Ok(bounds)
}

/// The least certificate of a program.
fn least_certificate<H: Heap>(
    heap: H,
    program: &Program,
    needs: &Needs,
) -> Result<Certificate, CertFault>
    requires fits { ProgramFits (seen_program program.now) }
    requires few { length program.now.procedures.items ≤ 1000 }
    requires needs { AreNeeds (seen_program program.now) needs.now.procedures.items }
    requires small { AreSmall needs.now.procedures.items }
    ensures { MatchResult result (λ c. AreLeastBounds (seen_program program.now) c.bounds.items)
        (IsCertFaultUnless (H.may_refuse heap) (seen_program program.now)) }
{
    let calls = all_callees(heap, program)?;
    let order = call_order(heap, calls.as_slice(), program.main)?;
    if let Some(procedure) = order.recursive {
        return Err(CertFault::Recursive { procedure });
    }
    let bounds = bounds_in(heap, needs, calls.as_slice(), order.procedures.as_slice())?;
    Ok(Certificate { bounds })
}

/// The least certificate of an accepted source: each procedure that main reaches, main too, has the least bounds that a
/// certificate can have, and no other procedure has any.
///
/// # Errors
///
/// A procedure that main reaches reaches itself: the first one in the source. Then no certificate covers the source, at any
/// sizes. Or out of memory. Time and memory are linear in the source.
pub fn certify<H: Heap>(
    heap: H,
    accepted: &Accepted,
    needs: &Needs,
) -> Result<Certificate, CertFault>
    requires needs { AreNeeds (program_of (source_of accepted.now)) needs.now.procedures.items }
    requires small { AreSmall needs.now.procedures.items }
    ensures least { MatchResult result (λ c. AreLeastBounds (program_of (source_of accepted.now)) c.bounds.items)
        (IsCertFaultUnless (H.may_refuse heap) (program_of (source_of accepted.now))) }
    ensures there { IfErr result (IsThere (program_of (source_of accepted.now))) }
    // The same as a function of the source.
    ensures exact { GivesCertifiedUnless (H.may_refuse heap) (λ c. c.bounds.items) result
        (certified (program_of (source_of accepted.now))) }
{
    plain_form();
    let program = resolve(heap, accepted)?;
    least_certificate(heap, &program, needs)
}

//! The text of certificates.

ghost use Rattle.std.specs.{Prelude.{◌≡◌, ◌≤◌, ◌^◌, ◌++◌, ◌∷◌, length, IfOk, Ok}, Fmt.{decimal}};
ghost use Rattle.stack_heap.specs.Heaps.{IfOkUnless, OnOkUnless};
ghost use Rattle.stack_text.specs.{TreeText.{items_text, tree_text}, Views.TreeView.{nodes}};
ghost use Rattle.gypsy_syntax.specs.{Resolved.{procedure_names}, Views.SourceView.{source_of}};
ghost use Rattle.gypsy_space.specs.Callees.{names_of};
ghost use Rattle.space_cert.specs.CertText.{bounds_in, certificate_text, entry_tree, entry_trees};

use crate::certificate::Certificate;
use crate::certifying::bound_of;
use gypsy_check::Accepted;
use gypsy_syntax::Proc;
use itoa::Buffer;
use stack_heap::Heap;
use stack_text::grammar::separate;
use stack_text::{Memory, Name};

/// Appends a space and a bound.
fn print_bound<H: Heap>(heap: H, out: &mut Vec<u8>, bound: u64) -> Result<(), Memory>
    ensures { OnOkUnless (H.may_refuse heap) result (out.new.items ≡ out.old.items ++ 32 ∷ decimal bound) }
{
    let mut digits = Buffer::new();
    heap.push(out, b' ')?;
    heap.extend_from_slice(out, digits.format(bound).as_bytes())?;
    Ok(())
}

/// Appends the entry of a procedure.
fn print_entry<H: Heap>(
    heap: H,
    out: &mut Vec<u8>,
    name: &Name,
    bound: (u64, u64),
) -> Result<(), Memory>
    ensures { OnOkUnless (H.may_refuse heap) result
        (out.new.items ≡ out.old.items ++ tree_text (entry_tree name.now bound)) }
{
    heap.push(out, b'(')?;
    heap.extend_from_slice(out, name.bytes())?;
    print_bound(heap, out, bound.0)?;
    print_bound(heap, out, bound.1)?;
    heap.push(out, b')')?;
    Ok(())
}

/// Appends the entries of the procedures that have bounds, with one space between.
fn print_entries<H: Heap>(
    heap: H,
    out: &mut Vec<u8>,
    procs: &[Proc],
    bounds: &[Option<(u64, u64)>],
) -> Result<(), Memory>
    requires { length bounds.now ≡ length procs.now }
    ensures { OnOkUnless (H.may_refuse heap) result
        (out.new.items ≡ out.old.items ++ items_text (nodes (entry_trees (names_of procs.now) bounds.now))) }
{
    let mut printed = 0;
    for (index, proc) in procs.iter().enumerate() {
        let Some(bound) = bound_of(bounds, index) else {
            continue;
        };
        separate(heap, out, printed)?;
        print_entry(heap, out, &proc.name.name, bound)?;
        printed += 1;
    }
    Ok(())
}

/// Appends a certificate.
#[tactic(auto, unfolding(crate::specs::CertText::certificate_text))]
fn print_all<H: Heap>(
    heap: H,
    out: &mut Vec<u8>,
    procs: &[Proc],
    bounds: &[Option<(u64, u64)>],
) -> Result<(), Memory>
    requires { length bounds.now ≡ length procs.now }
    ensures { OnOkUnless (H.may_refuse heap) result
        (out.new.items ≡ out.old.items ++ certificate_text (names_of procs.now) bounds.now) }
{
    heap.push(out, b'(')?;
    print_entries(heap, out, procs, bounds)?;
    heap.push(out, b')')?;
    Ok(())
}

/// The text of a certificate of a source: an entry for each procedure that has bounds, in the order of the source, with one
/// space between. It has no line end.
///
/// It is read again as the same bounds.
pub fn print_certificate<H: Heap>(
    heap: H,
    accepted: &Accepted,
    cert: &Certificate,
) -> Result<Vec<u8>, Memory>
    requires { length cert.now.bounds.items ≡ length (source_of accepted.now).procs }
    ensures exact { let names = procedure_names (source_of accepted.now) in
        IfOkUnless (H.may_refuse heap) result (λ text. text.items ≡ certificate_text names cert.now.bounds.items) }
    ensures again { let names = procedure_names (source_of accepted.now) in
        IfOk result (λ text. bounds_in names text.items ≡ Ok cert.now.bounds.items) }
    ensures short { IfOk result (λ text. length text.items ≤ 2 ^ 17) }
{
    let mut out = Vec::new(heap.handle());
    print_all(
        heap,
        &mut out,
        accepted.source().procs.as_slice(),
        cert.bounds.as_slice(),
    )?;
    Ok(out)
}

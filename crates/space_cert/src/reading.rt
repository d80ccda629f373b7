//! Reading certificates.

ghost use Rattle.std.specs.{Prelude.{◌≡◌, ◌<◌, ◌≤◌, ◌^◌, IfOk, IfSome, IsTrue, length, option_map}, List.{IsDistinct}, Str.{bytes_eq}};
ghost use Rattle.stack_heap.specs.Heaps.{IfOkUnless};
ghost use Rattle.stack_text.specs.{Names.{place_among}, Views.TreeView.{node_of, nodes_of}, TreeNames.{name_of_tree}};
ghost use Rattle.stack_text.specs.Gives as memory;
ghost use Rattle.gypsy_syntax.specs.{Resolved.{procedure_names}, Views.SourceView.{source_of}};
ghost use Rattle.gypsy_space.specs.Callees.{names_of};
ghost use Rattle.space_cert.specs.{Bounded.{are_bounds}, Covers.{no_bounds}, CertText.{GivesCertificateTextUnless, bounds_at, bounds_in, entry_at, fault_of}};
ghost use Rattle.space_cert.specs.CertText.{free_place, number_at, number_of, parts_entry, three_of, with_entries};

use crate::certificate::Certificate;
use crate::certifying::bound_of;
use crate::filling::filled;
use gypsy_check::Accepted;
use gypsy_syntax::Proc;
use name_tables::NameList;
use stack_heap::Heap;
use stack_text::{
    Memory, Name, TextFault, TextTree, is_digits, read_name, read_numeral, read_text_tree,
};
use thiserror::Error;

/// The greatest bound.
const MOST_BOUND: i128 = 1 << 40;

/// Why a text is no certificate of a source.
///
/// | Rule | Is broken where | Place |
/// |---|---|---|
/// | Z1 | the text is no tree | the text's fault |
/// | Z1 | the tree is no list | the tree |
/// | Z1 | an entry isn't a list of three trees that begins with a name | the entry |
/// | Z2 | no procedure has the entry's name, or an earlier entry has it | the entry |
/// | Z3 | a bound isn't a word of digits alone, or it is above 2^40 | the entry |
///
/// Of the entries the first that breaks a rule decides, by the first rule that it breaks.
#[derive(Clone, Copy, Debug, PartialEq, Eq, Error)]
pub enum CertTextFault {
    /// The text breaks rule Z1 to Z3, at a place that is counted in bytes from 0.
    #[error("certificate Z{rule} at {place}")]
    Refused { rule: u8, place: u32 },
    /// An allocation failed.
    #[error("out of memory")]
    Memory,
}

impl From<Memory> for CertTextFault {
    ghost use Rattle.std.specs.Prelude.{◌≡◌};
    ghost use Rattle.space_cert.specs.declared.reading.CertTextFault.TheVariants as faults;

    ghost from_gives = { λ _ e. e ≡ faults.Memory };

    fn from(_error: Memory) -> CertTextFault {
        CertTextFault::Memory
    }
}

/// The number of a word of digits, up to 2^40.
fn number_of(word: &[u8]) -> Option<u64>
    ensures exact { result ≡ number_of word.now }
    ensures small { IfSome result (λ n. n ≤ 2 ^ 40) }
{
    if !is_digits(word) {
        return None;
    }
    match read_numeral(word) {
        Some(number) => {
            if 0 <= number && number <= MOST_BOUND {
                Some(number as u64)
            } else {
                None
            }
        }
        None => None,
    }
}

/// The bound that a tree is.
fn number_at(tree: &TextTree) -> Option<u64>
    ensures exact { result ≡ number_at (node_of tree.now) }
    ensures small { IfSome result (λ n. n ≤ 2 ^ 40) }
{
    match tree {
        TextTree::Atom { place: _, text } => number_of(text),
        TextTree::List { place: _, items: _ } => None,
    }
}

/// The name that a tree is, if it is one.
fn name_at<H: Heap>(heap: H, tree: &TextTree) -> Result<Option<Name>, Memory>
    ensures { memory.ReturnsUnless (H.may_refuse heap) (λ name. name) result (name_of_tree (node_of tree.now)) }
{
    match tree {
        TextTree::Atom { place: _, text } => read_name(heap, text),
        TextTree::List { place: _, items: _ } => Ok(None),
    }
}

/// The trees of a list of three.
fn three<'a, 'b>(
    trees: &'a [TextTree<'b>],
) -> Option<(&'a TextTree<'b>, &'a TextTree<'b>, &'a TextTree<'b>)>
    ensures { option_map (λ t. (node_of t.0.now, node_of t.1.now, node_of t.2.now)) result
        ≡ three_of (nodes_of trees.now) }
{
    if trees.len() != 3 {
        return None;
    }
    Some((&trees[0], &trees[1], &trees[2]))
}

/// A rule that is broken, at a place.
fn refused(rule: u8, place: u32) -> CertTextFault
    ensures { fault_of result ≡ Some (rule, place) }
{
    CertTextFault::Refused { rule, place }
}

/// The names of procedures, in order.
fn names<'a, H: Heap>(heap: H, procs: &'a [Proc]) -> Result<NameList<'a>, Memory>
    requires { IsDistinct bytes_eq (names_of procs.now) }
    ensures { IfOkUnless (H.may_refuse heap) result (λ names. names ≡ names_of procs.now) }
{
    let mut names = NameList::new(heap.handle());
    for proc in procs {
        names.enter(heap, proc.name.name.bytes())?;
    }
    Ok(names)
}

/// The position of the procedure of a name.
fn named_place(names: &NameList<'_>, name: &Name) -> Option<usize>
    ensures exact { result ≡ place_among name.now names.now }
    ensures there { IfSome result (λ p. p < length names.now) }
{
    names.place(name.bytes())
}

/// The position of a procedure, if it has no bounds.
fn free_place(bounds: &[Option<(u64, u64)>], procedure: usize) -> Option<usize>
    ensures exact { result ≡ free_place bounds.now procedure }
    ensures same { IfSome result (λ p. p ≡ procedure) }
{
    if bound_of(bounds, procedure).is_some() {
        None
    } else {
        Some(procedure)
    }
}

/// The procedure and the bounds of an entry of these parts.
#[tactic(auto, unfolding(crate::specs::CertText::parts_entry))]
fn parts_entry<H: Heap>(
    heap: H,
    names: &NameList<'_>,
    bounds: &[Option<(u64, u64)>],
    place: u32,
    name: &TextTree,
    temp: &TextTree,
    ctrl: &TextTree,
) -> Result<(usize, (u64, u64)), CertTextFault>
    ensures exact { GivesCertificateTextUnless (H.may_refuse heap) (λ e. e) result
        (parts_entry names.now bounds.now place (node_of name.now, node_of temp.now, node_of ctrl.now)) }
    ensures there { IfOk result (λ e. e.0 < length names.now) }
    ensures small { IfOk result (λ e. (e.1.0 ≤ 2 ^ 40) × (e.1.1 ≤ 2 ^ 40)) }
{
    let Some(name) = name_at(heap, name)? else {
        return Err(refused(1, place));
    };
    let Some(named) = named_place(names, &name) else {
        return Err(refused(2, place));
    };
    let Some(procedure) = free_place(bounds, named) else {
        return Err(refused(2, place));
    };
    let Some(temp) = number_at(temp) else {
        return Err(refused(3, place));
    };
    let Some(ctrl) = number_at(ctrl) else {
        return Err(refused(3, place));
    };
    Ok((procedure, (temp, ctrl)))
}

/// The procedure and the bounds of an entry.
#[tactic(auto, unfolding(crate::specs::CertText::entry_at))]
fn entry_at<H: Heap>(
    heap: H,
    names: &NameList<'_>,
    bounds: &[Option<(u64, u64)>],
    tree: &TextTree,
) -> Result<(usize, (u64, u64)), CertTextFault>
    ensures exact { GivesCertificateTextUnless (H.may_refuse heap) (λ e. e) result
        (entry_at names.now bounds.now (node_of tree.now)) }
    ensures there { IfOk result (λ e. e.0 < length names.now) }
    ensures small { IfOk result (λ e. (e.1.0 ≤ 2 ^ 40) × (e.1.1 ≤ 2 ^ 40)) }
{
    match tree {
        TextTree::Atom { place, text: _ } => Err(refused(1, *place)),
        TextTree::List { place, items } => match three(items) {
            None => Err(refused(1, *place)),
            Some((name, temp, ctrl)) => {
                parts_entry(heap, names, bounds, *place, name, temp, ctrl)
            }
        },
    }
}

/// The bounds that entries give.
fn entries<H: Heap>(
    heap: H,
    names: &NameList<'_>,
    trees: &[TextTree],
) -> Result<Vec<Option<(u64, u64)>>, CertTextFault>
    ensures exact { GivesCertificateTextUnless (H.may_refuse heap) (λ bs. bs.items) result
        (with_entries names.now (no_bounds (length names.now)) (nodes_of trees.now)) }
    ensures number { IfOk result (λ bs. length bs.items ≡ length names.now) }
    ensures within { IfOk result (λ bs. IsTrue (are_bounds bs.items)) }
{
    let mut bounds = filled(heap, None, names.len())?;
    for tree in trees {
        let entry = entry_at(heap, names, bounds.as_slice(), tree)?;
        bounds[entry.0] = Some(entry.1);
    }
    Ok(bounds)
}

/// The certificate that a tree is.
fn certificate_at<H: Heap>(
    heap: H,
    names: &NameList<'_>,
    tree: &TextTree,
) -> Result<Certificate, CertTextFault>
    ensures exact { GivesCertificateTextUnless (H.may_refuse heap) (λ c. c.bounds.items) result
        (bounds_at names.now (node_of tree.now)) }
    ensures number { IfOk result (λ c. length c.bounds.items ≡ length names.now) }
{
    match tree {
        TextTree::Atom { place, text: _ } => Err(refused(1, *place)),
        TextTree::List { place: _, items } => {
            let bounds = entries(heap, names, items)?;
            Ok(Certificate { bounds })
        }
    }
}

/// The certificate that a text is, for procedures of these names.
#[tactic(auto, unfolding(crate::specs::CertText::bounds_in))]
fn certificate_in<H: Heap>(
    heap: H,
    names: &NameList<'_>,
    text: &[u8],
) -> Result<Certificate, CertTextFault>
    requires { length text.now ≤ 2 ^ 31 }
    ensures exact { GivesCertificateTextUnless (H.may_refuse heap) (λ c. c.bounds.items) result
        (bounds_in names.now text.now) }
    ensures number { IfOk result (λ c. length c.bounds.items ≡ length names.now) }
{
    match read_text_tree(heap, text) {
        Ok(tree) => certificate_at(heap, names, &tree),
        Err(TextFault::Fault { rule: _, place }) => Err(refused(1, place)),
        Err(TextFault::Memory) => Err(CertTextFault::Memory),
    }
}

/// The certificate that a text of at most 2^31 bytes is, for the procedures of an accepted source. A procedure without an
/// entry has no bounds.
///
/// # Errors
///
/// The rule that the text breaks, and its place, as `CertTextFault` has them; or out of memory. The time is linear in the
/// text and the source, but for names that were picked so that they meet in a hash table, whose seed is fixed.
pub fn read_certificate<H: Heap>(
    heap: H,
    text: &[u8],
    accepted: &Accepted,
) -> Result<Certificate, CertTextFault>
    requires { length text.now ≤ 2 ^ 31 }
    ensures exact { GivesCertificateTextUnless (H.may_refuse heap) (λ c. c.bounds.items) result
        (bounds_in (procedure_names (source_of accepted.now)) text.now) }
    ensures number { IfOk result (λ c. length c.bounds.items ≡ length (source_of accepted.now).procs) }
{
    let names = names(heap, accepted.source().procs.as_slice())?;
    certificate_in(heap, &names, text)
}

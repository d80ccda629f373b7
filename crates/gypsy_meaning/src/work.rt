//! The work that an activation has still to do.

ghost use Rattle.std.specs.Prelude.{◌≡◌, ◌≤◌, [], ◌∷◌, ◌++◌, List, IfOk, ℕ, drop, length, map, take};
ghost use Rattle.stack_heap.specs.Heaps.{IfOkUnless};
ghost use Rattle.stack_text.specs.Values.{ValueOf};
ghost use Rattle.gypsy_space.specs.{Costs.{Tally}, Nodes.{seen_cond, seen_statement, seen_statements}};
ghost use Rattle.gypsy_semantics.specs.Machine as machine;
ghost use Rattle.gypsy_semantics.specs.Machine.{open_on, settle, raise, Frame};
ghost use Rattle.gypsy_meaning.specs.Views.Work.{item_of, left_by, work_of, work_on, caught_spend, OpensOn};

use gypsy_semantics::{is_among, is_leave};
use gypsy_space::{Condition, Node};
use stack_heap::Heap;
use stack_text::Memory;
use std::rc::Rc;

/// One item of work.
#[derive(Drop)]
pub enum Item {
    /// A statement that is still to be done.
    Do(Rc<Node>),
    /// The parts of a sequence from a position on.
    Parts(Rc<Vec<Rc<Node>>>, usize),
    /// A loop that is done again: its place and body.
    Again(u32, Rc<Node>),
    /// *Back*, below the body of a loop: the loop's place and body, with which it is done again.
    Back(u32, Rc<Node>),
    /// *Join-then*, below the first arm of an `if`: the place of the `if`, and its second arm.
    JoinThen(u32, Rc<Node>),
    /// *Join-one*, below the second arm of an `if` or the arm of a `begin`: the place of that statement.
    JoinOne(u32),
    /// *Guard*, below the body of a `begin`: its place, the conditions that it handles, and its arm.
    Guard(u32, Rc<Vec<Condition>>, Rc<Node>),
    /// *Out*, a condition that nothing caught.
    Out(Condition),
}

/// Puts an item on top.
#[tactic(auto, using(crate::proofs::OpenLaws::work_put))]
pub fn put<H: Heap>(heap: H, work: &mut Vec<Item>, item: Item) -> Result<(), Memory>
    ensures items { IfOkUnless (H.may_refuse heap) result (λ u. work.new.items ≡ work.old.items ++ item ∷ []) }
    ensures seen { IfOk result (λ u. (w : List machine.Item) →
        work_on work.new.items w ≡ item_of item ∷ work_on work.old.items w) }
{
    heap.push(work, item)?;
    Ok(())
}

/// Puts a statement on top that opens to itself.
fn put_statement<H: Heap>(heap: H, node: &Rc<Node>, work: &mut Vec<Item>) -> Result<(), Memory>
    ensures { IfOkUnless (H.may_refuse heap) result (λ u. (w : List machine.Item) →
        work_on work.new.items w ≡ machine.Do (seen_statement node.now.value) ∷ work_on work.old.items w) }
{
    put(heap, work, Item::Do(heap.shared_again(node)?))?;
    Ok(())
}

/// Puts the guard of a handled body on top.
fn put_guard<H: Heap>(
    heap: H,
    place: u32,
    conds: &Rc<Vec<Condition>>,
    arm: &Rc<Node>,
    work: &mut Vec<Item>,
) -> Result<(), Memory>
    ensures { let guard = machine.Guard place (map seen_cond conds.now.value.items) (seen_statement arm.now.value) in
        IfOkUnless (H.may_refuse heap) result
        (λ u. (w : List machine.Item) → work_on work.new.items w ≡ guard ∷ work_on work.old.items w) }
{
    put(
        heap,
        work,
        Item::Guard(place, heap.shared_again(conds)?, heap.shared_again(arm)?),
    )?;
    Ok(())
}

/// Puts the parts of a sequence from a position on on top.
fn put_parts<H: Heap>(
    heap: H,
    parts: &Rc<Vec<Rc<Node>>>,
    from: usize,
    work: &mut Vec<Item>,
) -> Result<(), Memory>
    ensures items { IfOkUnless (H.may_refuse heap) result
        (λ u. take (length work.old.items) work.new.items ≡ work.old.items) }
    ensures seen { let statements = seen_statements (drop from parts.now.value.items) in
        IfOk result (λ u. (w : List machine.Item) →
        work_on work.new.items w ≡ machine.Do statements ∷ work_on work.old.items w) }
{
    put(heap, work, Item::Parts(heap.shared_again(parts)?, from))?;
    Ok(())
}

/// Puts a statement on top, opened; `false` where it opens to nothing, and then nothing is put.
#[cycle(opening)]
pub fn open<H: Heap>(heap: H, node: &Rc<Node>, work: &mut Vec<Item>) -> Result<bool, Memory>
    ensures { IfOkUnless (H.may_refuse heap) result
        (OpensOn (seen_statement node.now.value) work.old.items work.new.items) }
{
    match &**node {
        Node::Seq(parts) => open_parts(heap, parts, 0, work),
        Node::Begin(place, body, conds, arm) => {
            put_guard(heap, *place, conds, arm, work)?;
            let _opened = open(heap, body, work)?;
            Ok(true)
        }
        _ => {
            put_statement(heap, node, work)?;
            Ok(true)
        }
    }
}

/// The same for the parts of a sequence from a position on.
#[cycle(opening)]
pub fn open_parts<H: Heap>(
    heap: H,
    parts: &Rc<Vec<Rc<Node>>>,
    from: usize,
    work: &mut Vec<Item>,
) -> Result<bool, Memory>
    ensures { IfOkUnless (H.may_refuse heap) result
        (OpensOn (seen_statements (drop from parts.now.value.items)) work.old.items work.new.items) }
{
    let below = work.len();
    for index in from..parts.len() {
        put_parts(heap, parts, index + 1, work)?;
        if open(heap, &parts[index], work)? {
            return Ok(true);
        }
        work.truncate(below);
    }
    Ok(false)
}

/// Puts an item that opens to itself, and a statement on it, opened.
pub fn put_opened<H: Heap>(
    heap: H,
    item: Item,
    node: &Rc<Node>,
    work: &mut Vec<Item>,
) -> Result<(), Memory>
    requires { (w : List machine.Item) → settle (item_of item ∷ w) ≡ item_of item ∷ w }
    ensures { IfOkUnless (H.may_refuse heap) result (λ u. (w : List machine.Item) →
        work_on work.new.items w ≡ open_on (seen_statement node.now.value) (item_of item ∷ work_on work.old.items w)) }
{
    put(heap, work, item)?;
    let _opened = open(heap, node, work)?;
    Ok(())
}

/// Opens what is on top of the first items. It answers how many of them stay; what is above them goes to `added`, which is
/// empty before.
pub fn settled<H: Heap>(
    heap: H,
    items: &[Item],
    below: usize,
    added: &mut Vec<Item>,
) -> Result<usize, Memory>
    requires within { below ≤ length items.now }
    requires empty { added.old.items ≡ [] }
    ensures { IfOkUnless (H.may_refuse heap) result (λ kept.
        left_by items.now added.new.items kept ≡ settle (work_of (take below items.now))) }
{
    if below == 0 {
        return Ok(0);
    }
    let top = below - 1;
    match &items[top] {
        Item::Do(node) => {
            if open(heap, node, added)? {
                Ok(top)
            } else {
                settled(heap, items, top, added)
            }
        }
        Item::Parts(parts, next) => {
            if open_parts(heap, parts, *next, added)? {
                Ok(top)
            } else {
                settled(heap, items, top, added)
            }
        }
        _ => Ok(below),
    }
}

/// Where a raised condition comes to rest: how many items stay, and whether it was caught there.
#[derive(Clone, Copy)]
pub struct Raised {
    /// How many items stay.
    pub kept: usize,
    /// Whether a loop or a guard stopped it.
    pub caught: bool,
}

/// Raises a condition above the first items. What is then above those that stay goes to `added`, which is empty before: the
/// guard's arm, or *out* where nothing caught the condition.
pub fn raise<H: Heap>(
    heap: H,
    cond: Condition,
    items: &[Item],
    below: usize,
    added: &mut Vec<Item>,
) -> Result<Raised, Memory>
    requires within { below ≤ length items.now }
    requires empty { added.old.items ≡ [] }
    ensures { IfOkUnless (H.may_refuse heap) result (λ r. (p : ℕ) (x : List ValueOf) (fs : List Frame) (t : Tally) →
        raise (seen_cond cond) p x (work_of (take below items.now)) fs t
        ≡ machine.At p x (left_by items.now added.new.items r.kept) fs (caught_spend r.caught t)) }
{
    if below == 0 {
        put(heap, added, Item::Out(cond))?;
        return Ok(Raised {
            kept: 0,
            caught: false,
        });
    }
    let top = below - 1;
    match &items[top] {
        Item::Back(_, _) => {
            if is_leave(cond) {
                Ok(Raised {
                    kept: settled(heap, items, top, added)?,
                    caught: true,
                })
            } else {
                raise(heap, cond, items, top, added)
            }
        }
        Item::Guard(place, conds, arm) => {
            if is_among(cond, conds.as_slice()) {
                put_opened(heap, Item::JoinOne(*place), arm, added)?;
                Ok(Raised {
                    kept: top,
                    caught: true,
                })
            } else {
                raise(heap, cond, items, top, added)
            }
        }
        _ => raise(heap, cond, items, top, added),
    }
}

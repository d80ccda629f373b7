//! What a step does with the top of the work.

ghost use Rattle.std.specs.Prelude.{◌≡◌, ◌≤◌, ℕ, List, [], ◌∷◌, length, take, false};
ghost use Rattle.stack_heap.specs.Heaps.{IfOkUnless};
ghost use Rattle.stack_text.specs.Values.{ValueOf};
ghost use Rattle.gypsy_syntax.specs.Programs as program;
ghost use Rattle.gypsy_syntax.specs.Effects.{item_of_value, is_true_value, value_at};
ghost use Rattle.gypsy_space.specs.Nodes.{held_values, seen_cond, seen_statement};
ghost use Rattle.gypsy_semantics.specs.Machine as machine;
ghost use Rattle.gypsy_meaning.specs.{Views.Work.{item_of, left_by, work_of, work_on}, Internal.Turns.{GoesOn, IsTurn, Removes}};

use crate::effects::item_in;
use crate::work::{Item, Raised, put, put_opened, raise, settled};
use gypsy_space::{Application, CallSite, Condition, CostEvent, Node};
use stack_heap::Heap;
use stack_text::{Memory, Name, Value};
use std::rc::Rc;

/// What a step that changes the work alone costs.
#[derive(Clone, Copy)]
pub struct Advance {
    /// The row of the table of costs that the step pays.
    pub event: CostEvent,
    /// Whether a condition was raised and caught, whose stop is paid too.
    pub caught: bool,
}

/// What a step does: it changes the work alone, or it is a call, a predefined call, the end of a procedure, or a
/// condition that leaves one. Where it changes the work, it tells how many of the items stay.
#[derive(Drop)]
pub enum Turn {
    /// A sequence or a handled body is opened, at no cost. Work is kept opened, so no step meets one.
    Opens(usize),
    /// The work alone is changed, at this cost.
    Goes(usize, Advance),
    /// A procedure of the source is called.
    Calls(Rc<CallSite>),
    /// A predefined procedure is called.
    Applies(Rc<Application>),
    /// No work is left, and the procedure ends normally.
    Ends,
    /// A condition that nothing caught leaves the procedure.
    Leaves(Condition),
}

/// The item of a simple value.
pub fn item_of(value: &Value) -> i32
    ensures { result ≡ item_of_value value.now }
{
    match value.items.first() {
        Some(item) => *item,
        None => 0,
    }
}

/// Whether a variable is a Boolean that is true.
fn is_true(variables: &[(Name, Value)], variable: u32) -> bool
    ensures { result ≡ is_true_value (value_at (held_values variables.now) variable) }
{
    item_in(variables, variable) == 1
}

/// The cost of an event alone.
fn plain(event: CostEvent) -> Advance
    ensures { result ≡ record { event = event; caught = false } }
{
    Advance {
        event,
        caught: false,
    }
}

/// Raises a condition over the first items.
fn signal<H: Heap>(
    heap: H,
    cond: Condition,
    items: &[Item],
    below: usize,
    added: &mut Vec<Item>,
) -> Result<Turn, Memory>
    requires within { below ≤ length items.now }
    requires empty { added.old.items ≡ [] }
    ensures { IfOkUnless (H.may_refuse heap) result (λ t. (x : List ValueOf) (place : ℕ) →
        IsTurn x (machine.Do (program.Signal place (seen_cond cond)) ∷ work_of (take below items.now))
        (left_by items.now added.new.items) t) }
{
    let Raised { kept, caught } = raise(heap, cond, items, below, added)?;
    Ok(Turn::Goes(
        kept,
        Advance {
            event: CostEvent::Signal,
            caught,
        },
    ))
}

/// Puts *back* and a loop's body on the work.
fn enter_loop<H: Heap>(
    heap: H,
    place: u32,
    body: &Rc<Node>,
    added: &mut Vec<Item>,
) -> Result<Advance, Memory>
    requires { added.old.items ≡ [] }
    ensures { let statement = program.Loop place (seen_statement body.now.value) in
        IfOkUnless (H.may_refuse heap) result (λ a. (x : List ValueOf) (w : List machine.Item) →
        GoesOn x (machine.Do statement ∷ w) (work_on added.new.items w) a) }
{
    put_opened(
        heap,
        Item::Back(place, heap.shared_again(body)?),
        body,
        added,
    )?;
    Ok(plain(CostEvent::LoopRound))
}

/// Puts a loop on the work, to be done again.
fn loop_again<H: Heap>(
    heap: H,
    place: u32,
    body: &Rc<Node>,
    added: &mut Vec<Item>,
) -> Result<Advance, Memory>
    requires { added.old.items ≡ [] }
    ensures { IfOkUnless (H.may_refuse heap) result (λ a. (x : List ValueOf) (w : List machine.Item) →
        GoesOn x (machine.Back place (seen_statement body.now.value) ∷ w) (work_on added.new.items w) a) }
{
    put(heap, added, Item::Again(place, heap.shared_again(body)?))?;
    Ok(plain(CostEvent::LoopBack))
}

/// Puts an arm of an `if` on the work, above its *join*.
fn branch<H: Heap>(
    heap: H,
    place: u32,
    test: bool,
    yes: &Rc<Node>,
    no: &Rc<Node>,
    added: &mut Vec<Item>,
) -> Result<Advance, Memory>
    requires { added.old.items ≡ [] }
    ensures { IfOkUnless (H.may_refuse heap) result (λ a. (x : List ValueOf) (variable : ℕ) (w : List machine.Item) →
        test ≡ is_true_value (value_at x variable) →
        let statement = program.If place variable (seen_statement yes.now.value) (seen_statement no.now.value) in
        GoesOn x (machine.Do statement ∷ w) (work_on added.new.items w) a) }
{
    if test {
        put_opened(
            heap,
            Item::JoinThen(place, heap.shared_again(no)?),
            yes,
            added,
        )?;
        Ok(plain(CostEvent::IfTrue))
    } else {
        put_opened(heap, Item::JoinOne(place), no, added)?;
        Ok(plain(CostEvent::IfFalse))
    }
}

/// What a step does with a statement on top of the first items.
fn begin<H: Heap>(
    heap: H,
    node: &Rc<Node>,
    variables: &[(Name, Value)],
    items: &[Item],
    below: usize,
    added: &mut Vec<Item>,
) -> Result<Turn, Memory>
    requires within { below ≤ length items.now }
    requires empty { added.old.items ≡ [] }
    requires top { work_of items.now ≡ machine.Do (seen_statement node.now.value) ∷ work_of (take below items.now) }
    ensures { IfOkUnless (H.may_refuse heap) result
        (IsTurn (held_values variables.now) (work_of items.now) (left_by items.now added.new.items)) }
{
    match &**node {
        Node::NoOp(_) => removed(heap, CostEvent::NoOp, items, below, added),
        Node::Signal(_, cond) => signal(heap, *cond, items, below, added),
        Node::Loop(place, body) => Ok(Turn::Goes(below, enter_loop(heap, *place, body, added)?)),
        Node::If(place, test, yes, no) => {
            let test = is_true(variables, *test);
            Ok(Turn::Goes(below, branch(heap, *place, test, yes, no, added)?))
        }
        Node::Seq(_) => Ok(Turn::Opens(settled(heap, items, items.len(), added)?)),
        Node::Begin(_, _, _, _) => Ok(Turn::Opens(settled(heap, items, items.len(), added)?)),
        Node::Call(site) => Ok(Turn::Calls(heap.shared_again(site)?)),
        Node::Apply(call) => Ok(Turn::Applies(heap.shared_again(call)?)),
    }
}

/// Takes the top off, over the first items.
fn removed<H: Heap>(
    heap: H,
    event: CostEvent,
    items: &[Item],
    below: usize,
    added: &mut Vec<Item>,
) -> Result<Turn, Memory>
    requires within { below ≤ length items.now }
    requires empty { added.old.items ≡ [] }
    ensures { IfOkUnless (H.may_refuse heap) result (λ t. (i : machine.Item) (x : List ValueOf) → Removes i event →
        IsTurn x (i ∷ work_of (take below items.now)) (left_by items.now added.new.items) t) }
{
    let kept = settled(heap, items, below, added)?;
    Ok(Turn::Goes(kept, plain(event)))
}

/// What a step does with this item on top of the first ones.
fn turn_of<H: Heap>(
    heap: H,
    top: &Item,
    variables: &[(Name, Value)],
    items: &[Item],
    below: usize,
    added: &mut Vec<Item>,
) -> Result<Turn, Memory>
    requires within { below ≤ length items.now }
    requires empty { added.old.items ≡ [] }
    requires top { work_of items.now ≡ item_of top.now ∷ work_of (take below items.now) }
    ensures { IfOkUnless (H.may_refuse heap) result
        (IsTurn (held_values variables.now) (work_of items.now) (left_by items.now added.new.items)) }
{
    match top {
        Item::Do(node) => begin(heap, node, variables, items, below, added),
        Item::Parts(_, _) => Ok(Turn::Opens(settled(heap, items, items.len(), added)?)),
        Item::Again(place, body) => Ok(Turn::Goes(below, enter_loop(heap, *place, body, added)?)),
        Item::Back(place, body) => Ok(Turn::Goes(below, loop_again(heap, *place, body, added)?)),
        Item::JoinThen(_, _) => removed(heap, CostEvent::JoinThen, items, below, added),
        Item::JoinOne(_) => removed(heap, CostEvent::JoinOne, items, below, added),
        Item::Guard(_, _, _) => removed(heap, CostEvent::GuardNormal, items, below, added),
        Item::Out(cond) => Ok(Turn::Leaves(*cond)),
    }
}

/// What a step does with this work.
pub fn next_turn<H: Heap>(
    heap: H,
    variables: &[(Name, Value)],
    items: &[Item],
    added: &mut Vec<Item>,
) -> Result<Turn, Memory>
    requires { added.old.items ≡ [] }
    ensures { IfOkUnless (H.may_refuse heap) result
        (IsTurn (held_values variables.now) (work_of items.now) (left_by items.now added.new.items)) }
{
    match items.last() {
        None => Ok(Turn::Ends),
        Some(top) => turn_of(heap, top, variables, items, items.len() - 1, added),
    }
}

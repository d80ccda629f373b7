//! The work that an activation has still to do, as a stack that steps change.

ghost use Rattle.std.specs.Prelude.{◌≡◌, ◌∷◌, ◌++◌, [], ℕ, List, IfErr, IfOk, IfSome, IfNone, take, length, ◌-◌};
ghost use Rattle.stack_heap.specs.Heaps.{IfOkUnless};
ghost use Rattle.stack_text.specs.Values.{ValueOf};
ghost use Rattle.gypsy_space.specs.{Costs.{Tally}, Nodes.{held_values, seen_cond, seen_statement}};
ghost use Rattle.gypsy_semantics.specs.Machine as machine;
ghost use Rattle.gypsy_semantics.specs.Machine.{Frame, open_on, raise, settle};
ghost use Rattle.gypsy_meaning.specs.{Internal.Turns.{IsTurn, Stays}, Views.Work.{caught_spend, item_of, work_of}};

use crate::turn::{Turn, next_turn};
use crate::work::{Item, open, raise, settled};
use gypsy_space::{Condition, Node};
use stack_heap::Heap;
use stack_text::{Memory, Name, Value};
use std::marker::Model;
use std::mem;
use std::rc::Rc;

/// The work of an activation. Contracts see it as the list of its items, the last one on top.
///
/// Each change that runs out of memory leaves it as it was: what is put on top is made apart, and room for it is taken before
/// it is moved.
#[derive(Drop)]
pub struct Work {
    items: Vec<Item>,
    /// What is put on top, while it is made; its room is kept from step to step.
    added: Vec<Item>,
}

impl Model for Work {
    ghost use Rattle.std.specs.{Prelude.{List}, Coded.{codes}};
    ghost use Rattle.gypsy_space.specs.contracts.program.Node as node;
    ghost use Rattle.gypsy_meaning.specs.declared.work.Item.{Item};

    ghost Value = { List Item };

    ghost coded = { Prim.hlevel (codes, node.the_row.coded) };

    ghost view = { λ w. w.items.items };
}

/// Keeps so many items, and moves what was made on them.
fn change<H: Heap>(
    heap: H,
    items: &mut Vec<Item>,
    kept: usize,
    added: &mut Vec<Item>,
) -> Result<(), Memory>
    ensures done { IfOkUnless (H.may_refuse heap) result
        (λ u. items.new.items ≡ take kept items.old.items ++ added.old.items) }
    ensures unchanged { IfErr result (λ e. items.new.items ≡ items.old.items) }
{
    if added.is_empty() {
        items.truncate(kept);
        return Ok(());
    }
    heap.reserve_for(items, added.as_slice())?;
    items.truncate(kept);
    match items.append(added) {
        Ok(()) => Ok(()),
        Err(_failed) => unreachable!(),
    }
}

/// How many items stand below the top.
fn below_top(items: &[Item]) -> usize
    ensures { result ≡ length items.now - 1 }
{
    items.len().saturating_sub(1)
}

impl Work {
    /// The work of a body that begins: the body on no other work, opened.
    pub fn begun<H: Heap>(heap: H, body: &Rc<Node>) -> Result<Work, Memory>
        ensures { IfOkUnless (H.may_refuse heap) result (λ w. work_of w ≡ open_on (seen_statement body.now.value) []) }
    {
        let mut items = Vec::new(heap.handle());
        let _opened = open(heap, body, &mut items)?;
        Ok(Work {
            items,
            added: Vec::new(heap.handle()),
        })
    }

    /// The top item, if there is one.
    #[tactic(auto, using(crate::proofs::OpenLaws::last_top))]
    pub fn top(&self) -> Option<&Item>
        ensures some { let below = take (length self.now - 1) self.now in
            IfSome result (λ i. work_of self.now ≡ item_of i.now ∷ work_of below) }
        ensures none { IfNone result (work_of self.now ≡ []) }
    {
        self.items.last()
    }

    /// Hands the room for what is put on top to other work.
    pub fn hand_room(&mut self, other: &mut Work)
        ensures own { self.new ≡ self.old }
        ensures other { other.new ≡ other.old }
    {
        mem::swap(&mut self.added, &mut other.added);
    }

    /// Takes the top off.
    pub fn pop(&mut self)
        ensures { (i : machine.Item) (w : List machine.Item) → work_of self.old ≡ i ∷ w → work_of self.new ≡ w }
    {
        let below = below_top(self.items.as_slice());
        self.items.truncate(below);
    }

    /// Opens the top.
    pub fn settle<H: Heap>(&mut self, heap: H) -> Result<(), Memory>
        ensures done { IfOkUnless (H.may_refuse heap) result (λ u. work_of self.new ≡ settle (work_of self.old)) }
        ensures unchanged { IfErr result (λ e. self.new ≡ self.old) }
    {
        self.added.clear();
        let items = self.items.as_slice();
        let kept = settled(heap, items, items.len(), &mut self.added)?;
        change(heap, &mut self.items, kept, &mut self.added)?;
        Ok(())
    }

    /// Takes the top off, and opens what is then the top.
    pub fn settle_below<H: Heap>(&mut self, heap: H) -> Result<(), Memory>
        ensures done { IfOkUnless (H.may_refuse heap) result (λ u. (i : machine.Item) (w : List machine.Item) →
            work_of self.old ≡ i ∷ w → work_of self.new ≡ settle w) }
        ensures unchanged { IfErr result (λ e. self.new ≡ self.old) }
    {
        self.added.clear();
        let items = self.items.as_slice();
        let kept = settled(heap, items, below_top(items), &mut self.added)?;
        change(heap, &mut self.items, kept, &mut self.added)?;
        Ok(())
    }

    /// Raises a condition above this work, and tells whether it was caught.
    pub fn raise<H: Heap>(&mut self, heap: H, cond: Condition) -> Result<bool, Memory>
        ensures done { IfOkUnless (H.may_refuse heap) result
            (λ caught. (p : ℕ) (x : List ValueOf) (fs : List Frame) (t : Tally) →
            raise (seen_cond cond) p x (work_of self.old) fs t
            ≡ machine.At p x (work_of self.new) fs (caught_spend caught t)) }
        ensures unchanged { IfErr result (λ e. self.new ≡ self.old) }
    {
        self.added.clear();
        let items = self.items.as_slice();
        let raised = raise(heap, cond, items, items.len(), &mut self.added)?;
        change(heap, &mut self.items, raised.kept, &mut self.added)?;
        Ok(raised.caught)
    }

    /// Takes the top off, raises a condition, and tells whether it was caught.
    pub fn raise_below<H: Heap>(&mut self, heap: H, cond: Condition) -> Result<bool, Memory>
        ensures done { IfOkUnless (H.may_refuse heap) result
            (λ caught. (i : machine.Item) (w : List machine.Item) → work_of self.old ≡ i ∷ w →
            (p : ℕ) (x : List ValueOf) (fs : List Frame) (t : Tally) →
            raise (seen_cond cond) p x w fs t ≡ machine.At p x (work_of self.new) fs (caught_spend caught t)) }
        ensures unchanged { IfErr result (λ e. self.new ≡ self.old) }
    {
        self.added.clear();
        let items = self.items.as_slice();
        let raised = raise(heap, cond, items, below_top(items), &mut self.added)?;
        change(heap, &mut self.items, raised.kept, &mut self.added)?;
        Ok(raised.caught)
    }

    /// What a step does with this work. Where it changes the work alone, the work is changed.
    pub fn turn<H: Heap>(&mut self, heap: H, variables: &[(Name, Value)]) -> Result<Turn, Memory>
        ensures done { IfOkUnless (H.may_refuse heap) result
            (IsTurn (held_values variables.now) (work_of self.old) (λ k. work_of self.new)) }
        ensures stays { IfOk result (Stays self.old self.new) }
        ensures unchanged { IfErr result (λ e. self.new ≡ self.old) }
    {
        self.added.clear();
        match next_turn(heap, variables, self.items.as_slice(), &mut self.added)? {
            Turn::Opens(kept) => {
                change(heap, &mut self.items, kept, &mut self.added)?;
                Ok(Turn::Opens(kept))
            }
            Turn::Goes(kept, advance) => {
                change(heap, &mut self.items, kept, &mut self.added)?;
                Ok(Turn::Goes(kept, advance))
            }
            turn => Ok(turn),
        }
    }
}

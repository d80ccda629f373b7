//! The conditions that a `begin` handles.

ghost use Rattle.std.specs.Prelude.{◌≡◌, ◌==◌, ◌<◌, ◌^◌, ◌++◌, ℕ, map, replicate, get_or, false, if◌then◌else◌, true};
ghost use Rattle.stack_heap.specs.Heaps.{IfOkUnless, OnOkUnless};
ghost use Rattle.gypsy_syntax.specs.Programs.{ConditionOf};
ghost use Rattle.gypsy_space.specs.Nodes.{seen_cond};
ghost use Rattle.gypsy_semantics.specs.Calls.{has_cond};
ghost use Rattle.gypsy_codegen.specs.WordsOf.{number_of};

use crate::context::number_of;
use gypsy_space::Condition;
use stack_heap::Heap;
use stack_text::Memory;

/// The conditions that a `begin` handles, and a table that tells, by a condition's number, whether it is one of them.
#[derive(Drop)]
pub(crate) struct Handled<'a> {
    pub conds: &'a [Condition],
    table: Vec<bool>,
    ghost tells: { (c : ConditionOf) → get_or table.items (number_of c) false ≡ has_cond c (map seen_cond conds.now) },
}

/// Appends so many entries that are false.
fn append_false<H: Heap>(heap: H, table: &mut Vec<bool>, count: usize) -> Result<(), Memory>
    ensures { OnOkUnless (H.may_refuse heap) result (table.new.items ≡ table.old.items ++ replicate count false) }
{
    for _ in 0..count {
        heap.push(table, false)?;
    }
    Ok(())
}

/// Makes one entry of a table true. Those that it doesn't have yet are false.
fn mark<H: Heap>(heap: H, table: &mut Vec<bool>, number: u64) -> Result<(), Memory>
    requires { number < 2 ^ 33 }
    ensures { OnOkUnless (H.may_refuse heap) result ((k : ℕ) → get_or table.new.items k false ≡
        (if k == number then true else get_or table.old.items k false)) }
{
    let at = number as usize;
    if table.len() <= at {
        append_false(heap, table, at + 1 - table.len())?;
    }
    table[at] = true;
    Ok(())
}

impl<'a> Handled<'a> {
    /// The conditions, with their table.
    pub(crate) fn new<H: Heap>(heap: H, conds: &'a [Condition]) -> Result<Self, Memory>
        ensures { IfOkUnless (H.may_refuse heap) result (λ handled. handled.conds.now ≡ conds.now) }
    {
        let mut table = Vec::new(heap.handle());
        for cond in conds {
            mark(heap, &mut table, number_of(*cond))?;
        }
        Ok(Handled { conds, table })
    }

    /// Whether a condition is one of them.
    pub(crate) fn has(&self, cond: Condition) -> bool
        ensures { result ≡ has_cond (seen_cond cond) (map seen_cond self.now.conds.now) }
    {
        match self.table.get(number_of(cond) as usize) {
            Some(found) => *found,
            None => false,
        }
    }
}

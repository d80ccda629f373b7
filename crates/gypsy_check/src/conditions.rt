//! Conditions: those that are declared, signalled, given and handled.

ghost use Rattle.std.specs.{Prelude.{◌≡◌}, List.{flat_map}};
ghost use Rattle.stack_heap.specs.Heaps.{OnOkUnless};
ghost use Rattle.stack_text.specs.Breaches.{Notes};
ghost use Rattle.gypsy_syntax.specs.{Resolved.{is_leave_name, is_routine_name, is_space_name}, Views.SourceView.{proc_of}};
ghost use Rattle.gypsy_check.specs.Rules.{condition_breaches, handled_breaches, handlers_breaches, is_reserved, raised_breaches};

use crate::names::check_repeats;
use crate::scope::Scope;
use stack_heap::Heap;
use stack_text::{Breach, Memory, Name, Named, note_if};

/// Whether it is the condition that ends a loop.
fn is_leave(name: &Name) -> bool
    ensures { result ≡ is_leave_name name.now }
{
    name.bytes() == b"leave".as_slice()
}

/// Whether it is the condition that a fault raises.
fn is_routine(name: &Name) -> bool
    ensures { result ≡ is_routine_name name.now }
{
    name.bytes() == b"routineerror".as_slice()
}

/// Whether it is the condition that a call without room raises.
fn is_space(name: &Name) -> bool
    ensures { result ≡ is_space_name name.now }
{
    name.bytes() == b"spaceerror".as_slice()
}

/// Whether the name has a meaning of its own.
fn is_reserved(name: &Name) -> bool
    ensures { result ≡ is_reserved name.now }
{
    is_leave(name) || is_routine(name) || name.bytes() == b"normal".as_slice() || is_space(name)
}

/// Notes a declared condition whose name has a meaning of its own.
fn check_condition(best: &mut Option<Breach>, name: &Named)
    ensures { Notes best.old (condition_breaches name.now) best.new }
{
    note_if(best, is_reserved(&name.name), name.place, 6);
}

/// The same of each.
pub(crate) fn check_conditions(best: &mut Option<Breach>, conds: &[Named])
    ensures { Notes best.old (flat_map condition_breaches conds.now) best.new }
{
    for cond in conds {
        check_condition(best, cond);
    }
}

/// Notes a condition that is signalled or given and isn't declared, and `leave` with no loop round it.
pub(crate) fn check_raised(best: &mut Option<Breach>, scope: &Scope, in_loop: bool, cond: &Named)
    ensures { Notes best.old (raised_breaches (proc_of scope.now) in_loop cond.now) best.new }
{
    let leave = is_leave(&cond.name);
    let routine = is_routine(&cond.name);
    let declared = scope.has_condition(&cond.name);
    note_if(best, !(leave || routine || declared), cond.place, 10);
    note_if(best, leave && !in_loop, cond.place, 11);
}

/// The same of each.
pub(crate) fn check_all_raised(
    best: &mut Option<Breach>,
    scope: &Scope,
    in_loop: bool,
    conds: &[Named],
)
    ensures { Notes best.old (flat_map (raised_breaches (proc_of scope.now) in_loop) conds.now) best.new }
{
    for cond in conds {
        check_raised(best, scope, in_loop, cond);
    }
}

/// Notes a condition that is handled and neither declared nor raised by the language.
fn check_handled(best: &mut Option<Breach>, scope: &Scope, cond: &Named)
    ensures { Notes best.old (handled_breaches (proc_of scope.now) cond.now) best.new }
{
    let routine = is_routine(&cond.name);
    let space = is_space(&cond.name);
    let declared = scope.has_condition(&cond.name);
    note_if(best, !(routine || space || declared), cond.place, 12);
}

/// The same of each.
fn check_all_handled(best: &mut Option<Breach>, scope: &Scope, conds: &[Named])
    ensures { Notes best.old (flat_map (handled_breaches (proc_of scope.now)) conds.now) best.new }
{
    for cond in conds {
        check_handled(best, scope, cond);
    }
}

/// Notes each condition of a handler that isn't declared, or stands earlier in the list.
pub(crate) fn check_handlers<H: Heap>(
    heap: H,
    best: &mut Option<Breach>,
    scope: &Scope,
    conds: &[Named],
) -> Result<(), Memory>
    ensures { OnOkUnless (H.may_refuse heap) result
        (Notes best.old (handlers_breaches (proc_of scope.now) conds.now) best.new) }
{
    check_all_handled(best, scope, conds);
    check_repeats(heap, best, 13, conds)?;
    Ok(())
}

//! Calls of procedures.

ghost use Rattle.std.specs.Prelude.{◌≡◌, is_none, Some};
ghost use Rattle.stack_heap.specs.Heaps.{OnOkUnless};
ghost use Rattle.stack_text.specs.Breaches.{Notes};
ghost use Rattle.gypsy_syntax.specs.{Views.SourceView.{proc_of, source_of}, Resolved.{procedure_named}};
ghost use Rattle.gypsy_check.specs.{Rules.{actual_name_breaches, call_breaches, callee_breaches, callee_name_breaches, data_breaches}, Tables.{KnowsCallees}};

use crate::callees::Callees;
use crate::conditions::check_all_raised;
use crate::names::check_repeats;
use crate::scope::Scope;
use crate::variables::{check_actuals, check_all_declared};
use gypsy_syntax::Proc;
use stack_heap::Heap;
use stack_text::{Breach, Memory, Name, Named, note_if};

/// A call, as its statement has it.
#[derive(Clone, Copy)]
pub(crate) struct CallText<'a> {
    pub callee: &'a Named,
    pub actuals_place: u32,
    pub actuals: &'a [Named],
    pub conds_place: u32,
    pub conds: &'a [Named],
}

/// Whether no procedure has the name.
pub(crate) fn is_missing(callees: &Callees, name: &Name) -> bool
    requires { KnowsCallees callees.now }
    ensures { result ≡ is_none (procedure_named (source_of callees.now.source.now) name.now) }
{
    match callees.named(name) {
        None => true,
        Some(_) => false,
    }
}

/// Notes a callee that isn't there, or is the main procedure.
fn check_callee_name(best: &mut Option<Breach>, callees: &Callees, callee: &Named)
    requires { KnowsCallees callees.now }
    ensures { Notes best.old (callee_name_breaches (source_of callees.now.source.now) callee.now) best.new }
{
    let missing = is_missing(callees, &callee.name);
    note_if(best, missing, callee.place, 16);
    let source = callees.source;
    let is_main = callee.name == source.main.name;
    note_if(best, is_main, callee.place, 17);
}

/// Notes each data actual that isn't declared, or stands earlier in the list.
fn check_actual_names<H: Heap>(
    heap: H,
    best: &mut Option<Breach>,
    scope: &Scope,
    actuals: &[Named],
) -> Result<(), Memory>
    ensures { OnOkUnless (H.may_refuse heap) result
        (Notes best.old (actual_name_breaches (proc_of scope.now) actuals.now) best.new) }
{
    check_all_declared(best, scope, actuals);
    check_repeats(heap, best, 20, actuals)?;
    Ok(())
}

/// Notes a number of data actuals that isn't the callee's, or else each that has another type than its formal.
fn check_data(
    best: &mut Option<Breach>,
    scope: &Scope,
    callee: &Proc,
    place: u32,
    actuals: &[Named],
)
    ensures { Notes best.old (data_breaches (proc_of scope.now) (proc_of callee.now) place actuals.now) best.new }
{
    let formals = callee.formals.as_slice();
    if actuals.len() == formals.len() {
        check_actuals(best, scope, formals, actuals);
    } else {
        note_if(best, true, place, 18);
    }
}

/// Notes actuals that don't fit the callee.
fn check_callee(best: &mut Option<Breach>, scope: &Scope, callee: &Proc, call: CallText)
    ensures { let found = Some (proc_of callee.now) in
        let breaches = callee_breaches (proc_of scope.now) found in
        let with_data = breaches call.entry.actuals_place call.entry.actuals.now in
        Notes best.old (with_data call.entry.conds_place call.entry.conds.now) best.new }
{
    check_data(best, scope, callee, call.actuals_place, call.actuals);
    let formal = callee.conds.as_slice();
    let is_count = call.conds.len() == formal.len();
    note_if(best, !is_count, call.conds_place, 19);
}

/// The same where the callee is there.
fn check_callee_if_any(best: &mut Option<Breach>, callees: &Callees, scope: &Scope, call: CallText)
    requires { KnowsCallees callees.now }
    ensures { let found = procedure_named (source_of callees.now.source.now) call.entry.callee.now.name in
        let breaches = callee_breaches (proc_of scope.now) found in
        let with_data = breaches call.entry.actuals_place call.entry.actuals.now in
        Notes best.old (with_data call.entry.conds_place call.entry.conds.now) best.new }
{
    match callees.named(&call.callee.name) {
        None => {}
        Some(callee) => check_callee(best, scope, callee, call),
    }
}

/// Notes the breaches of a call.
pub(crate) fn check_call<H: Heap>(
    heap: H,
    best: &mut Option<Breach>,
    callees: &Callees,
    scope: &Scope,
    in_loop: bool,
    call: CallText,
) -> Result<(), Memory>
    requires { KnowsCallees callees.now }
    ensures { let breaches = call_breaches (source_of callees.now.source.now) (proc_of scope.now) in_loop in
        let with_data = breaches call.entry.callee.now call.entry.actuals_place call.entry.actuals.now in
        OnOkUnless (H.may_refuse heap) result
        (Notes best.old (with_data call.entry.conds_place call.entry.conds.now) best.new) }
{
    check_callee_name(best, callees, call.callee);
    check_actual_names(heap, best, scope, call.actuals)?;
    check_all_raised(best, scope, in_loop, call.conds);
    check_callee_if_any(best, callees, scope, call);
    Ok(())
}

//! Statements.

ghost use Rattle.stack_heap.specs.Heaps.{OnOkUnless};
ghost use Rattle.std.specs.List.{flat_map};
ghost use Rattle.stack_text.specs.Breaches.{Notes};
ghost use Rattle.gypsy_syntax.specs.Views.SourceView.{proc_of, source_of, stmt_of};
ghost use Rattle.gypsy_check.specs.{Rules.{statement_breaches}, Tables.{KnowsCallees}};

use crate::callees::Callees;
use crate::calls::{CallText, check_call};
use crate::conditions::{check_handlers, check_raised};
use crate::predefs::check_predef;
use crate::scope::Scope;
use crate::variables::check_test;
use gypsy_syntax::Stmt;
use stack_heap::Heap;
use stack_text::{Breach, Memory};

/// Notes the breaches of a statement, inside a loop or not.
#[cycle(statements)]
pub(crate) fn check_statement<H: Heap>(
    heap: H,
    best: &mut Option<Breach>,
    callees: &Callees,
    scope: &Scope,
    in_loop: bool,
    stmt: &Stmt,
) -> Result<(), Memory>
    requires { KnowsCallees callees.now }
    ensures { let breaches = statement_breaches (source_of callees.now.source.now) (proc_of scope.now) in_loop in
        OnOkUnless (H.may_refuse heap) result (Notes best.old (breaches (stmt_of stmt.now)) best.new) }
{
    match stmt {
        Stmt::NoOp { .. } => {}
        Stmt::Signal { cond, .. } => check_raised(best, scope, in_loop, cond),
        Stmt::Seq { parts, .. } => check_parts(heap, best, callees, scope, in_loop, parts)?,
        Stmt::Loop { body, .. } => check_statement(heap, best, callees, scope, true, body)?,
        Stmt::If { test, yes, no, .. } => {
            check_test(best, scope, test);
            check_statement(heap, best, callees, scope, in_loop, yes)?;
            check_statement(heap, best, callees, scope, in_loop, no)?;
        }
        Stmt::Begin {
            body,
            conds,
            arm,
            ..
        } => {
            check_statement(heap, best, callees, scope, in_loop, body)?;
            check_handlers(heap, best, scope, conds.as_slice())?;
            check_statement(heap, best, callees, scope, in_loop, arm)?;
        }
        Stmt::Call {
            callee,
            actuals_place,
            actuals,
            conds_place,
            conds,
            ..
        } => {
            let call = CallText {
                callee,
                actuals_place: *actuals_place,
                actuals: actuals.as_slice(),
                conds_place: *conds_place,
                conds: conds.as_slice(),
            };
            check_call(heap, best, callees, scope, in_loop, call)?;
        }
        Stmt::Predef { place, which, args } => check_predef(best, scope, *place, *which, args),
    }
    Ok(())
}

/// The same of each statement.
#[cycle(statements)]
fn check_parts<H: Heap>(
    heap: H,
    best: &mut Option<Breach>,
    callees: &Callees,
    scope: &Scope,
    in_loop: bool,
    parts: &[Stmt],
) -> Result<(), Memory>
    requires { KnowsCallees callees.now }
    ensures { let breaches = statement_breaches (source_of callees.now.source.now) (proc_of scope.now) in_loop in
        OnOkUnless (H.may_refuse heap) result
        (Notes best.old (flat_map (λ s. breaches (stmt_of s)) parts.now) best.new) }
{
    for part in parts {
        check_statement(heap, best, callees, scope, in_loop, part)?;
    }
    Ok(())
}

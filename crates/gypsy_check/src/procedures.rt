//! Procedures and sources.

ghost use Rattle.std.specs.{Prelude.{◌≡◌}, List.{flat_map}};
ghost use Rattle.stack_heap.specs.Heaps.{OnOkUnless};
ghost use Rattle.stack_text.specs.Breaches.{Notes};
ghost use Rattle.gypsy_syntax.specs.Views.SourceView.{proc_of, source_of};
ghost use Rattle.gypsy_check.specs.{Declarations.{is_predefined}, Rules.{main_breaches, name_breaches, procedure_breaches, violations}, Tables.{KnowsCallees}};

use crate::callees::{Callees, callees_of};
use crate::calls::is_missing;
use crate::declarations::{check_words, declared_conditions, declared_variables};
use crate::scope::Scope;
use crate::statements::check_statement;
use gypsy_syntax::{Keyword, Proc, Source, keyword_named};
use stack_heap::Heap;
use stack_text::{Breach, Memory, Name, note_if};

/// Notes the breaches of a procedure.
fn check_procedure<H: Heap>(
    heap: H,
    best: &mut Option<Breach>,
    callees: &Callees,
    proc: &Proc,
) -> Result<(), Memory>
    requires { KnowsCallees callees.now }
    ensures { let breaches = procedure_breaches (source_of callees.now.source.now) (proc_of proc.now) in
        OnOkUnless (H.may_refuse heap) result (Notes best.old breaches best.new) }
{
    let variables = declared_variables(heap, best, proc)?;
    let conds = declared_conditions(heap, best, proc)?;
    check_words(best, proc);
    let scope = Scope::new(proc, variables, conds);
    check_statement(heap, best, callees, &scope, false, &proc.body)?;
    Ok(())
}

/// The same of each procedure.
fn check_procedures<H: Heap>(
    heap: H,
    best: &mut Option<Breach>,
    callees: &Callees,
    procs: &[Proc],
) -> Result<(), Memory>
    requires { KnowsCallees callees.now }
    ensures { let breaches = procedure_breaches (source_of callees.now.source.now) in
        OnOkUnless (H.may_refuse heap) result
        (Notes best.old (flat_map (λ p. breaches (proc_of p)) procs.now) best.new) }
{
    for proc in procs {
        check_procedure(heap, best, callees, proc)?;
    }
    Ok(())
}

/// Whether the name is that of a predefined procedure.
fn is_predefined(name: &Name) -> bool
    ensures { result ≡ is_predefined name.now }
{
    matches!(keyword_named(name.bytes()), Some(Keyword::Predef(_)))
}

/// Notes a procedure that has the name of a predefined one.
fn check_name(best: &mut Option<Breach>, proc: &Proc)
    ensures { Notes best.old (name_breaches (proc_of proc.now)) best.new }
{
    note_if(best, is_predefined(&proc.name.name), proc.name.place, 2);
}

/// The same of each procedure.
fn check_names(best: &mut Option<Breach>, procs: &[Proc])
    ensures { Notes best.old (flat_map (λ p. name_breaches (proc_of p)) procs.now) best.new }
{
    for proc in procs {
        check_name(best, proc);
    }
}

/// Notes a main procedure that isn't there.
fn check_main(best: &mut Option<Breach>, callees: &Callees)
    requires { KnowsCallees callees.now }
    ensures { Notes best.old (main_breaches (source_of callees.now.source.now)) best.new }
{
    let source = callees.source;
    let missing = is_missing(callees, &source.main.name);
    note_if(best, missing, source.main.place, 3);
}

/// Notes all breaches of a source.
pub(crate) fn check_source<H: Heap>(
    heap: H,
    best: &mut Option<Breach>,
    source: &Source,
) -> Result<(), Memory>
    ensures { OnOkUnless (H.may_refuse heap) result (Notes best.old (violations (source_of source.now)) best.new) }
{
    let callees = callees_of(heap, best, source)?;
    check_main(best, &callees);
    check_names(best, source.procs.as_slice());
    check_procedures(heap, best, &callees, source.procs.as_slice())?;
    Ok(())
}

//! What a procedure declares.

ghost use Rattle.std.specs.{Prelude.{◌≡◌, ◌+◌, ◌≤◌, ◌++◌, nat_lt, map, min, OnOk}, List.{flat_map}};
ghost use Rattle.stack_heap.specs.Heaps.{IfOkUnless};
ghost use Rattle.stack_text.specs.Breaches.{Notes};
ghost use Rattle.gypsy_syntax.specs.{Resolved.{variable_types}, Views.SourceView.{proc_of}};
ghost use Rattle.gypsy_check.specs.{Declarations.{conditions_of}, Rules.{condition_breaches, condition_name_breaches, size_breaches, type_breaches}};
ghost use Rattle.gypsy_check.specs.{Rules.{variable_breaches}, Tables.{KnowsNames, KnowsTypes, declared}, Types.{words_of_types}};

use crate::conditions::check_conditions;
use crate::names::{conditions_of, variables_of};
use crate::types::{check_type, words_of_length};
use crate::values::check_locals;
use gypsy_syntax::{Decl, Local, Proc, TypeText};
use name_tables::{NameList, NameTable};
use stack_heap::Heap;
use stack_text::{Breach, MOST_STACK, Memory, note_if};

/// Notes the type of each formal whose length is out of range.
fn check_formal_types(best: &mut Option<Breach>, formals: &[Decl])
    ensures { Notes best.old (flat_map (λ d. type_breaches d.shape) formals.now) best.new }
{
    for decl in formals {
        check_type(best, &decl.shape);
    }
}

/// Notes the type of each local whose length is out of range.
fn check_local_types(best: &mut Option<Breach>, locals: &[Local])
    ensures { Notes best.old (flat_map (λ l. type_breaches l.decl.shape) locals.now) best.new }
{
    for local in locals {
        check_type(best, &local.decl.shape);
    }
}

/// Notes the type of each variable whose length is out of range.
fn check_types(best: &mut Option<Breach>, proc: &Proc)
    ensures { Notes best.old (flat_map type_breaches (variable_types (proc_of proc.now))) best.new }
{
    check_formal_types(best, proc.formals.as_slice());
    check_local_types(best, proc.locals.as_slice());
}

/// The types of the variables by their names; the breaches of their declarations are noted.
pub(crate) fn declared_variables<'a, H: Heap>(
    heap: H,
    best: &mut Option<Breach>,
    proc: &'a Proc,
) -> Result<NameTable<'a, TypeText>, Memory>
    ensures known { IfOkUnless (H.may_refuse heap) result (λ variables. KnowsTypes variables (declared proc.now)) }
    ensures noted { OnOk result (Notes best.old (variable_breaches (proc_of proc.now)) best.new) }
{
    let variables = variables_of(heap, best, proc.formals.as_slice(), proc.locals.as_slice())?;
    check_types(best, proc);
    check_locals(best, proc.locals.as_slice());
    Ok(variables)
}

/// Notes each declared condition whose name has a meaning of its own.
fn check_all_conditions(best: &mut Option<Breach>, proc: &Proc)
    ensures { Notes best.old (flat_map condition_breaches (conditions_of (proc_of proc.now))) best.new }
{
    check_conditions(best, proc.conds.as_slice());
    check_conditions(best, proc.local_conds.as_slice());
}

/// The names of the conditions; the breaches of their declarations are noted.
pub(crate) fn declared_conditions<'a, H: Heap>(
    heap: H,
    best: &mut Option<Breach>,
    proc: &'a Proc,
) -> Result<NameList<'a>, Memory>
    ensures known { IfOkUnless (H.may_refuse heap) result
        (λ conds. KnowsNames conds (proc.now.conds.items ++ proc.now.local_conds.items)) }
    ensures noted { OnOk result (Notes best.old (condition_name_breaches (proc_of proc.now)) best.new) }
{
    let conds = conditions_of(
        heap,
        best,
        proc.conds.as_slice(),
        proc.local_conds.as_slice(),
    )?;
    check_all_conditions(best, proc);
    Ok(conds)
}

/// The words of the formals, exact up to the most that variables may take.
fn formal_words(formals: &[Decl]) -> u32
    ensures words { min result 65537 ≡ min (words_of_types (map (λ d. d.shape) formals.now)) 65537 }
    ensures small { result ≤ 69633 }
{
    let mut total = 0;
    for decl in formals {
        if total <= MOST_STACK {
            total += words_of_length(decl.shape.length);
        }
    }
    total
}

/// The words of the locals on top of others, exact up to the most that variables may take.
fn with_local_words(before: u32, locals: &[Local]) -> u32
    requires { before ≤ 69633 }
    ensures { min result 65537 ≡ min (before + words_of_types (map (λ l. l.decl.shape) locals.now)) 65537 }
{
    let mut total = before;
    for local in locals {
        if total <= MOST_STACK {
            total += words_of_length(local.decl.shape.length);
        }
    }
    total
}

/// Whether the variables take too many words.
fn is_too_large(proc: &Proc) -> bool
    ensures { result ≡ nat_lt 65536 (words_of_types (variable_types (proc_of proc.now))) }
{
    let formals = formal_words(proc.formals.as_slice());
    let words = with_local_words(formals, proc.locals.as_slice());
    words > MOST_STACK
}

/// Notes a procedure whose variables take too many words.
pub(crate) fn check_words(best: &mut Option<Breach>, proc: &Proc)
    ensures { Notes best.old (size_breaches (proc_of proc.now)) best.new }
{
    note_if(best, is_too_large(proc), proc.place, 24);
}

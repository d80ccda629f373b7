//! Tables of names, and names that stand more than once.

ghost use Rattle.std.specs.{Prelude.{◌≡◌, ℕ, List, [], ◌++◌, ◌||◌, map, is_some, OnOk}, Str.{bytes_eq}};
ghost use Rattle.stack_heap.specs.Heaps.{IfOkUnless, OnOkUnless};
ghost use Rattle.stack_text.specs.{Names.{is_among}, Breaches.{when, Notes}, Options.{first_or}};
ghost use Rattle.gypsy_check.specs.{Declarations.{repeats}, Tables.{KnowsNames, KnowsTypes}};
ghost use Rattle.name_tables.specs.Entries.{look_up};

use gypsy_syntax::{Decl, Local, TypeText};
use name_tables::{NameList, NameTable};
use stack_heap::Heap;
use stack_text::{Breach, Memory, Named, note_if};

/// Enters a name, or notes that it was entered before.
fn enter<'a, H: Heap>(
    heap: H,
    best: &mut Option<Breach>,
    names: &mut NameList<'a>,
    name: &'a Named,
    rule: u8,
) -> Result<(), Memory>
    ensures entered { OnOkUnless (H.may_refuse heap) result
        ((other : List ℕ) → is_among other names.new ≡ (bytes_eq other name.now.name || is_among other names.old)) }
    ensures noted { OnOk result
        (Notes best.old (when (is_among name.now.name names.old) name.now.place rule) best.new) }
{
    let is_new = names.enter(heap, name.name.bytes())?;
    note_if(best, !is_new, name.place, rule);
    Ok(())
}

/// Notes each name that stands earlier in the list.
pub(crate) fn check_repeats<H: Heap>(
    heap: H,
    best: &mut Option<Breach>,
    rule: u8,
    names: &[Named],
) -> Result<(), Memory>
    ensures { OnOkUnless (H.may_refuse heap) result (Notes best.old (repeats rule [] names.now) best.new) }
{
    let mut earlier = NameList::new(heap.handle());
    for name in names {
        enter(heap, best, &mut earlier, name, rule)?;
    }
    Ok(())
}

/// Enters a variable by its name with its type, or notes that the name was entered before.
fn declare<'a, H: Heap>(
    heap: H,
    best: &mut Option<Breach>,
    variables: &mut NameTable<'a, TypeText>,
    decl: &'a Decl,
) -> Result<(), Memory>
    ensures entered { OnOkUnless (H.may_refuse heap) result
        ((other : List ℕ) →
        look_up variables.new other
        ≡ first_or (look_up variables.old other) (bytes_eq other decl.now.name.name) decl.now.shape) }
    ensures noted { let is_known = is_some (look_up variables.old decl.now.name.name) in
        OnOk result (Notes best.old (when is_known decl.now.name.place 4) best.new) }
{
    let is_known = variables.enter(heap, decl.name.name.bytes(), decl.shape)?;
    note_if(best, is_known, decl.name.place, 4);
    Ok(())
}

/// The types of variables by their names, formals before locals; each name that was used earlier is noted.
pub(crate) fn variables_of<'a, H: Heap>(
    heap: H,
    best: &mut Option<Breach>,
    formals: &'a [Decl],
    locals: &'a [Local],
) -> Result<NameTable<'a, TypeText>, Memory>
    ensures known { IfOkUnless (H.may_refuse heap) result
        (λ variables. KnowsTypes variables (formals.now ++ map (λ l. l.decl) locals.now)) }
    ensures noted { let names = map (λ d. d.name) formals.now ++ map (λ l. l.decl.name) locals.now in
        OnOk result (Notes best.old (repeats 4 [] names) best.new) }
{
    let mut variables = NameTable::new(heap.handle());
    for formal in formals {
        declare(heap, best, &mut variables, formal)?;
    }
    for local in locals {
        declare(heap, best, &mut variables, &local.decl)?;
    }
    Ok(variables)
}

/// The names of conditions, formal before local; each that was used earlier is noted.
pub(crate) fn conditions_of<'a, H: Heap>(
    heap: H,
    best: &mut Option<Breach>,
    conds: &'a [Named],
    local_conds: &'a [Named],
) -> Result<NameList<'a>, Memory>
    ensures known { IfOkUnless (H.may_refuse heap) result (λ names. KnowsNames names (conds.now ++ local_conds.now)) }
    ensures noted { OnOk result (Notes best.old (repeats 5 [] (conds.now ++ local_conds.now)) best.new) }
{
    let mut earlier = NameList::new(heap.handle());
    for cond in conds {
        enter(heap, best, &mut earlier, cond, 5)?;
    }
    for local in local_conds {
        enter(heap, best, &mut earlier, local, 5)?;
    }
    Ok(earlier)
}

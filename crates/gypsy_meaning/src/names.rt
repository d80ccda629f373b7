//! The names that are shown.

ghost use Rattle.std.specs.Prelude.{◌≡◌, ◌++◌, map};
ghost use Rattle.stack_heap.specs.Heaps.{IfOkUnless, OnOkUnless};
ghost use Rattle.gypsy_syntax.specs.Views.SourceView.{local_of, proc_of, source_of};
ghost use Rattle.gypsy_meaning.specs.Views.Named.{proc_names, seen_names, shown_names, unnamed};

use gypsy_semantics::Current;
use gypsy_syntax::{Decl, Local, Proc, Source};
use stack_heap::Heap;
use stack_text::{Memory, Name, Named};

/// The names of a procedure.
#[derive(Drop)]
pub struct Names {
    /// Those of its variables, formals and then locals.
    pub variables: Vec<Name>,
    /// Its conditions, formal and then local, as they are shown.
    pub conditions: Vec<Current>,
}

/// The conditions that have no name of a source, to be shown.
#[derive(Drop)]
pub struct Unnamed {
    /// The condition in which nothing is raised.
    pub normal: Current,
    /// The condition of a predefined call that fails.
    pub routine: Current,
    /// The condition that ends a loop.
    pub leave: Current,
    /// The condition of a call without room.
    pub space: Current,
}

impl Unnamed {
    /// The four of them. It takes no memory.
    pub fn new() -> Unnamed
        ensures { result ≡ unnamed }
    {
        Unnamed {
            normal: Current::Normal,
            routine: Current::Routine,
            leave: Current::Leave,
            space: Current::Space,
        }
    }
}

fn append_formals<H: Heap>(heap: H, names: &mut Vec<Name>, formals: &[Decl]) -> Result<(), Memory>
    ensures { OnOkUnless (H.may_refuse heap) result
        (names.new.items ≡ names.old.items ++ map (λ d. d.name.name) formals.now) }
{
    for decl in formals {
        heap.push(names, decl.name.name.copied(heap)?)?;
    }
    Ok(())
}

fn append_locals<H: Heap>(heap: H, names: &mut Vec<Name>, locals: &[Local]) -> Result<(), Memory>
    ensures { OnOkUnless (H.may_refuse heap) result
        (names.new.items ≡ names.old.items ++ map (λ l. l.decl.name.name) (map local_of locals.now)) }
{
    for local in locals {
        heap.push(names, local.decl.name.name.copied(heap)?)?;
    }
    Ok(())
}

fn append_conditions<H: Heap>(
    heap: H,
    conditions: &mut Vec<Current>,
    names: &[Named],
) -> Result<(), Memory>
    ensures { OnOkUnless (H.may_refuse heap) result
        (conditions.new.items ≡ conditions.old.items ++ shown_names (map (λ n. n.name) names.now)) }
{
    for name in names {
        heap.push(conditions, Current::Named(name.name.copied(heap)?))?;
    }
    Ok(())
}

/// The names of a procedure.
fn procedure_names<H: Heap>(heap: H, proc: &Proc) -> Result<Names, Memory>
    ensures { IfOkUnless (H.may_refuse heap) result (λ n. seen_names n ≡ proc_names (proc_of proc.now)) }
{
    let mut variables = Vec::new(heap.handle());
    append_formals(heap, &mut variables, proc.formals.as_slice())?;
    append_locals(heap, &mut variables, proc.locals.as_slice())?;
    let mut conditions = Vec::new(heap.handle());
    append_conditions(heap, &mut conditions, proc.conds.as_slice())?;
    append_conditions(heap, &mut conditions, proc.local_conds.as_slice())?;
    Ok(Names {
        variables,
        conditions,
    })
}

/// The names of each procedure.
pub fn names_of<H: Heap>(heap: H, source: &Source) -> Result<Vec<Names>, Memory>
    ensures { IfOkUnless (H.may_refuse heap) result
        (λ r. map seen_names r.items ≡ map proc_names (source_of source.now).procs) }
{
    let mut names = Vec::new(heap.handle());
    for proc in source.procs.as_slice() {
        heap.push(&mut names, procedure_names(heap, proc)?)?;
    }
    Ok(names)
}

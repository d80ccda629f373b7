//! The procedures of a source by their names.

ghost use Rattle.std.specs.{Prelude.{◌≡◌, ℕ, List, [], map, is_some, IfOk, OnOk, option_map}, Str.{bytes_eq}};
ghost use Rattle.stack_heap.specs.Heaps.{IfOkUnless, OnOkUnless};
ghost use Rattle.stack_text.specs.{Breaches.{when, Notes}, Options.{first_or}};
ghost use Rattle.gypsy_syntax.specs.{Views.SourceView.{proc_of, source_of}, Resolved.{procedure_named}};
ghost use Rattle.gypsy_check.specs.{Declarations.{repeats}, Tables.{procedure_in, KnowsCallees, KnowsProcs}};

use gypsy_syntax::{Proc, Source};
use name_tables::NameTable;
use stack_heap::Heap;
use stack_text::{Breach, Memory, Name, note_if};

/// A source, with the first procedure of each name.
#[derive(Drop)]
pub(crate) struct Callees<'a> {
    pub source: &'a Source,
    pub procs: NameTable<'a, &'a Proc>,
}

impl<'a> Callees<'a> {
    /// The first procedure of a name.
    pub(crate) fn named(&self, name: &Name) -> Option<&'a Proc>
        requires { KnowsCallees self.now }
        ensures { let found = procedure_named (source_of self.now.source.now) name.now in
            option_map (λ proc. proc_of proc.now) result ≡ found }
    {
        self.procs.get(name.bytes())
    }
}

/// Enters a procedure by its name, or notes that the name was entered before.
fn declare<'a, H: Heap>(
    heap: H,
    best: &mut Option<Breach>,
    table: &mut NameTable<'a, &'a Proc>,
    proc: &'a Proc,
) -> Result<(), Memory>
    ensures entered { OnOkUnless (H.may_refuse heap) result
        ((other : List ℕ) → procedure_in table.new other
        ≡ first_or (procedure_in table.old other) (bytes_eq other proc.now.name.name) proc.now) }
    ensures noted { let is_known = is_some (procedure_in table.old proc.now.name.name) in
        OnOk result (Notes best.old (when is_known proc.now.name.place 1) best.new) }
{
    let is_known = table.enter(heap, proc.name.name.bytes(), proc)?;
    note_if(best, is_known, proc.name.place, 1);
    Ok(())
}

/// Enters each procedure by its name, or notes that the name was entered before.
fn declare_all<'a, H: Heap>(
    heap: H,
    best: &mut Option<Breach>,
    table: &mut NameTable<'a, &'a Proc>,
    procs: &'a [Proc],
) -> Result<(), Memory>
    requires { KnowsProcs table.old [] }
    ensures known { OnOkUnless (H.may_refuse heap) result (KnowsProcs table.new procs.now) }
    ensures noted { OnOk result (Notes best.old (repeats 1 [] (map (λ p. p.name) procs.now)) best.new) }
{
    for proc in procs {
        declare(heap, best, table, proc)?;
    }
    Ok(())
}

/// The procedures of a source by their names; each name that was used earlier is noted.
pub(crate) fn callees_of<'a, H: Heap>(
    heap: H,
    best: &mut Option<Breach>,
    source: &'a Source,
) -> Result<Callees<'a>, Memory>
    ensures of { IfOkUnless (H.may_refuse heap) result (λ callees. callees.source.now ≡ source.now) }
    ensures known { IfOk result KnowsCallees }
    ensures noted { OnOk result (Notes best.old (repeats 1 [] (map (λ p. p.name) source.now.procs.items)) best.new) }
{
    let mut procs = NameTable::new(heap.handle());
    declare_all(heap, best, &mut procs, source.procs.as_slice())?;
    Ok(Callees { source, procs })
}

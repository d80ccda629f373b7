//! Tables of names, each with the position of its first declaration.

ghost use Rattle.std.specs.{Prelude.{◌≡◌, ℕ, ◌+◌, ◌≤◌, ◌^◌, List, [], ◌++◌, length, map, is_some, OnOk}, Str.{bytes_eq}};
ghost use Rattle.stack_heap.specs.Heaps.{OnOkUnless};
ghost use Rattle.stack_text.specs.{Breaches.{when, Notes}, Options.{first_or}};
ghost use Rattle.piton_check.specs.{Declarations.{declaration, formal_name, temporary_name, label_name, is_named, repeats}, Tables.{repeated, Knows}};
ghost use Rattle.name_tables.specs.Entries.{look_up};

use name_tables::{NameKeys, NameTable};
use piton_syntax::{Area, InstrText, Program, System, WordText};
use stack_heap::Heap;
use stack_text::{Breach, Memory, Name, Named, note_if};

/// A system with tables of its areas and programs.
#[derive(Drop)]
pub(crate) struct Names<'a> {
    pub system: &'a System,
    pub areas: NameTable<'a, u32>,
    pub programs: NameTable<'a, u32>,
}

/// A program with tables of its locals and labels, and the names of its system.
#[derive(Drop)]
pub(crate) struct Scope<'a, 'b> {
    pub names: &'b Names<'a>,
    pub program: &'a Program,
    pub locals: NameTable<'a, u32>,
    pub labels: NameTable<'a, u32>,
}

/// Enters a name with its position, or notes that it was entered before.
fn declare<'a, H: Heap>(
    heap: H,
    best: &mut Option<Breach>,
    table: &mut NameTable<'a, u32>,
    name: &'a Name,
    position: u32,
    place: u32,
    rule: u8,
) -> Result<(), Memory>
    ensures entered { OnOkUnless (H.may_refuse heap) result
        ((other : List ℕ) →
        look_up table.new other ≡ first_or (look_up table.old other) (bytes_eq other name.now) position) }
    ensures noted { OnOk result (Notes best.old (when (is_some (look_up table.old name.now)) place rule) best.new) }
{
    let is_known = table.enter(heap, name.bytes(), position)?;
    note_if(best, is_known, place, rule);
    Ok(())
}

/// What is declared by a name.
pub(crate) trait Declared {
    ghost use Rattle.std.specs.Prelude.{◌≡◌};
    ghost use Rattle.stack_text.specs.declared.name.Named.{Named};

    /// Its name, with the place of its breach if it repeats another.
    ghost named: { Self → Named };

    /// The name.
    fn name(&self) -> &Name
        ensures { result.now ≡ (named self.now).name };

    /// The place of the breach.
    fn place(&self) -> u32
        ensures { result ≡ (named self.now).place };
}

impl Declared for Area {
    ghost named = { λ area. record { place = area.place; name = area.name.name } };

    fn name(&self) -> &Name {
        &self.name.name
    }

    fn place(&self) -> u32 {
        self.place
    }
}

impl Declared for Program {
    ghost named = { λ program. record { place = program.place; name = program.name.name } };

    fn name(&self) -> &Name {
        &self.name.name
    }

    fn place(&self) -> u32 {
        self.place
    }
}

// A formal.
impl Declared for Named {
    ghost named = { λ formal. formal };

    fn name(&self) -> &Name {
        &self.name
    }

    fn place(&self) -> u32 {
        self.place
    }
}

/// Areas, programs or formals, where a name that repeats another breaks the rule.
pub(crate) fn declare_each<'a, T: Declared, H: Heap>(
    heap: H,
    best: &mut Option<Breach>,
    table: &mut NameTable<'a, u32>,
    items: &'a [T],
    rule: u8,
) -> Result<(), Memory>
    requires empty { Knows table.old [] }
    requires few { length items.now ≤ 2 ^ 20 }
    ensures known { OnOkUnless (H.may_refuse heap) result (Knows table.new (map (declaration T.named) items.now)) }
    ensures noted { OnOk result (Notes best.old (repeats rule [] (map (declaration T.named) items.now)) best.new) }
{
    for (index, item) in items.iter().enumerate() {
        declare(
            heap,
            best,
            table,
            item.name(),
            index as u32,
            item.place(),
            rule,
        )?;
    }
    Ok(())
}

/// The formals of a program, and after them its temporaries.
pub(crate) fn declare_locals<'a, H: Heap>(
    heap: H,
    best: &mut Option<Breach>,
    table: &mut NameTable<'a, u32>,
    formals: &'a [Named],
    temporaries: &'a [(Named, WordText)],
) -> Result<(), Memory>
    requires empty { Knows table.old [] }
    requires few { length formals.now + length temporaries.now ≤ 2 ^ 20 }
    ensures known { OnOkUnless (H.may_refuse heap) result
        (Knows table.new (map formal_name formals.now ++ map temporary_name temporaries.now)) }
    ensures noted { let locals = map formal_name formals.now ++ map temporary_name temporaries.now in
        OnOk result (Notes best.old (repeats 5 [] locals) best.new) }
{
    declare_each(heap, best, table, formals, 5)?;
    for (offset, temporary) in temporaries.iter().enumerate() {
        let position = (formals.len() + offset) as u32;
        declare(
            heap,
            best,
            table,
            &temporary.0.name,
            position,
            temporary.0.place,
            5,
        )?;
    }
    Ok(())
}

/// A label, if there is one.
fn declare_label<'a, H: Heap>(
    heap: H,
    best: &mut Option<Breach>,
    table: &mut NameTable<'a, u32>,
    label: &'a Option<Named>,
    position: u32,
) -> Result<(), Memory>
    ensures entered { OnOkUnless (H.may_refuse heap) result
        ((other : List ℕ) →
        look_up table.new other ≡ first_or (look_up table.old other) (is_named other label.now) position) }
    ensures noted { OnOk result (Notes best.old (repeated (look_up table.old) 6 label.now) best.new) }
{
    match label {
        None => Ok(()),
        Some(label) => declare(heap, best, table, &label.name, position, label.place, 6),
    }
}

/// The key of a table of areas or programs: all names are taken in.
pub(crate) fn keys_of<T: Declared>(items: &[T]) -> NameKeys {
    let mut keys = NameKeys::new();
    for item in items {
        keys.take_in(item.name().bytes());
    }
    keys
}

/// The key of the table of a program's locals: the names of formals and temporaries are taken in.
pub(crate) fn local_keys(formals: &[Named], temporaries: &[(Named, WordText)]) -> NameKeys {
    let mut keys = keys_of(formals);
    for temporary in temporaries {
        keys.take_in(temporary.0.name.bytes());
    }
    keys
}

/// The key of the table of a program's labels: all are taken in.
pub(crate) fn label_keys(instrs: &[InstrText]) -> NameKeys {
    let mut keys = NameKeys::new();
    for instr in instrs {
        if let Some(label) = &instr.label {
            keys.take_in(label.name.bytes());
        }
    }
    keys
}

/// The labels of a program's instructions.
pub(crate) fn declare_labels<'a, H: Heap>(
    heap: H,
    best: &mut Option<Breach>,
    table: &mut NameTable<'a, u32>,
    instrs: &'a [InstrText],
) -> Result<(), Memory>
    requires empty { Knows table.old [] }
    requires few { length instrs.now ≤ 2 ^ 20 }
    ensures known { OnOkUnless (H.may_refuse heap) result (Knows table.new (map label_name instrs.now)) }
    ensures noted { OnOk result (Notes best.old (repeats 6 [] (map label_name instrs.now)) best.new) }
{
    for (index, instr) in instrs.iter().enumerate() {
        declare_label(heap, best, table, &instr.label, index as u32)?;
    }
    Ok(())
}

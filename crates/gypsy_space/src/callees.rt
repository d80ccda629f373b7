//! The procedures of a source, found by their names.

ghost use Rattle.std.specs.Prelude.{◌≡◌, ◌≤◌, IfOk, length};
ghost use Rattle.stack_heap.specs.Heaps.{IfOkUnless};
ghost use Rattle.gypsy_syntax.specs.{Fits.{FitsForm}, Resolved.{position_of, procedure_names}, Views.SourceView.{source_of}};
ghost use Rattle.gypsy_space.specs.Callees.{KnowsProcedures, KnowsPositions, names_of};

use gypsy_syntax::{Proc, Source};
use name_tables::NameTable;
use stack_heap::Heap;
use stack_text::{Memory, Name};

/// A source, with the position of the first procedure of each name.
#[derive(Drop)]
pub(crate) struct Callees<'a> {
    pub source: &'a Source,
    pub positions: NameTable<'a, u32>,
}

impl<'a> Callees<'a> {
    /// The position of a procedure, or 0 where none has the name.
    pub(crate) fn position(&self, name: &Name) -> u32
        requires { KnowsProcedures self.now }
        ensures { result ≡ position_of name.now (procedure_names (source_of self.now.source.now)) }
    {
        self.positions.get(name.bytes()).unwrap_or(0)
    }
}

/// The position of the first procedure of each name.
fn positions_of<'a, H: Heap>(heap: H, procs: &'a [Proc]) -> Result<NameTable<'a, u32>, Memory>
    requires { length procs.now ≤ 1000 }
    ensures { IfOkUnless (H.may_refuse heap) result (λ positions. KnowsPositions positions (names_of procs.now)) }
{
    let mut positions = NameTable::new(heap.handle());
    for (index, proc) in procs.iter().enumerate() {
        positions.enter(heap, proc.name.name.bytes(), index as u32)?;
    }
    Ok(positions)
}

/// The procedures of a source, found by their names.
pub(crate) fn callees_of<'a, H: Heap>(heap: H, source: &'a Source) -> Result<Callees<'a>, Memory>
    requires { FitsForm (source_of source.now) }
    ensures of { IfOkUnless (H.may_refuse heap) result (λ callees. callees.source.now ≡ source.now) }
    ensures known { IfOk result KnowsProcedures }
{
    let positions = positions_of(heap, source.procs.as_slice())?;
    Ok(Callees { source, positions })
}

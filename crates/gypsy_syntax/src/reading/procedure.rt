//! Procedures, and whole sources.

ghost use Rattle.std.specs.Prelude.{◌≡◌, Ok};
ghost use Rattle.stack_text.specs.{Trees.{list}, Views.TreeView.{node_of, nodes_of}, Grammar.Judged.{each_of, ◌⊛◌}, Grammar.Parts.{list_or}};
ghost use Rattle.stack_text.specs.Grammar.Reading.{ReadsUnless};
ghost use Rattle.gypsy_syntax.specs.{Grammar.{are_few, decl_in, local_in, named_in, names_in, procedure_in, source_in, statement_in}, Made.{new_proc}};
ghost use Rattle.gypsy_syntax.specs.{Made.{new_source}, Views.SourceView.{proc_of, source_of}};

use crate::proc::{Proc, Source};
use crate::reading::declaration::formals as read_formals;
use crate::reading::statements::statement;
use crate::reading::word::{is_proc_word, is_program_word, named, names};
use stack_heap::Heap;
use stack_text::grammar::{FormFault, Part, each, each_in, list_length};
use stack_text::{Breach, MOST_DECLARED, MOST_PROCEDURES, TextTree};

/// M2 at a procedure.
fn no_procedure(place: u32) -> Breach
    ensures { result ≡ record { rule = 2; place = place } }
{
    Breach { rule: 2, place }
}

/// M12 at a tree.
fn too_large(place: u32) -> Breach
    ensures { result ≡ record { rule = 12; place = place } }
{
    Breach { rule: 12, place }
}

/// Whether two lists have no more items together than a procedure may declare.
fn are_few(first: &TextTree, second: &TextTree) -> bool
    ensures { result ≡ are_few (node_of first.now) (node_of second.now) }
{
    list_length(first).saturating_add(list_length(second)) <= MOST_DECLARED
}

/// The trees of a procedure after the word that begins it.
#[derive(Clone, Copy)]
struct ProcTrees<'a, 'b> {
    name: &'a TextTree<'b>,
    formals: &'a TextTree<'b>,
    conds: &'a TextTree<'b>,
    locals: &'a TextTree<'b>,
    local_conds: &'a TextTree<'b>,
    body: &'a TextTree<'b>,
}

/// A procedure, of which the parts are given.
fn procedure_parts<H: Heap>(heap: H, place: u32, trees: ProcTrees) -> Result<Proc, FormFault>
    ensures { let parts = trees.entry in
        ReadsUnless (H.may_refuse heap) proc_of result
        (Ok (new_proc place) ⊛ named_in (node_of parts.name.now) ⊛ list_or 4 decl_in (node_of parts.formals.now)
        ⊛ names_in (node_of parts.conds.now) ⊛ list_or 6 local_in (node_of parts.locals.now)
        ⊛ names_in (node_of parts.local_conds.now) ⊛ statement_in (node_of parts.body.now)) }
{
    let name = named(heap, trees.name)?;
    let formals = read_formals(heap, trees.formals)?;
    let conds = names(heap, trees.conds)?;
    let locals = each_in(heap, 6, trees.locals)?;
    let local_conds = names(heap, trees.local_conds)?;
    let body = statement(heap, trees.body)?;
    Ok(Proc {
        place,
        name,
        formals,
        conds,
        locals,
        local_conds,
        body,
    })
}

/// The procedure that the items of a list are.
fn procedure_at<H: Heap>(heap: H, place: u32, items: &[TextTree]) -> Result<Proc, FormFault>
    ensures { ReadsUnless (H.may_refuse heap) proc_of result (procedure_in (list place (nodes_of items.now))) }
{
    if items.len() != 7 {
        return Err(no_procedure(place).into());
    }
    let trees = ProcTrees {
        name: &items[1],
        formals: &items[2],
        conds: &items[3],
        locals: &items[4],
        local_conds: &items[5],
        body: &items[6],
    };
    if !is_proc_word(&items[0]) {
        return Err(no_procedure(place).into());
    }
    if !are_few(trees.formals, trees.locals) {
        return Err(too_large(place).into());
    }
    if !are_few(trees.conds, trees.local_conds) {
        return Err(too_large(place).into());
    }
    procedure_parts(heap, place, trees)
}

impl Part for Proc {
    ghost use Rattle.gypsy_syntax.specs.{Grammar.{procedure_in}, Sources.{ProcOf}, Views.SourceView.{proc_of}};

    ghost Seen = { ProcOf };

    ghost view = { proc_of };

    ghost part_of = { procedure_in };

    fn read<H: Heap>(heap: H, tree: &TextTree) -> Result<Proc, FormFault> {
        match tree {
            TextTree::Atom { place, text: _ } => Err(no_procedure(*place).into()),
            TextTree::List { place, items } => procedure_at(heap, *place, items),
        }
    }
}

/// M1 at the whole tree.
fn no_source(place: u32) -> Breach
    ensures { result ≡ record { rule = 1; place = place } }
{
    Breach { rule: 1, place }
}

/// A source, of which the parts are given.
fn source_parts<H: Heap>(
    heap: H,
    place: u32,
    main: &TextTree,
    procs: &[TextTree],
) -> Result<Source, FormFault>
    ensures { ReadsUnless (H.may_refuse heap) source_of result
        (Ok (new_source place) ⊛ named_in (node_of main.now) ⊛ each_of procedure_in (nodes_of procs.now)) }
{
    let main = named(heap, main)?;
    let procs = each(heap, procs)?;
    Ok(Source { place, main, procs })
}

/// The source that the items of a list are.
fn source_at<H: Heap>(heap: H, place: u32, items: &[TextTree]) -> Result<Source, FormFault>
    ensures { ReadsUnless (H.may_refuse heap) source_of result (source_in (list place (nodes_of items.now))) }
{
    if items.len() < 3 {
        return Err(no_source(place).into());
    }
    let (word, main, procs) = (&items[0], &items[1], &items[2..]);
    if !is_program_word(word) {
        return Err(no_source(place).into());
    }
    if procs.len() > MOST_PROCEDURES {
        return Err(too_large(place).into());
    }
    source_parts(heap, place, main, procs)
}

/// The source that a tree is: M1 where it is none, M12 where it is too large, and else the first fault in reading order.
pub fn source<H: Heap>(heap: H, tree: &TextTree) -> Result<Source, FormFault>
    ensures { ReadsUnless (H.may_refuse heap) source_of result (source_in (node_of tree.now)) }
{
    match tree {
        TextTree::Atom { place, text: _ } => Err(no_source(*place).into()),
        TextTree::List { place, items } => source_at(heap, *place, items),
    }
}

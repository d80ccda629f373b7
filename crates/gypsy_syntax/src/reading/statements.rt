//! Statements.

ghost use Rattle.std.specs.Prelude.{◌≡◌, Ok, Some, map};
ghost use Rattle.stack_text.specs.{Trees.{place_of}, Views.TreeView.{node_of, nodes_of}, Grammar.Judged.{◌⊛◌}, Grammar.Reading.{Finds, ReadsUnless}};
ghost use Rattle.gypsy_syntax.specs.declared.keyword.Keyword.TheVariants as words;
ghost use Rattle.gypsy_syntax.specs.{Grammar.{form_in, is_empty_list, named_in, names_in, statement_in, statements_in}, Made.{new_call}};
ghost use Rattle.gypsy_syntax.specs.Views.SourceView.{stmt_of};

use crate::keyword::{Keyword, keyword_named};
use crate::predef::Predef;
use crate::reading::word::{named, names};
use crate::statement::Stmt;
use stack_heap::Heap;
use stack_text::grammar::{FormFault, each};
use stack_text::{Breach, TextTree};

/// M9 at a tree.
fn no_statement(place: u32) -> Breach
    ensures { result ≡ record { rule = 9; place = place } }
{
    Breach { rule: 9, place }
}

/// M10 at a statement.
fn wrong_items(place: u32) -> Breach
    ensures { result ≡ record { rule = 10; place = place } }
{
    Breach { rule: 10, place }
}

fn no_op(place: u32, parts: &[TextTree]) -> Result<Stmt, Breach>
    ensures { Finds stmt_of result (form_in (Some words.NoOp) place (nodes_of parts.now)) }
{
    if parts.is_empty() {
        Ok(Stmt::NoOp { place })
    } else {
        Err(wrong_items(place))
    }
}

fn signal<H: Heap>(heap: H, place: u32, parts: &[TextTree]) -> Result<Stmt, FormFault>
    ensures { ReadsUnless (H.may_refuse heap) stmt_of result (form_in (Some words.Signal) place (nodes_of parts.now)) }
{
    if parts.len() != 1 {
        return Err(wrong_items(place).into());
    }
    let cond = named(heap, &parts[0])?;
    Ok(Stmt::Signal { place, cond })
}

/// A call, of which the parts are given.
fn call_parts<H: Heap>(
    heap: H,
    place: u32,
    callee: &TextTree,
    actuals: &TextTree,
    conds: &TextTree,
) -> Result<Stmt, FormFault>
    ensures { let made = new_call place (place_of (node_of actuals.now)) (place_of (node_of conds.now)) in
        ReadsUnless (H.may_refuse heap) stmt_of result
        (Ok made ⊛ named_in (node_of callee.now) ⊛ names_in (node_of actuals.now) ⊛ names_in (node_of conds.now)) }
{
    let callee = named(heap, callee)?;
    let actuals_place = actuals.place();
    let actuals = names(heap, actuals)?;
    let conds_place = conds.place();
    let conds = names(heap, conds)?;
    Ok(Stmt::Call {
        place,
        callee,
        actuals_place,
        actuals,
        conds_place,
        conds,
    })
}

fn call<H: Heap>(heap: H, place: u32, parts: &[TextTree]) -> Result<Stmt, FormFault>
    ensures { ReadsUnless (H.may_refuse heap) stmt_of result (form_in (Some words.Call) place (nodes_of parts.now)) }
{
    if parts.len() != 3 {
        return Err(wrong_items(place).into());
    }
    call_parts(heap, place, &parts[0], &parts[1], &parts[2])
}

fn predef_call<H: Heap>(
    heap: H,
    which: Predef,
    place: u32,
    parts: &[TextTree],
) -> Result<Stmt, FormFault>
    ensures { ReadsUnless (H.may_refuse heap) stmt_of result
        (form_in (Some (words.Predef which)) place (nodes_of parts.now)) }
{
    let args = each(heap, parts)?;
    Ok(Stmt::Predef { place, which, args })
}

/// Whether the tree is a list without items.
fn is_empty_list(tree: &TextTree) -> bool
    ensures { result ≡ is_empty_list (node_of tree.now) }
{
    match tree {
        TextTree::Atom { place: _, text: _ } => false,
        TextTree::List { place: _, items } => items.is_empty(),
    }
}

/// The statement that a tree is, in a box.
#[cycle(statements)]
fn boxed<H: Heap>(heap: H, tree: &TextTree) -> Result<Box<Stmt>, FormFault>
    ensures { ReadsUnless (H.may_refuse heap) (λ stmt. stmt_of stmt.value) result (statement_in (node_of tree.now)) }
{
    let stmt = statement(heap, tree)?;
    Ok(heap.boxed(stmt)?)
}

/// The statement that each tree is.
#[cycle(statements)]
fn statements<H: Heap>(heap: H, trees: &[TextTree]) -> Result<Vec<Stmt>, FormFault>
    ensures { ReadsUnless (H.may_refuse heap) (λ parts. map stmt_of parts.items) result
        (statements_in (nodes_of trees.now)) }
{
    let mut parts = Vec::new(heap.handle());
    for tree in trees {
        let part = statement(heap, tree)?;
        heap.push(&mut parts, part)?;
    }
    Ok(parts)
}

#[cycle(statements)]
fn sequence<H: Heap>(heap: H, place: u32, parts: &[TextTree]) -> Result<Stmt, FormFault>
    ensures { ReadsUnless (H.may_refuse heap) stmt_of result (form_in (Some words.Seq) place (nodes_of parts.now)) }
{
    if parts.is_empty() {
        return Err(wrong_items(place).into());
    }
    let parts = statements(heap, parts)?;
    Ok(Stmt::Seq { place, parts })
}

#[cycle(statements)]
fn repetition<H: Heap>(heap: H, place: u32, parts: &[TextTree]) -> Result<Stmt, FormFault>
    ensures { ReadsUnless (H.may_refuse heap) stmt_of result (form_in (Some words.Loop) place (nodes_of parts.now)) }
{
    if parts.len() != 1 {
        return Err(wrong_items(place).into());
    }
    let body = boxed(heap, &parts[0])?;
    Ok(Stmt::Loop { place, body })
}

#[cycle(statements)]
fn branch<H: Heap>(heap: H, place: u32, parts: &[TextTree]) -> Result<Stmt, FormFault>
    ensures { ReadsUnless (H.may_refuse heap) stmt_of result (form_in (Some words.If) place (nodes_of parts.now)) }
{
    if parts.len() != 3 {
        return Err(wrong_items(place).into());
    }
    let (test, yes, no) = (&parts[0], &parts[1], &parts[2]);
    let test = named(heap, test)?;
    let yes = boxed(heap, yes)?;
    let no = boxed(heap, no)?;
    Ok(Stmt::If {
        place,
        test,
        yes,
        no,
    })
}

#[cycle(statements)]
fn guarded<H: Heap>(heap: H, place: u32, parts: &[TextTree]) -> Result<Stmt, FormFault>
    ensures { ReadsUnless (H.may_refuse heap) stmt_of result (form_in (Some words.Begin) place (nodes_of parts.now)) }
{
    if parts.len() != 3 {
        return Err(wrong_items(place).into());
    }
    let (body, conds, arm) = (&parts[0], &parts[1], &parts[2]);
    if is_empty_list(conds) {
        return Err(wrong_items(place).into());
    }
    let body = boxed(heap, body)?;
    let conds = names(heap, conds)?;
    let arm = boxed(heap, arm)?;
    Ok(Stmt::Begin {
        place,
        body,
        conds,
        arm,
    })
}

/// The statement that begins with the word, of which the other items are given.
#[cycle(statements)]
fn form<H: Heap>(
    heap: H,
    keyword: Keyword,
    place: u32,
    parts: &[TextTree],
) -> Result<Stmt, FormFault>
    ensures { ReadsUnless (H.may_refuse heap) stmt_of result (form_in (Some keyword) place (nodes_of parts.now)) }
{
    match keyword {
        Keyword::NoOp => Ok(no_op(place, parts)?),
        Keyword::Signal => signal(heap, place, parts),
        Keyword::Seq => sequence(heap, place, parts),
        Keyword::Loop => repetition(heap, place, parts),
        Keyword::If => branch(heap, place, parts),
        Keyword::Begin => guarded(heap, place, parts),
        Keyword::Call => call(heap, place, parts),
        Keyword::Predef(which) => predef_call(heap, which, place, parts),
    }
}

/// The statement that a tree is: M9 where it begins with no word of a form and no predefined name, M10 where it has a wrong
/// number of items.
#[cycle(statements)]
pub fn statement<H: Heap>(heap: H, tree: &TextTree) -> Result<Stmt, FormFault>
    ensures { ReadsUnless (H.may_refuse heap) stmt_of result (statement_in (node_of tree.now)) }
{
    match tree {
        TextTree::Atom { place, text: _ } => Err(no_statement(*place).into()),
        TextTree::List { place, items } => match items.as_slice() {
            [] => Err(no_statement(*place).into()),
            [first, parts @ ..] => match first {
                TextTree::List { place: _, items: _ } => Err(no_statement(*place).into()),
                TextTree::Atom { place: _, text } => match keyword_named(text) {
                    None => Err(no_statement(*place).into()),
                    Some(keyword) => form(heap, keyword, *place, parts),
                },
            },
        },
    }
}

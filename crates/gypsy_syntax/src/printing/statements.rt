//! Statements.

ghost use Rattle.std.specs.Prelude.{◌≡◌, ◌++◌, ◌∷◌, []};
ghost use Rattle.stack_heap.specs.Heaps.{OnOkUnless};
ghost use Rattle.stack_text.specs.{Grammar.Printed.{list_tree, name_tree}, TreeText.{spaced_text, tree_text}, Views.TreeView.{nodes}};
ghost use Rattle.gypsy_syntax.specs.{Keywords.{keyword_name}, Printed.{keyword_of, stmt_parts, stmt_tree, stmt_trees}, Views.SourceView.{parts_of_list}};
ghost use Rattle.gypsy_syntax.specs.Views.SourceView.{stmt_of};

use crate::keyword::Keyword;
use crate::printing::declaration::spaced_list;
use crate::statement::Stmt;
use stack_heap::Heap;
use stack_text::grammar::{spaced_items, spaced_name};
use stack_text::{Memory, Named};

/// The first word of a statement.
fn keyword_of(stmt: &Stmt) -> Keyword
    ensures { result ≡ keyword_of (stmt_of stmt.now) }
{
    match stmt {
        Stmt::NoOp { place: _ } => Keyword::NoOp,
        Stmt::Signal { place: _, cond: _ } => Keyword::Signal,
        Stmt::Seq { place: _, parts: _ } => Keyword::Seq,
        Stmt::Loop { place: _, body: _ } => Keyword::Loop,
        Stmt::If { .. } => Keyword::If,
        Stmt::Begin { .. } => Keyword::Begin,
        Stmt::Call { .. } => Keyword::Call,
        Stmt::Predef { which, .. } => Keyword::Predef(*which),
    }
}

/// Appends `(` and the first word of a statement.
fn open_statement<H: Heap>(heap: H, out: &mut Vec<u8>, keyword: Keyword) -> Result<(), Memory>
    ensures { OnOkUnless (H.may_refuse heap) result (out.new.items ≡ out.old.items ++ 40 ∷ keyword_name keyword) }
{
    heap.push(out, b'(')?;
    heap.extend_from_slice(out, keyword.name().as_bytes())?;
    Ok(())
}

/// Appends a space and a statement.
#[cycle(statements)]
fn spaced_statement<H: Heap>(heap: H, out: &mut Vec<u8>, stmt: &Stmt) -> Result<(), Memory>
    ensures { OnOkUnless (H.may_refuse heap) result
        (out.new.items ≡ out.old.items ++ 32 ∷ tree_text (stmt_tree (stmt_of stmt.now))) }
{
    heap.push(out, b' ')?;
    print_statement(heap, out, stmt)
}

/// Appends statements with a space before each.
#[cycle(statements)]
fn spaced_statements<H: Heap>(heap: H, out: &mut Vec<u8>, parts: &[Stmt]) -> Result<(), Memory>
    ensures { OnOkUnless (H.may_refuse heap) result
        (out.new.items ≡ out.old.items ++ spaced_text (stmt_trees (parts_of_list parts.now))) }
{
    for part in parts {
        spaced_statement(heap, out, part)?;
    }
    Ok(())
}

/// Appends what follows the first word of a call.
fn spaced_call<H: Heap>(
    heap: H,
    out: &mut Vec<u8>,
    callee: &Named,
    actuals: &[Named],
    conds: &[Named],
) -> Result<(), Memory>
    ensures { let parts = name_tree callee.now ∷ list_tree name_tree actuals.now ∷ list_tree name_tree conds.now ∷ [] in
        OnOkUnless (H.may_refuse heap) result (out.new.items ≡ out.old.items ++ spaced_text (nodes parts)) }
{
    spaced_name(heap, out, callee)?;
    spaced_list(heap, out, actuals)?;
    spaced_list(heap, out, conds)
}

/// Appends what follows the first word of a statement, with a space before each part.
#[cycle(statements)]
fn spaced_parts<H: Heap>(heap: H, out: &mut Vec<u8>, stmt: &Stmt) -> Result<(), Memory>
    ensures { OnOkUnless (H.may_refuse heap) result
        (out.new.items ≡ out.old.items ++ spaced_text (stmt_parts (stmt_of stmt.now))) }
{
    match stmt {
        Stmt::NoOp { .. } => Ok(()),
        Stmt::Signal { cond, .. } => spaced_name(heap, out, cond),
        Stmt::Seq { parts, .. } => {
            spaced_statements(heap, out, parts.as_slice())?;
            Ok(())
        }
        Stmt::Loop { body, .. } => spaced_statement(heap, out, body),
        Stmt::If { test, yes, no, .. } => {
            spaced_name(heap, out, test)?;
            spaced_statement(heap, out, yes)?;
            spaced_statement(heap, out, no)
        }
        Stmt::Begin {
            body,
            conds,
            arm,
            ..
        } => {
            spaced_statement(heap, out, body)?;
            spaced_list(heap, out, conds.as_slice())?;
            spaced_statement(heap, out, arm)
        }
        Stmt::Call {
            callee,
            actuals,
            conds,
            ..
        } => spaced_call(heap, out, callee, actuals.as_slice(), conds.as_slice()),
        Stmt::Predef { args, .. } => {
            spaced_items(heap, out, args.as_slice())?;
            Ok(())
        }
    }
}

/// Appends a statement.
#[cycle(statements)]
pub fn print_statement<H: Heap>(heap: H, out: &mut Vec<u8>, stmt: &Stmt) -> Result<(), Memory>
    ensures { OnOkUnless (H.may_refuse heap) result
        (out.new.items ≡ out.old.items ++ tree_text (stmt_tree (stmt_of stmt.now))) }
{
    open_statement(heap, out, keyword_of(stmt))?;
    spaced_parts(heap, out, stmt)?;
    heap.push(out, b')')?;
    Ok(())
}

//! Statements and blocks, read from the tokens of a judged text.

ghost use Rattle.std.specs.Prelude.{◌≡◌, [], ◌∷◌, Some};
ghost use Rattle.stack_heap.specs.Heaps.{IfOkUnless};
ghost use Rattle.stack_text.specs.Breaches.{Notes};
ghost use Rattle.mini_syntax.specs.{Breaches.{assigns_breaches, test_breaches}, Expected.{a_block}, Internal.Lexemes.{left_of, next_kind}};
ghost use Rattle.mini_syntax.specs.{Internal.Phrases.{Awaits, ReadsBlock, ReadsForm, ReadsForms, statement_kind}, Internal.Scopes.{IsScope}};
ghost use Rattle.mini_syntax.specs.declared.blocks.StatementKind.TheVariants as a_statement;
ghost use Rattle.mini_syntax.specs.declared.expected.Expected.TheVariants as wants;

use crate::expressions::expression;
use crate::lexeme::Cursor;
use crate::lexer::TokenKind;
use crate::mark::Mark;
use crate::program::Statement;
use crate::scope::{Scope, index_of, sort_of};
use crate::sort::Sort;
use crate::word::Word;
use stack_heap::Heap;
use stack_text::{Breach, Memory, note_if};

/// The kinds of statements.
#[derive(Clone, Copy, Debug)]
pub enum StatementKind {
    /// `NAME := EXP ;`, which begins with a name.
    Assignment,
    /// `while EXP BLOCK`
    While,
    /// `if EXP BLOCK else BLOCK`
    If,
}

/// The kind of the statement that begins with a token of the kind, if one does.
fn statement_kind(kind: TokenKind) -> Option<StatementKind>
    ensures { result ≡ statement_kind kind }
{
    match kind {
        TokenKind::Name => Some(StatementKind::Assignment),
        TokenKind::Word(Word::While) => Some(StatementKind::While),
        TokenKind::Word(Word::If) => Some(StatementKind::If),
        _ => None,
    }
}

/// Notes an assignment between two sorts, where both are known.
fn note_assignment(
    best: &mut Option<Breach>,
    place: u32,
    variable: Option<Sort>,
    value: Option<Sort>,
)
    ensures { Notes best.old (assigns_breaches place variable value) best.new }
{
    match (variable, value) {
        (Some(s), Some(t)) => note_if(best, s != t, place, 7),
        _ => {}
    }
}

/// Notes a test that is a number.
fn note_test(best: &mut Option<Breach>, place: u32, test: Option<Sort>)
    ensures { Notes best.old (test_breaches place test) best.new }
{
    if let Some(sort) = test {
        note_if(best, sort != Sort::Bool, place, 7);
    }
}

/// Reads an assignment.
fn assignment<H: Heap>(
    heap: H,
    cursor: &mut Cursor,
    scope: &Scope,
    best: &mut Option<Breach>,
) -> Result<Statement, Memory>
    requires scope { IsScope scope.now }
    requires awaits { Awaits (wants.MoreStatements ∷ []) (left_of cursor.old) }
    requires begun { Some a_statement.Assignment ≡ statement_kind (next_kind (left_of cursor.old)) }
    ensures { IfOkUnless (H.may_refuse heap) result
        (ReadsForm scope.now.declared.items (left_of cursor.old) (left_of cursor.new) best.old best.new) }
{
    let name = cursor.next();
    let found = scope.named(name.bytes);
    note_if(best, found.is_none(), name.place, 6);
    let becomes = cursor.mark(Mark::Becomes);
    let value = expression(heap, cursor, scope, best)?;
    cursor.mark(Mark::Semicolon);
    note_assignment(best, becomes, sort_of(found), value.sort);
    Ok(Statement::Assign {
        index: index_of(found),
        value: value.exp,
    })
}

/// Reads a `while`.
#[cycle(blocks)]
fn while_statement<H: Heap>(
    heap: H,
    cursor: &mut Cursor,
    scope: &Scope,
    best: &mut Option<Breach>,
) -> Result<Statement, Memory>
    requires scope { IsScope scope.now }
    requires awaits { Awaits (wants.MoreStatements ∷ []) (left_of cursor.old) }
    requires begun { Some a_statement.While ≡ statement_kind (next_kind (left_of cursor.old)) }
    ensures { IfOkUnless (H.may_refuse heap) result
        (ReadsForm scope.now.declared.items (left_of cursor.old) (left_of cursor.new) best.old best.new) }
{
    let place = cursor.next().place;
    let test = expression(heap, cursor, scope, best)?;
    note_test(best, place, test.sort);
    let body = block(heap, cursor, scope, best)?;
    Ok(Statement::While {
        test: test.exp,
        body,
    })
}

/// Reads an `if`.
#[cycle(blocks)]
fn if_statement<H: Heap>(
    heap: H,
    cursor: &mut Cursor,
    scope: &Scope,
    best: &mut Option<Breach>,
) -> Result<Statement, Memory>
    requires scope { IsScope scope.now }
    requires awaits { Awaits (wants.MoreStatements ∷ []) (left_of cursor.old) }
    requires begun { Some a_statement.If ≡ statement_kind (next_kind (left_of cursor.old)) }
    ensures { IfOkUnless (H.may_refuse heap) result
        (ReadsForm scope.now.declared.items (left_of cursor.old) (left_of cursor.new) best.old best.new) }
{
    let place = cursor.next().place;
    let test = expression(heap, cursor, scope, best)?;
    note_test(best, place, test.sort);
    let then = block(heap, cursor, scope, best)?;
    cursor.next();
    let otherwise = block(heap, cursor, scope, best)?;
    Ok(Statement::If {
        test: test.exp,
        then,
        otherwise,
    })
}

/// Reads a statement of the kind.
#[cycle(blocks)]
fn statement<H: Heap>(
    heap: H,
    cursor: &mut Cursor,
    scope: &Scope,
    best: &mut Option<Breach>,
    kind: StatementKind,
) -> Result<Statement, Memory>
    requires scope { IsScope scope.now }
    requires awaits { Awaits (wants.MoreStatements ∷ []) (left_of cursor.old) }
    requires begun { Some kind ≡ statement_kind (next_kind (left_of cursor.old)) }
    ensures { IfOkUnless (H.may_refuse heap) result
        (ReadsForm scope.now.declared.items (left_of cursor.old) (left_of cursor.new) best.old best.new) }
{
    match kind {
        StatementKind::Assignment => assignment(heap, cursor, scope, best),
        StatementKind::While => while_statement(heap, cursor, scope, best),
        StatementKind::If => if_statement(heap, cursor, scope, best),
    }
}

/// Reads a block.
#[cycle(blocks)]
fn block<H: Heap>(
    heap: H,
    cursor: &mut Cursor,
    scope: &Scope,
    best: &mut Option<Breach>,
) -> Result<Vec<Statement>, Memory>
    requires scope { IsScope scope.now }
    requires awaits { Awaits (a_block []) (left_of cursor.old) }
    ensures { IfOkUnless (H.may_refuse heap) result (λ body.
        ReadsBlock scope.now.declared.items (left_of cursor.old) (left_of cursor.new) best.old best.new body.items) }
{
    cursor.mark(Mark::OpenBlock);
    let body = statements(heap, cursor, scope, best)?;
    cursor.mark(Mark::CloseBlock);
    Ok(body)
}

/// Reads statements up to a token with which none begins, and notes what breaks a rule in them. They nest as deep as the
/// text's blocks: at most 40 deep in a judged text.
#[cycle(blocks)]
pub(crate) fn statements<H: Heap>(
    heap: H,
    cursor: &mut Cursor,
    scope: &Scope,
    best: &mut Option<Breach>,
) -> Result<Vec<Statement>, Memory>
    requires scope { IsScope scope.now }
    requires awaits { Awaits (wants.MoreStatements ∷ []) (left_of cursor.old) }
    ensures { IfOkUnless (H.may_refuse heap) result (λ body.
        ReadsForms scope.now.declared.items (left_of cursor.old) (left_of cursor.new) best.old best.new body.items) }
{
    let mut statements = Vec::new(heap.handle());
    while let Some(kind) = statement_kind(cursor.kind()) {
        let made = statement(heap, cursor, scope, best, kind)?;
        heap.push(&mut statements, made)?;
    }
    Ok(statements)
}

//! The statements of a program, lowered.

ghost use Rattle.std.specs.Prelude.{◌≡◌, ◌<◌, ◌++◌, [], ◌∷◌, length, map, slice_get, Some};
ghost use Rattle.stack_heap.specs.Heaps.{IfOkUnless, OnOkUnless};
ghost use Rattle.gypsy_syntax.specs.{Made.{new_seq}, Sources.{loop, no_op}, Views.SourceView.{stmt_of}};
ghost use Rattle.mini_syntax.specs.{declared.sort.Sort.TheVariants.{Bool}, Language.{Assign}, Lawful.{nth_name}, ProgramView.{block_in, exp_of, statement_in}};
ghost use Rattle.mini_syntax.specs.{Sorted.{AreFine, IsFine}, Operands.{sort_of}};
ghost use Rattle.mini_gypsy.specs.Lowered.{block_parts, choice_parts, leave, set_name, statement_parts, temporary_name, value_parts};

use crate::predefs::call_two;
use crate::temporaries::{temporary, variable};
use crate::values::append_value;
use gypsy_syntax::{Predef, Stmt};
use mini_syntax::{Declared, Exp, Sort, Statement};
use stack_heap::Heap;
use stack_text::{Memory, Named};

/// A declared variable is set to the temporary at depth 0.
fn set_variable<H: Heap>(
    heap: H,
    declared: &[Declared],
    index: u32,
    sort: Sort,
) -> Result<Stmt, Memory>
    requires { index < length declared.now }
    ensures { let name = nth_name (map (λ d. d.name) declared.now) index in
        IfOkUnless (H.may_refuse heap) result (λ made. stmt_of made ≡ set_name name (temporary_name sort 0)) }
{
    let to = variable(heap, declared, index)?;
    let from = temporary(heap, sort, 0)?;
    call_two(heap, Predef::MgSimpleVariableAssignment, to, from)
}

/// One of two statements, by the test that was put at depth 0.
fn choice<H: Heap>(heap: H, then: Stmt, otherwise: Stmt) -> Result<Stmt, Memory>
    ensures { IfOkUnless (H.may_refuse heap) result
        (λ made. stmt_of made ≡ choice_parts (stmt_of then) (stmt_of otherwise)) }
{
    Ok(Stmt::If {
        place: 0,
        test: temporary(heap, Sort::Bool, 0)?,
        yes: heap.boxed(then)?,
        no: heap.boxed(otherwise)?,
    })
}

/// The end of a loop.
fn leave<H: Heap>(heap: H) -> Result<Stmt, Memory>
    ensures { IfOkUnless (H.may_refuse heap) result (λ made. stmt_of made ≡ leave) }
{
    Ok(Stmt::Signal {
        place: 0,
        cond: Named::unplaced(heap, b"leave".as_slice())?,
    })
}

/// Parts in turn.
fn sequence(parts: Vec<Stmt>) -> Stmt
    ensures { stmt_of result ≡ new_seq 0 (map stmt_of parts.items) }
{
    Stmt::Seq { place: 0, parts }
}

/// Parts in turn, again and again.
fn repeated<H: Heap>(heap: H, parts: Vec<Stmt>) -> Result<Stmt, Memory>
    ensures { IfOkUnless (H.may_refuse heap) result
        (λ made. stmt_of made ≡ loop 0 (new_seq 0 (map stmt_of parts.items))) }
{
    Ok(Stmt::Loop {
        place: 0,
        body: heap.boxed(sequence(parts))?,
    })
}

/// Appends an assignment.
fn append_assignment<H: Heap>(
    heap: H,
    parts: &mut Vec<Stmt>,
    declared: &[Declared],
    index: u32,
    value: &Exp,
) -> Result<(), Memory>
    requires there { slice_get (map (λ d. d.sort) declared.now) index ≡ Some (sort_of (exp_of value.now)) }
    requires fine { IsFine (map (λ d. d.sort) declared.now) (sort_of (exp_of value.now)) (exp_of value.now) }
    ensures { let parts_of = statement_parts (map (λ d. d.name) declared.now) (Assign index (exp_of value.now)) in
        OnOkUnless (H.may_refuse heap) result (map stmt_of parts.new.items ≡ map stmt_of parts.old.items ++ parts_of) }
{
    append_value(heap, parts, declared, 0, value)?;
    let made = set_variable(heap, declared, index, value.sort())?;
    heap.push(parts, made)?;
    Ok(())
}

/// Appends a loop of a test and a statement.
fn append_while<H: Heap>(
    heap: H,
    parts: &mut Vec<Stmt>,
    declared: &[Declared],
    test: &Exp,
    then: Stmt,
) -> Result<(), Memory>
    requires { IsFine (map (λ d. d.sort) declared.now) Bool (exp_of test.now) }
    ensures { let value = value_parts (map (λ d. d.name) declared.now) 0 (exp_of test.now) in
        let made = loop 0 (new_seq 0 (value ++ choice_parts (stmt_of then) leave ∷ [])) in
        OnOkUnless (H.may_refuse heap) result (map stmt_of parts.new.items ≡ map stmt_of parts.old.items ++ made ∷ []) }
{
    let mut round = Vec::new(heap.handle());
    append_value(heap, &mut round, declared, 0, test)?;
    let made = choice(heap, then, leave(heap)?)?;
    heap.push(&mut round, made)?;
    let whole = repeated(heap, round)?;
    heap.push(parts, whole)?;
    Ok(())
}

/// Appends a test and one of two statements.
fn append_if<H: Heap>(
    heap: H,
    parts: &mut Vec<Stmt>,
    declared: &[Declared],
    test: &Exp,
    then: Stmt,
    otherwise: Stmt,
) -> Result<(), Memory>
    requires { IsFine (map (λ d. d.sort) declared.now) Bool (exp_of test.now) }
    ensures { let value = value_parts (map (λ d. d.name) declared.now) 0 (exp_of test.now) in
        let made = choice_parts (stmt_of then) (stmt_of otherwise) in
        OnOkUnless (H.may_refuse heap) result
        (map stmt_of parts.new.items ≡ map stmt_of parts.old.items ++ (value ++ made ∷ [])) }
{
    append_value(heap, parts, declared, 0, test)?;
    let made = choice(heap, then, otherwise)?;
    heap.push(parts, made)?;
    Ok(())
}

/// What a block begins with, so that it has a statement even if it is empty.
fn opened<H: Heap>(heap: H) -> Result<Vec<Stmt>, Memory>
    ensures { IfOkUnless (H.may_refuse heap) result (λ parts. map stmt_of parts.items ≡ no_op 0 ∷ []) }
{
    let mut parts = Vec::new(heap.handle());
    heap.push(&mut parts, Stmt::NoOp { place: 0 })?;
    Ok(parts)
}

/// Appends what a statement becomes.
#[cycle(statements)]
fn append_statement<H: Heap>(
    heap: H,
    statement: &Statement,
    parts: &mut Vec<Stmt>,
    declared: &[Declared],
) -> Result<(), Memory>
    requires { AreFine (map (λ d. d.sort) declared.now) (statement_in statement.now) }
    ensures { let made = statement_parts (map (λ d. d.name) declared.now) (statement_in statement.now) in
        OnOkUnless (H.may_refuse heap) result (map stmt_of parts.new.items ≡ map stmt_of parts.old.items ++ made) }
{
    match statement {
        Statement::Assign { index, value } => {
            append_assignment(heap, parts, declared, *index, value)?;
            Ok(())
        }
        Statement::While { test, body } => {
            let mut inner = opened(heap)?;
            append_statements(heap, body.as_slice(), &mut inner, declared)?;
            append_while(heap, parts, declared, test, sequence(inner))?;
            Ok(())
        }
        Statement::If {
            test,
            then,
            otherwise,
        } => {
            let mut first = opened(heap)?;
            append_statements(heap, then.as_slice(), &mut first, declared)?;
            let mut second = opened(heap)?;
            append_statements(heap, otherwise.as_slice(), &mut second, declared)?;
            append_if(
                heap,
                parts,
                declared,
                test,
                sequence(first),
                sequence(second),
            )?;
            Ok(())
        }
    }
}

/// Appends what statements become.
#[cycle(statements)]
fn append_statements<H: Heap>(
    heap: H,
    statements: &[Statement],
    parts: &mut Vec<Stmt>,
    declared: &[Declared],
) -> Result<(), Memory>
    requires { AreFine (map (λ d. d.sort) declared.now) (block_in statements.now) }
    ensures { let made = statement_parts (map (λ d. d.name) declared.now) (block_in statements.now) in
        OnOkUnless (H.may_refuse heap) result (map stmt_of parts.new.items ≡ map stmt_of parts.old.items ++ made) }
{
    for statement in statements {
        append_statement(heap, statement, parts, declared)?;
    }
    Ok(())
}

/// The statement that a block becomes.
pub(crate) fn block<H: Heap>(
    heap: H,
    declared: &[Declared],
    statements: &[Statement],
) -> Result<Stmt, Memory>
    requires { AreFine (map (λ d. d.sort) declared.now) (block_in statements.now) }
    ensures { let made = statement_parts (map (λ d. d.name) declared.now) (block_in statements.now) in
        IfOkUnless (H.may_refuse heap) result (λ block. stmt_of block ≡ block_parts made) }
{
    let mut parts = opened(heap)?;
    append_statements(heap, statements, &mut parts, declared)?;
    Ok(sequence(parts))
}

//! The bodies of procedures.

ghost use Rattle.std.specs.Prelude.{◌≡◌, map, [], ◌∷◌};
ghost use Rattle.stack_heap.specs.Heaps.{IfOkUnless};
ghost use Rattle.gypsy_syntax.specs.{Made.{new_predef, new_seq}, Sources.{no_op}, Views.SourceView.{arg_of, stmt_of}};
ghost use Rattle.gypsy_gen.specs.Parts.{body_of, argument, body};

use crate::parts::Variable;
use gypsy_syntax::{Arg, Predef, Stmt};
use stack_heap::Heap;
use stack_text::{Memory, Named};

/// What a procedure does to its formal with its local.
#[derive(Clone, Copy, Debug, PartialEq, Eq)]
pub(crate) enum Body {
    Add,
    Subtract,
    /// The formal is negated.
    Minus,
    /// Nothing, and then the local's value is assigned.
    Assign,
}

/// The body that a state of the generator has.
#[tactic(auto, unfolding(crate::specs::Parts::body_of))]
pub(crate) fn body_of(state: u32) -> Body
    ensures { result ≡ body_of state }
{
    match state / 65536 % 4 {
        0 => Body::Add,
        1 => Body::Subtract,
        2 => Body::Minus,
        _ => Body::Assign,
    }
}

/// Variables as arguments.
fn arguments<H: Heap>(heap: H, variables: &[Variable]) -> Result<Vec<Arg>, Memory>
    ensures { IfOkUnless (H.may_refuse heap) result (λ args. map arg_of args.items ≡ map argument variables.now) }
{
    let mut args = Vec::new(heap.handle());
    for variable in variables {
        heap.push(
            &mut args,
            Arg::Variable(Named::unplaced(heap, variable.name())?),
        )?;
    }
    Ok(args)
}

/// A statement of a predefined procedure.
fn predef<H: Heap>(heap: H, which: Predef, variables: &[Variable]) -> Result<Stmt, Memory>
    ensures { IfOkUnless (H.may_refuse heap) result
        (λ statement. stmt_of statement ≡ new_predef 0 which (map argument variables.now)) }
{
    Ok(Stmt::Predef {
        place: 0,
        which,
        args: arguments(heap, variables)?,
    })
}

/// Statements in turn.
pub(crate) fn sequence(parts: Vec<Stmt>) -> Stmt
    ensures { stmt_of result ≡ new_seq 0 (map stmt_of parts.items) }
{
    Stmt::Seq { place: 0, parts }
}

/// The no-op, and then a statement.
fn after_no_op<H: Heap>(heap: H, statement: Stmt) -> Result<Stmt, Memory>
    ensures { IfOkUnless (H.may_refuse heap) result
        (λ made. stmt_of made ≡ new_seq 0 (no_op 0 ∷ stmt_of statement ∷ [])) }
{
    let mut parts = Vec::new(heap.handle());
    heap.push(&mut parts, Stmt::NoOp { place: 0 })?;
    heap.push(&mut parts, statement)?;
    Ok(sequence(parts))
}

/// The statement that a body is.
pub(crate) fn statement<H: Heap>(heap: H, kind: Body) -> Result<Stmt, Memory>
    ensures { IfOkUnless (H.may_refuse heap) result (λ statement. stmt_of statement ≡ body kind) }
{
    match kind {
        Body::Add => predef(
            heap,
            Predef::MgIntegerAdd,
            &[Variable::X, Variable::X, Variable::C],
        ),
        Body::Subtract => predef(
            heap,
            Predef::MgIntegerSubtract,
            &[Variable::X, Variable::X, Variable::C],
        ),
        Body::Minus => predef(
            heap,
            Predef::MgIntegerUnaryMinus,
            &[Variable::X, Variable::X],
        ),
        Body::Assign => {
            let assigned = predef(
                heap,
                Predef::MgSimpleVariableAssignment,
                &[Variable::X, Variable::C],
            )?;
            after_no_op(heap, assigned)
        }
    }
}

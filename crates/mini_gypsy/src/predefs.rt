//! Calls of predefined procedures.

ghost use Rattle.std.specs.Prelude.{◌≡◌, [], ◌∷◌};
ghost use Rattle.stack_heap.specs.Heaps.{IfOkUnless};
ghost use Rattle.gypsy_syntax.specs.{Made.{new_predef}, Sources.{constant, variable}, Views.SourceView.{literal_of, stmt_of}};

use gypsy_syntax::{Arg, Literal, Predef, Stmt};
use stack_heap::Heap;
use stack_text::{Memory, Named};

/// A call on a variable and a literal.
pub(crate) fn call_constant<H: Heap>(
    heap: H,
    which: Predef,
    to: Named,
    literal: Literal,
) -> Result<Stmt, Memory>
    ensures { IfOkUnless (H.may_refuse heap) result (λ made.
        stmt_of made ≡ new_predef 0 which (variable to ∷ constant (literal_of literal) ∷ [])) }
{
    let mut args = Vec::new(heap.handle());
    heap.push(&mut args, Arg::Variable(to))?;
    heap.push(&mut args, Arg::Constant(literal))?;
    Ok(Stmt::Predef {
        place: 0,
        which,
        args,
    })
}

/// A call on two variables.
pub(crate) fn call_two<H: Heap>(
    heap: H,
    which: Predef,
    to: Named,
    from: Named,
) -> Result<Stmt, Memory>
    ensures { IfOkUnless (H.may_refuse heap) result
        (λ made. stmt_of made ≡ new_predef 0 which (variable to ∷ variable from ∷ [])) }
{
    let mut args = Vec::new(heap.handle());
    heap.push(&mut args, Arg::Variable(to))?;
    heap.push(&mut args, Arg::Variable(from))?;
    Ok(Stmt::Predef {
        place: 0,
        which,
        args,
    })
}

/// A call on three variables.
pub(crate) fn call_three<H: Heap>(
    heap: H,
    which: Predef,
    to: Named,
    left: Named,
    right: Named,
) -> Result<Stmt, Memory>
    ensures { IfOkUnless (H.may_refuse heap) result (λ made.
        stmt_of made ≡ new_predef 0 which (variable to ∷ variable left ∷ variable right ∷ [])) }
{
    let mut args = Vec::new(heap.handle());
    heap.push(&mut args, Arg::Variable(to))?;
    heap.push(&mut args, Arg::Variable(left))?;
    heap.push(&mut args, Arg::Variable(right))?;
    Ok(Stmt::Predef {
        place: 0,
        which,
        args,
    })
}

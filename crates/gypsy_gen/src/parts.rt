//! Names and declarations.

ghost use Rattle.std.specs.Prelude.{◌≡◌, map, [], ◌∷◌};
ghost use Rattle.stack_heap.specs.Heaps.{IfOkUnless};
ghost use Rattle.gypsy_syntax.specs.{Made.{new_decl, new_simple}, Views.SourceView.{local_of, stmt_of}};
ghost use Rattle.stack_text.specs.Grammar.Printed.{unplaced};
ghost use Rattle.gypsy_gen.specs.Parts.{name_of, procedure_name, formal, local, call_of};

use gypsy_syntax::{Decl, Literal, Local, Stmt, TypeText};
use itoa::Buffer;
use stack_heap::Heap;
use stack_text::{Kind, Memory, Named};

/// A variable of a procedure: its formal `x` or its local `c`.
#[derive(Clone, Copy, Debug, PartialEq, Eq)]
pub(crate) enum Variable {
    X,
    C,
}

impl Variable {
    ghost use Rattle.std.specs.Prelude.{◌≡◌, IsTrue};
    ghost use Rattle.stack_text.specs.Names.{is_name};
    ghost use Rattle.gypsy_gen.specs.Parts.{name_of};

    pub(crate) fn name(self) -> &'static [u8]
        ensures name { result.now ≡ name_of self }
        ensures is_name { IsTrue (is_name result.now) }
    {
        match self {
            Variable::X => b"x".as_slice(),
            Variable::C => b"c".as_slice(),
        }
    }
}

/// The name of a procedure.
#[tactic(auto, using(crate::proofs::NameLaws::procedure_named))]
pub(crate) fn procedure_name<H: Heap>(heap: H, index: u32) -> Result<Named, Memory>
    ensures { IfOkUnless (H.may_refuse heap) result (λ n. n ≡ unplaced (procedure_name index)) }
{
    let mut digits = Buffer::new();
    let mut name = heap.copied(b"p".as_slice())?;
    heap.extend_from_slice(&mut name, digits.format(index).as_bytes())?;
    Named::unplaced(heap, name.as_slice())
}

/// A variable that is an integer.
fn declared<H: Heap>(heap: H, variable: Variable) -> Result<Decl, Memory>
    ensures { IfOkUnless (H.may_refuse heap) result
        (λ d. d ≡ new_decl (unplaced (name_of variable)) (new_simple 0 Kind.Integer)) }
{
    Ok(Decl {
        name: Named::unplaced(heap, variable.name())?,
        shape: TypeText {
            place: 0,
            kind: Kind::Integer,
            length: None,
        },
    })
}

/// The formals of each procedure.
pub(crate) fn formals<H: Heap>(heap: H) -> Result<Vec<Decl>, Memory>
    ensures { IfOkUnless (H.may_refuse heap) result (λ formals. formals.items ≡ formal ∷ []) }
{
    let mut formals = Vec::new(heap.handle());
    heap.push(&mut formals, declared(heap, Variable::X)?)?;
    Ok(formals)
}

/// The local with this value.
pub(crate) fn locals<H: Heap>(heap: H, number: u32) -> Result<Vec<Local>, Memory>
    ensures { IfOkUnless (H.may_refuse heap) result (λ locals. map local_of locals.items ≡ local number ∷ []) }
{
    let mut locals = Vec::new(heap.handle());
    let decl = declared(heap, Variable::C)?;
    let value = Literal::Integer {
        place: 0,
        number: i128::from(number),
    };
    heap.push(&mut locals, Local { decl, value })?;
    Ok(locals)
}

/// The call of a procedure.
pub(crate) fn call<H: Heap>(heap: H, index: u32) -> Result<Stmt, Memory>
    ensures { IfOkUnless (H.may_refuse heap) result (λ statement. stmt_of statement ≡ call_of index) }
{
    let callee = procedure_name(heap, index)?;
    let mut actuals = Vec::new(heap.handle());
    heap.push(&mut actuals, Named::unplaced(heap, Variable::X.name())?)?;
    Ok(Stmt::Call {
        place: 0,
        callee,
        actuals_place: 0,
        actuals,
        conds_place: 0,
        conds: Vec::new(heap.handle()),
    })
}

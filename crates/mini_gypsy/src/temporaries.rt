//! The names and declarations of variables: the declared ones, and the temporaries.

ghost use Rattle.std.specs.Prelude.{◌≡◌, ◌++◌, ◌<◌, length, map};
ghost use Rattle.stack_heap.specs.Heaps.{IfOkUnless, OnOkUnless};
ghost use Rattle.stack_text.specs.Grammar.Printed.{unplaced};
ghost use Rattle.gypsy_syntax.specs.{Made.{new_decl, new_simple}, Views.SourceView.{local_of}};
ghost use Rattle.mini_gypsy.specs.Lowered.{decl_of, kind_of, locals_from, temporaries, temporary_local, temporary_name};
ghost use Rattle.mini_syntax.specs.{Lawful.{nth_name}, Sorted.{depths}};

use crate::rows::{kind_of, letter_of};
use gypsy_syntax::{Decl, Literal, Local, TypeText};
use mini_syntax::{Declared, Sort};
use stack_heap::Heap;
use stack_text::{Memory, Named};

/// How deep an expression goes.
const DEPTHS: u32 = 41;

/// The name of a sort's temporary at a depth.
#[tactic(auto, using(crate::proofs::NameLaws::temporary_is_name))]
pub(crate) fn temporary<H: Heap>(heap: H, sort: Sort, depth: u32) -> Result<Named, Memory>
    requires { depth < depths }
    ensures { IfOkUnless (H.may_refuse heap) result (λ named. named ≡ unplaced (temporary_name sort depth)) }
{
    let tens = b'0' + (depth / 10) as u8;
    let ones = b'0' + (depth % 10) as u8;
    let name = [letter_of(sort), b'$', tens, ones];
    Named::unplaced(heap, name.as_slice())
}

/// The name of a declared variable.
pub(crate) fn variable<H: Heap>(heap: H, declared: &[Declared], index: u32) -> Result<Named, Memory>
    requires { index < length declared.now }
    ensures { IfOkUnless (H.may_refuse heap) result
        (λ named. named ≡ unplaced (nth_name (map (λ d. d.name) declared.now) index)) }
{
    match declared.get(index as usize) {
        Some(variable) => variable.name.unplaced(heap),
        None => unreachable!(),
    }
}

/// The declaration of a variable of a sort.
fn declaration(name: Named, sort: Sort) -> Decl
    ensures { result ≡ new_decl name (new_simple 0 (kind_of sort)) }
{
    let shape = TypeText {
        place: 0,
        kind: kind_of(sort),
        length: None,
    };
    Decl { name, shape }
}

/// The declaration of a temporary.
fn temporary_local<H: Heap>(heap: H, sort: Sort, depth: u32) -> Result<Local, Memory>
    requires { depth < depths }
    ensures { IfOkUnless (H.may_refuse heap) result (λ local. local_of local ≡ temporary_local sort depth) }
{
    let decl = declaration(temporary(heap, sort, depth)?, sort);
    match sort {
        Sort::Int => Ok(Local {
            decl,
            value: Literal::Integer {
                place: 0,
                number: 0,
            },
        }),
        Sort::Bool => Ok(Local {
            decl,
            value: Literal::Truth {
                place: 0,
                truth: false,
            },
        }),
    }
}

/// Appends the temporaries of a sort.
fn append_locals<H: Heap>(heap: H, locals: &mut Vec<Local>, sort: Sort) -> Result<(), Memory>
    ensures { OnOkUnless (H.may_refuse heap) result
        (map local_of locals.new.items ≡ map local_of locals.old.items ++ locals_from sort 0 depths) }
{
    for depth in 0..DEPTHS {
        heap.push(locals, temporary_local(heap, sort, depth)?)?;
    }
    Ok(())
}

/// All temporaries.
#[tactic(auto, unfolding(crate::specs::Lowered::temporaries))]
pub(crate) fn temporaries<H: Heap>(heap: H) -> Result<Vec<Local>, Memory>
    ensures { IfOkUnless (H.may_refuse heap) result (λ locals. map local_of locals.items ≡ temporaries) }
{
    let mut locals = Vec::new(heap.handle());
    append_locals(heap, &mut locals, Sort::Int)?;
    append_locals(heap, &mut locals, Sort::Bool)?;
    Ok(locals)
}

/// The declared variables.
pub(crate) fn formals<H: Heap>(heap: H, declared: &[Declared]) -> Result<Vec<Decl>, Memory>
    ensures { IfOkUnless (H.may_refuse heap) result
        (λ formals. formals.items ≡ map (λ d. decl_of d.name d.sort) declared.now) }
{
    let mut formals = Vec::new(heap.handle());
    for variable in declared {
        let name = variable.name.unplaced(heap)?;
        heap.push(&mut formals, declaration(name, variable.sort))?;
    }
    Ok(formals)
}

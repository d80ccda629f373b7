//! A large source.

ghost use Rattle.std.specs.Prelude.{◌≡◌, ◌≤◌, ◌*◌, ◌+◌, ◌-◌, ◌%◌, IfOk, map, [], ◌∷◌};
ghost use Rattle.stack_heap.specs.Heaps.{IfOkUnless};
ghost use Rattle.gypsy_syntax.specs.{GypsyReading.{KeepsForm}, Views.SourceView.{proc_of, source_of, stmt_of}};
ghost use Rattle.gypsy_check.specs.Rules.{violations};
ghost use Rattle.gypsy_gen.specs.Large.{next_state, procedure, calls_from, main_procedure, procedures_from, large_of};

use crate::body::{body_of, sequence, statement};
use crate::parts::{call, formals, locals, procedure_name};
use gypsy_syntax::{Proc, Source, Stmt, plain_form};
use stack_heap::Heap;
use stack_text::{Memory, Named};

/// The state of the generator after this one.
#[tactic(auto, unfolding(crate::specs::Large::next_state))]
fn next_state(state: u32) -> u32
    ensures { result ≡ next_state state }
{
    ((1_664_525 * u64::from(state) + 1_013_904_223) % (1 << 32)) as u32
}

/// A procedure, by its number and the state of the generator.
fn procedure<H: Heap>(heap: H, index: u32, state: u32) -> Result<Proc, Memory>
    ensures { IfOkUnless (H.may_refuse heap) result (λ made. proc_of made ≡ procedure index state) }
{
    Ok(Proc {
        place: 0,
        name: procedure_name(heap, index)?,
        formals: formals(heap)?,
        conds: Vec::new(heap.handle()),
        locals: locals(heap, state % 1000)?,
        local_conds: Vec::new(heap.handle()),
        body: statement(heap, body_of(state))?,
    })
}

/// The calls of procedures, in turn.
fn calls<H: Heap>(heap: H, size: u32) -> Result<Vec<Stmt>, Memory>
    requires { size ≤ 900 }
    ensures { IfOkUnless (H.may_refuse heap) result (λ parts. map stmt_of parts.items ≡ calls_from 1 size) }
{
    let mut parts = Vec::new(heap.handle());
    for index in 1..size + 1 {
        heap.push(&mut parts, call(heap, index)?)?;
    }
    Ok(parts)
}

/// The main procedure.
fn main_procedure<H: Heap>(heap: H, size: u32) -> Result<Proc, Memory>
    requires { size ≤ 900 }
    ensures { IfOkUnless (H.may_refuse heap) result (λ made. proc_of made ≡ main_procedure size) }
{
    Ok(Proc {
        place: 0,
        name: Named::unplaced(heap, b"main".as_slice())?,
        formals: formals(heap)?,
        conds: Vec::new(heap.handle()),
        locals: Vec::new(heap.handle()),
        local_conds: Vec::new(heap.handle()),
        body: sequence(calls(heap, size)?),
    })
}

/// The main procedure and all others.
fn procedures<H: Heap>(heap: H, number: u32, size: u32) -> Result<Vec<Proc>, Memory>
    requires { size ≤ 900 }
    ensures { IfOkUnless (H.may_refuse heap) result
        (λ procs. map proc_of procs.items ≡ main_procedure size ∷ procedures_from 1 number size) }
{
    let mut procs = Vec::new(heap.handle());
    heap.push(&mut procs, main_procedure(heap, size)?)?;
    let mut state = number;
    for index in 1..size + 1 {
        state = next_state(state);
        heap.push(&mut procs, procedure(heap, index, state)?)?;
    }
    Ok(procs)
}

/// A source with a main procedure that calls `size` procedures in turn, each with its variable. What each does with it
/// depends on the number.
///
/// It keeps the form and breaks no static rule. The size is 1 to 900. The only error is out of memory.
pub fn large<H: Heap>(heap: H, number: u32, size: u32) -> Result<Source, Memory>
    requires low { 1 ≤ size }
    requires high { size ≤ 900 }
    ensures source { IfOkUnless (H.may_refuse heap) result (λ source. source_of source ≡ large_of number size) }
    ensures form { IfOk result (λ source. KeepsForm (source_of source)) }
    ensures rules { IfOk result (λ source. violations (source_of source) ≡ []) }
{
    plain_form();
    Ok(Source {
        place: 0,
        main: Named::unplaced(heap, b"main".as_slice())?,
        procs: procedures(heap, number, size)?,
    })
}

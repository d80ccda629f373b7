//! The start of a run.

ghost use Rattle.std.specs.Prelude.{◌≡◌, ◌+◌, ◌++◌, ◌<◌, ◌≤◌, [], IfOk, length, map, take};
ghost use Rattle.stack_heap.specs.Heaps.{IfOkUnless};
ghost use Rattle.gypsy_syntax.specs.Programs.{body_of, proc_at, words_of};
ghost use Rattle.gypsy_space.specs.Nodes.{held_names, held_values, seen_program, seen_statement};
ghost use Rattle.gypsy_semantics.specs.{Calls.{main_start}, Machine.{open_on}};
ghost use Rattle.gypsy_meaning.specs.{Views.Named.{variables_of}, Views.Work.{work_of}};

use crate::calling::Start;
use crate::copying::{append_locals, named_copy};
use crate::names::Names;
use crate::pending::Work;
use gypsy_space::{Node, Program};
use stack_heap::Heap;
use stack_text::{Memory, Name, Value};
use std::rc::Rc;

/// A copy of values.
pub fn copied<H: Heap>(heap: H, values: &[Value]) -> Result<Vec<Value>, Memory>
    ensures { IfOkUnless (H.may_refuse heap) result (λ r. r.items ≡ values.now) }
{
    let mut copies = Vec::new(heap.handle());
    for value in values {
        heap.push(&mut copies, value.copied(heap)?)?;
    }
    Ok(copies)
}

/// Copies of values, under the first names.
fn formals<H: Heap>(heap: H, names: &[Name], values: &[Value]) -> Result<Vec<(Name, Value)>, Memory>
    requires { length values.now ≤ length names.now }
    ensures values { IfOkUnless (H.may_refuse heap) result (λ r. held_values r.items ≡ values.now) }
    ensures names { IfOk result (λ r. held_names r.items ≡ take (length values.now) names.now) }
{
    let mut formals = Vec::new(heap.handle());
    for (place, value) in values.iter().enumerate() {
        match names.get(place) {
            Some(name) => heap.push(&mut formals, named_copy(heap, name, value)?)?,
            None => unreachable!(),
        }
    }
    Ok(formals)
}

/// Main's variables at the start.
fn variables<H: Heap>(
    heap: H,
    names: &[Name],
    values: &[Value],
    locals: &[(Name, Value)],
) -> Result<Vec<(Name, Value)>, Memory>
    requires { length names.now ≡ length values.now + length locals.now }
    ensures values { IfOkUnless (H.may_refuse heap) result
        (λ r. held_values r.items ≡ values.now ++ held_values locals.now) }
    ensures names { IfOk result (λ r. held_names r.items ≡ names.now) }
{
    let mut all = formals(heap, names, values)?;
    append_locals(heap, &mut all, &names[values.len()..], locals)?;
    Ok(all)
}

/// The names of a procedure's variables.
pub fn names_at(names: &[Names], procedure: u32) -> &[Name]
    requires { procedure < length names.now }
    ensures { result.now ≡ variables_of names.now procedure }
{
    names[procedure as usize].variables.as_slice()
}

/// The locals of a procedure, with their initial values.
pub fn locals_at(program: &Program, procedure: u32) -> &[(Name, Value)]
    requires { procedure < length program.now.procedures.items }
    ensures { held_values result.now ≡ (proc_at (seen_program program.now) procedure).locals }
{
    program.procedures[procedure as usize].locals.as_slice()
}

/// The body of a procedure.
pub fn body_at(program: &Program, procedure: u32) -> &Rc<Node>
    requires { procedure < length program.now.procedures.items }
    ensures { seen_statement result.now.value ≡ body_of (seen_program program.now) procedure }
{
    &program.procedures[procedure as usize].body
}

/// Main at its start, with these values of its formals, and its body to be done.
#[tactic(auto, unfolding(gypsy_semantics::specs::Calls::main_start))]
pub fn main_activation<H: Heap>(
    heap: H,
    program: &Program,
    names: &[Names],
    values: &[Value],
) -> Result<Start, Memory>
    requires main { program.now.main < length program.now.procedures.items }
    requires there { program.now.main < length names.now }
    requires sized { let main = proc_at (seen_program program.now) program.now.main in
        length (variables_of names.now program.now.main) ≡ length values.now + length main.locals }
    ensures variables { IfOkUnless (H.may_refuse heap) result (λ start. held_values start.variables.items
        ≡ main_start (seen_program program.now) values.now) }
    ensures names { IfOk result (λ start. held_names start.variables.items
        ≡ variables_of names.now program.now.main) }
    ensures work { IfOk result (λ start. work_of start.work
        ≡ open_on (body_of (seen_program program.now) program.now.main) []) }
{
    let main = program.main;
    let variables = variables(
        heap,
        names_at(names, main),
        values,
        locals_at(program, main),
    )?;
    let work = Work::begun(heap, body_at(program, main))?;
    Ok(Start { variables, work })
}

/// The words that variables take.
pub fn words(variables: &[(Name, Value)]) -> u64
    requires { words_of (map (λ v. v.shape) (held_values variables.now)) ≤ 65536 }
    ensures { result ≡ words_of (map (λ v. v.shape) (held_values variables.now)) }
{
    let mut words = 0;
    for (_, value) in variables {
        words += value.shape.item_count() as u64;
    }
    words
}

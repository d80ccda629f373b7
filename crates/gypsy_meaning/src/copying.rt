//! Variables that go into a call, and come back from it.

ghost use Rattle.std.specs.Prelude.{◌≡◌, ◌≤◌, ◌<◌, ◌+◌, ◌++◌, IfOk, OnOk, drop, length, map, slice_set};
ghost use Rattle.stack_heap.specs.Heaps.{IfOkUnless, OnOkUnless};
ghost use Rattle.gypsy_syntax.specs.Effects.{value_at};
ghost use Rattle.gypsy_space.specs.Nodes.{held_names, held_values};
ghost use Rattle.gypsy_meaning.specs.Internal.Entering.{AreLent};
ghost use Rattle.gypsy_semantics.specs.Calls.{copied_out};

use crate::effects::simple_value;
use crate::writing::write;
use stack_heap::Heap;
use stack_text::{Kind, Memory, Name, Value};
use std::mem;

/// Copies of a name and a value.
pub fn named_copy<H: Heap>(heap: H, name: &Name, value: &Value) -> Result<(Name, Value), Memory>
    ensures { IfOkUnless (H.may_refuse heap) result (λ v. v ≡ (name.now, value.now)) }
{
    Ok((name.copied(heap)?, value.copied(heap)?))
}

/// A variable with this name, before its value is moved into it.
fn unfilled<H: Heap>(heap: H, name: &Name) -> Result<(Name, Value), Memory>
    ensures { IfOkUnless (H.may_refuse heap) result (λ v. v.0 ≡ name.now) }
{
    Ok((name.copied(heap)?, simple_value(heap, Kind::Integer, 0)?))
}

/// Variables with these names, before their values are moved into them.
fn unfilled_all<H: Heap>(heap: H, names: &[Name]) -> Result<Vec<(Name, Value)>, Memory>
    ensures { IfOkUnless (H.may_refuse heap) result (λ r. held_names r.items ≡ names.now) }
{
    let mut all = Vec::new(heap.handle());
    for name in names {
        heap.push(&mut all, unfilled(heap, name)?)?;
    }
    Ok(all)
}

/// Appends locals with their initial values, under these names.
pub fn append_locals<H: Heap>(
    heap: H,
    all: &mut Vec<(Name, Value)>,
    names: &[Name],
    locals: &[(Name, Value)],
) -> Result<(), Memory>
    requires { length names.now ≡ length locals.now }
    ensures values { OnOkUnless (H.may_refuse heap) result (held_values all.new.items
        ≡ held_values all.old.items ++ held_values locals.now) }
    ensures names { OnOk result (held_names all.new.items ≡ held_names all.old.items ++ names.now) }
{
    for (place, name) in names.iter().enumerate() {
        match locals.get(place) {
            Some((_, value)) => heap.push(all, named_copy(heap, name, value)?)?,
            None => unreachable!(),
        }
    }
    Ok(())
}

/// The callee's variables under these names: so many formals, before the actuals are moved into them, and the locals with
/// their initial values.
pub fn callee_variables<H: Heap>(
    heap: H,
    names: &[Name],
    formals: usize,
    locals: &[(Name, Value)],
) -> Result<Vec<(Name, Value)>, Memory>
    requires { length names.now ≡ formals + length locals.now }
    ensures locals { IfOkUnless (H.may_refuse heap) result
        (λ r. drop formals (held_values r.items) ≡ held_values locals.now) }
    ensures names { IfOk result (λ r. held_names r.items ≡ names.now) }
{
    let mut all = unfilled_all(heap, &names[..formals])?;
    append_locals(heap, &mut all, &names[formals..], locals)?;
    Ok(all)
}

/// Exchanges the value of a caller's variable with that of a callee's.
fn exchange(
    caller: &mut Vec<(Name, Value)>,
    variable: u32,
    callee: &mut Vec<(Name, Value)>,
    place: usize,
)
    requires variable { variable < length caller.old.items }
    requires place { place < length callee.old.items }
    ensures caller { held_values caller.new.items
        ≡ slice_set (held_values caller.old.items) variable (value_at (held_values callee.old.items) place) }
    ensures caller_names { held_names caller.new.items ≡ held_names caller.old.items }
    ensures callee { held_values callee.new.items
        ≡ slice_set (held_values callee.old.items) place (value_at (held_values caller.old.items) variable) }
    ensures callee_names { held_names callee.new.items ≡ held_names callee.old.items }
{
    mem::swap(&mut caller[variable as usize].1, &mut callee[place].1);
}

/// Moves the actuals of a caller into the first variables of a callee; the caller gets what stood there.
pub fn lend(caller: &mut Vec<(Name, Value)>, actuals: &[u32], callee: &mut Vec<(Name, Value)>)
    requires few { length actuals.now ≤ length callee.old.items }
    requires lent { AreLent (length caller.old.items) actuals.now }
    ensures left { held_values caller.new.items
        ≡ copied_out actuals.now (held_values callee.old.items) (held_values caller.old.items) }
    ensures left_names { held_names caller.new.items ≡ held_names caller.old.items }
    ensures lent { held_values callee.new.items
        ≡ map (value_at (held_values caller.old.items)) actuals.now
        ++ drop (length actuals.now) (held_values callee.old.items) }
    ensures lent_names { held_names callee.new.items ≡ held_names callee.old.items }
{
    for (place, actual) in actuals.iter().enumerate() {
        exchange(caller, *actual, callee, place);
    }
}

/// Puts the values of a callee's formals back.
pub fn copy_out(variables: &mut Vec<(Name, Value)>, actuals: &[u32], values: Vec<(Name, Value)>)
    ensures values { held_values variables.new.items
        ≡ copied_out actuals.now (held_values values.items) (held_values variables.old.items) }
    ensures names { held_names variables.new.items ≡ held_names variables.old.items }
{
    let mut place: usize = 0;
    for value in values {
        if place < actuals.len() {
            write(variables, actuals[place], value.1);
            place += 1;
        }
    }
}

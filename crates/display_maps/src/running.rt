//! Conditions and variables of a run of a source as lines.

ghost use Rattle.std.specs.{Prelude.{◌≡◌, ◌++◌, map, None}, List.{flat_map}};
ghost use Rattle.stack_heap.specs.Heaps.{IfOkUnless, OnOkUnless};
ghost use Rattle.fm_words.specs.Word.{word_of_int};
ghost use Rattle.display_maps.specs.{Reading.{item_of, space_name}, Report.{variable_line}, Running.{condition_shown, variable_shown, variables_shown}};
ghost use Rattle.display_maps.specs.Running.{run_lines};

use crate::printing::{Variable, push_lines};
use crate::shown::{Shown, item_of};
use fm_words::word_of_int;
use gypsy_semantics::Current;
use stack_heap::Heap;
use stack_text::{Kind, Memory, Name, Named, Value};

/// The name of the condition that a call without room sets, which is the first of an image's names.
pub fn space_name<H: Heap>(heap: H) -> Result<Name, Memory>
    ensures { IfOkUnless (H.may_refuse heap) result (λ name. name ≡ space_name) }
{
    let Named { place: _, name } = Named::unplaced(heap, b"spaceerror".as_slice())?;
    Ok(name)
}

/// A condition as it is printed.
fn condition_shown<H: Heap>(heap: H, condition: &Current) -> Result<Shown, Memory>
    ensures { IfOkUnless (H.may_refuse heap) result (λ shown. shown ≡ condition_shown condition.now) }
{
    match condition {
        Current::Normal => Ok(Shown::Normal),
        Current::Routine => Ok(Shown::Routine),
        Current::Leave => Ok(Shown::Leave),
        Current::Space => Ok(Shown::Named(space_name(heap)?)),
        Current::Named(name) => Ok(Shown::Named(name.copied(heap)?)),
    }
}

/// Items of a kind as they are printed.
fn items_shown<H: Heap>(heap: H, kind: Kind, items: &[i32]) -> Result<Vec<Shown>, Memory>
    ensures { IfOkUnless (H.may_refuse heap) result
        (λ shown. shown.items ≡ map (λ item. item_of kind (word_of_int item)) items.now) }
{
    let mut shown = Vec::new(heap.handle());
    for item in items {
        heap.push(&mut shown, item_of(kind, word_of_int(*item)))?;
    }
    Ok(shown)
}

/// Appends the line of a variable.
fn push_variable<H: Heap>(
    heap: H,
    text: &mut Vec<u8>,
    name: &Name,
    value: &Value,
) -> Result<(), Memory>
    ensures { OnOkUnless (H.may_refuse heap) result
        (text.new.items ≡ text.old.items ++ variable_line (variable_shown name.now value.now)) }
{
    let items = items_shown(heap, value.shape.kind, value.items.as_slice())?;
    let variable = Variable {
        name,
        shape: value.shape,
        items: &items,
    };
    push_lines(heap, text, None, &[variable])
}

/// Appends a line for each variable of a run of a source: `NAME = VALUE`.
///
/// The only error is out of memory; no clause says what the text holds then.
#[tactic(auto, unfolding(crate::specs::Running::variables_shown))]
pub fn push_variables<H: Heap>(
    heap: H,
    text: &mut Vec<u8>,
    variables: &[(Name, Value)],
) -> Result<(), Memory>
    ensures { OnOkUnless (H.may_refuse heap) result (text.new.items ≡ text.old.items ++ flat_map variable_line
        (variables_shown (map (λ v. v.0) variables.now) (map (λ v. v.1) variables.now))) }
{
    for variable in variables {
        push_variable(heap, text, &variable.0, &variable.1)?;
    }
    Ok(())
}

/// Appends the lines of a run of a source: `condition` with its condition, and each variable as `NAME = VALUE`.
///
/// The only error is out of memory; no clause says what the text holds then.
pub fn push_run<H: Heap>(
    heap: H,
    text: &mut Vec<u8>,
    condition: &Current,
    variables: &[(Name, Value)],
) -> Result<(), Memory>
    ensures { OnOkUnless (H.may_refuse heap) result (text.new.items ≡ text.old.items
        ++ run_lines condition.now (map (λ v. v.0) variables.now) (map (λ v. v.1) variables.now)) }
{
    let shown = condition_shown(heap, condition)?;
    push_lines(heap, text, Some(&shown), &[])?;
    push_variables(heap, text, variables)
}

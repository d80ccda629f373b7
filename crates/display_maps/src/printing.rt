//! The report of a run.

ghost use Rattle.std.specs.{Prelude.{◌≡◌, ◌++◌, map}, Option.{option_copied}};
ghost use Rattle.stack_heap.specs.Heaps.{IfOkUnless, OnOkUnless};
ghost use Rattle.display_maps.specs.Report.{spaced, items_text, value_text, variable_line, condition_line, reading_lines, shaped, lines_of_reading};
ghost use Rattle.display_maps.specs.{Report.{report_text}, Variable.{variable_of_line}};

use crate::reading::Reading;
use crate::shown::{Shown, push};
use fm_image::{Image, Slot};
use fm_show::push_number;
use stack_heap::Heap;
use stack_text::{Memory, Name, Shape};

/// What the line of a variable says.
#[derive(Clone, Copy)]
pub(crate) struct Variable<'a> {
    pub name: &'a Name,
    /// An array's items are printed in parentheses.
    pub shape: Shape,
    pub items: &'a [Shown],
}

/// Appends each item with a space before it.
fn push_spaced<H: Heap>(heap: H, text: &mut Vec<u8>, items: &[Shown]) -> Result<(), Memory>
    ensures { OnOkUnless (H.may_refuse heap) result (text.new.items ≡ text.old.items ++ spaced items.now) }
{
    for item in items {
        push(heap, text, " ")?;
        item.push_text(heap, text)?;
    }
    Ok(())
}

/// Appends the items with spaces between.
#[tactic(auto, unfolding(crate::specs::Report::items_text))]
fn push_items<H: Heap>(heap: H, text: &mut Vec<u8>, items: &[Shown]) -> Result<(), Memory>
    ensures { OnOkUnless (H.may_refuse heap) result (text.new.items ≡ text.old.items ++ items_text items.now) }
{
    match items {
        [] => Ok(()),
        [first, others @ ..] => {
            first.push_text(heap, text)?;
            push_spaced(heap, text, others)
        }
    }
}

/// Appends the value of a variable: in parentheses for an array.
fn push_value<H: Heap>(
    heap: H,
    text: &mut Vec<u8>,
    shape: Shape,
    items: &[Shown],
) -> Result<(), Memory>
    ensures { OnOkUnless (H.may_refuse heap) result (text.new.items ≡ text.old.items ++ value_text shape items.now) }
{
    if shape.length == 0 {
        return push_items(heap, text, items);
    }
    push(heap, text, "(")?;
    push_items(heap, text, items)?;
    push(heap, text, ")")
}

/// Appends the line of a variable.
fn push_variable<H: Heap>(heap: H, text: &mut Vec<u8>, variable: &Variable) -> Result<(), Memory>
    ensures { OnOkUnless (H.may_refuse heap) result
        (text.new.items ≡ text.old.items ++ variable_line (variable_of_line variable.now)) }
{
    heap.extend_from_slice(text, variable.name.bytes())?;
    push(heap, text, " = ")?;
    push_value(heap, text, variable.shape, variable.items)?;
    push(heap, text, "\n")
}

/// Appends the line of a condition, where there is one.
fn push_condition<H: Heap>(
    heap: H,
    text: &mut Vec<u8>,
    condition: Option<&Shown>,
) -> Result<(), Memory>
    ensures { OnOkUnless (H.may_refuse heap) result
        (text.new.items ≡ text.old.items ++ condition_line (option_copied condition.entry)) }
{
    match condition {
        Some(condition) => {
            push(heap, text, "condition ")?;
            condition.push_text(heap, text)?;
            push(heap, text, "\n")
        }
        None => Ok(()),
    }
}

/// Appends the lines of a reading, each of which ends in LF: `condition` with the condition, where there is one, and
/// each variable as `NAME = VALUE`.
///
/// The only error is out of memory; no clause says what the text holds then.
pub(crate) fn push_lines<H: Heap>(
    heap: H,
    text: &mut Vec<u8>,
    condition: Option<&Shown>,
    variables: &[Variable],
) -> Result<(), Memory>
    ensures { OnOkUnless (H.may_refuse heap) result (text.new.items
        ≡ text.old.items ++ reading_lines (option_copied condition.entry) (map variable_of_line variables.now)) }
{
    push_condition(heap, text, condition)?;
    for variable in variables {
        push_variable(heap, text, variable)?;
    }
    Ok(())
}

/// The variables of a reading, each with the shape of its slot.
#[tactic(auto, unfolding(crate::specs::Report::shaped))]
fn shaped<'a, H: Heap>(
    heap: H,
    slots: &[Slot],
    read: &'a [(Name, Vec<Shown>)],
) -> Result<Vec<Variable<'a>>, Memory>
    ensures { IfOkUnless (H.may_refuse heap) result (λ variables. map variable_of_line variables.items
        ≡ shaped slots.now (map (λ item. (item.0, item.1.items)) read.now)) }
{
    let mut variables = Vec::new(heap.handle());
    for (place, slot) in slots.iter().enumerate() {
        match read.get(place) {
            Some((name, items)) => {
                let variable = Variable {
                    name,
                    shape: slot.shape,
                    items,
                };
                heap.push(&mut variables, variable)?;
            }
            None => return Ok(variables),
        }
    }
    Ok(variables)
}

/// Appends the lines of a reading of an image: `condition` with the condition, where the image has a condition word, and
/// a line for each variable.
///
/// The reading is one of the image: it has the image's slots in order, each with its number of items, and a condition
/// exactly where the image has a condition word. The only error is out of memory.
pub fn push_reading<H: Heap>(
    heap: H,
    text: &mut Vec<u8>,
    image: &Image,
    reading: &Reading,
) -> Result<(), Memory>
    ensures { OnOkUnless (H.may_refuse heap) result
        (text.new.items ≡ text.old.items ++ lines_of_reading image.now reading.now) }
{
    let variables = shaped(heap, &image.slots, &reading.items)?;
    push_lines(heap, text, reading.condition.as_ref(), &variables)
}

/// The report of a run that finished after so many instructions: the count, and the lines of a reading of its image, as
/// `push_reading` has them.
pub fn report<H: Heap>(
    heap: H,
    image: &Image,
    reading: &Reading,
    count: u64,
) -> Result<Vec<u8>, Memory>
    ensures { IfOkUnless (H.may_refuse heap) result (λ text. text.items ≡ report_text image.now reading.now count) }
{
    let mut text = heap.copied(b"finished ")?;
    push_number(heap, &mut text, count)?;
    push(heap, &mut text, "\n")?;
    push_reading(heap, &mut text, image, reading)?;
    Ok(text)
}

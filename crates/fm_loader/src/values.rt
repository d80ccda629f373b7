//! Reading the values of an image's variables.

ghost use Rattle.std.specs.Prelude.{◌≤◌, ◌^◌, length, IfOk};
ghost use Rattle.stack_text.specs.Views.TreeView.{node_of};
ghost use Rattle.fm_loader.specs.{Rules.{GivesValuesUnless}, Loaded.{Fits}, Values.{values_at, values_in, HaveOwnNames}};

use crate::fault::{Rule, ValuesFault, refused};
use crate::judging::{all_found, found};
use crate::reading::entries;
use fm_image::{Image, Slot};
use stack_heap::Heap;
use stack_text::{TextFault, TextTree, Value, read_text_tree};

/// The values that a tree gives the slots.
#[tactic(auto, unfolding(crate::specs::Values::values_at))]
fn values<H: Heap>(heap: H, tree: &TextTree, slots: &[Slot]) -> Result<Vec<Value>, ValuesFault>
    requires { HaveOwnNames slots.now }
    ensures { GivesValuesUnless (H.may_refuse heap) (λ values. values.items) result
        (values_at slots.now (node_of tree.now)) }
{
    match tree {
        TextTree::Atom { place, text: _ } => Err(refused(Rule::Form, *place)),
        TextTree::List { place, items } => {
            let entries = entries(heap, items)?;
            let found = found(heap, slots, &entries)?;
            all_found(heap, *place, found)
        }
    }
}

/// The values that a text of at most 2^31 bytes gives the slots, in the order of the slots, whose names differ.
///
/// The time is linear in the text and the slots.
///
/// # Errors
///
/// The rule that the text breaks, with its place, as `ValuesFault` lists them; or out of memory.
#[tactic(auto, unfolding(crate::specs::Values::values_in))]
pub fn read_values<H: Heap>(heap: H, text: &[u8], slots: &[Slot]) -> Result<Vec<Value>, ValuesFault>
    requires text { length text.now ≤ 2 ^ 31 }
    requires names { HaveOwnNames slots.now }
    // What is read is what the text gives the slots, and an error is the rule that the text breaks.
    ensures value { GivesValuesUnless (H.may_refuse heap) (λ values. values.items) result
        (values_in slots.now text.now) }
    // A value of its shape for each slot.
    ensures fits { IfOk result (λ values. Fits slots.now values.items) }
{
    match read_text_tree(heap, text) {
        Ok(tree) => values(heap, &tree, slots),
        Err(TextFault::Fault { rule: _, place }) => Err(refused(Rule::Form, place)),
        Err(TextFault::Memory) => Err(ValuesFault::Memory),
    }
}

/// The values that a text of at most 2^31 bytes gives the slots of an image, in the order of the slots.
///
/// It is `read_values` of the image's slots, whose names always differ.
///
/// # Errors
///
/// As those of `read_values`.
pub fn read_image_values<H: Heap>(
    heap: H,
    text: &[u8],
    image: &Image,
) -> Result<Vec<Value>, ValuesFault>
    requires { length text.now ≤ 2 ^ 31 }
    ensures value { GivesValuesUnless (H.may_refuse heap) (λ values. values.items) result
        (values_in image.now.slots text.now) }
    ensures fits { IfOk result (λ values. Fits image.now.slots values.items) }
{
    read_values(heap, text, &image.slots)
}

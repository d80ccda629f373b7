//! Instructions.

ghost use Rattle.std.specs.{Prelude.{◌≡◌, Ok, None, Some, codes}, Str.{bytes_eq}};
ghost use Rattle.stack_text.specs.{Grammar.Judged.{◌⊛◌}, Grammar.Reading.{ReadsUnless}, Trees.{list, none, more}, Views.TreeView.{node_of, nodes_of}};
ghost use Rattle.piton_syntax.specs.{Grammar.{called_of, instruction_of, labelled_of, named_of}, Operations.{operation_named}};

use crate::op::operation_named;
use crate::reading::argument::arguments;
use crate::reading::atom::name;
use crate::system::InstrText;
use stack_heap::Heap;
use stack_text::grammar::{FormFault, Part};
use stack_text::{Breach, TextTree};

/// P6 at an instruction.
fn no_instruction(place: u32) -> Breach
    ensures { result ≡ record { rule = 6; place = place } }
{
    Breach { rule: 6, place }
}

/// An operation's list without a label, of which the operation's word and the trees of its arguments are given.
fn unlabelled<H: Heap>(
    heap: H,
    place: u32,
    operation: &[u8],
    trees: &[TextTree],
) -> Result<InstrText, FormFault>
    ensures { ReadsUnless (H.may_refuse heap) (λ instruction. instruction) result
        (called_of place (Ok None) (operation_named operation.now) place (nodes_of trees.now)) }
{
    match operation_named(operation) {
        None => Err(no_instruction(place).into()),
        Some(op) => {
            let args = arguments(heap, op.arguments(), place, trees)?;
            Ok(InstrText {
                place,
                label: None,
                op,
                args,
            })
        }
    }
}

/// An operation's list after a label, of which the place, the operation's word and the trees of its arguments are given.
fn called_at<H: Heap>(
    heap: H,
    place: u32,
    label: &TextTree,
    list_place: u32,
    operation: &[u8],
    trees: &[TextTree],
) -> Result<InstrText, FormFault>
    ensures { let label = Ok Some ⊛ named_of (node_of label.now) in
        ReadsUnless (H.may_refuse heap) (λ instruction. instruction) result
        (called_of place label (operation_named operation.now) list_place (nodes_of trees.now)) }
{
    match operation_named(operation) {
        None => Err(no_instruction(place).into()),
        Some(op) => {
            let label = name(heap, label)?;
            let args = arguments(heap, op.arguments(), list_place, trees)?;
            Ok(InstrText {
                place,
                label: Some(label),
                op,
                args,
            })
        }
    }
}

/// The items of an operation's list, after a label and an empty list.
fn called_items<H: Heap>(
    heap: H,
    place: u32,
    label: &TextTree,
    list_place: u32,
    items: &[TextTree],
) -> Result<InstrText, FormFault>
    ensures { let call = list list_place (nodes_of items.now) in
        ReadsUnless (H.may_refuse heap) (λ instruction. instruction) result
        (labelled_of place (more (node_of label.now) (more (list 0 none) (more call none)))) }
{
    if items.is_empty() {
        return Err(no_instruction(place).into());
    }
    match &items[0] {
        TextTree::List { place: _, items: _ } => Err(no_instruction(place).into()),
        TextTree::Atom { place: _, text } => {
            called_at(heap, place, label, list_place, text, &items[1..])
        }
    }
}

/// An operation's list after a label and an empty list.
fn called<H: Heap>(
    heap: H,
    place: u32,
    label: &TextTree,
    call: &TextTree,
) -> Result<InstrText, FormFault>
    ensures { ReadsUnless (H.may_refuse heap) (λ instruction. instruction) result
        (labelled_of place (more (node_of label.now) (more (list 0 none) (more (node_of call.now) none)))) }
{
    match call {
        TextTree::Atom { place: _, text: _ } => Err(no_instruction(place).into()),
        TextTree::List { place: at, items } => called_items(heap, place, label, *at, items),
    }
}

/// What follows `dl`.
fn labelled<H: Heap>(heap: H, place: u32, parts: &[TextTree]) -> Result<InstrText, FormFault>
    ensures { ReadsUnless (H.may_refuse heap) (λ instruction. instruction) result
        (labelled_of place (nodes_of parts.now)) }
{
    if parts.len() != 3 {
        return Err(no_instruction(place).into());
    }
    match &parts[1] {
        TextTree::Atom { place: _, text: _ } => Err(no_instruction(place).into()),
        TextTree::List { place: _, items } => {
            if items.is_empty() {
                called(heap, place, &parts[0], &parts[2])
            } else {
                Err(no_instruction(place).into())
            }
        }
    }
}

/// Whether the bytes are the word that stands before a label.
fn is_label_word(bytes: &[u8]) -> bool
    ensures { result ≡ bytes_eq bytes.now (codes "dl") }
{
    bytes == b"dl".as_slice()
}

/// The instruction that the items of a list are.
fn instruction_at<H: Heap>(heap: H, place: u32, items: &[TextTree]) -> Result<InstrText, FormFault>
    ensures { ReadsUnless (H.may_refuse heap) (λ instruction. instruction) result
        (instruction_of (list place (nodes_of items.now))) }
{
    if items.is_empty() {
        return Err(no_instruction(place).into());
    }
    match &items[0] {
        TextTree::List { place: _, items: _ } => Err(no_instruction(place).into()),
        TextTree::Atom { place: _, text } => {
            let word = *text;
            if is_label_word(word) {
                labelled(heap, place, &items[1..])
            } else {
                unlabelled(heap, place, word, &items[1..])
            }
        }
    }
}

/// The instruction that a tree is: P6 where it is none, P4 where its label is no name.
fn instruction<H: Heap>(heap: H, tree: &TextTree) -> Result<InstrText, FormFault>
    ensures { ReadsUnless (H.may_refuse heap) (λ instruction. instruction) result (instruction_of (node_of tree.now)) }
{
    match tree {
        TextTree::Atom { place, text: _ } => Err(no_instruction(*place).into()),
        TextTree::List { place, items } => instruction_at(heap, *place, items),
    }
}

impl Part for InstrText {
    ghost use Rattle.piton_syntax.specs.{Grammar.{instruction_of}, Systems.{InstrOf}};

    ghost Seen = { InstrOf };

    ghost view = { λ instruction. instruction };

    ghost part_of = { instruction_of };

    fn read<H: Heap>(heap: H, tree: &TextTree) -> Result<InstrText, FormFault> {
        instruction(heap, tree)
    }
}

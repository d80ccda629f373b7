//! Words.

ghost use Rattle.std.specs.Prelude.{◌≡◌, ◌&&◌, if◌then◌else◌, Some};
ghost use Rattle.stack_text.specs.{Names.{is_name}, Numerals.{is_digits, is_numeral}, Grammar.Parts.{is_atom_of}, Grammar.Reading.{Finds, ReadsUnless}};
ghost use Rattle.stack_text.specs.{Trees.{list}, Views.TreeView.{node_of, nodes_of}, declared.name.Named.{Named as NameOf}};
ghost use Rattle.piton_syntax.specs.Grammar.{is_true_word, is_false_word, item_of, named_number, one_number, word_of};
ghost use Rattle.piton_syntax.specs.{declared.word_text.Number.{Number as NumberOf}, declared.word_text.WordItem.{WordItem as ItemOf}};
ghost use Rattle.piton_syntax.specs.declared.tag.Tag.TheVariants as tags;

use crate::reading::atom::{is_digits_atom, is_name_atom, name, number};
use crate::tag::{Tag, tag_named};
use crate::word_text::{Number, WordItem, WordText};
use stack_heap::Heap;
use stack_text::grammar::{FormFault, Part, is_numeral_atom};
use stack_text::{Breach, Named, TextTree};

/// P5 at a word.
fn no_word(place: u32) -> Breach
    ensures { result ≡ record { rule = 5; place = place } }
{
    Breach { rule: 5, place }
}

/// Whether the tree is the word for true.
fn is_true_atom(tree: &TextTree) -> bool
    ensures { result ≡ is_atom_of is_true_word (node_of tree.now) }
{
    match tree {
        TextTree::Atom { place: _, text } => *text == b"t".as_slice(),
        TextTree::List { place: _, items: _ } => false,
    }
}

/// Whether the tree is the word for false.
fn is_false_atom(tree: &TextTree) -> bool
    ensures { result ≡ is_atom_of is_false_word (node_of tree.now) }
{
    match tree {
        TextTree::Atom { place: _, text } => *text == b"f".as_slice(),
        TextTree::List { place: _, items: _ } => false,
    }
}

/// Whether the tree is a numeral, which is in digits alone unless it may have a sign.
fn is_number_atom(tree: &TextTree, may_have_sign: bool) -> bool
    ensures { result ≡ is_atom_of (if may_have_sign then is_numeral else is_digits) (node_of tree.now) }
{
    if may_have_sign {
        is_numeral_atom(tree)
    } else {
        is_digits_atom(tree)
    }
}

/// The number that a word is after its tag: one numeral.
fn one_number(place: u32, parts: &[TextTree], may_have_sign: bool) -> Result<Number, Breach>
    ensures { (make : NumberOf → ItemOf) → Finds make result
        (one_number (if may_have_sign then is_numeral else is_digits) make place (nodes_of parts.now)) }
{
    if parts.len() != 1 {
        return Err(no_word(place));
    }
    let part = &parts[0];
    if !is_number_atom(part, may_have_sign) {
        return Err(no_word(place));
    }
    number(part)
}

/// A truth value: one of its two words.
fn bool_item(place: u32, parts: &[TextTree]) -> Result<WordItem, Breach>
    ensures { Finds (λ item. item) result (item_of (Some tags.Bool) place (nodes_of parts.now)) }
{
    if parts.len() != 1 {
        return Err(no_word(place));
    }
    let part = &parts[0];
    if !is_true_atom(part) && !is_false_atom(part) {
        return Err(no_word(place));
    }
    Ok(WordItem::Bool(is_true_atom(part)))
}

/// Whether the trees are a name, and a number in digits alone.
fn is_named_number(name: &TextTree, number: &TextTree) -> bool
    ensures { result ≡ (is_atom_of is_name (node_of name.now) && is_atom_of is_digits (node_of number.now)) }
{
    is_name_atom(name) && is_digits_atom(number)
}

/// What a word is after its tag: a name, and a number in digits alone.
fn named_number<H: Heap>(
    heap: H,
    place: u32,
    parts: &[TextTree],
) -> Result<(Named, Number), FormFault>
    ensures { (make : NameOf → NumberOf → ItemOf) → ReadsUnless (H.may_refuse heap) (λ pair. make pair.0 pair.1) result
        (named_number make place (nodes_of parts.now)) }
{
    if parts.len() != 2 {
        return Err(no_word(place).into());
    }
    let (named, numbered) = (&parts[0], &parts[1]);
    if !is_named_number(named, numbered) {
        return Err(no_word(place).into());
    }
    let name = name(heap, named)?;
    let number = number(numbered)?;
    Ok((name, number))
}

/// An address: the name of an area, and an offset.
fn addr_item<H: Heap>(heap: H, place: u32, parts: &[TextTree]) -> Result<WordItem, FormFault>
    ensures { ReadsUnless (H.may_refuse heap) (λ item. item) result
        (item_of (Some tags.Addr) place (nodes_of parts.now)) }
{
    let (area, offset) = named_number(heap, place, parts)?;
    Ok(WordItem::Addr { area, offset })
}

/// A place: the name of a program, and the number of an instruction.
fn pc_item<H: Heap>(heap: H, place: u32, parts: &[TextTree]) -> Result<WordItem, FormFault>
    ensures { ReadsUnless (H.may_refuse heap) (λ item. item) result
        (item_of (Some tags.Pc) place (nodes_of parts.now)) }
{
    let (program, at) = named_number(heap, place, parts)?;
    Ok(WordItem::Pc { program, at })
}

/// A program: its name.
fn subr_item<H: Heap>(heap: H, place: u32, parts: &[TextTree]) -> Result<WordItem, FormFault>
    ensures { ReadsUnless (H.may_refuse heap) (λ item. item) result
        (item_of (Some tags.Subr) place (nodes_of parts.now)) }
{
    if parts.len() != 1 {
        return Err(no_word(place).into());
    }
    let part = &parts[0];
    if !is_name_atom(part) {
        return Err(no_word(place).into());
    }
    Ok(WordItem::Subr(name(heap, part)?))
}

/// What follows a tag, which is `None` where its word is none.
fn item<H: Heap>(
    heap: H,
    tag: Option<Tag>,
    place: u32,
    parts: &[TextTree],
) -> Result<WordItem, FormFault>
    ensures { ReadsUnless (H.may_refuse heap) (λ item. item) result (item_of tag place (nodes_of parts.now)) }
{
    match tag {
        None => Err(no_word(place).into()),
        Some(Tag::Int) => Ok(WordItem::Int(one_number(place, parts, true)?)),
        Some(Tag::Nat) => Ok(WordItem::Nat(one_number(place, parts, false)?)),
        Some(Tag::Bitv) => Ok(WordItem::Bitv(one_number(place, parts, false)?)),
        Some(Tag::Bool) => Ok(bool_item(place, parts)?),
        Some(Tag::Addr) => addr_item(heap, place, parts),
        Some(Tag::Pc) => pc_item(heap, place, parts),
        Some(Tag::Subr) => subr_item(heap, place, parts),
    }
}

/// The word that the items of a list are.
fn word_at<H: Heap>(heap: H, place: u32, items: &[TextTree]) -> Result<WordText, FormFault>
    ensures { ReadsUnless (H.may_refuse heap) (λ word. word) result (word_of (list place (nodes_of items.now))) }
{
    if items.is_empty() {
        return Err(no_word(place).into());
    }
    match &items[0] {
        TextTree::List { place: _, items: _ } => Err(no_word(place).into()),
        TextTree::Atom { place: _, text } => {
            let item = item(heap, tag_named(text), place, &items[1..])?;
            Ok(WordText { place, item })
        }
    }
}

/// The word that a tree is: P5 where it is none, P8 where its numeral is out of range.
pub fn word<H: Heap>(heap: H, tree: &TextTree) -> Result<WordText, FormFault>
    ensures { ReadsUnless (H.may_refuse heap) (λ word. word) result (word_of (node_of tree.now)) }
{
    match tree {
        TextTree::Atom { place, text: _ } => Err(no_word(*place).into()),
        TextTree::List { place, items } => word_at(heap, *place, items),
    }
}

impl Part for WordText {
    ghost use Rattle.piton_syntax.specs.{declared.word_text.WordText.{WordText as WordOf}, Grammar.{word_of}};

    ghost Seen = { WordOf };

    ghost view = { λ word. word };

    ghost part_of = { word_of };

    fn read<H: Heap>(heap: H, tree: &TextTree) -> Result<WordText, FormFault> {
        word(heap, tree)
    }
}

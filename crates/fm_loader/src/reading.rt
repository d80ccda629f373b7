//! Reading the entries of a tree.

ghost use Rattle.std.specs.Prelude.{◌≡◌, IsTrue, option_map};
ghost use Rattle.stack_text.specs.Gives as memory;
ghost use Rattle.stack_text.specs.{Numerals.{is_numeral, numeral_value}, Views.TreeView.{node_of, nodes_of}, TreeNames.{name_of_tree}};
ghost use Rattle.fm_words.specs.Word.{signed_32};
ghost use Rattle.fm_loader.specs.{Rules.{GivesValuesUnless}, Parsed.{character_of, scalar_of, scalar_at, scalars_of, parsed_value, pair_of, entry_of}};
ghost use Rattle.fm_loader.specs.Values.{entries_of, entry_at};

use crate::fault::{Rule, ValuesFault, refused};
use crate::parsed::{Entry, ParsedValue, Scalar};
use stack_heap::Heap;
use stack_text::{
    Kind, Memory, Name, Seq, TextTree, is_digits, is_numeral, read_name, read_numeral,
};

/// The number of a numeral, where that has 32 signed bits.
fn number(numeral: &[u8]) -> Option<i32>
    requires { IsTrue (is_numeral numeral.now) }
    ensures { result ≡ signed_32 (numeral_value numeral.now) }
{
    match read_numeral(numeral) {
        Some(number) => i32::try_from(number).ok(),
        None => None,
    }
}

/// The character of `#` and digits.
fn character(word: &[u8]) -> Option<Scalar>
    ensures { result ≡ character_of word.now }
{
    match word {
        [b'#', digits @ ..] => {
            if !is_digits(digits) {
                return None;
            }
            Some(Scalar {
                kind: Kind::Character,
                number: number(digits),
            })
        }
        _ => None,
    }
}

/// The single value that a word is, if it is one.
#[tactic(auto, unfolding(crate::specs::Parsed::scalar_of))]
fn scalar(word: &[u8]) -> Option<Scalar>
    ensures { result ≡ scalar_of word.now }
{
    if word == b"true".as_slice() {
        return Some(Scalar {
            kind: Kind::Boolean,
            number: Some(1),
        });
    }
    if word == b"false".as_slice() {
        return Some(Scalar {
            kind: Kind::Boolean,
            number: Some(0),
        });
    }
    if is_numeral(word) {
        return Some(Scalar {
            kind: Kind::Integer,
            number: number(word),
        });
    }
    character(word)
}

/// The single value that a tree is, if it is one.
fn scalar_at(tree: &TextTree) -> Option<Scalar>
    ensures { result ≡ scalar_at (node_of tree.now) }
{
    match tree {
        TextTree::Atom { place: _, text } => scalar(text),
        TextTree::List { place: _, items: _ } => None,
    }
}

/// The single values that trees are, if each is one.
fn scalars<H: Heap>(heap: H, trees: &[TextTree]) -> Result<Option<Seq<Scalar>>, Memory>
    ensures { memory.ReturnsUnless (H.may_refuse heap) (λ scalars. scalars) result (scalars_of (nodes_of trees.now)) }
{
    let mut scalars = Seq::new(heap.handle());
    for tree in trees {
        match scalar_at(tree) {
            Some(scalar) => scalars.push(heap, scalar)?,
            None => return Ok(None),
        }
    }
    Ok(Some(scalars))
}

/// The value that a tree is, if it is one.
#[tactic(auto, unfolding(crate::specs::Parsed::parsed_value))]
fn parsed_value<H: Heap>(heap: H, tree: &TextTree) -> Result<Option<ParsedValue>, Memory>
    ensures { memory.ReturnsUnless (H.may_refuse heap) (λ value. value) result (parsed_value (node_of tree.now)) }
{
    match tree {
        TextTree::Atom { place: _, text } => match scalar(text) {
            Some(scalar) => Ok(Some(ParsedValue::Single(scalar))),
            None => Ok(None),
        },
        TextTree::List { place: _, items } => match scalars(heap, items)? {
            Some(scalars) => Ok(Some(ParsedValue::Several(scalars))),
            None => Ok(None),
        },
    }
}

/// The name that a tree is, if it is one.
fn name<H: Heap>(heap: H, tree: &TextTree) -> Result<Option<Name>, Memory>
    ensures { memory.ReturnsUnless (H.may_refuse heap) (λ name. name) result (name_of_tree (node_of tree.now)) }
{
    match tree {
        TextTree::Atom { place: _, text } => read_name(heap, text),
        TextTree::List { place: _, items: _ } => Ok(None),
    }
}

/// The trees of a list of two.
fn pair<'a, 'b>(trees: &'a [TextTree<'b>]) -> Option<(&'a TextTree<'b>, &'a TextTree<'b>)>
    ensures { option_map (λ pair. (node_of pair.0.now, node_of pair.1.now)) result ≡ pair_of (nodes_of trees.now) }
{
    if trees.len() != 2 {
        return None;
    }
    Some((&trees[0], &trees[1]))
}

/// The entry that a tree is, if it is one.
#[tactic(auto, unfolding(crate::specs::Parsed::entry_of))]
fn entry<H: Heap>(heap: H, tree: &TextTree) -> Result<Option<Entry>, Memory>
    ensures { memory.ReturnsUnless (H.may_refuse heap) (λ entry. entry) result (entry_of (node_of tree.now)) }
{
    let TextTree::List { place, items } = tree else {
        return Ok(None);
    };
    let Some((first, second)) = pair(items) else {
        return Ok(None);
    };
    let Some(name) = name(heap, first)? else {
        return Ok(None);
    };
    let Some(value) = parsed_value(heap, second)? else {
        return Ok(None);
    };
    Ok(Some(Entry {
        place: *place,
        name,
        value,
    }))
}

/// The entry that a tree is.
fn entry_or_fault<H: Heap>(heap: H, tree: &TextTree) -> Result<Entry, ValuesFault>
    ensures { GivesValuesUnless (H.may_refuse heap) (λ entry. entry) result (entry_at (node_of tree.now)) }
{
    match entry(heap, tree)? {
        Some(entry) => Ok(entry),
        None => Err(refused(Rule::Form, tree.place())),
    }
}

/// The entries that trees are.
pub(crate) fn entries<H: Heap>(heap: H, trees: &[TextTree]) -> Result<Vec<Entry>, ValuesFault>
    ensures { GivesValuesUnless (H.may_refuse heap) (λ entries. entries.items) result
        (entries_of (nodes_of trees.now)) }
{
    let mut entries = Vec::new(heap.handle());
    for tree in trees {
        heap.push(&mut entries, entry_or_fault(heap, tree)?)?;
    }
    Ok(entries)
}

//! Words of values.

ghost use Rattle.std.specs.Prelude.{◌≡◌, ◌++◌, ◌≤◌, map};
ghost use Rattle.stack_heap.specs.Heaps.{OnOkUnless};
ghost use Rattle.gypsy_syntax.specs.{Effects.{item_of_value}, Programs.{words_of}};
ghost use Rattle.gypsy_space.specs.Nodes.{held_shapes, held_values};
ghost use Rattle.gypsy_predef.specs.Runs.{word_of_item, words_of_value};
ghost use Rattle.gypsy_codegen.specs.{Internal.Views.{nameless, word_texts}, WordsOf.{words_of_values, zero_value}, Written.{item_text}};

use gypsy_predef::instruction_text::number;
use piton_syntax::{WordItem, WordText};
use stack_heap::Heap;
use stack_text::{Kind, Memory, Name, Shape, Value};

/// An item of a value as a word.
pub(crate) fn word_item(kind: Kind, item: i32) -> WordItem
    ensures { result ≡ item_text nameless (word_of_item kind item) }
{
    match kind {
        Kind::Boolean => WordItem::Bool(item == 1),
        Kind::Integer | Kind::Character => WordItem::Int(number(item as i128)),
    }
}

/// The word of a value of a simple type.
pub(crate) fn simple_word(value: &Value) -> WordItem
    ensures { let v = value.now in result ≡ item_text nameless (word_of_item v.shape.kind (item_of_value v)) }
{
    let item = match value.items.first() {
        Some(item) => *item,
        None => 0,
    };
    word_item(value.shape.kind, item)
}

/// The words of items.
fn item_words<H: Heap>(
    heap: H,
    words: &mut Vec<WordText>,
    kind: Kind,
    items: &[i32],
) -> Result<(), Memory>
    ensures { OnOkUnless (H.may_refuse heap) result
        (words.new.items ≡ words.old.items ++ word_texts (map (word_of_item kind) items.now)) }
{
    for item in items {
        let item = word_item(kind, *item);
        heap.push(words, WordText { place: 0, item })?;
    }
    Ok(())
}

/// The words of a value.
fn value_words<H: Heap>(heap: H, words: &mut Vec<WordText>, value: &Value) -> Result<(), Memory>
    ensures { OnOkUnless (H.may_refuse heap) result
        (words.new.items ≡ words.old.items ++ word_texts (words_of_value value.now)) }
{
    item_words(heap, words, value.shape.kind, value.items.as_slice())
}

/// The words of locals.
pub(crate) fn local_words<H: Heap>(
    heap: H,
    words: &mut Vec<WordText>,
    locals: &[(Name, Value)],
) -> Result<(), Memory>
    ensures { OnOkUnless (H.may_refuse heap) result
        (words.new.items ≡ words.old.items ++ word_texts (words_of_values (held_values locals.now))) }
{
    for (_, value) in locals {
        value_words(heap, words, value)?;
    }
    Ok(())
}

/// The words of a variable whose items are all 0, or false.
fn zero_words<H: Heap>(heap: H, words: &mut Vec<WordText>, shape: Shape) -> Result<(), Memory>
    ensures { OnOkUnless (H.may_refuse heap) result
        (words.new.items ≡ words.old.items ++ word_texts (words_of_value (zero_value shape))) }
{
    for _made in 0..shape.item_count() {
        let item = word_item(shape.kind, 0);
        heap.push(words, WordText { place: 0, item })?;
    }
    Ok(())
}

/// The words of formals before they are given values.
pub(crate) fn formal_words<H: Heap>(
    heap: H,
    words: &mut Vec<WordText>,
    formals: &[(Name, Shape)],
) -> Result<(), Memory>
    ensures { OnOkUnless (H.may_refuse heap) result (words.new.items ≡
        words.old.items ++ word_texts (words_of_values (map zero_value (held_shapes formals.now)))) }
{
    for (_, shape) in formals {
        zero_words(heap, words, *shape)?;
    }
    Ok(())
}

/// How many words locals have.
pub(crate) fn local_count(locals: &[(Name, Value)]) -> u64
    requires { words_of (map (λ v. v.shape) (held_values locals.now)) ≤ 65536 }
    ensures { result ≡ words_of (map (λ v. v.shape) (held_values locals.now)) }
{
    let mut words = 0;
    for (_, value) in locals {
        words += value.shape.item_count() as u64;
    }
    words
}

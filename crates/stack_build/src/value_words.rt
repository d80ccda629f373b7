//! Initial stacks with values.

ghost use Rattle.std.specs.Prelude.{◌≡◌, ◌++◌, map};
ghost use Rattle.stack_heap.specs.Heaps.{IfOkUnless, OnOkUnless};
ghost use Rattle.gypsy_predef.specs.Runs.{word_of_item, words_of_value};
ghost use Rattle.gypsy_codegen.specs.WordsOf.{words_of_values};
ghost use Rattle.stack_build.specs.Starts.{with_values};

use piton_words::Word;
use stack_heap::Heap;
use stack_text::{Kind, Memory, Value};

/// An item as a word.
fn word_of_item(kind: Kind, item: i32) -> Word
    ensures { result ≡ word_of_item kind item }
{
    match kind {
        Kind::Boolean => Word::Bool(item == 1),
        Kind::Integer | Kind::Character => Word::Int(item),
    }
}

/// Appends the words of items.
fn push_items<H: Heap>(
    heap: H,
    words: &mut Vec<Word>,
    kind: Kind,
    items: &[i32],
) -> Result<(), Memory>
    ensures { OnOkUnless (H.may_refuse heap) result
        (words.new.items ≡ words.old.items ++ map (word_of_item kind) items.now) }
{
    for item in items {
        heap.push(words, word_of_item(kind, *item))?;
    }
    Ok(())
}

/// Appends the words of a value.
fn push_value<H: Heap>(heap: H, words: &mut Vec<Word>, value: &Value) -> Result<(), Memory>
    ensures { OnOkUnless (H.may_refuse heap) result (words.new.items ≡ words.old.items ++ words_of_value value.now) }
{
    push_items(heap, words, value.shape.kind, value.items.as_slice())
}

/// Appends the words of values.
fn push_values<H: Heap>(heap: H, words: &mut Vec<Word>, values: &[Value]) -> Result<(), Memory>
    ensures { OnOkUnless (H.may_refuse heap) result (words.new.items ≡ words.old.items ++ words_of_values values.now) }
{
    for value in values {
        push_value(heap, words, value)?;
    }
    Ok(())
}

/// An initial stack with the words of values at its bottom, in place of its own.
pub(crate) fn with_values<H: Heap>(
    heap: H,
    values: &[Value],
    stack: &[Word],
) -> Result<Vec<Word>, Memory>
    ensures { IfOkUnless (H.may_refuse heap) result (λ words. words.items ≡ with_values values.now stack.now) }
{
    let mut words = Vec::new(heap.handle());
    push_values(heap, &mut words, values)?;
    let others = stack.get(words.len()..).unwrap_or(&[]);
    heap.extend_from_slice(&mut words, others)?;
    Ok(words)
}

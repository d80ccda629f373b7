//! The words of placed data.

ghost use Rattle.std.specs.Prelude.{◌≡◌, ◌++◌, ◌<◌, ◌^◌, map, reverse};
ghost use Rattle.stack_heap.specs.Heaps.{OnOkUnless};
ghost use Rattle.piton_check.specs.Instruction.{system_view};
ghost use Rattle.piton_semantics.specs.{Fits.{Each, IsWordOf}, StateView.{words_in}, Addresses.{word_number, numbers}, Placed.{end_of, addresses_of}};
ghost use Rattle.piton_linker.specs.Tables.{areas_words, table_of};

use crate::table::{Table, word};
use piton_check::Resolved;
use piton_semantics::word_piece;
use piton_words::Word;
use stack_heap::Heap;
use stack_text::Memory;

/// The number of a word.
pub(crate) fn number(table: &Table, checked: &Resolved, item: Word) -> u32
    requires table { table.now ≡ table_of (system_view checked.now) }
    requires fits { end_of (system_view checked.now) < 2 ^ 32 }
    requires there { IsWordOf (system_view checked.now) item }
    ensures { result ≡ word_number (addresses_of (system_view checked.now)) item }
{
    word(table, checked, 0, word_piece(item))
}

/// Appends the numbers of words.
pub(crate) fn append_words<H: Heap>(
    heap: H,
    words: &mut Vec<u32>,
    table: &Table,
    checked: &Resolved,
    items: &[Word],
) -> Result<(), Memory>
    requires table { table.now ≡ table_of (system_view checked.now) }
    requires fits { end_of (system_view checked.now) < 2 ^ 32 }
    requires there { Each (IsWordOf (system_view checked.now)) items.now }
    ensures { OnOkUnless (H.may_refuse heap) result (words.new.items
        ≡ words.old.items ++ numbers (addresses_of (system_view checked.now)) items.now) }
{
    for item in items {
        heap.push(words, number(table, checked, *item))?;
    }
    Ok(())
}

/// Appends the numbers of words, the last first.
pub(crate) fn append_reversed<H: Heap>(
    heap: H,
    words: &mut Vec<u32>,
    table: &Table,
    checked: &Resolved,
    items: &[Word],
) -> Result<(), Memory>
    requires table { table.now ≡ table_of (system_view checked.now) }
    requires fits { end_of (system_view checked.now) < 2 ^ 32 }
    requires there { Each (IsWordOf (system_view checked.now)) items.now }
    ensures { OnOkUnless (H.may_refuse heap) result (words.new.items
        ≡ words.old.items ++ numbers (addresses_of (system_view checked.now)) (reverse items.now)) }
{
    let count = items.len();
    for done in 0..count {
        heap.push(words, number(table, checked, items[count - 1 - done]))?;
    }
    Ok(())
}

/// Appends the numbers of the words of areas.
pub(crate) fn append_areas<H: Heap>(
    heap: H,
    words: &mut Vec<u32>,
    table: &Table,
    checked: &Resolved,
    areas: &[Vec<Word>],
) -> Result<(), Memory>
    requires table { table.now ≡ table_of (system_view checked.now) }
    requires fits { end_of (system_view checked.now) < 2 ^ 32 }
    requires there { Each (Each (IsWordOf (system_view checked.now))) (map words_in areas.now) }
    ensures { OnOkUnless (H.may_refuse heap) result (words.new.items
        ≡ words.old.items ++ areas_words (system_view checked.now) (map words_in areas.now)) }
{
    for area in areas {
        append_words(heap, words, table, checked, area.as_slice())?;
    }
    Ok(())
}

//! What a word of memory says.

ghost use Rattle.std.specs.Prelude.{◌≡◌, ◌≤◌, ◌-◌, ◌++◌, slice_get};
ghost use Rattle.stack_heap.specs.Heaps.{IfOkUnless, OnOkUnless};
ghost use Rattle.display_maps.specs.{Reading.{named_or_odd, condition_of, item_of}, Report.{shown_text}};

use fm_show::push_number;
use fm_words::signed_of;
use stack_heap::Heap;
use stack_text::{Kind, Memory, Name};

/// A word of memory, as a condition or an item of some type.
#[derive(Debug, Drop)]
pub enum Shown {
    /// The standing condition `normal`, by its number 2.
    Normal,
    /// The standing condition `routineerror`, by its number 1.
    Routine,
    /// The standing condition `leave`, by its number 0.
    Leave,
    /// The condition of a name. The first of an image's names, spaceerror in that of a source, has the number 3.
    Named(Name),
    /// An integer.
    Number(i32),
    /// A Boolean.
    Truth(bool),
    /// A character, by its ASCII code, 0 to 127.
    Code(u8),
    /// A word that is the number of no condition, or that the type does not have.
    Odd(u32),
}

/// The named condition of a number, where there is one.
fn named_or_odd<H: Heap>(heap: H, names: &[Name], word: u32) -> Result<Shown, Memory>
    requires { 3 ≤ word }
    ensures { IfOkUnless (H.may_refuse heap) result
        (λ shown. shown ≡ named_or_odd (slice_get names.now (word - 3)) word) }
{
    match names.get(word as usize - 3) {
        Some(name) => Ok(Shown::Named(name.copied(heap)?)),
        None => Ok(Shown::Odd(word)),
    }
}

/// The condition that a condition word says, where an image has these named conditions.
///
/// The only error is out of memory.
#[tactic(auto, unfolding(crate::specs::Reading::condition_of))]
pub fn condition_of<H: Heap>(heap: H, names: &[Name], word: u32) -> Result<Shown, Memory>
    ensures { IfOkUnless (H.may_refuse heap) result (λ shown. shown ≡ condition_of names.now word) }
{
    match word {
        0 => Ok(Shown::Leave),
        1 => Ok(Shown::Routine),
        2 => Ok(Shown::Normal),
        _ => named_or_odd(heap, names, word),
    }
}

/// What a word says as an item of a kind.
#[tactic(auto, unfolding(crate::specs::Reading::item_of))]
pub fn item_of(kind: Kind, word: u32) -> Shown
    ensures { result ≡ item_of kind word }
{
    match kind {
        Kind::Integer => Shown::Number(signed_of(word)),
        Kind::Boolean => match word {
            0 => Shown::Truth(false),
            1 => Shown::Truth(true),
            _ => Shown::Odd(word),
        },
        Kind::Character => {
            if word <= 127 {
                Shown::Code(word as u8)
            } else {
                Shown::Odd(word)
            }
        }
    }
}

impl Shown {
    ghost use Rattle.std.specs.Prelude.{◌≡◌, ◌++◌};
    ghost use Rattle.stack_heap.specs.Heaps.{OnOkUnless};
    ghost use Rattle.display_maps.specs.Report.{shown_text};

    /// Appends its text: the word or the name of a condition, `-7`, `true`, `#65`, or `?9` for a word that is odd.
    #[tactic(auto, unfolding(crate::specs::Report::shown_text))]
    pub(crate) fn push_text<H: Heap>(&self, heap: H, text: &mut Vec<u8>) -> Result<(), Memory>
        ensures { OnOkUnless (H.may_refuse heap) result (text.new.items ≡ text.old.items ++ shown_text self.now) }
    {
        match self {
            Shown::Normal => push(heap, text, "normal"),
            Shown::Routine => push(heap, text, "routineerror"),
            Shown::Leave => push(heap, text, "leave"),
            Shown::Named(name) => Ok(heap.extend_from_slice(text, name.bytes())?),
            Shown::Number(number) => push_number(heap, text, *number),
            Shown::Truth(true) => push(heap, text, "true"),
            Shown::Truth(false) => push(heap, text, "false"),
            Shown::Code(code) => {
                push(heap, text, "#")?;
                push_number(heap, text, *code)
            }
            Shown::Odd(word) => {
                push(heap, text, "?")?;
                push_number(heap, text, *word)
            }
        }
    }
}

/// Appends a word.
pub(crate) fn push<H: Heap>(heap: H, text: &mut Vec<u8>, word: &str) -> Result<(), Memory>
    ensures { OnOkUnless (H.may_refuse heap) result (text.new.items ≡ text.old.items ++ word.now) }
{
    Ok(heap.extend_from_slice(text, word.as_bytes())?)
}

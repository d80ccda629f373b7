//! One line.

ghost use Rattle.std.specs.{Prelude.{◌≡◌, ◌==◌, ◌<◌, ◌∷◌, IfSome, length, map}, List.{position}, Option.{option_copied}};
ghost use Rattle.stack_heap.specs.Heaps.{IfOkUnless};
ghost use Rattle.debug_script.specs.{Commands.{GivesCommandUnless, words_left, words_of}, Lines.{command_in}};

use crate::command::{Command, command_of};
use crate::fault::{LineFault, ScriptRule};
use stack_heap::Heap;
use stack_text::{Memory, is_plain_line};

/// The place of the first space.
fn first_space(line: &[u8]) -> Option<usize>
    ensures place { result ≡ position (λ byte. byte == 32) line.now }
    ensures within { IfSome result (λ place. place < length line.now) }
{
    line.iter().position(|byte| *byte == b' ')
}

/// The first word of a line; and what stands behind the space that ends it, if there is one.
fn first_word(line: &[u8]) -> (&[u8], Option<&[u8]>)
    ensures words { words_of line.now ≡ result.0.now ∷ words_left (option_copied result.1) }
    ensures shorter { IfSome result.1 (λ behind. length behind.now < length line.now) }
{
    match first_space(line) {
        Some(end) => (&line[..end], Some(&line[end + 1..])),
        None => (line, None),
    }
}

/// The words of a line: each space ends one.
fn words_of<'a, H: Heap>(heap: H, line: &'a [u8]) -> Result<Vec<&'a [u8]>, Memory>
    ensures { IfOkUnless (H.may_refuse heap) result (λ words. map (λ word. word.now) words.items ≡ words_of line.now) }
{
    let mut words = Vec::new(heap.handle());
    let mut left = Some(line);
    while let Some(line) = left {
        let (word, behind) = first_word(line);
        heap.push(&mut words, word)?;
        left = behind;
    }
    Ok(words)
}

/// The command of a line that is not empty, or the rule that the line breaks.
#[tactic(auto, unfolding(crate::specs::Lines::command_in))]
pub(crate) fn command_in<H: Heap>(heap: H, line: &[u8]) -> Result<Command, LineFault>
    ensures { GivesCommandUnless (H.may_refuse heap) result (command_in line.now) }
{
    if !is_plain_line(line) {
        return Err(LineFault::Rule(ScriptRule::Bytes));
    }
    let words = words_of(heap, line)?;
    command_of(heap, &words)
}

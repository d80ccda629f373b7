//! Sources: the lines of a text, one after the other.

ghost use Rattle.std.specs.Prelude.{◌≡◌, ◌<◌, ◌^◌, ◌++◌, length, map, option_map};
ghost use Rattle.stack_heap.specs.Heaps.{OnOkUnless};
ghost use Rattle.stack_text.specs.Gives as common;
ghost use Rattle.fm_asm.specs.{Statements.{statement_of}, Lines.{said_of, line_of, says_something}, Sources.{said_of_line, line_read, word_count, kept}};
ghost use Rattle.fm_asm.specs.{Sources.{source_of, source_in}, Assembling.{GivesAssemblyUnless}};

use crate::cuts::cut;
use crate::due::{Due, due_after_line, window_of};
use crate::fault::AsmFault;
use crate::line::{Line, Said, said_in, text_of};
use crate::statement::Statement;
use stack_heap::Heap;
use stack_text::{Memory, is_plain_line};

/// A text whose lines are all of a form.
#[derive(Drop)]
pub(crate) struct Source<'l, 's> {
    /// The first address of the window.
    pub base: u32,
    /// How many words the window has.
    pub size: u32,
    /// The lines that say something.
    pub lines: Vec<Line<'l, 's>>,
}

/// What a line says, or the rule that it breaks: rule 1 by its bytes, and else rule 2 by its form.
#[tactic(auto, unfolding(crate::specs::Sources::said_of_line))]
fn said_of_line(line: &[u8]) -> Result<Said<'_, '_>, u8>
    ensures { common.Gives (λ rule. Some rule) said_of result (said_of_line line.now) }
{
    if !is_plain_line(line) {
        return Err(1);
    }
    match said_in(text_of(line)) {
        Some(said) => Ok(said),
        None => Err(2),
    }
}

/// What a line says, and what is due after it; or the rule that it breaks.
#[tactic(auto, unfolding(crate::specs::Sources::line_read))]
fn line_read<'a>(due: Due, line: &'a [u8]) -> Result<(Said<'a, 'a>, Due), u8>
    ensures { common.Gives (λ rule. Some rule) (λ x. (said_of x.0, x.1)) result (line_read due line.now) }
{
    let said = said_of_line(line)?;
    let next = due_after_line(due, said.statement)?;
    Ok((said, next))
}

/// How many words a line has.
fn word_count(statement: Option<Statement<'_>>) -> usize
    ensures count { result ≡ word_count (option_map statement_of statement.entry) }
    ensures few { result < 2 }
{
    match statement {
        Some(Statement::Word(_)) => 1,
        Some(Statement::Instruction(_)) => 1,
        _ => 0,
    }
}

/// Whether a line says something.
fn is_kept(said: Said<'_, '_>) -> bool
    ensures { result ≡ says_something (said_of said.entry) }
{
    said.label.is_some() || said.statement.is_some()
}

/// Appends a line, unless it says nothing.
fn push_line<'l, 's, H: Heap>(
    heap: H,
    lines: &mut Vec<Line<'l, 's>>,
    place: u32,
    offset: u32,
    said: Said<'l, 's>,
) -> Result<(), Memory>
    ensures { let more = kept (record { place = place; offset = offset; said = said_of said.entry }) in
        OnOkUnless (H.may_refuse heap) result (map line_of lines.new.items ≡ map line_of lines.old.items ++ more) }
{
    if is_kept(said) {
        heap.push(
            lines,
            Line {
                place,
                offset,
                said,
            },
        )?;
    }
    Ok(())
}

/// The source of a text: what its header says of the window, and its lines, each with its place and the words before it.
///
/// # Errors
///
/// The first fault of a line's form, or a statement of the header that is missing at the end; or out of memory.
pub(crate) fn source_in<H: Heap>(heap: H, text: &[u8]) -> Result<Source<'_, '_>, AsmFault>
    requires { length text.now < 2 ^ 32 }
    ensures { GivesAssemblyUnless (H.may_refuse heap) source_of result (source_in text.now) }
{
    let mut lines = Vec::new(heap.handle());
    let mut due = Due::Base;
    let mut offset: usize = 0;
    let mut rest = Some(text);
    while let Some(left) = rest {
        let place = (text.len() - left.len()) as u32;
        let (bytes, after) = cut(b'\n', left);
        let (said, next) = match line_read(due, bytes) {
            Ok(read) => read,
            Err(rule) => return Err(AsmFault::Refused { rule, place }),
        };
        push_line(heap, &mut lines, place, offset as u32, said)?;
        offset += word_count(said.statement);
        due = next;
        rest = after;
    }
    match window_of(due) {
        Some(window) => Ok(Source {
            base: window.0,
            size: window.1,
            lines,
        }),
        None => Err(AsmFault::Refused {
            rule: 2,
            place: text.len() as u32,
        }),
    }
}

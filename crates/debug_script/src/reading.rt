//! Scripts.

ghost use Rattle.std.specs.Prelude.{◌≤◌, ◌^◌, length};
ghost use Rattle.debug_script.specs.Scripts.{GivesScriptUnless, line_read, script_of};

use crate::command::Command;
use crate::fault::{LineFault, ScriptFault};
use crate::line::command_in;
use bstr::ByteSlice;
use stack_heap::Heap;

/// A line of a script that is not empty.
#[derive(Debug, Drop)]
pub struct Line {
    /// Its number in the script, from 1; empty lines count too.
    pub line: u32,
    /// What it asks for.
    pub command: Command,
}

/// What a line gives: nothing where it is empty, or else its command, with the line's number.
#[tactic(auto, unfolding(crate::specs::Scripts::line_read))]
fn read_line<H: Heap>(heap: H, number: u32, line: &[u8]) -> Result<Option<Line>, ScriptFault>
    ensures { GivesScriptUnless (H.may_refuse heap) (λ read. read) result (line_read number line.now) }
{
    if line.is_empty() {
        return Ok(None);
    }
    match command_in(heap, line) {
        Ok(command) => Ok(Some(Line {
            line: number,
            command,
        })),
        Err(LineFault::Rule(rule)) => Err(ScriptFault::Refused {
            rule: rule.number(),
            line: number,
        }),
        Err(LineFault::Memory) => Err(ScriptFault::Memory),
    }
}

/// The commands of a script, each with the number of its line.
///
/// A line ends at LF or at the text's end, and a CR right before the LF belongs to the line's end. An empty line has no
/// command. The time is linear in the text.
///
/// # Errors
///
/// The fault of the first line that has one, by the first rule in the order 6, 1, 2, 3 that the line breaks; or out of
/// memory.
pub fn read_script<H: Heap>(heap: H, text: &[u8]) -> Result<Vec<Line>, ScriptFault>
    requires { length text.now ≤ 2 ^ 31 }
    ensures { GivesScriptUnless (H.may_refuse heap) (λ lines. lines.items) result (script_of text.now) }
{
    let mut lines = Vec::new(heap.handle());
    let mut number = 0;
    for line in text.lines() {
        number += 1;
        if let Some(read) = read_line(heap, number, line)? {
            heap.push(&mut lines, read)?;
        }
    }
    Ok(lines)
}

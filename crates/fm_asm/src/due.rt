//! Which statement is due, and what breaks rule 2 or 3 of `docs/languages/asm.md`. A rule is its number, as in `Breach`.

ghost use Rattle.std.specs.Prelude.{◌≡◌, option_map};
ghost use Rattle.fm_asm.specs.{Values.{value_of}, Statements.{statement_of}, Sources.{if_in_range, if_encoded, size_due, final_due, due_after, due_after_line}};
ghost use Rattle.fm_asm.specs.Sources.{window_of};

use crate::statement::Statement;
use crate::value::Value;
use fm_image::is_size;

/// The statement that is due: one of the four of the header, in their order, or a word; with what was read of the window.
#[derive(Clone, Copy, Debug)]
pub(crate) enum Due {
    Base,
    Size { base: u32 },
    Final { base: u32, size: u32 },
    Start { base: u32, size: u32 },
    Words { base: u32, size: u32 },
}

/// What is due next, if the value is in its range; else rule 3 is broken.
fn if_in_range(value: Value<'_>, next: Due) -> Result<Due, u8>
    ensures { result ≡ if_in_range (value_of value.entry) next }
{
    match value {
        Value::Number(None) => Err(3),
        _ => Ok(next),
    }
}

/// The same, if the instruction's immediate is in its range.
fn if_encoded(word: Option<u32>, next: Due) -> Result<Due, u8>
    ensures { result ≡ if_encoded word next }
{
    match word {
        None => Err(3),
        Some(_) => Ok(next),
    }
}

/// After a base a size is due.
fn size_due(base: Option<u32>) -> Result<Due, u8>
    ensures { result ≡ size_due base }
{
    match base {
        None => Err(3),
        Some(base) => Ok(Due::Size { base }),
    }
}

/// After a size that the window may have an end is due.
fn final_due(base: u32, size: Option<u32>) -> Result<Due, u8>
    ensures { result ≡ final_due base size }
{
    match size {
        Some(size) if is_size(base, size) => Ok(Due::Final { base, size }),
        _ => Err(3),
    }
}

/// What is due after a statement. One that isn't due breaks rule 2.
#[tactic(auto, unfolding(crate::specs::Sources::due_after))]
fn due_after(due: Due, statement: Statement<'_>) -> Result<Due, u8>
    ensures { result ≡ due_after due (statement_of statement.entry) }
{
    match (due, statement) {
        (Due::Base, Statement::Base(base)) => size_due(base),
        (Due::Size { base }, Statement::Size(size)) => final_due(base, size),
        (Due::Final { base, size }, Statement::Final(value)) => {
            if_in_range(value, Due::Start { base, size })
        }
        (Due::Start { base, size }, Statement::Start(value)) => {
            if_in_range(value, Due::Words { base, size })
        }
        (Due::Words { base, size }, Statement::Word(value)) => {
            if_in_range(value, Due::Words { base, size })
        }
        (Due::Words { base, size }, Statement::Instruction(word)) => {
            if_encoded(word, Due::Words { base, size })
        }
        _ => Err(2),
    }
}

/// The same after what a line says, which may be no statement.
pub(crate) fn due_after_line(due: Due, statement: Option<Statement<'_>>) -> Result<Due, u8>
    ensures { result ≡ due_after_line due (option_map statement_of statement.entry) }
{
    match statement {
        None => Ok(due),
        Some(statement) => due_after(due, statement),
    }
}

/// The base and the size of the window, once the header is whole.
pub(crate) fn window_of(due: Due) -> Option<(u32, u32)>
    ensures { result ≡ window_of due }
{
    match due {
        Due::Words { base, size } => Some((base, size)),
        _ => None,
    }
}

//! What breaks a rule where each line is of a form.

ghost use Rattle.std.specs.{Prelude.{◌≡◌, ◌<◌, option_map}, List.{flat_map}};
ghost use Rattle.stack_text.specs.Breaches.{Notes};
ghost use Rattle.name_tables.specs.Entries.{look_up};
ghost use Rattle.fm_image.specs.Limits.{is_inside};
ghost use Rattle.fm_asm.specs.{Values.{value_of}, Statements.{statement_of}, Lines.{line_of}, Labels.{number_of, is_outside, statement_breaches}};
ghost use Rattle.fm_asm.specs.Labels.{line_breaches};

use crate::line::Line;
use crate::statement::Statement;
use crate::value::Value;
use name_tables::NameTable;
use stack_text::{Breach, note_if};

/// The number of a value: a label stands for the base and the words before its line.
#[tactic(auto, unfolding(crate::specs::Labels::number_of))]
pub(crate) fn number_of(base: u32, labels: &NameTable<'_, u32>, value: Value<'_>) -> Option<u64>
    ensures { result ≡ number_of base (look_up labels.now) (value_of value.entry) }
{
    match value {
        Value::Number(number) => Some(u64::from(number?)),
        Value::Label(name) => Some(u64::from(base) + u64::from(labels.get(name)?)),
    }
}

/// Whether an address is in a window of so many words at the base.
fn is_inside(base: u32, size: u32, address: u64) -> bool
    ensures { result ≡ is_inside base size address }
{
    u64::from(base) <= address && address < u64::from(base) + u64::from(size)
}

/// Whether an address is there, and outside a window.
fn is_outside(base: u32, size: u32, address: Option<u64>) -> bool
    ensures { result ≡ is_outside base size address }
{
    match address {
        None => false,
        Some(address) => !is_inside(base, size, address),
    }
}

/// Notes the breaches of a statement.
#[tactic(auto, unfolding(crate::specs::Labels::statement_breaches))]
fn judge_statement(
    best: &mut Option<Breach>,
    base: u32,
    size: u32,
    labels: &NameTable<'_, u32>,
    place: u32,
    offset: u32,
    statement: Option<Statement<'_>>,
)
    ensures { let said = option_map statement_of statement.entry in
        Notes best.old (statement_breaches base size (look_up labels.now) place offset said) best.new }
{
    match statement {
        Some(Statement::Final(value)) => {
            let address = number_of(base, labels, value);
            note_if(best, address.is_none(), place, 5);
            note_if(best, is_outside(base, size, address), place, 7);
        }
        Some(Statement::Start(value)) => {
            note_if(best, number_of(base, labels, value).is_none(), place, 5);
        }
        Some(Statement::Word(value)) => {
            note_if(best, number_of(base, labels, value).is_none(), place, 5);
            note_if(best, size <= offset, place, 6);
        }
        Some(Statement::Instruction(_)) => {
            note_if(best, size <= offset, place, 6);
        }
        _ => {}
    }
}

/// Notes the breaches of lines.
pub(crate) fn judge(
    best: &mut Option<Breach>,
    base: u32,
    size: u32,
    labels: &NameTable<'_, u32>,
    lines: &[Line<'_, '_>],
)
    ensures { let breaches = line_breaches base size (look_up labels.now) in
        Notes best.old (flat_map (λ line. breaches (line_of line)) lines.now) best.new }
{
    for line in lines {
        judge_statement(
            best,
            base,
            size,
            labels,
            line.place,
            line.offset,
            line.said.statement,
        );
    }
}

//! The operands of instructions.

ghost use Rattle.std.specs.{Prelude.{◌≡◌, ◌<◌, IfSome}, Option.{option_copied}};
ghost use Rattle.fm_words.specs.Encoding.{IsOperand};
ghost use Rattle.fm_asm.specs.Instructions.{closed, register_in, closing_mode, indirect_in, decrement_in, direct_in, place_in, immediate_in, operand_in};

use crate::cuts::{after_prefix, split_once};
use fm_words::{Mode, OperandA};
use stack_text::{is_numeral, read_numeral};

/// The text before a closing byte, if that byte ends it.
pub(crate) fn closed(byte: u8, text: &[u8]) -> Option<&[u8]>
    ensures { option_copied result ≡ closed byte text.now }
{
    match split_once(byte, text)? {
        (front, []) => Some(front),
        _ => None,
    }
}

/// The register of a number from 0 to 15, without a zero in front.
#[tactic(auto, unfolding(crate::specs::Instructions::register_in))]
fn register_in(digits: &[u8]) -> Option<u8>
    ensures value { result ≡ register_in digits.now }
    ensures below { IfSome result (λ r. r < 16) }
{
    match digits {
        [digit @ b'0'..=b'9'] => Some(*digit - b'0'),
        [b'1', digit @ b'0'..=b'5'] => Some(*digit - b'0' + 10),
        _ => None,
    }
}

/// The mode of a place that began with a `(`, by what stands after its `)`.
#[tactic(auto, unfolding(crate::specs::Instructions::closing_mode))]
fn closing_mode(text: &[u8]) -> Option<Mode>
    ensures { result ≡ closing_mode text.now }
{
    if text.is_empty() {
        Some(Mode::Indirect)
    } else if text == b"+".as_slice() {
        Some(Mode::PostIncrement)
    } else {
        None
    }
}

/// The place after `(r`, whose `)` is followed by a `+` or by nothing.
#[tactic(auto, unfolding(crate::specs::Instructions::indirect_in))]
fn indirect_in(text: &[u8]) -> Option<(Mode, u8)>
    ensures value { result ≡ indirect_in text.now }
    ensures below { IfSome result (λ place. place.1 < 16) }
{
    let (digits, end) = split_once(b')', text)?;
    let register = register_in(digits)?;
    let mode = closing_mode(end)?;
    Some((mode, register))
}

/// The place after `-(r`, which a `)` ends.
#[tactic(auto, unfolding(crate::specs::Instructions::decrement_in))]
fn decrement_in(text: &[u8]) -> Option<(Mode, u8)>
    ensures value { result ≡ decrement_in text.now }
    ensures below { IfSome result (λ place. place.1 < 16) }
{
    let digits = closed(b')', text)?;
    let register = register_in(digits)?;
    Some((Mode::PreDecrement, register))
}

/// The place after `r`.
#[tactic(auto, unfolding(crate::specs::Instructions::direct_in))]
fn direct_in(text: &[u8]) -> Option<(Mode, u8)>
    ensures value { result ≡ direct_in text.now }
    ensures below { IfSome result (λ place. place.1 < 16) }
{
    let register = register_in(text)?;
    Some((Mode::Register, register))
}

/// A register, or the memory that it names: `r3`, `(r3)`, `-(r3)` or `(r3)+`.
#[tactic(auto, unfolding(crate::specs::Instructions::place_in))]
pub(crate) fn place_in(text: &[u8]) -> Option<(Mode, u8)>
    ensures value { result ≡ place_in text.now }
    ensures below { IfSome result (λ place. place.1 < 16) }
{
    if let Some(rest) = after_prefix(b"r", text) {
        return direct_in(rest);
    }
    if let Some(rest) = after_prefix(b"(r", text) {
        return indirect_in(rest);
    }
    decrement_in(after_prefix(b"-(r", text)?)
}

/// The immediate of a numeral, which is `None` where it is out of range.
#[tactic(auto, unfolding(crate::specs::Instructions::immediate_in))]
fn immediate_in(digits: &[u8]) -> Option<Option<OperandA>>
    ensures value { result ≡ immediate_in digits.now }
    ensures limits { IfSome result (λ a. IfSome a IsOperand) }
{
    if !is_numeral(digits) {
        return None;
    }
    match read_numeral(digits) {
        Some(number) if -256 <= number && number <= 255 => {
            Some(Some(OperandA::Immediate(number as i16)))
        }
        _ => Some(None),
    }
}

/// The first operand: `#` and an immediate, which is `None` where it is out of range, or a place.
#[tactic(auto, unfolding(crate::specs::Instructions::operand_in))]
pub(crate) fn operand_in(text: &[u8]) -> Option<Option<OperandA>>
    ensures value { result ≡ operand_in text.now }
    ensures limits { IfSome result (λ a. IfSome a IsOperand) }
{
    if let Some(digits) = after_prefix(b"#", text) {
        return immediate_in(digits);
    }
    let (mode, reg) = place_in(text)?;
    Some(Some(OperandA::Place { mode, reg }))
}

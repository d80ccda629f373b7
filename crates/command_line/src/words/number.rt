//! Numbers of the command line.
ghost use Rattle.std.specs.Prelude.{◌≡◌, ◌≤◌, IfSome};
ghost use Rattle.command_line.specs.CommandWords.{number_within};

use stack_text::{MOST_STACK, MOST_STEPS, is_digits, read_numeral};
use std::marker::Model;

/// The most digits of a number word.
const MOST_DIGITS: usize = 20;

/// The number that a word of at most twenty digits spells, where it is within these bounds.
#[tactic(auto, unfolding(crate::specs::CommandWords::number_within))]
pub fn number_within(low: u64, high: u64, word: &str) -> Option<u64>
    ensures value { result ≡ number_within low high word.now }
    ensures low { IfSome result (λ number. low ≤ number) }
    ensures high { IfSome result (λ number. number ≤ high) }
{
    if !is_digits(word.as_bytes()) || word.len() > MOST_DIGITS {
        return None;
    }
    match read_numeral(word.as_bytes()) {
        Some(number) if i128::from(low) <= number && number <= i128::from(high) => Some(
            number as u64,
        ),
        _ => None,
    }
}

/// The size of a stack: 1 to 65,536 words.
#[derive(Drop)]
pub struct StackSize {
    words: u32,
}

impl Model for StackSize {
    ghost use Rattle.std.specs.Prelude.{ℕ, ◌≤◌};
    ghost use Rattle.stack_text.specs.SharedLimits.{most_stack};

    ghost Value = { ℕ };

    ghost view = { λ size. size.words };

    ghost invariant = { λ size. (1 ≤ size.words) × (size.words ≤ most_stack) };
}

impl StackSize {
    ghost use Rattle.std.specs.Prelude.{◌≡◌, ◌≤◌};
    ghost use Rattle.stack_text.specs.SharedLimits.{most_stack};
    ghost use Rattle.command_line.specs.CommandWords.{size_of_stack};

    /// The size that a word spells.
    pub fn read(word: &str) -> Option<StackSize>
        ensures { result ≡ size_of_stack word.now }
    {
        match number_within(1, u64::from(MOST_STACK), word) {
            Some(words) => Some(StackSize {
                words: words as u32,
            }),
            None => None,
        }
    }

    /// How many words it is.
    pub fn words(&self) -> u32
        ensures value { result ≡ self.now }
        ensures low { 1 ≤ result }
        ensures high { result ≤ most_stack }
    {
        self.words
    }
}

/// How many procedures a large source calls: 1 to 900.
#[derive(Drop)]
pub struct ProcedureCount {
    procedures: u32,
}

impl Model for ProcedureCount {
    ghost use Rattle.std.specs.Prelude.{ℕ, ◌≤◌};

    ghost Value = { ℕ };

    ghost view = { λ count. count.procedures };

    ghost invariant = { λ count. (1 ≤ count.procedures) × (count.procedures ≤ 900) };
}

impl ProcedureCount {
    ghost use Rattle.std.specs.Prelude.{◌≡◌, ◌≤◌};
    ghost use Rattle.command_line.specs.CommandWords.{count_of_procedures};

    /// The number that a word spells.
    pub fn read(word: &str) -> Option<ProcedureCount>
        ensures { result ≡ count_of_procedures word.now }
    {
        match number_within(1, 900, word) {
            Some(procedures) => Some(ProcedureCount {
                procedures: procedures as u32,
            }),
            None => None,
        }
    }

    /// How many they are.
    pub fn procedures(&self) -> u32
        ensures value { result ≡ self.now }
        ensures low { 1 ≤ result }
        ensures high { result ≤ 900 }
    {
        self.procedures
    }
}

/// How many instructions a turn has: 1 to 2^40.
#[derive(Drop)]
pub struct TurnLength {
    instructions: u64,
}

impl Model for TurnLength {
    ghost use Rattle.std.specs.Prelude.{ℕ, ◌≤◌};
    ghost use Rattle.stack_text.specs.SharedLimits.{most_steps};

    ghost Value = { ℕ };

    ghost view = { λ length. length.instructions };

    ghost invariant = { λ length. (1 ≤ length.instructions) × (length.instructions ≤ most_steps) };
}

impl TurnLength {
    ghost use Rattle.std.specs.Prelude.{◌≡◌, ◌≤◌};
    ghost use Rattle.stack_text.specs.SharedLimits.{most_steps};
    ghost use Rattle.command_line.specs.CommandWords.{length_of_turn};

    /// The length that a word spells.
    pub fn read(word: &str) -> Option<TurnLength>
        ensures { result ≡ length_of_turn word.now }
    {
        match number_within(1, MOST_STEPS, word) {
            Some(instructions) => Some(TurnLength { instructions }),
            None => None,
        }
    }

    /// How many instructions it has.
    pub fn instructions(&self) -> u64
        ensures value { result ≡ self.now }
        ensures low { 1 ≤ result }
        ensures high { result ≤ most_steps }
    {
        self.instructions
    }
}

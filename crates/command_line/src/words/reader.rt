//! Reads words one after the other.
ghost use Rattle.std.specs.Prelude.{◌≡◌};
ghost use Rattle.command_line.specs.CommandWords.{ReadsWordsUnless, ReadsExactly, spelled, first, file, size, limit, seed, procedures, debug_level};
ghost use Rattle.command_line.specs.CommandWords.{level_named, turn_length, task, tasks_within, tasks, end};

use crate::command::TaskFiles;
use crate::words::name::FileName;
use crate::words::number::{ProcedureCount, StackSize, TurnLength, number_within};
use stack_heap::Heap;
use stack_text::{MOST_STEPS, MOST_TASKS, Memory, Seq};
use std::alloc::AllocFailed;

/// Why words are no command.
#[derive(Clone, Copy, PartialEq, Eq)]
pub enum WordsFault {
    /// They are too few, too many, or not of the kinds that are asked for.
    Usage,
    /// Memory ran out.
    Memory,
}

impl From<Memory> for WordsFault {
    ghost use Rattle.std.specs.Prelude.{◌≡◌};
    ghost use Rattle.command_line.specs.declared.words.reader.WordsFault.TheVariants.{Memory};

    ghost from_gives = { λ _ e. e ≡ Memory };

    fn from(_: Memory) -> Self {
        WordsFault::Memory
    }
}

impl<T: Drop> From<AllocFailed<T>> for WordsFault {
    ghost use Rattle.std.specs.Prelude.{◌≡◌};
    ghost use Rattle.command_line.specs.declared.words.reader.WordsFault.TheVariants.{Memory};

    ghost from_gives = { λ _ e. e ≡ Memory };

    fn from(_: AllocFailed<T>) -> Self {
        WordsFault::Memory
    }
}

/// The level of a debug session.
#[derive(Clone, Copy, PartialEq, Eq)]
pub enum Level {
    /// The source's own steps, of the step machine.
    Gypsy,
    /// Steps of the generated Piton.
    Piton,
    /// Instructions of the processor.
    Fm9001,
}

/// The first word, and the words after it.
#[tactic(auto, unfolding(crate::specs::CommandWords::first))]
fn first(words: &[String]) -> Result<(&str, &[String]), WordsFault>
    ensures { ReadsExactly (λ found. (found.0.now, spelled found.1.now)) result (first (spelled words.now)) }
{
    match words {
        [] => Err(WordsFault::Usage),
        [word, rest @ ..] => Ok((word.as_str(), rest)),
    }
}

/// The name of a file, which is any word.
#[tactic(auto, unfolding(crate::specs::CommandWords::file))]
pub fn file<H: Heap>(heap: H, words: &[String]) -> Result<(FileName, &[String]), WordsFault>
    ensures { ReadsWordsUnless (H.may_refuse heap)
        (λ found. (found.0, spelled found.1.now)) result (file (spelled words.now)) }
{
    let (word, rest) = first(words)?;
    Ok((FileName::new(heap, word)?, rest))
}

/// The size of a stack.
#[tactic(auto, unfolding(crate::specs::CommandWords::size))]
pub fn size(words: &[String]) -> Result<(StackSize, &[String]), WordsFault>
    ensures { ReadsExactly (λ found. (found.0, spelled found.1.now)) result (size (spelled words.now)) }
{
    let (word, rest) = first(words)?;
    match StackSize::read(word) {
        Some(size) => Ok((size, rest)),
        None => Err(WordsFault::Usage),
    }
}

/// The most instructions or steps: at most 2^40.
#[tactic(auto, unfolding(crate::specs::CommandWords::limit))]
pub fn limit(words: &[String]) -> Result<(u64, &[String]), WordsFault>
    ensures { ReadsExactly (λ found. (found.0, spelled found.1.now)) result (limit (spelled words.now)) }
{
    let (word, rest) = first(words)?;
    match number_within(0, MOST_STEPS, word) {
        Some(limit) => Ok((limit, rest)),
        None => Err(WordsFault::Usage),
    }
}

/// The number that a large source is made from: any of 32 bits.
#[tactic(auto, unfolding(crate::specs::CommandWords::seed))]
pub fn seed(words: &[String]) -> Result<(u32, &[String]), WordsFault>
    ensures { ReadsExactly (λ found. (found.0, spelled found.1.now)) result (seed (spelled words.now)) }
{
    let (word, rest) = first(words)?;
    match number_within(0, 0xffff_ffff, word) {
        Some(seed) => Ok((seed as u32, rest)),
        None => Err(WordsFault::Usage),
    }
}

/// How many procedures a large source calls: 1 to 900.
#[tactic(auto, unfolding(crate::specs::CommandWords::procedures))]
pub fn procedures(words: &[String]) -> Result<(ProcedureCount, &[String]), WordsFault>
    ensures { ReadsExactly (λ found. (found.0, spelled found.1.now)) result (procedures (spelled words.now)) }
{
    let (word, rest) = first(words)?;
    match ProcedureCount::read(word) {
        Some(procedures) => Ok((procedures, rest)),
        None => Err(WordsFault::Usage),
    }
}

/// The level that a word names.
#[tactic(auto, unfolding(crate::specs::CommandWords::level_named))]
fn level_named(word: &str) -> Option<Level>
    ensures { result ≡ level_named word.now }
{
    match word {
        "gypsy" => Some(Level::Gypsy),
        "piton" => Some(Level::Piton),
        "fm9001" => Some(Level::Fm9001),
        _ => None,
    }
}

/// The level of a debug session.
#[tactic(auto, unfolding(crate::specs::CommandWords::debug_level))]
pub fn debug_level(words: &[String]) -> Result<(Level, &[String]), WordsFault>
    ensures { ReadsExactly (λ found. (found.0, spelled found.1.now)) result (debug_level (spelled words.now)) }
{
    let (word, rest) = first(words)?;
    match level_named(word) {
        Some(level) => Ok((level, rest)),
        None => Err(WordsFault::Usage),
    }
}

/// How many instructions a turn has: 1 to 2^40.
#[tactic(auto, unfolding(crate::specs::CommandWords::turn_length))]
pub fn turn_length(words: &[String]) -> Result<(TurnLength, &[String]), WordsFault>
    ensures { ReadsExactly (λ found. (found.0, spelled found.1.now)) result (turn_length (spelled words.now)) }
{
    let (word, rest) = first(words)?;
    match TurnLength::read(word) {
        Some(length) => Ok((length, rest)),
        None => Err(WordsFault::Usage),
    }
}

/// The names of a task's files.
#[tactic(auto, unfolding(crate::specs::CommandWords::task))]
fn task<H: Heap>(heap: H, words: &[String]) -> Result<(TaskFiles, &[String]), WordsFault>
    ensures { ReadsWordsUnless (H.may_refuse heap)
        (λ found. (found.0, spelled found.1.now)) result (task (spelled words.now)) }
{
    let (source, rest) = file(heap, words)?;
    let (values, rest) = file(heap, rest)?;
    Ok((TaskFiles { source, values }, rest))
}

/// The tasks that are all of the words: one or more, and at most so many.
fn tasks_within<H: Heap>(heap: H, most: u32, words: &[String]) -> Result<Seq<TaskFiles>, WordsFault>
    ensures { ReadsWordsUnless (H.may_refuse heap) (λ tasks. tasks) result (tasks_within most (spelled words.now)) }
{
    let mut tasks = Seq::new(heap.handle());
    let mut rest = words;
    for _ in 0..most {
        let (read, after) = task(heap, rest)?;
        tasks.push(heap, read)?;
        if after.is_empty() {
            return Ok(tasks);
        }
        rest = after;
    }
    Err(WordsFault::Usage)
}

/// One to eight tasks, which are all of the words.
#[tactic(auto, unfolding(crate::specs::CommandWords::tasks))]
pub fn tasks<H: Heap>(heap: H, words: &[String]) -> Result<(Seq<TaskFiles>, &[String]), WordsFault>
    ensures { ReadsWordsUnless (H.may_refuse heap)
        (λ found. (found.0, spelled found.1.now)) result (tasks (spelled words.now)) }
{
    Ok((tasks_within(heap, MOST_TASKS, words)?, &[]))
}

/// No further word.
#[tactic(auto, unfolding(crate::specs::CommandWords::end))]
pub fn end(words: &[String]) -> Result<(), WordsFault>
    ensures { ReadsExactly (λ found. found) result (end (spelled words.now)) }
{
    match words {
        [] => Ok(()),
        [_word, _rest @ ..] => Err(WordsFault::Usage),
    }
}

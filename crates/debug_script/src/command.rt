//! Commands.

ghost use Rattle.std.specs.{Prelude.{◌≡◌, ◌∷◌, ◌<◌, ◌≤◌, IfSome, drop, length, map}, List.{position}, Option.{option_copied, option_map}};
ghost use Rattle.debug_script.specs.Commands.{GivesCommandUnless, GivesPlaceUnless, command_by, command_of, count_of, depth_behind, number_of, place_in};
ghost use Rattle.debug_script.specs.Commands.{place_of, show_word, until_instruction, until_word, verb_of, watch_of, words_command, GivesLastUnless};
ghost use Rattle.debug_script.specs.Commands.{SplitsAtOr, is_or, last_instruction, last_place, place_from, until_any, until_command, until_one};
ghost use Rattle.debug_script.specs.declared.command.Verb.TheVariants as verb;

use crate::fault::{LineFault, ScriptRule};
use stack_heap::Heap;
use stack_text::{MOST_STEPS, Name, is_digits, read_name, read_numeral};
use std::marker::Model;

/// The most words of memory that a line asks for.
const MOST_WORDS: u32 = 4_096;

/// A watch, as a script names it.
#[derive(Clone, Copy, Debug, PartialEq, Eq)]
pub enum WatchWord {
    /// `count`: how many steps were made while it was attached.
    Count,
    /// `cost`: what these steps cost together, in instructions of the processor.
    Cost,
    /// `last`: the places of the latest of these steps, at most eight.
    Last,
    /// `peak`: the greatest depth before one of these steps.
    Peak,
}

/// A place of a run, as `show` has it; or a depth.
#[derive(Debug, Drop, PartialEq, Eq)]
pub enum Place {
    /// A byte of the source, or an address of the processor's memory.
    Number { number: u32 },
    /// An instruction of a program of Piton, from 0.
    Instruction { program: Name, place: u32 },
    /// Wherever at most so many activations are left, or frames of Piton.
    Depth { most: u32 },
}

/// Several places of a run. Contracts see them as a list.
#[derive(Debug, Drop)]
pub struct Places {
    places: Vec<Place>,
}

impl Model for Places {
    ghost use Rattle.std.specs.Prelude.{List};
    ghost use Rattle.debug_script.specs.declared.command.Place.{Place};

    ghost Value = { List Place };

    ghost view = { λ p. p.places.items };
}

impl Places {
    ghost use Rattle.std.specs.Prelude.{◌≡◌};

    /// The places, in the order of the script.
    pub fn as_slice(&self) -> &[Place]
        ensures { result.now ≡ self.now }
    {
        self.places.as_slice()
    }
}

/// A command of a script.
#[derive(Debug, Drop)]
pub enum Command {
    /// Makes at most so many steps: 0 to 2^40.
    Step { count: u64 },
    /// Says what the run shows at its own level.
    Show,
    /// Says that, and then the same of each activation that waits.
    ShowAll,
    /// Says what is known of the variables of the source.
    Up,
    /// Attaches the first watch of the kind that waits; it is notified of each step from here on.
    Attach { watch: WatchWord },
    /// Says what the first attached watch of the kind has kept, and takes it away.
    Detach { watch: WatchWord },
    /// Says what the first attached watch of the kind has kept, which stays attached.
    Tally { watch: WatchWord },
    /// Says so many words of the processor's memory, from an address on: 0 to 4,096.
    Words { address: u32, count: u32 },
    /// Goes on to where the run first stands at a place, in at most so many steps: 0 to 2^40.
    Until { place: Place, limit: u64 },
    /// Goes on to where the run first stands at one of these places, in at most so many steps: 0 to 2^40.
    UntilAny { places: Places, limit: u64 },
}

/// The first word of a command.
#[derive(Clone, Copy, Debug, PartialEq, Eq)]
enum Verb {
    Step,
    Show,
    Up,
    Attach,
    Detach,
    Words,
    Until,
    Tally,
}

/// The verb that a word is.
#[tactic(auto, unfolding(crate::specs::Commands::verb_of))]
fn verb_of(word: &[u8]) -> Option<Verb>
    ensures { result ≡ verb_of word.now }
{
    if word == b"step".as_slice() {
        Some(Verb::Step)
    } else if word == b"show".as_slice() {
        Some(Verb::Show)
    } else if word == b"up".as_slice() {
        Some(Verb::Up)
    } else if word == b"attach".as_slice() {
        Some(Verb::Attach)
    } else if word == b"detach".as_slice() {
        Some(Verb::Detach)
    } else if word == b"words".as_slice() {
        Some(Verb::Words)
    } else if word == b"until".as_slice() {
        Some(Verb::Until)
    } else if word == b"tally".as_slice() {
        Some(Verb::Tally)
    } else {
        None
    }
}

/// The watch that a word is.
#[tactic(auto, unfolding(crate::specs::Commands::watch_of))]
fn watch_of(word: &[u8]) -> Result<WatchWord, ScriptRule>
    ensures { result ≡ watch_of word.now }
{
    if word == b"count".as_slice() {
        Ok(WatchWord::Count)
    } else if word == b"cost".as_slice() {
        Ok(WatchWord::Cost)
    } else if word == b"last".as_slice() {
        Ok(WatchWord::Last)
    } else if word == b"peak".as_slice() {
        Ok(WatchWord::Peak)
    } else {
        Err(ScriptRule::Argument)
    }
}

/// The number of steps that a word spells in decimal.
#[tactic(auto, unfolding(crate::specs::Commands::number_of))]
fn count_of(word: &[u8]) -> Result<u64, ScriptRule>
    ensures { result ≡ count_of word.now }
{
    if !is_digits(word) {
        return Err(ScriptRule::Argument);
    }
    match read_numeral(word) {
        Some(number) if 0 <= number && number <= i128::from(MOST_STEPS) => Ok(number as u64),
        _ => Err(ScriptRule::Argument),
    }
}

/// The number that a word spells in decimal, of at most this size.
#[tactic(auto, unfolding(crate::specs::Commands::number_of))]
fn number_of(word: &[u8], most: u32) -> Result<u32, ScriptRule>
    ensures { result ≡ number_of most word.now }
{
    if !is_digits(word) {
        return Err(ScriptRule::Argument);
    }
    match read_numeral(word) {
        Some(number) if 0 <= number && number <= i128::from(most) => Ok(number as u32),
        _ => Err(ScriptRule::Argument),
    }
}

/// The command of `words`, by its two arguments.
fn words_command(address: &[u8], count: &[u8]) -> Result<Command, ScriptRule>
    ensures { result ≡ words_command address.now count.now }
{
    Ok(Command::Words {
        address: number_of(address, u32::MAX)?,
        count: number_of(count, MOST_WORDS)?,
    })
}

/// The place in a program that two words name.
fn place_of<H: Heap>(heap: H, program: &[u8], place: &[u8]) -> Result<Place, LineFault>
    ensures { GivesPlaceUnless (H.may_refuse heap) result (place_of program.now place.now) }
{
    let Some(program) = read_name(heap, program)? else {
        return Err(LineFault::Rule(ScriptRule::Argument));
    };
    Ok(Place::Instruction {
        program,
        place: number_of(place, u32::MAX)?,
    })
}

/// What stands behind `depth<=` in a word that begins so.
#[tactic(auto, unfolding(crate::specs::Commands::depth_behind))]
fn depth_behind(word: &[u8]) -> Option<&[u8]>
    ensures { option_copied result ≡ depth_behind word.now }
{
    word.strip_prefix(b"depth<=")
}

/// The place that one word names: a depth, or a number.
fn place_in(word: &[u8]) -> Result<Place, ScriptRule>
    ensures { result ≡ place_in word.now }
{
    match depth_behind(word) {
        Some(most) => Ok(Place::Depth {
            most: number_of(most, u32::MAX)?,
        }),
        None => Ok(Place::Number {
            number: number_of(word, u32::MAX)?,
        }),
    }
}

/// The command of `until` with one word as its place.
fn until_word(word: &[u8], limit: &[u8]) -> Result<Command, ScriptRule>
    ensures { result ≡ until_word word.now limit.now }
{
    Ok(Command::Until {
        place: place_in(word)?,
        limit: count_of(limit)?,
    })
}

/// The command of `until` with an instruction as its place.
fn until_instruction<H: Heap>(
    heap: H,
    program: &[u8],
    number: &[u8],
    limit: &[u8],
) -> Result<Command, LineFault>
    ensures { GivesCommandUnless (H.may_refuse heap) result (until_instruction program.now number.now limit.now) }
{
    Ok(Command::Until {
        place: place_of(heap, program, number)?,
        limit: count_of(limit)?,
    })
}

/// The command of `show` with a word.
fn show_word(word: &[u8]) -> Result<Command, ScriptRule>
    ensures { result ≡ show_word word.now }
{
    if word == b"all".as_slice() {
        Ok(Command::ShowAll)
    } else {
        Err(ScriptRule::WordCount)
    }
}

/// The command of `words`, by its address and what stands behind that.
fn words_from(address: &[u8], rest: &[&[u8]]) -> Result<Command, ScriptRule>
    ensures { result ≡ command_by verb.Words (address.now ∷ map (λ word. word.now) rest.now) }
{
    match rest {
        [count] => words_command(address, count),
        _ => Err(ScriptRule::WordCount),
    }
}

/// Whether a word stands between two places.
fn is_or(word: &[u8]) -> bool
    ensures { result ≡ is_or word.now }
{
    word == b"or".as_slice()
}

/// The place of the first word `or`.
fn first_or(words: &[&[u8]]) -> Option<usize>
    ensures place { result ≡ position (λ word. is_or word.now) words.now }
    ensures within { IfSome result (λ place. place < length words.now) }
{
    words.iter().position(|word| is_or(word))
}

/// The words from a place to the next `or`, and the place behind that, if there is one.
fn part_from<'a, 'b>(words: &'a [&'b [u8]], start: usize) -> Option<(&'a [&'b [u8]], usize)>
    requires { start ≤ length words.now }
    ensures parts { SplitsAtOr (map (λ word. word.now) (drop start words.now)) (option_map (λ found.
        (map (λ word. word.now) found.0.now, map (λ word. word.now) (drop found.1 words.now))) result) }
    ensures within { IfSome result (λ found. (start < found.1) × (found.1 ≤ length words.now)) }
{
    match first_or(&words[start..]) {
        Some(end) => Some((&words[start..start + end], start + end + 1)),
        None => None,
    }
}

/// The place that words name.
fn place_from<H: Heap>(heap: H, words: &[&[u8]]) -> Result<Place, LineFault>
    ensures { GivesPlaceUnless (H.may_refuse heap) result (place_from (map (λ word. word.now) words.now)) }
{
    match words {
        [word] => Ok(place_in(word)?),
        [program, number] => place_of(heap, program, number),
        _ => Err(LineFault::Rule(ScriptRule::WordCount)),
    }
}

/// An instruction with the number of steps behind it.
fn last_instruction<H: Heap>(
    heap: H,
    program: &[u8],
    number: &[u8],
    limit: &[u8],
) -> Result<(Place, u64), LineFault>
    ensures { GivesLastUnless (H.may_refuse heap) result (last_instruction program.now number.now limit.now) }
{
    Ok((place_of(heap, program, number)?, count_of(limit)?))
}

/// The same, by the first two of the words and what stands behind those.
fn last_place_by<H: Heap>(
    heap: H,
    first: &[u8],
    second: &[u8],
    rest: &[&[u8]],
) -> Result<(Place, u64), LineFault>
    ensures { GivesLastUnless (H.may_refuse heap) result
        (last_place (first.now ∷ second.now ∷ map (λ word. word.now) rest.now)) }
{
    match rest {
        [] => Ok((place_in(first)?, count_of(second)?)),
        [limit] => last_instruction(heap, first, second, limit),
        _ => Err(LineFault::Rule(ScriptRule::WordCount)),
    }
}

/// The place that words name, with the number of steps behind it.
fn last_place<H: Heap>(heap: H, words: &[&[u8]]) -> Result<(Place, u64), LineFault>
    ensures { GivesLastUnless (H.may_refuse heap) result (last_place (map (λ word. word.now) words.now)) }
{
    match words {
        [first, second, rest @ ..] => last_place_by(heap, first, second, rest),
        _ => Err(LineFault::Rule(ScriptRule::WordCount)),
    }
}

/// The command of `until` with several places.
fn until_any<H: Heap>(heap: H, words: &[&[u8]]) -> Result<Command, LineFault>
    ensures { GivesCommandUnless (H.may_refuse heap) result (until_any (map (λ word. word.now) words.now)) }
{
    let mut places = Vec::new(heap.handle());
    let mut start = 0;
    while let Some((part, behind)) = part_from(words, start) {
        heap.push(&mut places, place_from(heap, part)?)?;
        start = behind;
    }
    let (place, limit) = last_place(heap, &words[start..])?;
    heap.push(&mut places, place)?;
    Ok(Command::UntilAny {
        places: Places { places },
        limit,
    })
}

/// The command of `until` with one place, by its first two words and what stands behind those.
fn until_both<H: Heap>(
    heap: H,
    first: &[u8],
    second: &[u8],
    rest: &[&[u8]],
) -> Result<Command, LineFault>
    ensures { GivesCommandUnless (H.may_refuse heap) result
        (until_one (first.now ∷ second.now ∷ map (λ word. word.now) rest.now)) }
{
    match rest {
        [] => Ok(until_word(first, second)?),
        [limit] => until_instruction(heap, first, second, limit),
        _ => Err(LineFault::Rule(ScriptRule::WordCount)),
    }
}

/// The command of `until` with one place.
fn until_one<H: Heap>(heap: H, words: &[&[u8]]) -> Result<Command, LineFault>
    ensures { GivesCommandUnless (H.may_refuse heap) result (until_one (map (λ word. word.now) words.now)) }
{
    match words {
        [first, second, rest @ ..] => until_both(heap, first, second, rest),
        _ => Err(LineFault::Rule(ScriptRule::WordCount)),
    }
}

/// The command of `until`: one place has at most two words.
fn until_from<H: Heap>(heap: H, words: &[&[u8]]) -> Result<Command, LineFault>
    ensures { GivesCommandUnless (H.may_refuse heap) result (until_command (map (λ word. word.now) words.now)) }
{
    if words.len() > 3 {
        until_any(heap, words)
    } else {
        until_one(heap, words)
    }
}

/// The command of words, or the rule that they break.
pub(crate) fn command_of<H: Heap>(heap: H, words: &[&[u8]]) -> Result<Command, LineFault>
    ensures { GivesCommandUnless (H.may_refuse heap) result (command_of (map (λ word. word.now) words.now)) }
{
    match words {
        [verb, arguments @ ..] => match verb_of(verb) {
            Some(verb) => command_by(heap, verb, arguments),
            None => Err(LineFault::Rule(ScriptRule::UnknownCommand)),
        },
        [] => Err(LineFault::Rule(ScriptRule::UnknownCommand)),
    }
}

/// The command of a verb and the words behind it.
fn command_by<H: Heap>(heap: H, verb: Verb, arguments: &[&[u8]]) -> Result<Command, LineFault>
    ensures { GivesCommandUnless (H.may_refuse heap) result (command_by verb (map (λ word. word.now) arguments.now)) }
{
    match (verb, arguments) {
        (Verb::Step, [count]) => Ok(Command::Step {
            count: count_of(count)?,
        }),
        (Verb::Show, []) => Ok(Command::Show),
        (Verb::Show, [word]) => Ok(show_word(word)?),
        (Verb::Up, []) => Ok(Command::Up),
        (Verb::Attach, [watch]) => Ok(Command::Attach {
            watch: watch_of(watch)?,
        }),
        (Verb::Detach, [watch]) => Ok(Command::Detach {
            watch: watch_of(watch)?,
        }),
        (Verb::Tally, [watch]) => Ok(Command::Tally {
            watch: watch_of(watch)?,
        }),
        (Verb::Words, [address, rest @ ..]) => Ok(words_from(address, rest)?),
        (Verb::Until, words) => until_from(heap, words),
        _ => Err(LineFault::Rule(ScriptRule::WordCount)),
    }
}

//! A run at one of the levels.

use crate::advance::Advance;
use crate::fm_level::FmLevel;
use crate::gypsy_level::GypsyLevel;
use crate::piton_level::PitonLevel;
use crate::runner::Runner;
use debug_script::Place;
use stack_heap::Heap;
use stack_text::{Memory, Name};

/// A run at one of the levels.
#[derive(Drop)]
pub(crate) enum Level {
    Gypsy(GypsyLevel),
    Piton(PitonLevel),
    Fm(FmLevel),
}

impl Level {
    ghost use Rattle.std.specs.{Prelude.{◌≡◌, IfOk, OnErr}, Option.{option_map}};
    ghost use Rattle.stack_heap.specs.Heaps.{IfOkUnless};
    ghost use Rattle.level_debuggers.specs.Levels.{IsRunner, level_of, next_of, has_all, has_places, program_named, show_text, stands_at, stands_at_one};
    ghost use Rattle.level_debuggers.specs.{Levels.{all_text, up_text, words_text}, Views.Belonging.{IsLevel, level_seen}, Steps.{IsAdvance, is_over}};

    /// The level of a runner. The only error is out of memory.
    pub(crate) fn new<H: Heap>(heap: H, runner: Runner) -> Result<Level, Memory>
        requires { IsRunner runner }
        ensures seen { IfOkUnless (H.may_refuse heap) result (λ level. level_seen level ≡ level_of runner) }
        ensures is { IfOk result IsLevel }
    {
        Ok(match runner {
            Runner::Gypsy {
                accepted,
                needs,
                meaning,
            } => Level::Gypsy(GypsyLevel {
                accepted,
                needs,
                meaning,
            }),
            Runner::Piton {
                checked,
                image,
                state,
            } => Level::Piton(PitonLevel::new(heap, checked, image, state)?),
            Runner::Fm { image, machine } => Level::Fm(FmLevel::new(image, machine)),
        })
    }

    /// The run as a session takes it.
    pub(crate) fn into_runner(self) -> Runner
        ensures level { level_of result ≡ level_seen self }
        ensures is { IsLevel self → IsRunner result }
    {
        match self {
            Level::Gypsy(
                GypsyLevel {
                    accepted,
                    needs,
                    meaning,
                },
            ) => Runner::Gypsy {
                accepted,
                needs,
                meaning,
            },
            Level::Piton(level) => level.into_runner(),
            Level::Fm(level) => level.into_runner(),
        }
    }

    /// Whether the end is reached.
    pub(crate) fn is_over(&self) -> bool
        ensures { result ≡ is_over (next_of (level_seen self.now)) }
    {
        match self {
            Level::Gypsy(level) => level.is_over(),
            Level::Piton(level) => level.is_over(),
            Level::Fm(level) => level.is_over(),
        }
    }

    /// Makes a step. Where memory runs out nothing has changed.
    pub(crate) fn advance<H: Heap>(&mut self, heap: H) -> Result<Advance, Memory>
        requires { IsLevel self.old }
        ensures step { IfOkUnless (H.may_refuse heap) result
            (IsAdvance next_of (level_seen self.old) (level_seen self.new)) }
        ensures unchanged { OnErr result (level_seen self.new ≡ level_seen self.old) }
        ensures is { IsLevel self.new }
    {
        match self {
            Level::Gypsy(level) => level.advance(heap),
            Level::Piton(level) => Ok(level.advance()),
            Level::Fm(level) => Ok(level.advance()),
        }
    }

    /// The name of the program at a position, in a run of Piton's machine.
    pub(crate) fn program_name(&self, program: u32) -> Option<&Name>
        ensures { option_map (λ name. name.now) result ≡ program_named (level_seen self.now) program }
    {
        match self {
            Level::Piton(level) => Some(level.program_name(program)),
            Level::Gypsy(_) | Level::Fm(_) => None,
        }
    }

    /// What is shown of the run, after so many steps of its session.
    pub(crate) fn show<H: Heap>(&self, heap: H, steps: u64) -> Result<Vec<u8>, Memory>
        requires { IsLevel self.now }
        ensures { IfOkUnless (H.may_refuse heap) result (λ text. text.items ≡ show_text (level_seen self.now) steps) }
    {
        match self {
            Level::Gypsy(level) => level.show(heap),
            Level::Piton(level) => level.show(heap),
            Level::Fm(level) => level.show(heap, steps),
        }
    }

    /// That, and what is shown of all that wait for a call, of a run that keeps them.
    pub(crate) fn show_all<H: Heap>(&self, heap: H) -> Result<Option<Vec<u8>>, Memory>
        requires { IsLevel self.now }
        ensures { IfOkUnless (H.may_refuse heap) result (λ text.
            option_map (λ t. t.items) text ≡ all_text (level_seen self.now)) }
    {
        match self {
            Level::Gypsy(level) => Ok(Some(level.show_all(heap)?)),
            Level::Piton(level) => Ok(Some(level.show_all(heap)?)),
            Level::Fm(_) => Ok(None),
        }
    }

    /// What is known of the variables of the source.
    pub(crate) fn up<H: Heap>(&self, heap: H) -> Result<Vec<u8>, Memory>
        ensures { IfOkUnless (H.may_refuse heap) result (λ text. text.items ≡ up_text (level_seen self.now)) }
    {
        match self {
            Level::Gypsy(_level) => GypsyLevel::up(heap),
            Level::Piton(level) => level.up(heap),
            Level::Fm(level) => level.up(heap),
        }
    }

    /// Whether runs of the level stand at such places.
    pub(crate) fn has_places(&self, place: &Place) -> bool
        ensures { result ≡ has_places (level_seen self.now) place.now }
    {
        match (self, place) {
            (Level::Piton(_), Place::Instruction { .. }) => true,
            (Level::Gypsy(_) | Level::Fm(_), Place::Number { .. }) => true,
            (Level::Gypsy(_) | Level::Piton(_), Place::Depth { .. }) => true,
            _ => false,
        }
    }

    /// Whether the run stands at a place.
    pub(crate) fn stands_at(&self, place: &Place) -> bool
        requires { IsLevel self.now }
        ensures { result ≡ stands_at place.now (level_seen self.now) }
    {
        match (self, place) {
            (Level::Gypsy(level), Place::Number { number }) => level.stands_at(*number),
            (Level::Piton(level), Place::Instruction { program, place }) => {
                level.stands_at(program, *place)
            }
            (Level::Fm(level), Place::Number { number }) => level.stands_at(*number),
            (Level::Gypsy(level), Place::Depth { most }) => level.is_within(*most),
            (Level::Piton(level), Place::Depth { most }) => level.is_within(*most),
            _ => false,
        }
    }

    /// Whether runs of the level stand at such places, all of them.
    pub(crate) fn has_all(&self, places: &[Place]) -> bool
        ensures { result ≡ has_all (level_seen self.now) places.now }
    {
        places.iter().all(|place| self.has_places(place))
    }

    /// Whether the run stands at one of these places.
    pub(crate) fn stands_at_one(&self, places: &[Place]) -> bool
        requires { IsLevel self.now }
        ensures { result ≡ stands_at_one places.now (level_seen self.now) }
    {
        for place in places {
            if self.stands_at(place) {
                return true;
            }
        }
        false
    }

    /// So many words of memory from an address on, as lines, of a run that has one.
    pub(crate) fn words<H: Heap>(
        &self,
        heap: H,
        address: u32,
        count: u32,
    ) -> Result<Option<Vec<u8>>, Memory>
        ensures { IfOkUnless (H.may_refuse heap) result (λ text.
            option_map (λ t. t.items) text ≡ words_text (level_seen self.now) address count) }
    {
        match self {
            Level::Fm(level) => Ok(Some(level.words(heap, address, count)?)),
            Level::Gypsy(_) | Level::Piton(_) => Ok(None),
        }
    }
}

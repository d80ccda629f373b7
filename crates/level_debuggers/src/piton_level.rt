//! A run of Piton's machine.

use crate::advance::{Advance, Stop};
use crate::piton_listing::{piton_listing, piton_listing_all};
use crate::piton_reading::{area_words, condition, covers_all, variables};
use crate::piton_standing::PitonAt;
use crate::runner::Runner;
use crate::texts::{mark_text, no_mark, reading_text};
use crate::watch::Event;
use display_maps::{Reading, read_from};
use fm_image::Image;
use piton_check::{Checked, program_name};
use piton_linker::PlacedSystem;
use piton_machine::State;
use piton_semantics::Stepped;
use piton_words::Word;
use stack_heap::Heap;
use stack_text::{Memory, Name};
use std::marker::Model;

/// A state of a run of a system, and the image of the system. The system's addresses are made once, and serve each reading.
#[derive(Drop)]
pub(crate) struct PitonLevel {
    placed: PlacedSystem,
    image: Image,
    state: State,
}

impl Model for PitonLevel {
    ghost use Rattle.piton_semantics.specs.{Fits.{system_in}, StateView.{IsSeen}};
    ghost use Rattle.level_debuggers.specs.PitonLevels.{PitonLevelOf};

    ghost Value = { PitonLevelOf };

    ghost view = { λ level. record { checked = level.placed; image = level.image; seen = level.state } };

    ghost invariant = { λ level. IsSeen (system_in level.placed) level.state };
}

impl PitonLevel {
    ghost use Rattle.std.specs.Prelude.{◌≡◌, ◌≤◌, ◌^◌, slice_get};
    ghost use Rattle.stack_heap.specs.Heaps.{IfOkUnless};
    ghost use Rattle.piton_semantics.specs.{Addresses.{numbers}, Fits.{Each, IsWordOf, system_in}, StateView.{IsSeen}, Placed.{address_of_place, placed}};
    ghost use Rattle.piton_semantics.specs.{Placed.{addresses_of, areas_start}, State.{locals_of}};
    ghost use Rattle.piton_check.specs.NamedWords.{program_name_at};
    ghost use Rattle.level_debuggers.specs.{Steps.{IsAdvance}, Levels.{IsRunner, Piton, level_of}, PitonLevels.{piton_listing, piton_listing_all, piton_next}};
    ghost use Rattle.level_debuggers.specs.{PitonLevels.{piton_over, piton_stands, piton_within}, PitonReadings.{area_words, element_numbers, is_covered}};
    ghost use Rattle.level_debuggers.specs.{PitonReadings.{piton_at, piton_end, piton_reading_of, piton_up}, Standings.{standing_of}};

    /// The level of a run, with its system's addresses. The only error is out of memory.
    pub(crate) fn new<H: Heap>(
        heap: H,
        checked: Checked,
        image: Image,
        state: State,
    ) -> Result<PitonLevel, Memory>
        requires seen { IsSeen (system_in checked) state }
        requires small { (placed (system_in checked)).size ≤ 2 ^ 20 }
        ensures { IfOkUnless (H.may_refuse heap) result
            (λ level. level ≡ record { checked = checked; image = image; seen = state }) }
    {
        let Ok(placed) = PlacedSystem::new(heap, checked) else {
            drop((image, state));
            return Err(Memory);
        };
        Ok(PitonLevel {
            placed,
            image,
            state,
        })
    }

    /// The run as a session takes it.
    pub(crate) fn into_runner(self) -> Runner
        ensures level { level_of result ≡ Piton self }
        ensures is { IsRunner result }
    {
        Runner::Piton {
            checked: self.placed.into_checked(),
            image: self.image,
            state: self.state,
        }
    }

    /// Whether the end is reached.
    pub(crate) fn is_over(&self) -> bool
        ensures { result ≡ piton_over self.now }
    {
        self.state.frames() == 0
    }

    /// Makes a step.
    pub(crate) fn advance(&mut self) -> Advance
        ensures { IsAdvance piton_next self.old self.new result }
    {
        let depth = self.state.frames();
        if depth == 0 {
            return Advance::Over;
        }
        let (program, place) = self.state.at();
        let cost = self.state.step_cost(self.placed.checked());
        match self.state.step(self.placed.checked()) {
            Stepped::Error(kind) => Advance::Stops(Stop::Error {
                kind,
                program,
                place,
            }),
            _ => Advance::Makes(Event { place, depth, cost }),
        }
    }

    /// The name of the program at a position.
    pub(crate) fn program_name(&self, program: u32) -> &Name
        ensures { result.now ≡ program_name_at self.now.checked.system program }
    {
        program_name(self.placed.checked().system(), program)
    }

    /// Whether this instruction of the program of a name is the next one.
    pub(crate) fn stands_at(&self, program: &Name, place: u32) -> bool
        ensures { result ≡ piton_stands self.now program.now place }
    {
        let (here, next) = self.state.at();
        !self.is_over() && self.program_name(here) == program && next == place
    }

    /// Whether a frame is left, and at most so many are.
    pub(crate) fn is_within(&self, most: u32) -> bool
        ensures { result ≡ piton_within self.now most }
    {
        !self.is_over() && self.state.frames() <= most
    }

    /// The place, the locals of the newest frame, and the stack, as lines.
    pub(crate) fn show<H: Heap>(&self, heap: H) -> Result<Vec<u8>, Memory>
        ensures { IfOkUnless (H.may_refuse heap) result
            (λ text. text.items ≡ piton_listing self.now.checked.system self.now.seen.state) }
    {
        piton_listing(heap, self.placed.checked().system(), &self.state)
    }

    /// The same, and the locals of each frame that waits, as lines.
    pub(crate) fn show_all<H: Heap>(&self, heap: H) -> Result<Vec<u8>, Memory>
        ensures { IfOkUnless (H.may_refuse heap) result
            (λ text. text.items ≡ piton_listing_all self.now.checked.system self.now.seen.state) }
    {
        piton_listing_all(heap, self.placed.checked().system(), &self.state)
    }

    /// The numbers of the stack's elements, from the bottom up.
    fn elements<H: Heap>(&self, heap: H) -> Result<Vec<u32>, Memory>
        ensures { IfOkUnless (H.may_refuse heap) result (λ numbers. numbers.items
            ≡ element_numbers (system_in self.now.checked) self.now.seen.state) }
    {
        self.placed.numbers(heap, self.state.stack())
    }

    /// The numbers of the words of all areas, one area after the other.
    #[tactic(auto, using(crate::proofs::AreaLaws::few_areas, crate::proofs::AreaLaws::same_count))]
    fn area_numbers<H: Heap>(&self, heap: H) -> Result<Vec<u32>, Memory>
        ensures { IfOkUnless (H.may_refuse heap) result (λ made. made.items
            ≡ numbers (addresses_of (system_in self.now.checked)) (area_words self.now.seen.state)) }
    {
        let words = area_words(heap, self.placed.checked().resolved(), &self.state)?;
        self.placed.numbers(heap, &words)
    }

    /// Whether the stack has an element for each item of the image's slots.
    fn is_covered(&self, elements: &[u32]) -> bool
        requires { elements.now ≡ element_numbers (system_in self.now.checked) self.now.seen.state }
        ensures { result ≡ is_covered self.now }
    {
        covers_all(self.placed.layout().end, elements, &self.image.slots)
    }

    /// What the state says of the variables.
    fn reading<H: Heap>(&self, heap: H, elements: &[u32]) -> Result<Reading, Memory>
        requires { elements.now ≡ element_numbers (system_in self.now.checked) self.now.seen.state }
        ensures { IfOkUnless (H.may_refuse heap) result (λ read.
            read ≡ piton_reading_of (system_in self.now.checked) self.now.image self.now.seen.state) }
    {
        let layout = self.placed.layout();
        let areas = self.area_numbers(heap)?;
        Ok(Reading {
            condition: condition(
                heap,
                &self.image.conditions,
                self.image.condition_address,
                layout.areas_start,
                &areas,
            )?,
            items: variables(heap, layout.end, elements, &self.image.slots)?,
        })
    }

    /// At the end what the state says of the variables, as lines; where that cannot be read `no mark`.
    fn end<H: Heap>(&self, heap: H) -> Result<Vec<u8>, Memory>
        ensures { IfOkUnless (H.may_refuse heap) result (λ text. text.items ≡ piton_end self.now) }
    {
        let elements = self.elements(heap)?;
        if !self.is_covered(&elements) {
            return no_mark(heap);
        }
        let reading = self.reading(heap, &elements)?;
        reading_text(heap, &self.image, &reading)
    }

    /// The address of the state's place.
    pub(crate) fn address(&self) -> u32
        ensures { let state = self.now.seen.state in
            result ≡ address_of_place (system_in self.now.checked) state.program state.place }
    {
        let (program, place) = self.state.at();
        self.placed.number(Word::Pc { program, place })
    }

    /// The address at which the areas begin.
    pub(crate) fn areas_start(&self) -> u64
        ensures { result ≡ areas_start (system_in self.now.checked) }
    {
        self.placed.layout().areas_start
    }

    /// The number of the word at a place, where there is one.
    fn number_at(&self, words: &[Word], place: u64) -> Option<u32>
        requires { Each (IsWordOf (system_in self.now.checked)) words.now }
        ensures { result ≡ slice_get (numbers (addresses_of (system_in self.now.checked)) words.now) place }
    {
        let word = words.get(place as usize)?;
        Some(self.placed.number(*word))
    }

    /// The number of a local of the newest frame, where it has one at this offset.
    pub(crate) fn local(&self, offset: u32) -> Option<u32>
        ensures { let s = system_in self.now.checked in
            result ≡ slice_get (numbers (addresses_of s) (locals_of self.now.seen.state.frames)) offset }
    {
        self.number_at(self.state.locals(), u64::from(offset))
    }

    /// The number of the stack's element at a place from the bottom, where there is one.
    pub(crate) fn element(&self, place: u64) -> Option<u32>
        ensures { result ≡ slice_get (element_numbers (system_in self.now.checked) self.now.seen.state) place }
    {
        self.number_at(self.state.stack(), place)
    }

    /// Where the state stands.
    fn standing<'a, H: Heap>(&'a self, heap: H) -> Result<PitonAt<'a>, Memory>
        ensures { IfOkUnless (H.may_refuse heap) result
            (λ run. standing_of run ≡ piton_at (system_in self.now.checked) self.now.seen.state) }
    {
        Ok(PitonAt {
            level: self,
            areas: self.area_numbers(heap)?,
        })
    }

    /// What the state says of the variables, as lines: at the end of those of the image's slots, and before it of those of
    /// the procedure at whose mark it stands; elsewhere, and where that cannot be read, `no mark`.
    #[tactic(auto, unfolding(crate::specs::PitonReadings::piton_up))]
    pub(crate) fn up<H: Heap>(&self, heap: H) -> Result<Vec<u8>, Memory>
        ensures { IfOkUnless (H.may_refuse heap) result (λ text. text.items ≡ piton_up self.now) }
    {
        if self.is_over() {
            return self.end(heap);
        }
        let standing = self.standing(heap)?;
        mark_text(heap, read_from(heap, &standing, &self.image)?)
    }
}

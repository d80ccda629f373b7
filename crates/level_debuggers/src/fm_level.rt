//! A run of the processor.

ghost use Rattle.std.specs.Prelude.{◌≡◌, ◌++◌};
ghost use Rattle.stack_heap.specs.Heaps.{OnOkUnless};
ghost use Rattle.fm_show.specs.Digits.{hex_digits};
ghost use Rattle.level_debuggers.specs.FmLevels.{word_line};

use crate::advance::{Advance, Stop};
use crate::runner::Runner;
use crate::texts::{mark_text, reading_text};
use crate::watch::Event;
use display_maps::{read_at, read_up};
use fm_image::Image;
use fm_machine::{Machine, Outside};
use fm_show::{hex_digits, show_machine};
use stack_heap::Heap;
use stack_text::Memory;
use std::marker::Model;

/// Appends the eight digits of a word, and a text behind them.
fn push_digits<H: Heap>(heap: H, text: &mut Vec<u8>, word: u32, behind: &[u8]) -> Result<(), Memory>
    ensures { OnOkUnless (H.may_refuse heap) result (text.new.items ≡ text.old.items ++ hex_digits word ++ behind.now) }
{
    heap.extend_from_slice(text, &hex_digits(word))?;
    heap.extend_from_slice(text, behind)?;
    Ok(())
}

/// Appends the line of a word, or that the address is outside the window.
fn push_word<H: Heap>(
    heap: H,
    text: &mut Vec<u8>,
    address: u32,
    word: Option<u32>,
) -> Result<(), Memory>
    ensures { OnOkUnless (H.may_refuse heap) result (text.new.items ≡ text.old.items ++ word_line address word) }
{
    match word {
        Some(word) => {
            push_digits(heap, text, address, b" ")?;
            push_digits(heap, text, word, b"\n")
        }
        None => push_digits(heap, text, address, b" outside\n"),
    }
}

/// A machine that runs an image.
#[derive(Drop)]
pub(crate) struct FmLevel {
    image: Image,
    machine: Machine,
}

impl Model for FmLevel {
    ghost use Rattle.level_debuggers.specs.FmLevels.{FmLevelOf};

    ghost Value = { FmLevelOf };

    ghost view = { λ level. record { image = level.image; state = level.machine.state } };
}

impl FmLevel {
    ghost use Rattle.std.specs.Prelude.{◌≡◌};
    ghost use Rattle.stack_heap.specs.Heaps.{IfOkUnless};
    ghost use Rattle.fm_show.specs.Listing.{machine_listing};
    ghost use Rattle.level_debuggers.specs.{Steps.{IsAdvance}, FmLevels.{fm_depth, fm_event, fm_next, fm_over, fm_stands, fm_up, word_lines}, Levels.{Fm}};
    ghost use Rattle.level_debuggers.specs.Levels.{level_of};

    pub(crate) fn new(image: Image, machine: Machine) -> FmLevel
        ensures { result ≡ record { image = image; state = machine.state } }
    {
        FmLevel { image, machine }
    }

    /// The run as a session takes it.
    pub(crate) fn into_runner(self) -> Runner
        ensures { level_of result ≡ Fm self }
    {
        Runner::Fm {
            image: self.image,
            machine: self.machine,
        }
    }

    /// Whether the end is reached.
    pub(crate) fn is_over(&self) -> bool
        ensures { result ≡ fm_over self.now }
    {
        self.machine.register(15) == self.image.final_pc
    }

    /// How many words the temporary stack has; 0 where its pointer is outside the window.
    fn depth(&self) -> u32
        ensures { result ≡ fm_depth self.now }
    {
        let base = u64::from(self.image.base);
        let end = base + u64::from(self.image.size);
        let top = u64::from(self.machine.register(2));
        if base <= top && top <= end {
            (end - top) as u32
        } else {
            0
        }
    }

    /// The step that is next.
    fn event(&self) -> Event
        ensures { result ≡ fm_event self.now }
    {
        Event {
            place: self.machine.register(15),
            depth: self.depth(),
            cost: 1,
        }
    }

    /// Makes a step.
    pub(crate) fn advance(&mut self) -> Advance
        ensures { IsAdvance fm_next self.old self.new result }
    {
        if self.is_over() {
            return Advance::Over;
        }
        let event = self.event();
        match self.machine.step() {
            Ok(()) => Advance::Makes(event),
            Err(Outside { address }) => Advance::Stops(Stop::Outside { address }),
        }
    }

    /// The number of steps, the registers and the flags, as lines.
    pub(crate) fn show<H: Heap>(&self, heap: H, steps: u64) -> Result<Vec<u8>, Memory>
        ensures { IfOkUnless (H.may_refuse heap) result (λ text. text.items ≡ machine_listing self.now.state steps) }
    {
        show_machine(heap, &self.machine, steps)
    }

    /// Whether r15 has this address.
    pub(crate) fn stands_at(&self, address: u32) -> bool
        ensures { result ≡ fm_stands self.now address }
    {
        self.machine.register(15) == address
    }

    /// So many words of memory from an address on, as lines; behind the last address of 32 bits comes 0.
    pub(crate) fn words<H: Heap>(
        &self,
        heap: H,
        address: u32,
        count: u32,
    ) -> Result<Vec<u8>, Memory>
        ensures { IfOkUnless (H.may_refuse heap) result (λ text. text.items ≡ word_lines self.now.state address count) }
    {
        let mut text = Vec::new(heap.handle());
        for place in 0..count {
            let there = address.wrapping_add(place);
            push_word(heap, &mut text, there, self.machine.peek(there))?;
        }
        Ok(text)
    }

    /// What the memory says of the variables, as lines: at the end of those of the image's slots, and before it of those
    /// of the procedure at whose mark the machine stands; elsewhere `no mark`.
    pub(crate) fn up<H: Heap>(&self, heap: H) -> Result<Vec<u8>, Memory>
        ensures { IfOkUnless (H.may_refuse heap) result (λ text. text.items ≡ fm_up self.now) }
    {
        if !self.is_over() {
            return mark_text(heap, read_at(heap, &self.machine, &self.image)?);
        }
        let reading = read_up(heap, &self.machine, &self.image)?;
        reading_text(heap, &self.image, &reading)
    }
}

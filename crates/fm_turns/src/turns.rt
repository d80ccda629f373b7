//! Tasks that take turns.

ghost use Rattle.std.specs.{Prelude.{◌≡◌, ◌≤◌, ◌<◌, ℕ, length, map, slice_get, Some, IfOk, false}, List.{list_any}};
ghost use Rattle.stack_heap.specs.Heaps.{IfOkUnless};
ghost use Rattle.stack_text.specs.Gives.{GivesUnless};
ghost use Rattle.fm_machine.specs.State.{is_refused, zeroed};
ghost use Rattle.display_maps.specs.Reading.{reading};
ghost use Rattle.fm_turns.specs.{Windows.{words_in}, Turns.{round_of, AreWithin, images_of, states_of, IsPart}, Readings.{readings_of}};
ghost use Rattle.fm_turns.specs.{EqualTurns.{is_running, has_running}, Starting.{new_tasks, started, fault_of, AllFit}};

use crate::context::TaskContext;
use crate::copying::copy_window;
use crate::fault::TurnsFault;
use crate::round::Round;
use crate::starting::{first_base, load_tasks, window_size};
use crate::task::Task;
use crate::turning::go_round;
use display_maps::{Reading, read_up};
use fm_image::Image;
use fm_machine::{Machine, NewFault};
use stack_heap::Heap;
use stack_text::{Memory, Value};
use std::marker::Model;

/// Images that take turns in one memory, each with registers and flags of its own.
///
/// Contracts see it as a `TurnsOf`: the rounds that were made, the memory of all from its base on, and for each task its
/// image, its registers and flags, and how it stands.
#[derive(Drop)]
pub struct Turns {
    machine: Machine,
    rounds: u64,
    contexts: Vec<TaskContext>,
}

impl Model for Turns {
    ghost use Rattle.fm_turns.specs.Turns.{TurnsOf, AreParts};

    ghost Value = { TurnsOf };

    ghost view = { λ t. record {
      rounds = t.rounds;
      base = t.machine.state.base;
      memory = t.machine.state.memory;
      contexts = t.contexts.items;
    } };

    ghost invariant = { λ t. AreParts (record {
      rounds = t.rounds;
      base = t.machine.state.base;
      memory = t.machine.state.memory;
      contexts = t.contexts.items;
    }) };
}

/// A machine of zeros.
fn machine<H: Heap>(heap: H, base: u32, size: u32) -> Result<Machine, Memory>
    requires { is_refused base size ≡ false }
    ensures { IfOkUnless (H.may_refuse heap) result (λ machine. machine.state ≡ zeroed base size) }
{
    match Machine::new(heap, base, size) {
        Ok(machine) => Ok(machine),
        Err(NewFault::Memory) => Err(Memory),
        Err(NewFault::Size) => unreachable!(),
    }
}

/// What the words of an image's window say, read in a machine of its own.
fn read_window<H: Heap>(heap: H, machine: &Machine, image: &Image) -> Result<Reading, Memory>
    requires { IsPart machine.now.state.base (length machine.now.state.memory) image.now }
    ensures { IfOkUnless (H.may_refuse heap) result
        (λ read. read ≡ reading image.now (record (zeroed image.now.base image.now.size) {
          memory = words_in image.now.base image.now.size machine.now.state;
        })) }
{
    let mut own = self::machine(heap, image.base, image.size)?;
    copy_window(machine, &mut own, image.base, image.size);
    read_up(heap, &own, image)
}

/// Whether a task runs.
fn has_running(contexts: &[TaskContext]) -> bool
    ensures { result ≡ list_any is_running (map (λ context. context.state) contexts.now) }
{
    for context in contexts {
        if context.state.is_running() {
            return true;
        }
    }
    false
}

impl Turns {
    /// Images that take turns, each with values that fit its slots. Their windows lie side by side, and one machine has
    /// them all. A task that begins at its final program counter has ended.
    ///
    /// # Errors
    ///
    /// In this order: `Count`, exactly where there are not 1 to 8 tasks; `Apart`, exactly where a window doesn't begin
    /// where the one before it ends; `Size`, exactly where the windows have more than 2^20 words together. Out of memory
    /// comes only where the heap may refuse memory.
    pub fn new<H: Heap>(heap: H, tasks: Vec<(Image, Vec<Value>)>) -> Result<Turns, TurnsFault>
        requires { AllFit (new_tasks tasks.items) }
        ensures turns { GivesUnless (H.may_refuse heap) fault_of (λ turns. turns) result
            (started (new_tasks tasks.items)) }
        ensures images { IfOk result (λ turns. images_of turns ≡ map (λ task. task.0) tasks.items) }
        // A round with any budget may follow.
        ensures within { IfOk result (λ turns. (budget : ℕ) → AreWithin budget turns.contexts) }
    {
        let size = window_size(tasks.as_slice())?;
        let base = first_base(tasks.as_slice());
        let mut machine = machine(heap, base, size)?;
        let contexts = load_tasks(heap, &mut machine, tasks)?;
        Ok(Turns {
            machine,
            rounds: 0,
            contexts,
        })
    }

    /// Gives each running task, in order, `turn` instructions, or fewer where its budget leaves fewer or it comes to its
    /// final program counter. `turn` is at least 1, and no running task has made more instructions than `budget`.
    ///
    /// It takes no memory. Beside its instructions a turn costs a task's registers and flags, which are put into the machine
    /// and taken out again; no word of memory is moved.
    pub fn round(&mut self, turn: u64, budget: u64)
        requires some { 1 ≤ turn }
        requires within { AreWithin budget self.old.contexts }
        ensures turns { self.new ≡ round_of turn budget self.old }
        // The same images; and a next round with the budget may follow.
        ensures images { images_of self.new ≡ images_of self.old }
        ensures within { AreWithin budget self.new.contexts }
    {
        self.rounds = self.rounds.saturating_add(1);
        let round = Round {
            number: self.rounds,
            turn,
            budget,
        };
        go_round(&mut self.machine, self.contexts.as_mut_slice(), round);
    }

    /// Whether a task runs. Where none does, no further round changes how one stands.
    pub fn has_running(&self) -> bool
        ensures { result ≡ has_running self.now }
    {
        has_running(self.contexts.as_slice())
    }

    /// How the task `i` stands, counted from 0.
    pub fn task(&self, i: u32) -> Task
        requires { i < length self.now.contexts }
        ensures { slice_get (states_of self.now) i ≡ Some result }
    {
        match self.contexts.get(i as usize) {
            Some(context) => context.state,
            None => unreachable!(),
        }
    }

    /// The image of the task `i`, counted from 0.
    pub fn image(&self, i: u32) -> &Image
        requires { i < length self.now.contexts }
        ensures { slice_get (images_of self.now) i ≡ Some result.now }
    {
        match self.contexts.get(i as usize) {
            Some(context) => &context.image,
            None => unreachable!(),
        }
    }

    /// What the words of the task `i`, counted from 0, say: its condition and its variables. Its window is copied into a
    /// machine of its own, which is read.
    ///
    /// # Errors
    ///
    /// Out of memory.
    pub fn read<H: Heap>(&self, heap: H, i: u32) -> Result<Reading, Memory>
        requires { i < length self.now.contexts }
        ensures { IfOkUnless (H.may_refuse heap) result (λ read. slice_get (readings_of self.now) i ≡ Some read) }
    {
        match self.contexts.get(i as usize) {
            Some(context) => read_window(heap, &self.machine, &context.image),
            None => unreachable!(),
        }
    }
}

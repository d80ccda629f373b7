//! The state of a run.

ghost use Rattle.std.specs.{Prelude.{◌≡◌, ◌≤◌, [], IfOk, length, reverse, slice_get, slice_index_or}, Option.{option_map}};
ghost use Rattle.stack_heap.specs.Heaps.{IfOkUnless};
ghost use Rattle.piton_semantics.specs.{Fits.{Each, IsWellFormed, IsWordOf, system_in, IsInitialStack}, StateView.{IsSeen, seen_step, answer_of, left_of}};
ghost use Rattle.piton_semantics.specs.{StateView.{state_run, opening}, State.{locals_of}, Step.{step_cost}};
ghost use Rattle.piton_check.specs.Instruction.{system_view};
ghost use Rattle.piton_machine.specs.Stacked.{frame_seen};

use crate::areas::Areas;
use crate::frames::{FrameAt, Frames};
use crate::stack::Stack;
use piton_check::{Checked, Resolved};
use piton_semantics::{ErrorKind, PitonInstr, PitonRun, Stepped, instruction};
use piton_words::Word;
use stack_heap::Heap;
use stack_text::Memory;
use std::marker::Model;

/// The state of a run of a checked system.
///
/// No method but those that start it takes memory.
#[derive(Drop)]
pub struct State {
    pub(crate) program: u32,
    pub(crate) place: u32,
    pub(crate) frames: Frames,
    pub(crate) stack: Stack,
    pub(crate) areas: Areas,
    pub(crate) steps: u64,
    pub(crate) counted: u64,
}

impl Model for State {
    ghost use Rattle.piton_semantics.specs.StateView.{Seen};

    ghost Value = { Seen };

    ghost view = { λ m. record { state = record { program = m.program; place = m.place; frames = m.frames.frames; stack = m.stack.words; areas = m.areas }; ctrl = m.frames.room; temp = m.stack.room; steps = m.steps; counted = m.counted } };
}

impl State {
    /// The opening state of a system. All memory of its runs is taken here.
    #[tactic(auto, using(piton_semantics::proofs::SoundLaws::checked_known))]
    pub fn start<H: Heap>(heap: H, checked: &Checked) -> Result<State, Memory>
        ensures opening { IfOkUnless (H.may_refuse heap) result
            (λ v. v ≡ opening (system_in checked.now) (system_in checked.now).stack) }
        ensures fits { IfOk result (λ v. IsSeen (system_in checked.now) v) }
    {
        let resolved = checked.resolved();
        State::opened(heap, resolved, resolved.stack.as_slice())
    }

    /// The opening state of a system with another initial stack, from the bottom up: one that is as long as the system's, of
    /// words that name what there is.
    #[tactic(auto, using(piton_semantics::proofs::SoundLaws::checked_known, piton_semantics::proofs::SoundLaws::initial_room, piton_semantics::proofs::SoundLaws::initial_words))]
    pub fn start_with<H: Heap>(heap: H, checked: &Checked, stack: &[Word]) -> Result<State, Memory>
        requires { IsInitialStack (system_in checked.now) stack.now }
        ensures opening { IfOkUnless (H.may_refuse heap) result
            (λ v. v ≡ opening (system_in checked.now) stack.now) }
        ensures fits { IfOk result (λ v. IsSeen (system_in checked.now) v) }
    {
        State::opened(heap, checked.resolved(), stack)
    }

    /// One step. An error changes nothing, and a halted state stays as it is.
    #[tactic(auto, using(piton_semantics::proofs::SoundLaws::checked_known))]
    #[inline(never)]
    pub fn step(&mut self, checked: &Checked) -> Stepped
        requires { IsSeen (system_in checked.now) self.old }
        ensures answer { result ≡ answer_of (seen_step (system_in checked.now) self.old) }
        ensures left { self.new ≡ left_of self.old (seen_step (system_in checked.now) self.old) }
        ensures fits { IsSeen (system_in checked.now) self.new }
    {
        self.stepped(checked.resolved())
    }

    /// At most `limit` steps, until the state has halted or a step is refused.
    #[tactic(auto, using(piton_semantics::proofs::SoundLaws::checked_known))]
    pub fn run(&mut self, checked: &Checked, limit: u64) -> PitonRun
        requires { IsSeen (system_in checked.now) self.old }
        ensures ran { state_run (system_in checked.now) limit self.old ≡ record { run = result; seen = self.new } }
        ensures fits { IsSeen (system_in checked.now) self.new }
    {
        self.ran(checked.resolved(), limit)
    }

    /// What the next step costs, in instructions of the processor; 0 where the state has halted.
    #[tactic(auto, using(piton_semantics::proofs::SoundLaws::checked_known))]
    pub fn step_cost(&self, checked: &Checked) -> u64
        ensures { result ≡ step_cost (system_in checked.now) self.now.state }
    {
        self.next_cost(checked.resolved())
    }

    /// What the next step costs.
    fn next_cost(&self, checked: &Resolved) -> u64
        requires sound { IsWellFormed (system_view checked.now) }
        ensures { result ≡ step_cost (system_view checked.now) self.now.state }
    {
        if self.frames.len() == 0 {
            return 0;
        }
        match instruction(checked, self.program, self.place) {
            Some(instr) => self.cost(checked, PitonInstr::decode(instr)),
            None => 0,
        }
    }

    /// The opening state of a system with this initial stack, from the bottom up.
    fn opened<H: Heap>(heap: H, checked: &Resolved, stack: &[Word]) -> Result<State, Memory>
        requires sound { IsWellFormed (system_view checked.now) }
        requires room { length stack.now ≤ checked.now.temp }
        requires words { Each (IsWordOf (system_view checked.now)) stack.now }
        ensures opening { IfOkUnless (H.may_refuse heap) result
            (λ v. v ≡ opening (system_view checked.now) stack.now) }
        ensures fits { IfOk result (λ v. IsSeen (system_view checked.now) v) }
    {
        let areas = Areas::new(heap, checked.areas.as_slice())?;
        let mut frames = Frames::new(heap, checked.ctrl)?;
        let mut words = Stack::new(heap, checked.temp)?;
        let main = &checked.programs[checked.main as usize];
        frames.enter(&[], main.temporaries.as_slice(), checked.main, 0);
        words.push_all(stack);
        Ok(State {
            program: checked.main,
            place: 0,
            frames,
            stack: words,
            areas,
            steps: 0,
            counted: 0,
        })
    }

    /// One step.
    #[tactic(auto, unfolding(piton_semantics::specs::Views::then_on))]
    #[inline(always)]
    fn stepped(&mut self, checked: &Resolved) -> Stepped
        requires sound { IsWellFormed (system_view checked.now) }
        requires fits { IsSeen (system_view checked.now) self.old }
        ensures answer { result ≡ answer_of (seen_step (system_view checked.now) self.old) }
        ensures left { self.new ≡ left_of self.old (seen_step (system_view checked.now) self.old) }
        ensures fits { IsSeen (system_view checked.now) self.new }
    {
        if self.frames.len() == 0 {
            return Stepped::Halted;
        }
        let Some(instr) = instruction(checked, self.program, self.place) else {
            return Stepped::Error(ErrorKind::Range);
        };
        let next = PitonInstr::decode(instr);
        let cost = self.cost(checked, next);
        if let Err(kind) = self.act(checked, next) {
            return Stepped::Error(kind);
        }
        self.steps = self.steps.saturating_add(1);
        self.counted = self.counted.saturating_add(cost);
        if self.frames.len() == 0 {
            Stepped::Halted
        } else {
            Stepped::Next
        }
    }

    /// At most `limit` steps.
    #[inline(never)]
    fn ran(&mut self, checked: &Resolved, limit: u64) -> PitonRun
        requires sound { IsWellFormed (system_view checked.now) }
        requires fits { IsSeen (system_view checked.now) self.old }
        ensures ran { state_run (system_view checked.now) limit self.old ≡ record { run = result; seen = self.new } }
        ensures fits { IsSeen (system_view checked.now) self.new }
    {
        for _made in 0..limit {
            match self.stepped(checked) {
                Stepped::Next => {}
                Stepped::Halted => return PitonRun::Halted,
                Stepped::Error(kind) => return PitonRun::Error(kind),
            }
        }
        if self.frames.len() == 0 {
            PitonRun::Halted
        } else {
            PitonRun::Spent
        }
    }

    /// How many steps were made.
    pub fn steps(&self) -> u64
        ensures { result ≡ self.now.steps }
    {
        self.steps
    }

    /// What the steps cost.
    pub fn counted(&self) -> u64
        ensures { result ≡ self.now.counted }
    {
        self.counted
    }

    /// The program and the place.
    pub fn at(&self) -> (u32, u32)
        ensures { result ≡ (self.now.state.program, self.now.state.place) }
    {
        (self.program, self.place)
    }

    /// How many frames there are; none where the state has halted.
    pub fn frames(&self) -> u32
        ensures { result ≡ length self.now.state.frames }
    {
        self.frames.len() as u32
    }

    /// The temporary stack, from the bottom.
    pub fn stack(&self) -> &[Word]
        ensures { result.now ≡ reverse self.now.state.stack }
    {
        self.stack.words()
    }

    /// The locals of the newest frame, by offset.
    pub fn locals(&self) -> &[Word]
        ensures { result.now ≡ locals_of self.now.state.frames }
    {
        self.frames.locals()
    }

    /// A frame by its number, where the newest has 0; `None` exactly where there are no more frames.
    pub fn frame(&self, number: u32) -> Option<FrameAt<'_>>
        ensures { option_map frame_seen result ≡ slice_get self.now.state.frames number }
    {
        self.frames.frame(number as usize)
    }

    /// The words of an area.
    pub fn area(&self, area: u32) -> &[Word]
        ensures { result.now ≡ slice_index_or self.now.state.areas area [] }
    {
        self.areas.words(area)
    }
}

//! What a step does at the end of a procedure for which another waits.

ghost use Rattle.std.specs.{Prelude.{◌≡◌, ◌<◌, ◌++◌, ◌∷◌, [], get_or, map, IfErr, MatchBool}, Vec.{vec_len, vec_capacity}};
ghost use Rattle.stack_heap.specs.Heaps.{IfOkUnless};
ghost use Rattle.gypsy_space.specs.{Events.{AreSmall}, Nodes.{seen_cond, seen_program}};
ghost use Rattle.gypsy_syntax.specs.Programs.{Routine};
ghost use Rattle.gypsy_semantics.specs.Calls.{matching};
ghost use Rattle.gypsy_meaning.specs.{Internal.Entering.{IsUnchanged}, Internal.Returning.{Resumes, out_price}, Internal.Turns.{Leaves}, Views.Held.{Moves}};
ghost use Rattle.gypsy_meaning.specs.{Views.Running.{paid}, Views.Work.{work_of}};

use crate::copying::copy_out;
use crate::running::{Frame, Meaning};
use gypsy_semantics::is_passed_on;
use gypsy_space::{Condition, CostEvent, Needs, Program};
use stack_heap::Heap;
use stack_text::Memory;
use std::mem;

/// The condition of the caller: the matching actual of a formal condition, spaceerror itself, and else routineerror.
#[tactic(auto, unfolding(gypsy_semantics::specs::Calls::matching, gypsy_semantics::specs::Calls::is_passed_on))]
fn matching(program: &Program, procedure: u32, conds: &[Condition], cond: Condition) -> Condition
    ensures { let actuals = map seen_cond conds.now in
        seen_cond result ≡ matching (seen_program program.now) procedure actuals (seen_cond cond) }
{
    match cond {
        Condition::Declared(number) => {
            if is_passed_on(program, procedure, cond) {
                actual(conds, number)
            } else {
                Condition::Routine
            }
        }
        Condition::Space => Condition::Space,
        Condition::Leave | Condition::Routine => Condition::Routine,
    }
}

/// The condition at a position, or routineerror where there is none.
fn actual(conds: &[Condition], number: u32) -> Condition
    ensures { seen_cond result ≡ get_or (map seen_cond conds.now) number Routine }
{
    match conds.get(number as usize) {
        Some(cond) => *cond,
        None => Condition::Routine,
    }
}

/// What a condition costs that leaves a procedure: passed on or not, and where it was caught.
#[tactic(auto, unfolding(gypsy_space::specs::Events::event_count))]
fn out_price(needs: &Needs, passed: bool, caught: bool) -> u64
    requires { AreSmall needs.now.procedures.items }
    ensures { result ≡ out_price passed caught }
{
    let event = if passed {
        CostEvent::OutFormal
    } else {
        CostEvent::OutOther
    };
    let left = needs
        .cost(event)
        .saturating_add(needs.cost(CostEvent::ReturnRaised));
    if caught {
        left.saturating_add(needs.cost(CostEvent::Caught))
    } else {
        left
    }
}

impl Meaning {
    /// Makes an activation that waited the active one; its variables get the formals' values.
    fn resume(&mut self, frame: Frame)
        ensures { Resumes self.old self.new frame }
    {
        let Frame {
            procedure,
            variables,
            work,
            call,
            used_temp,
            used_ctrl,
        } = frame;
        let values = mem::replace(&mut self.variables, variables);
        copy_out(&mut self.variables, call.actuals.as_slice(), values);
        self.procedure = procedure;
        self.work = work;
        self.used_temp = used_temp;
        self.used_ctrl = used_ctrl;
    }

    /// Puts an activation back to those that wait, where it was taken from.
    fn put_back(&mut self, frame: Frame)
        requires room { vec_len self.old.waiting < vec_capacity self.old.waiting }
        ensures waiting { self.new.waiting.items ≡ self.old.waiting.items ++ frame ∷ [] }
        ensures others { self.new ≡ record self.old { waiting = self.new.waiting } }
    {
        match self.waiting.push(frame) {
            Ok(()) => {}
            Err(_failed) => unreachable!(),
        }
    }

    /// Counts a step of this cost.
    pub(crate) fn pay(&mut self, cost: u64)
        ensures { self.new ≡ paid cost self.old }
    {
        self.counted = self.counted.saturating_add(cost);
        self.cost = cost;
        self.steps = self.steps.saturating_add(1);
    }

    /// Makes the step at the normal end of a procedure for which another waits; `false` where none waits.
    pub(crate) fn end_call<H: Heap>(&mut self, heap: H, needs: &Needs) -> Result<bool, Memory>
        requires small { AreSmall needs.now.procedures.items }
        requires turn { work_of self.old.work ≡ [] }
        ensures done { IfOkUnless (H.may_refuse heap) result (λ b. MatchBool b
            (Moves self.old self.new)
            ((self.new ≡ self.old) × (self.old.waiting.items ≡ []))) }
        ensures unchanged { IfErr result (λ e. IsUnchanged self.old self.new) }
    {
        if self.waiting.is_empty() {
            return Ok(false);
        }
        let Some(frame) = self.waiting.pop() else {
            unreachable!()
        };
        let mut frame = frame;
        if let Err(failed) = frame.work.settle(heap) {
            self.put_back(frame);
            return Err(failed);
        }
        self.resume(frame);
        self.pay(needs.cost(CostEvent::EndProc));
        Ok(true)
    }

    /// Makes the step of a condition that leaves a procedure for which another waits; `false` where none waits.
    pub(crate) fn leave_call<H: Heap>(
        &mut self,
        heap: H,
        needs: &Needs,
        cond: Condition,
    ) -> Result<bool, Memory>
        requires small { AreSmall needs.now.procedures.items }
        requires turn { Leaves (seen_cond cond) (work_of self.old.work) }
        ensures done { IfOkUnless (H.may_refuse heap) result (λ b. MatchBool b
            (Moves self.old self.new)
            ((self.new ≡ self.old) × (self.old.waiting.items ≡ []))) }
        ensures unchanged { IfErr result (λ e. IsUnchanged self.old self.new) }
    {
        if self.waiting.is_empty() {
            return Ok(false);
        }
        let passed = is_passed_on(&self.program, self.procedure, cond);
        let Some(frame) = self.waiting.pop() else {
            unreachable!()
        };
        let mut frame = frame;
        let cond = matching(
            &self.program,
            self.procedure,
            frame.call.conds.as_slice(),
            cond,
        );
        match frame.work.raise(heap, cond) {
            Err(failed) => {
                self.put_back(frame);
                Err(failed)
            }
            Ok(caught) => {
                self.resume(frame);
                self.pay(out_price(needs, passed, caught));
                Ok(true)
            }
        }
    }
}

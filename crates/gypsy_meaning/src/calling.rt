//! What a step does where a procedure is called.

ghost use Rattle.std.specs.Prelude.{◌≡◌, ◌<◌, ◌≤◌, ◌+◌, [], ◌∷◌, List, IfErr, IfOk, drop, length};
ghost use Rattle.stack_heap.specs.Heaps.{IfOkUnless};
ghost use Rattle.gypsy_syntax.specs.Programs.{body_of, proc_at};
ghost use Rattle.gypsy_space.specs.{Events.{AreNeeds, AreSmall, lack_by, need_at}, Needs.{stack_sizes}, Nodes.{held_names, held_values, seen_program}};
ghost use Rattle.gypsy_space.specs.declared.need.Lack.TheVariants as lack;
ghost use Rattle.gypsy_meaning.specs.{Internal.Entering.{AreLent, IsUnchanged, RaisesSpace, Waits, call_top, with_words}, Views.Held.{IsHeld, Moves}};
ghost use Rattle.gypsy_meaning.specs.{Views.Named.{variables_of}, Internal.Turns.{IsCall, IsPlain}, Views.Work.{work_of}};
ghost use Rattle.gypsy_semantics.specs.Machine.{Item, open_on};

use crate::copying::{callee_variables, lend};
use crate::names::Names;
use crate::pending::Work;
use crate::running::{Frame, Meaning};
use crate::starting::{body_at, locals_at, names_at};
use crate::turn::Advance;
use gypsy_space::{CallSite, Condition, CostEvent, Lack, Needs, Program};
use stack_heap::Heap;
use stack_text::{Memory, Name, Value};
use std::mem;
use std::rc::Rc;

/// An activation at its start.
#[derive(Drop)]
pub struct Start {
    /// The formals, whose values don't count yet, and the locals with their initial values, each with its name.
    pub variables: Vec<(Name, Value)>,
    /// The procedure's body, opened.
    pub work: Work,
}

/// The callee of a call at its start, before the actuals are moved into its formals: its locals, and its body to be done.
pub fn callee_start<H: Heap>(
    heap: H,
    program: &Program,
    names: &[Names],
    site: &CallSite,
) -> Result<Start, Memory>
    requires callee { site.now.callee < length program.now.procedures.items }
    requires there { site.now.callee < length names.now }
    requires sized { let callee = proc_at (seen_program program.now) site.now.callee in
        length (variables_of names.now site.now.callee) ≡ length site.now.actuals.items + length callee.locals }
    ensures locals { IfOkUnless (H.may_refuse heap) result
        (λ start. drop (length site.now.actuals.items) (held_values start.variables.items)
        ≡ (proc_at (seen_program program.now) site.now.callee).locals) }
    ensures names { IfOk result (λ start. held_names start.variables.items
        ≡ variables_of names.now site.now.callee) }
    ensures work { IfOk result (λ start. work_of start.work
        ≡ open_on (body_of (seen_program program.now) site.now.callee) []) }
{
    let callee = site.callee;
    let variables = callee_variables(
        heap,
        names_at(names, callee),
        site.actuals.len(),
        locals_at(program, callee),
    )?;
    let work = Work::begun(heap, body_at(program, callee))?;
    Ok(Start { variables, work })
}

impl Meaning {
    /// Puts the active procedure to those that wait, at this call, which is on top of its work. Its actuals are moved into
    /// the callee's formals, and the callee's variables and work are then the active ones.
    fn wait<H: Heap>(
        &mut self,
        heap: H,
        callee: Vec<(Name, Value)>,
        work: Work,
        site: Rc<CallSite>,
    ) -> Result<(), Memory>
        requires few { length site.value.actuals.items ≤ length callee.items }
        requires lent { AreLent (length self.old.variables.items) site.value.actuals.items }
        ensures done { IfOkUnless (H.may_refuse heap) result (λ u. (below : List Item) →
            work_of self.old.work ≡ call_top site.value ∷ below → Waits self.old callee work below site self.new) }
        ensures unchanged { IfErr result (λ e. IsUnchanged self.old self.new) }
    {
        heap.reserve(&mut self.waiting, 1)?;
        let mut variables = callee;
        lend(&mut self.variables, site.actuals.as_slice(), &mut variables);
        let mut work = work;
        self.work.hand_room(&mut work);
        self.work.pop();
        let frame = Frame {
            procedure: self.procedure,
            variables: mem::replace(&mut self.variables, variables),
            work: mem::replace(&mut self.work, work),
            call: site,
            used_temp: self.used_temp,
            used_ctrl: self.used_ctrl,
        };
        match self.waiting.push(frame) {
            Ok(()) => Ok(()),
            Err(_failed) => unreachable!(),
        }
    }

    /// The words in use of both stacks, with those of a callee's locals and frame.
    fn use_words(&mut self, needs: &Needs, callee: u32)
        ensures { self.new ≡ with_words (need_at needs.now.procedures.items callee) self.old }
    {
        let need = needs.need_of(callee);
        self.used_temp = self.used_temp.saturating_add(need.locals_words);
        self.used_ctrl = self.used_ctrl.saturating_add(need.vars.saturating_add(2));
    }

    /// Makes the step of a call without room, which costs this event: spaceerror is raised.
    fn raise_space<H: Heap>(
        &mut self,
        heap: H,
        needs: &Needs,
        event: CostEvent,
    ) -> Result<(), Memory>
        requires small { AreSmall needs.now.procedures.items }
        requires plain { IsPlain event }
        requires turn { RaisesSpace self.old event }
        ensures done { IfOkUnless (H.may_refuse heap) result (λ u. Moves self.old self.new) }
        ensures unchanged { IfErr result (λ e. IsUnchanged self.old self.new) }
    {
        let caught = self.work.raise_below(heap, Condition::Space)?;
        let advance = Advance { event, caught };
        self.advance(needs, advance);
        Ok(())
    }

    /// Makes the step of a call with room.
    fn enter_call<H: Heap>(
        &mut self,
        heap: H,
        needs: &Needs,
        site: Rc<CallSite>,
    ) -> Result<(), Memory>
        requires small { AreSmall needs.now.procedures.items }
        requires needs { AreNeeds (seen_program self.old.program) needs.now.procedures.items }
        requires callee { site.value.callee < length self.old.program.procedures.items }
        requires there { site.value.callee < length self.old.names.items }
        requires sized { let callee = proc_at (seen_program self.old.program) site.value.callee in
            let number = length (variables_of self.old.names.items site.value.callee) in
            number ≡ length site.value.actuals.items + length callee.locals }
        requires lent { AreLent (length self.old.variables.items) site.value.actuals.items }
        requires turn { IsCall site.value (work_of self.old.work) }
        requires held { IsHeld self.old }
        requires room { let need = need_at needs.now.procedures.items site.value.callee in
            let used = stack_sizes self.old.used_ctrl self.old.used_temp in
            lack_by need (stack_sizes self.old.ctrl self.old.temp) used ≡ lack.Nothing }
        ensures done { IfOkUnless (H.may_refuse heap) result (λ u. Moves self.old self.new) }
        ensures unchanged { IfErr result (λ e. IsUnchanged self.old self.new) }
    {
        let callee = site.callee;
        // For the prover alone: the words in use stay within these sizes, so their sums fit.
        let _temp = self.temp;
        let _ctrl = self.ctrl;
        let Start { variables, work } = callee_start(
            heap,
            &self.program,
            self.names.as_slice(),
            &site,
        )?;
        self.wait(heap, variables, work, site)?;
        self.procedure = callee;
        self.use_words(needs, callee);
        self.pay(needs.cost(CostEvent::Call { callee }));
        Ok(())
    }

    /// Makes the step of a call, with room or without.
    pub(crate) fn make_call<H: Heap>(
        &mut self,
        heap: H,
        needs: &Needs,
        site: Rc<CallSite>,
    ) -> Result<(), Memory>
        requires small { AreSmall needs.now.procedures.items }
        requires needs { AreNeeds (seen_program self.old.program) needs.now.procedures.items }
        requires callee { site.value.callee < length self.old.program.procedures.items }
        requires there { site.value.callee < length self.old.names.items }
        requires sized { let callee = proc_at (seen_program self.old.program) site.value.callee in
            let number = length (variables_of self.old.names.items site.value.callee) in
            number ≡ length site.value.actuals.items + length callee.locals }
        requires lent { AreLent (length self.old.variables.items) site.value.actuals.items }
        requires turn { IsCall site.value (work_of self.old.work) }
        requires held { IsHeld self.old }
        ensures done { IfOkUnless (H.may_refuse heap) result (λ u. Moves self.old self.new) }
        ensures unchanged { IfErr result (λ e. IsUnchanged self.old self.new) }
    {
        match needs.lack(
            site.callee,
            self.used_temp,
            self.used_ctrl,
            self.temp,
            self.ctrl,
        ) {
            Lack::Nothing => self.enter_call(heap, needs, site),
            Lack::Temporary => self.raise_space(heap, needs, CostEvent::LackTemporary),
            Lack::Control => self.raise_space(heap, needs, CostEvent::LackControl),
        }
    }
}

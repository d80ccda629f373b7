//! A run from its start, step by step.

ghost use Rattle.std.specs.Prelude.{◌≡◌, ◌≤◌, ℕ, List, IfErr, IfNone, IfOk, IfSome};
ghost use Rattle.stack_heap.specs.Heaps.{IfOkUnless};
ghost use Rattle.stack_text.specs.Values.{ValueOf};
ghost use Rattle.gypsy_syntax.specs.{Programs.{proc_at}, Resolved.{program_of}, Views.SourceView.{source_of}, ValuesFit.{VarsFit}};
ghost use Rattle.gypsy_space.specs.{Events.{AreNeeds, AreSmall}, Needs.{stack_sizes}};
ghost use Rattle.gypsy_semantics.specs.{Views.RunAgrees.{RunAgrees}, Room.{Suffices}, Calls.{CurrentCondition}, Views.Fitting.{CanStart}, Meaning.{Done}};
ghost use Rattle.gypsy_semantics.specs.{Meaning.{meaning}, Views.RunView.{IsEnd, after, answer_of, left_of, opening, meaning_run}};
ghost use Rattle.gypsy_meaning.specs.{Views.Belongs.{BelongsTo}, Views.Running.{seen}};

use crate::calling::Start;
use crate::fitting::can_start;
use crate::names::{Unnamed, names_of};
use crate::running::Meaning;
use crate::starting::{copied, main_activation, words};
use gypsy_check::Accepted;
use gypsy_semantics::{MeanRun, Moved};
use gypsy_space::{Needs, resolve};
use stack_heap::Heap;
use stack_text::{Memory, Value};

impl Meaning {
    /// A run of a source at its start, from these values of main's formals and with stacks of these sizes. It keeps a
    /// copy of the values, and the sizes.
    ///
    /// # Errors
    ///
    /// Out of memory.
    pub fn start<H: Heap>(
        heap: H,
        accepted: &Accepted,
        needs: &Needs,
        values: &[Value],
        ctrl: u32,
        temp: u32,
    ) -> Result<Meaning, Memory>
        requires needs { AreNeeds (program_of (source_of accepted.now)) needs.now.procedures.items }
        requires small { AreSmall needs.now.procedures.items }
        requires values { let q = program_of (source_of accepted.now) in VarsFit (proc_at q q.main).formals values.now }
        requires sizes { Suffices (program_of (source_of accepted.now)) (stack_sizes ctrl temp) }
        ensures opening { let q = program_of (source_of accepted.now) in
            IfOkUnless (H.may_refuse heap) result (λ m. seen m ≡ opening q (stack_sizes ctrl temp) values.now) }
        ensures belongs { IfOk result (BelongsTo (source_of accepted.now) needs.now.procedures.items) }
    {
        let program = resolve(heap, accepted)?;
        let names = names_of(heap, accepted.source())?;
        let Start { variables, work } = main_activation(heap, &program, names.as_slice(), values)?;
        let used_temp = words(variables.as_slice());
        let used_ctrl = variables.len() as u64 + 2;
        let values = copied(heap, values)?;
        Ok(Meaning {
            procedure: program.main,
            program,
            names,
            unnamed: Unnamed::new(),
            values,
            temp,
            ctrl,
            variables,
            work,
            used_temp,
            used_ctrl,
            waiting: Vec::new(heap.handle()),
            steps: 0,
            counted: 0,
            cost: 0,
            ending: None,
        })
    }

    /// The same with values and sizes that may not suit: `None` exactly where the values don't fit main's formals, or the
    /// sizes are below main's own need.
    ///
    /// # Errors
    ///
    /// Out of memory.
    pub fn try_start<H: Heap>(
        heap: H,
        accepted: &Accepted,
        needs: &Needs,
        values: &[Value],
        ctrl: u32,
        temp: u32,
    ) -> Result<Option<Meaning>, Memory>
        requires needs { AreNeeds (program_of (source_of accepted.now)) needs.now.procedures.items }
        requires small { AreSmall needs.now.procedures.items }
        ensures opening { let q = program_of (source_of accepted.now) in
            IfOkUnless (H.may_refuse heap) result
            (λ o. IfSome o (λ m. seen m ≡ opening q (stack_sizes ctrl temp) values.now)) }
        ensures belongs { IfOk result (λ o. IfSome o (BelongsTo (source_of accepted.now) needs.now.procedures.items)) }
        ensures none { IfOk result (λ o. IfNone o
            (CanStart (program_of (source_of accepted.now)) values.now (stack_sizes ctrl temp) → ⊥)) }
    {
        let program = resolve(heap, accepted)?;
        if !can_start(&program, needs, values, ctrl, temp) {
            return Ok(None);
        }
        let meaning = Meaning::start(heap, accepted, needs, values, ctrl, temp)?;
        Ok(Some(meaning))
    }

    /// One step. What it answers and leaves is what the step machine does; a step after the end changes nothing.
    ///
    /// # Errors
    ///
    /// Out of memory; all that is shown is as before.
    pub fn step<H: Heap>(
        &mut self,
        heap: H,
        accepted: &Accepted,
        needs: &Needs,
    ) -> Result<Moved, Memory>
        requires { BelongsTo (source_of accepted.now) needs.now.procedures.items self.old }
        ensures answer { IfOkUnless (H.may_refuse heap) result (λ moved. moved ≡ answer_of (seen self.old)) }
        ensures left { IfOk result (λ moved. seen self.new ≡ left_of (seen self.old)) }
        ensures unchanged { IfErr result (λ e. seen self.new ≡ seen self.old) }
        ensures belongs { BelongsTo (source_of accepted.now) needs.now.procedures.items self.new }
    {
        if self.ended() {
            return Ok(Moved::Ended);
        }
        let moved = self.move_on(heap, needs)?;
        Ok(moved)
    }

    /// At most `limit` steps, until the end is reached. What it answers agrees with the meaning of the source; where the
    /// meaning is done, a run whose limit is large enough ends with the same.
    ///
    /// # Errors
    ///
    /// Out of memory; the steps that were made stand.
    pub fn run<H: Heap>(
        &mut self,
        heap: H,
        accepted: &Accepted,
        needs: &Needs,
        limit: u64,
    ) -> Result<MeanRun, Memory>
        requires { BelongsTo (source_of accepted.now) needs.now.procedures.items self.old }
        ensures ran { IfOkUnless (H.may_refuse heap) result
            (λ run. meaning_run limit (seen self.old) ≡ record { run = run; seen = seen self.new }) }
        ensures made { IfErr result (λ e. (k : ℕ) × (k ≤ limit) × (seen self.new ≡ after k (seen self.old))) }
        ensures agrees { IfOk result (RunAgrees (seen self.new)) }
        ensures completes { let v = seen self.old in
            (n : ℕ) (x : List ValueOf) (c : CurrentCondition) → meaning v.program v.sizes v.values n ≡ Done x c →
            (j : ℕ) × ((most : ℕ) → j ≤ most → IsEnd (meaning_run most v) x c) }
        ensures belongs { BelongsTo (source_of accepted.now) needs.now.procedures.items self.new }
    {
        let run = self.make_steps(heap, accepted, needs, limit)?;
        Ok(run)
    }

    /// At most `limit` steps.
    fn make_steps<H: Heap>(
        &mut self,
        heap: H,
        accepted: &Accepted,
        needs: &Needs,
        limit: u64,
    ) -> Result<MeanRun, Memory>
        requires { BelongsTo (source_of accepted.now) needs.now.procedures.items self.old }
        ensures ran { IfOkUnless (H.may_refuse heap) result
            (λ run. meaning_run limit (seen self.old) ≡ record { run = run; seen = seen self.new }) }
        ensures made { IfErr result (λ e. (k : ℕ) × (k ≤ limit) × (seen self.new ≡ after k (seen self.old))) }
        ensures belongs { BelongsTo (source_of accepted.now) needs.now.procedures.items self.new }
    {
        for _made in 0..limit {
            match self.step(heap, accepted, needs)? {
                Moved::Moved => {}
                Moved::Ended => return Ok(MeanRun::Ended),
            }
        }
        if self.ended() {
            Ok(MeanRun::Ended)
        } else {
            Ok(MeanRun::Spent)
        }
    }
}

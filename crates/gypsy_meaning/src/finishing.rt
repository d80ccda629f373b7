//! The step that ends a run.

ghost use Rattle.std.specs.Prelude.{◌≡◌, [], length};
ghost use Rattle.gypsy_syntax.specs.Programs.{proc_at};
ghost use Rattle.gypsy_space.specs.{Events.{AreSmall}, Nodes.{seen_cond, seen_program}};
ghost use Rattle.gypsy_semantics.specs.Calls.{main_way};
ghost use Rattle.gypsy_meaning.specs.{Internal.Finishing.{IsFinished, end_price}, Views.Held.{EndsRun}, Internal.Turns.{Leaves}, Views.Work.{work_of}};

use crate::running::{Ending, Meaning};
use gypsy_semantics::is_passed_on;
use gypsy_space::{Condition, CostEvent, Needs, Program};

/// How many formals main has.
fn formal_count(program: &Program) -> usize
    ensures { let q = seen_program program.now in result ≡ length (proc_at q q.main).formals }
{
    match program.procedures.get(program.main as usize) {
        Some(main) => main.formals.len(),
        None => 0,
    }
}

/// With what main ends where this condition leaves it.
#[tactic(auto, unfolding(gypsy_semantics::specs::Calls::main_way))]
fn main_condition(program: &Program, cond: Condition) -> Condition
    ensures { seen_cond result ≡ main_way (seen_program program.now) (seen_cond cond) }
{
    if is_passed_on(program, program.main, cond) {
        cond
    } else {
        Condition::Routine
    }
}

/// What a condition costs that leaves main: passed on or not.
#[tactic(auto, unfolding(gypsy_space::specs::Events::event_count))]
fn end_price(needs: &Needs, passed: bool) -> u64
    requires { AreSmall needs.now.procedures.items }
    ensures { result ≡ end_price passed }
{
    if passed {
        needs.cost(CostEvent::OutFormal)
    } else {
        needs.cost(CostEvent::OutOther)
    }
}

impl Meaning {
    /// Makes the step that ends the run in this way and at this cost. Of the variables main's formals are left.
    #[tactic(auto, unfolding(gypsy_semantics::specs::Calls::main_formals))]
    fn finish(&mut self, ending: Ending, cost: u64)
        ensures { IsFinished ending cost self.old self.new }
    {
        let count = formal_count(&self.program);
        self.variables.truncate(count);
        self.ending = Some(ending);
        self.pay(cost);
    }

    /// Makes the step in which main ends normally.
    pub(crate) fn end_main(&mut self, needs: &Needs)
        requires small { AreSmall needs.now.procedures.items }
        requires turn { work_of self.old.work ≡ [] }
        requires alone { self.old.waiting.items ≡ [] }
        ensures { EndsRun self.old self.new }
    {
        self.finish(Ending::Normal, needs.cost(CostEvent::EndMain));
    }

    /// Makes the step in which a condition leaves main.
    pub(crate) fn leave_main(&mut self, needs: &Needs, cond: Condition)
        requires small { AreSmall needs.now.procedures.items }
        requires turn { Leaves (seen_cond cond) (work_of self.old.work) }
        requires alone { self.old.waiting.items ≡ [] }
        ensures { EndsRun self.old self.new }
    {
        let passed = is_passed_on(&self.program, self.program.main, cond);
        let cond = main_condition(&self.program, cond);
        self.finish(Ending::Raised(cond), end_price(needs, passed));
    }
}

//! The state of the step machine.

ghost use Rattle.std.specs.Prelude.{◌≡◌, IfErr};
ghost use Rattle.stack_heap.specs.Heaps.{IfOkUnless};
ghost use Rattle.gypsy_space.specs.{Events.{AreSmall}, Nodes.{held_values}};
ghost use Rattle.gypsy_meaning.specs.{Views.Held.{Moves}, Views.Running.{paid, price}, Internal.Turns.{IsApplication}, Internal.Within.{IsWithin, WorkSuits}};
ghost use Rattle.gypsy_meaning.specs.{Views.Work.{work_of}, Internal.PredefinedEffects.{Suits}};

use crate::applying::{Applied, application};
use crate::names::{Names, Unnamed};
use crate::pending::Work;
use crate::turn::{Advance, Turn};
use crate::writing::write;
use gypsy_space::{Application, CallSite, Condition, CostEvent, Needs, Program};
use stack_heap::Heap;
use stack_text::{Memory, Name, Value};
use std::rc::Rc;

/// An activation that waits for a call.
#[derive(Drop)]
pub struct Frame {
    /// The position of its procedure in the program.
    pub procedure: u32,
    /// Its actuals are with the callee, and come back from there; their places hold what doesn't count.
    pub variables: Vec<(Name, Value)>,
    /// Its work behind the call.
    pub work: Work,
    /// The call for which it waits.
    pub call: Rc<CallSite>,
    /// How many words of the temporary stack are in use while it runs.
    pub used_temp: u64,
    /// How many words of the control stack are in use while it runs.
    pub used_ctrl: u64,
}

/// How a run ended.
#[derive(Clone, Copy)]
pub enum Ending {
    /// In the normal condition, with main's work done.
    Normal,
    /// With a formal condition of main, spaceerror or routineerror.
    Raised(Condition),
}

/// What leaves the active procedure: a call, its normal end, or a condition.
#[derive(Drop)]
pub enum Crossing {
    /// A call, which is on top of the work.
    Calls(Rc<CallSite>),
    /// The end of its work, in the normal condition.
    Ends,
    /// A condition that nothing in the procedure caught.
    Leaves(Condition),
}

/// A run of an accepted source by its meaning, step by step.
///
/// Contracts see it through `seen`: the program, the sizes of the two stacks and the values from which it started, the
/// state or the end, and the counts of steps and of instructions, which stay at their last value, 2^64 - 1. The source
/// and the needs that a call is handed are those with which the run was started, as `BelongsTo` says: `start` gives it,
/// and each call keeps it.
///
/// A step's time doesn't grow with the activations that wait, and nothing calls itself by the nesting of calls. A
/// condition that is raised passes over the work of its procedure and the lists of its handlers. A call moves its actuals
/// into the callee's formals, and makes the callee's locals: memory grows with the words that both stacks have in use. An
/// activation's work has no more items than twice the depth at which its procedure's statements nest; activations stand in a
/// vector.
#[derive(Drop)]
pub struct Meaning {
    pub(crate) program: Program,
    pub(crate) names: Vec<Names>,
    pub(crate) unnamed: Unnamed,
    /// The values from which it started.
    pub(crate) values: Vec<Value>,
    pub(crate) temp: u32,
    pub(crate) ctrl: u32,
    /// The active procedure, its variables and its work.
    pub(crate) procedure: u32,
    pub(crate) variables: Vec<(Name, Value)>,
    pub(crate) work: Work,
    /// The words in use of both stacks.
    pub(crate) used_temp: u64,
    pub(crate) used_ctrl: u64,
    /// The activations that wait, the last one for the active one.
    pub(crate) waiting: Vec<Frame>,
    pub(crate) steps: u64,
    pub(crate) counted: u64,
    /// What the last step cost.
    pub(crate) cost: u64,
    pub(crate) ending: Option<Ending>,
}

/// What an event costs, and a condition's stop where there was one.
#[tactic(auto, unfolding(crate::specs::Views::Running::price))]
fn price(needs: &Needs, event: CostEvent, caught: bool) -> u64
    requires { AreSmall needs.now.procedures.items }
    ensures { result ≡ price needs.now.procedures.items event caught }
{
    let cost = needs.cost(event);
    if caught { cost + 3 } else { cost }
}

impl Meaning {
    /// Pays for a step that changed the work alone.
    pub(crate) fn advance(&mut self, needs: &Needs, advance: Advance)
        requires { AreSmall needs.now.procedures.items }
        ensures { self.new ≡ paid (price needs.now.procedures.items advance.event advance.caught) self.old }
    {
        self.pay(price(needs, advance.event, advance.caught));
    }

    /// Makes a predefined call, which is on top of the work.
    fn apply<H: Heap>(&mut self, heap: H, needs: &Needs, call: &Application) -> Result<(), Memory>
        requires small { AreSmall needs.now.procedures.items }
        requires turn { IsApplication call.now (work_of self.old.work) }
        requires suits { Suits call.now.which (held_values self.old.variables.items) call.now.args.items }
        ensures done { IfOkUnless (H.may_refuse heap) result (λ u. Moves self.old self.new) }
        ensures unchanged { IfErr result (λ e. self.new ≡ self.old) }
    {
        match application(heap, self.variables.as_slice(), call, &mut self.work)? {
            Applied::Writes(variable, value, advance) => {
                write(&mut self.variables, variable, value);
                self.advance(needs, advance);
            }
            Applied::Fails(advance) => self.advance(needs, advance),
        }
        Ok(())
    }

    /// Makes a step within the active procedure, or tells what leaves it.
    pub(crate) fn step_within<H: Heap>(
        &mut self,
        heap: H,
        needs: &Needs,
    ) -> Result<Option<Crossing>, Memory>
        requires small { AreSmall needs.now.procedures.items }
        requires suits { WorkSuits (held_values self.old.variables.items) (work_of self.old.work) }
        ensures done { IfOkUnless (H.may_refuse heap) result (IsWithin self.old self.new) }
        ensures unchanged { IfErr result (λ e. self.new ≡ self.old) }
    {
        match self.work.turn(heap, self.variables.as_slice())? {
            Turn::Opens(_) => {
                self.pay(0);
                Ok(None)
            }
            Turn::Goes(_, advance) => {
                self.advance(needs, advance);
                Ok(None)
            }
            Turn::Applies(call) => {
                self.apply(heap, needs, &call)?;
                Ok(None)
            }
            Turn::Calls(site) => Ok(Some(Crossing::Calls(site))),
            Turn::Ends => Ok(Some(Crossing::Ends)),
            Turn::Leaves(cond) => Ok(Some(Crossing::Leaves(cond))),
        }
    }
}

//! Steps of predefined calls.

ghost use Rattle.std.specs.Prelude.{◌≡◌, ◌∷◌, List, IfErr, map};
ghost use Rattle.stack_heap.specs.Heaps.{IfOkUnless};
ghost use Rattle.gypsy_space.specs.Nodes.{held_values, seen_arg};
ghost use Rattle.gypsy_semantics.specs.{Calls.{target_of}, Machine.{Item}};
ghost use Rattle.gypsy_meaning.specs.{Views.Work.{work_of}, Internal.Turns.{RaisesOn}, Internal.PredefinedSteps.{IsApplied, call_item}};
ghost use Rattle.gypsy_meaning.specs.Internal.PredefinedEffects.{Suits};

use crate::effects::{OwnedEffect, apply};
use crate::pending::Work;
use crate::turn::Advance;
use gypsy_space::{Application, Argument, Condition, CostEvent, Outcome};
use gypsy_syntax::Predef;
use stack_heap::Heap;
use stack_text::{Memory, Name, Value};

/// What a step does with a predefined call: it writes a variable and goes on, or it fails.
#[derive(Drop)]
pub enum Applied {
    /// The variable at this position takes the value, and the run goes on.
    Writes(u32, Value, Advance),
    /// No variable is written, and routineerror is raised.
    Fails(Advance),
}

/// The variable that a predefined call writes.
#[tactic(auto, unfolding(gypsy_semantics::specs::Calls::target_of))]
fn target(args: &[Argument]) -> u32
    ensures { result ≡ target_of (map seen_arg args.now) }
{
    match args {
        [] => 0,
        [first, _rest @ ..] => match first {
            Argument::Variable(variable) => *variable,
            Argument::Constant(_) => 0,
        },
    }
}

/// Raises routineerror over what is below the call.
fn fail<H: Heap>(
    heap: H,
    which: Predef,
    outcome: Outcome,
    work: &mut Work,
) -> Result<Advance, Memory>
    ensures done { IfOkUnless (H.may_refuse heap) result (λ a. (i : Item) (w : List Item) → work_of work.old ≡ i ∷ w →
        RaisesOn which outcome w (work_of work.new) a) }
    ensures unchanged { IfErr result (λ e. work.new ≡ work.old) }
{
    let caught = work.raise_below(heap, Condition::Routine)?;
    Ok(Advance {
        event: CostEvent::Predef { which, outcome },
        caught,
    })
}

/// What a step does with a predefined call, which is on top of this work.
pub fn application<H: Heap>(
    heap: H,
    variables: &[(Name, Value)],
    call: &Application,
    work: &mut Work,
) -> Result<Applied, Memory>
    requires { Suits call.now.which (held_values variables.now) call.now.args.items }
    ensures done { IfOkUnless (H.may_refuse heap) result
        (λ applied. (w : List Item) → work_of work.old ≡ call_item call.now ∷ w →
        IsApplied (held_values variables.now) call.now w (work_of work.new) applied) }
    ensures unchanged { IfErr result (λ e. work.new ≡ work.old) }
{
    match apply(heap, call.which, variables, call.args.as_slice())? {
        OwnedEffect::Normal(value) => {
            work.settle_below(heap)?;
            let event = CostEvent::Predef {
                which: call.which,
                outcome: Outcome::Normal,
            };
            let advance = Advance {
                event,
                caught: false,
            };
            Ok(Applied::Writes(target(call.args.as_slice()), value, advance))
        }
        OwnedEffect::Fault => Ok(Applied::Fails(fail(heap, call.which, Outcome::Fault, work)?)),
        OwnedEffect::Beyond => Ok(Applied::Fails(fail(heap, call.which, Outcome::Beyond, work)?)),
    }
}

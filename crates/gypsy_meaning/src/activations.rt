//! The activations that wait, as they are shown.

ghost use Rattle.std.specs.Prelude.{◌≡◌, ◌++◌, ◌∷◌, [], List, IfOk, OnOk, map, reverse};
ghost use Rattle.stack_heap.specs.Heaps.{IfOkUnless, OnOkUnless};
ghost use Rattle.gypsy_syntax.specs.Sources.{SourceOf};
ghost use Rattle.gypsy_space.specs.{Nodes.{held_names, held_values}, declared.need.Need.{Need}};
ghost use Rattle.gypsy_semantics.specs.{Calls.{copied_out}, Views.Shown.{variables_at}};
ghost use Rattle.gypsy_meaning.specs.{Internal.Stacking.{activation_back, last_values}, Views.Belongs.{BelongsTo}, Views.Running.{frames_in, seen}};
ghost use Rattle.gypsy_meaning.specs.Views.Stacks.{activation_of, activation_seen, waiting_at};

use crate::copying::named_copy;
use crate::running::{Frame, Meaning};
use crate::writing::write;
use stack_heap::Heap;
use stack_text::{Memory, Name, Value};

/// An activation that waits for a call, as it is shown.
#[derive(Drop)]
pub struct Activation {
    /// The position of its procedure in the program.
    pub procedure: u32,
    /// Formals and then locals. An actual of the call has the value that would come back now.
    pub variables: Vec<(Name, Value)>,
}

/// Copies of variables.
fn copied<H: Heap>(heap: H, variables: &[(Name, Value)]) -> Result<Vec<(Name, Value)>, Memory>
    ensures { IfOkUnless (H.may_refuse heap) result (λ r. r.items ≡ variables.now) }
{
    let mut copies = Vec::new(heap.handle());
    for variable in variables {
        heap.push(&mut copies, named_copy(heap, &variable.0, &variable.1)?)?;
    }
    Ok(copies)
}

/// Puts copies of the values of a callee's formals back.
fn hand_back<H: Heap>(
    heap: H,
    callee: &[(Name, Value)],
    actuals: &[u32],
    variables: &mut Vec<(Name, Value)>,
) -> Result<(), Memory>
    ensures values { OnOkUnless (H.may_refuse heap) result (held_values variables.new.items
        ≡ copied_out actuals.now (held_values callee.now) (held_values variables.old.items)) }
    ensures names { OnOk result (held_names variables.new.items ≡ held_names variables.old.items) }
{
    for (place, actual) in actuals.iter().enumerate() {
        match callee.get(place) {
            Some(formal) => write(variables, *actual, formal.1.copied(heap)?),
            None => return Ok(()),
        }
    }
    Ok(())
}

/// The variables of an activation that waits, with what would come back now from a callee with these.
fn handed_back<H: Heap>(
    heap: H,
    callee: &[(Name, Value)],
    frame: &Frame,
) -> Result<Vec<(Name, Value)>, Memory>
    ensures values { IfOkUnless (H.may_refuse heap) result (λ v. held_values v.items ≡ copied_out
        frame.now.call.value.actuals.items (held_values callee.now) (held_values frame.now.variables.items)) }
    ensures names { IfOk result (λ v. held_names v.items ≡ held_names frame.now.variables.items) }
{
    let mut variables = copied(heap, frame.variables.as_slice())?;
    hand_back(heap, callee, frame.call.actuals.as_slice(), &mut variables)?;
    Ok(variables)
}

/// The variables of the last of these activations, or of the active one.
fn last_variables<'a>(active: &'a [(Name, Value)], all: &'a [Activation]) -> &'a [(Name, Value)]
    ensures { held_values result.now ≡ last_values (held_values active.now) (map activation_seen all.now) }
{
    match all.last() {
        Some(last) => last.variables.as_slice(),
        None => active,
    }
}

/// Appends the activation that waits for the last of these, or for the active one.
fn push_waiting<H: Heap>(
    heap: H,
    active: &[(Name, Value)],
    frame: &Frame,
    all: &mut Vec<Activation>,
) -> Result<(), Memory>
    ensures seen { OnOkUnless (H.may_refuse heap) result (let before = map activation_seen all.old.items in
        map activation_seen all.new.items
        ≡ before ++ activation_back (last_values (held_values active.now) before) frame.now ∷ []) }
    ensures names { OnOk result (map (λ a. held_names a.variables.items) all.new.items
        ≡ map (λ a. held_names a.variables.items) all.old.items ++ held_names frame.now.variables.items ∷ []) }
{
    let variables = handed_back(heap, last_variables(active, all.as_slice()), frame)?;
    let activation = Activation {
        procedure: frame.procedure,
        variables,
    };
    heap.push(all, activation)?;
    Ok(())
}

impl Meaning {
    /// The activations that wait, while the run goes on.
    fn all_waiting<H: Heap>(&self, heap: H) -> Result<Vec<Activation>, Memory>
        ensures values { IfOkUnless (H.may_refuse heap) result
            (λ all. map activation_seen all.items ≡ map activation_of (frames_in self.now)) }
        ensures names { IfOk result (λ all. map (λ a. held_names a.variables.items) all.items
            ≡ map (λ f. held_names f.variables.items) (reverse self.now.waiting.items)) }
    {
        let mut all = Vec::new(heap.handle());
        for place in (0..self.waiting.len()).rev() {
            let frame = &self.waiting[place];
            push_waiting(heap, self.variables.as_slice(), frame, &mut all)?;
        }
        Ok(all)
    }

    /// The activations that wait, each with its variables: the one that goes on first comes first. There are none at the end.
    ///
    /// A call copies its actuals into the callee, and out of it again at the callee's end. The actuals of an activation that
    /// waits have the values that would come back now. The time and the memory grow with the words that both stacks have in
    /// use.
    ///
    /// The only error is out of memory.
    pub fn waiting<H: Heap>(&self, heap: H) -> Result<Vec<Activation>, Memory>
        ensures values { IfOkUnless (H.may_refuse heap) result
            (λ all. map activation_seen all.items ≡ waiting_at (seen self.now).stage) }
        ensures names { (s : SourceOf) (needs : List Need) → BelongsTo s needs self.now → IfOk result (λ all.
            map (λ a. held_names a.variables.items) all.items
            ≡ map (λ a. variables_at s a.procedure) (waiting_at (seen self.now).stage)) }
    {
        match self.ending {
            None => Ok(self.all_waiting(heap)?),
            Some(_) => Ok(Vec::new(heap.handle())),
        }
    }
}

//! A run of a source.

ghost use Rattle.std.specs.{Prelude.{◌≡◌, ◌++◌, [], get_or, map}, List.{flat_map}};
ghost use Rattle.stack_heap.specs.Heaps.{OnOkUnless};
ghost use Rattle.gypsy_syntax.specs.{Resolved.{procedure_names}, Views.SourceView.{source_of}};
ghost use Rattle.level_debuggers.specs.GypsyLevels.{activation_lines, in_line};

use crate::advance::Advance;
use crate::watch::Event;
use display_maps::{push_run, push_variables};
use fm_show::push_counted;
use gypsy_check::Accepted;
use gypsy_meaning::{Activation, Meaning};
use gypsy_semantics::Current;
use gypsy_space::Needs;
use stack_heap::Heap;
use stack_text::{Memory, Name, Value};

/// The name of the procedure at a position.
fn procedure_name(accepted: &Accepted, procedure: u32) -> &[u8]
    ensures { result.now ≡ get_or (procedure_names (source_of accepted.now)) procedure [] }
{
    match accepted.source().procs.get(procedure as usize) {
        Some(procedure) => procedure.name.name.bytes(),
        None => &[],
    }
}

/// Appends the line of a procedure.
fn push_in<H: Heap>(heap: H, text: &mut Vec<u8>, name: &[u8]) -> Result<(), Memory>
    ensures { OnOkUnless (H.may_refuse heap) result (text.new.items ≡ text.old.items ++ in_line name.now) }
{
    heap.extend_from_slice(text, b"in ")?;
    heap.extend_from_slice(text, name)?;
    heap.push(text, b'\n')?;
    Ok(())
}

/// Appends the lines of an activation that waits.
fn push_activation<H: Heap>(
    heap: H,
    text: &mut Vec<u8>,
    accepted: &Accepted,
    activation: &Activation,
) -> Result<(), Memory>
    ensures { let variables = activation.now.variables.items in
        OnOkUnless (H.may_refuse heap) result
        (text.new.items ≡ text.old.items ++ activation_lines (source_of accepted.now) activation.now.procedure
        (map (λ v. v.0) variables) (map (λ v. v.1) variables)) }
{
    push_in(heap, text, procedure_name(accepted, activation.procedure))?;
    push_variables(heap, text, activation.variables.as_slice())
}

/// Appends the lines of each activation that waits.
fn push_activations<H: Heap>(
    heap: H,
    text: &mut Vec<u8>,
    accepted: &Accepted,
    activations: &[Activation],
) -> Result<(), Memory>
    ensures { OnOkUnless (H.may_refuse heap) result (text.new.items
        ≡ text.old.items ++ flat_map (λ a. activation_lines (source_of accepted.now) a.procedure
        (map (λ v. v.0) a.variables.items) (map (λ v. v.1) a.variables.items)) activations.now) }
{
    for activation in activations {
        push_activation(heap, text, accepted, activation)?;
    }
    Ok(())
}

/// A run of an accepted source.
#[derive(Drop)]
pub(crate) struct GypsyLevel {
    pub(crate) accepted: Accepted,
    pub(crate) needs: Needs,
    pub(crate) meaning: Meaning,
}

impl GypsyLevel {
    ghost use Rattle.std.specs.Prelude.{◌≡◌, ◌++◌, map, OnErr};
    ghost use Rattle.stack_heap.specs.Heaps.{IfOkUnless, OnOkUnless};
    ghost use Rattle.gypsy_semantics.specs.{Views.RunView.{depth_at, values_at}, Views.Shown.{condition_at, names_at}};
    ghost use Rattle.level_debuggers.specs.{Steps.{IsAdvance}, GypsyLevels.{gypsy_listing, gypsy_next, gypsy_over, gypsy_place_line, gypsy_stands, gypsy_up}};
    ghost use Rattle.level_debuggers.specs.{GypsyLevels.{gypsy_listing_all, gypsy_within}, Views.Belonging.{Belongs, gypsy_of}};

    /// Whether the end is reached.
    pub(crate) fn is_over(&self) -> bool
        ensures { result ≡ gypsy_over (gypsy_of self.now) }
    {
        self.meaning.ended()
    }

    /// Whether the item on top stands at this byte of the source.
    pub(crate) fn stands_at(&self, number: u32) -> bool
        requires { Belongs self.now }
        ensures { result ≡ gypsy_stands (gypsy_of self.now) number }
    {
        !self.is_over() && self.meaning.place() == number
    }

    /// How many activations there are.
    fn depth(&self) -> u32
        requires { Belongs self.now }
        ensures { result ≡ depth_at (gypsy_of self.now).seen.stage }
    {
        self.meaning.depth()
    }

    /// Whether main hasn't ended, and at most so many activations are left.
    pub(crate) fn is_within(&self, most: u32) -> bool
        requires { Belongs self.now }
        ensures { result ≡ gypsy_within (gypsy_of self.now) most }
    {
        !self.is_over() && self.depth() <= most
    }

    /// The condition.
    fn condition(&self) -> &Current
        requires { Belongs self.now }
        ensures { let level = gypsy_of self.now in result.now ≡ condition_at level.source level.seen.stage }
    {
        self.meaning.condition()
    }

    /// The variables of the active procedure.
    fn variables(&self) -> &[(Name, Value)]
        requires { Belongs self.now }
        ensures values { map (λ v. v.1) result.now ≡ values_at (gypsy_of self.now).seen.stage }
        ensures names { let level = gypsy_of self.now in
            map (λ v. v.0) result.now ≡ names_at level.source level.seen.stage }
    {
        self.meaning.variables()
    }

    /// Makes a step. Where memory runs out nothing has changed.
    pub(crate) fn advance<H: Heap>(&mut self, heap: H) -> Result<Advance, Memory>
        requires { Belongs self.old }
        ensures step { IfOkUnless (H.may_refuse heap) result
            (IsAdvance gypsy_next (gypsy_of self.old) (gypsy_of self.new)) }
        ensures unchanged { OnErr result (gypsy_of self.new ≡ gypsy_of self.old) }
        ensures belongs { Belongs self.new }
    {
        if self.is_over() {
            return Ok(Advance::Over);
        }
        let place = self.meaning.place();
        let depth = self.depth();
        self.meaning.step(heap, &self.accepted, &self.needs)?;
        Ok(Advance::Makes(Event {
            place,
            depth,
            cost: self.meaning.cost(),
        }))
    }

    /// Appends the line of the place.
    fn push_place<H: Heap>(&self, heap: H, text: &mut Vec<u8>) -> Result<(), Memory>
        requires { Belongs self.now }
        ensures { OnOkUnless (H.may_refuse heap) result
            (text.new.items ≡ text.old.items ++ gypsy_place_line (gypsy_of self.now)) }
    {
        if self.is_over() {
            heap.extend_from_slice(text, b"ended\n")?;
            return Ok(());
        }
        let place = self.meaning.place();
        let depth = self.depth();
        push_counted(heap, text, b"at ", u64::from(place), b" depth ")?;
        push_counted(heap, text, b"", u64::from(depth), b"\n")
    }

    /// The place, the condition, and the variables of the active procedure, as lines.
    pub(crate) fn show<H: Heap>(&self, heap: H) -> Result<Vec<u8>, Memory>
        requires { Belongs self.now }
        ensures { IfOkUnless (H.may_refuse heap) result (λ text. text.items ≡ gypsy_listing (gypsy_of self.now)) }
    {
        let mut text = Vec::new(heap.handle());
        self.push_place(heap, &mut text)?;
        push_run(heap, &mut text, self.condition(), self.variables())?;
        Ok(text)
    }

    /// The same, and the procedure and the variables of each activation that waits, as lines.
    pub(crate) fn show_all<H: Heap>(&self, heap: H) -> Result<Vec<u8>, Memory>
        requires { Belongs self.now }
        ensures { IfOkUnless (H.may_refuse heap) result
            (λ text. text.items ≡ gypsy_listing_all (gypsy_of self.now)) }
    {
        let mut text = self.show(heap)?;
        let waiting = self.meaning.waiting(heap)?;
        push_activations(heap, &mut text, &self.accepted, waiting.as_slice())?;
        Ok(text)
    }

    /// The line that says that the run is one of the source itself.
    pub(crate) fn up<H: Heap>(heap: H) -> Result<Vec<u8>, Memory>
        ensures { IfOkUnless (H.may_refuse heap) result (λ text. text.items ≡ gypsy_up) }
    {
        Ok(heap.copied(b"top\n")?)
    }
}

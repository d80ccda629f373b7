//! What a run shows.

ghost use Rattle.std.specs.Prelude.{◌≡◌, ◌+◌, ◌^◌, ◌<◌, List, slice_get, option_map};
ghost use Rattle.stack_text.specs.Values.{ValueOf};
ghost use Rattle.gypsy_syntax.specs.{Programs.{proc_at}, Sources.{SourceOf}};
ghost use Rattle.gypsy_space.specs.{Costs.{Tally}, Nodes.{held_names, held_values, seen_cond, seen_program, seen_statement}, declared.need.Need.{Need}};
ghost use Rattle.gypsy_meaning.specs.{Views.Belongs.{BelongsTo}, Views.Named.{conditions_of, current_or}, Views.Running.{seen}, Views.Work.{work_of}};
ghost use Rattle.gypsy_semantics.specs.{Machine.{At, Frame, place_of, statement_place}, Views.RunView.{depth_at, is_over, place_at, procedure_at, top_way}};
ghost use Rattle.gypsy_semantics.specs.{Views.RunView.{values_at, way_at}, Views.Shown.{condition_at, names_at}};

use crate::names::Names;
use crate::pending::Work;
use crate::running::{Ending, Meaning};
use crate::work::Item;
use gypsy_semantics::Current;
use gypsy_space::{Condition, Node, Program};
use stack_text::{Name, Value};
use std::rc::Rc;

/// The place of a statement; a sequence has none of its own.
fn statement_place(node: &Rc<Node>) -> u32
    ensures { result ≡ statement_place (seen_statement node.now.value) }
{
    match &**node {
        Node::NoOp(place) => *place,
        Node::Signal(place, _) => *place,
        Node::Seq(_) => 0,
        Node::Loop(place, _) => *place,
        Node::If(place, _, _, _) => *place,
        Node::Begin(place, _, _, _) => *place,
        Node::Call(call) => call.place,
        Node::Apply(call) => call.place,
    }
}

/// The place of a procedure.
fn procedure_place(program: &Program, procedure: u32) -> u32
    ensures { result ≡ (proc_at (seen_program program.now) procedure).place }
{
    match program.procedures.get(procedure as usize) {
        Some(procedure) => procedure.place,
        None => 0,
    }
}

/// The place of the top of work.
fn work_place(program: &Program, procedure: u32, work: &Work) -> u32
    ensures { (x : List ValueOf) (fs : List Frame) (t : Tally) →
        result ≡ place_of (seen_program program.now) (At procedure x (work_of work.now) fs t) }
{
    match work.top() {
        None => procedure_place(program, procedure),
        Some(Item::Do(node)) => statement_place(node),
        Some(Item::Parts(_parts, _next)) => 0,
        Some(Item::Again(place, _)) => *place,
        Some(Item::Back(place, _)) => *place,
        Some(Item::JoinThen(place, _)) => *place,
        Some(Item::JoinOne(place)) => *place,
        Some(Item::Guard(place, _, _)) => *place,
        Some(Item::Out(_)) => procedure_place(program, procedure),
    }
}

/// The condition that is on its way out, at the top of work.
fn raised(work: &Work) -> Option<Condition>
    ensures { option_map seen_cond result ≡ top_way (work_of work.now) }
{
    match work.top() {
        Some(Item::Out(cond)) => Some(*cond),
        _ => None,
    }
}

/// A condition by its position, as it is shown.
fn shown<'a>(conditions: &'a [Current], number: u32, routine: &'a Current) -> &'a Current
    ensures { result.now ≡ current_or routine.now (slice_get conditions.now number) }
{
    match conditions.get(number as usize) {
        Some(current) => current,
        None => routine,
    }
}

/// A condition of a procedure by its position, as it is shown.
fn declared<'a>(
    names: &'a [Names],
    procedure: u32,
    number: u32,
    routine: &'a Current,
) -> &'a Current
    ensures { result.now ≡ current_or routine.now (slice_get (conditions_of names.now procedure) number) }
{
    match names.get(procedure as usize) {
        Some(names) => shown(names.conditions.as_slice(), number, routine),
        None => routine,
    }
}

/// One more than those that wait.
fn above(waiting: usize) -> u32
    ensures { waiting + 1 < 2 ^ 32 → result ≡ waiting + 1 }
{
    match u32::try_from(waiting) {
        Ok(waiting) => waiting.saturating_add(1),
        Err(_) => u32::MAX,
    }
}

impl Meaning {
    /// Whether the step that ends the run was made.
    #[tactic(auto, unfolding(crate::specs::Views::Running::seen))]
    pub fn ended(&self) -> bool
        ensures { result ≡ is_over (seen self.now).stage }
    {
        self.ending.is_some()
    }

    /// How many steps were made; it stays at 2^64 - 1.
    #[tactic(auto, unfolding(crate::specs::Views::Running::seen))]
    pub fn steps(&self) -> u64
        ensures { result ≡ (seen self.now).steps }
    {
        self.steps
    }

    /// What they cost in instructions; it stays at 2^64 - 1.
    #[tactic(auto, unfolding(crate::specs::Views::Running::seen))]
    pub fn counted(&self) -> u64
        ensures { result ≡ (seen self.now).counted }
    {
        self.counted
    }

    /// What the last step that was made cost in instructions, and 0 before the first.
    #[tactic(auto, unfolding(crate::specs::Views::Running::seen))]
    pub fn cost(&self) -> u64
        ensures { result ≡ (seen self.now).cost }
    {
        self.cost
    }

    /// The procedure that is active, or main at the end.
    #[tactic(auto, unfolding(crate::specs::Views::Running::seen))]
    fn active(&self) -> u32
        ensures { result ≡ procedure_at (seen self.now).program (seen self.now).stage }
    {
        match self.ending {
            None => self.procedure,
            Some(_) => self.program.main,
        }
    }

    /// The condition of the run.
    #[tactic(auto, unfolding(crate::specs::Views::Running::seen))]
    fn way(&self) -> Option<Condition>
        ensures { option_map seen_cond result ≡ way_at (seen self.now).stage }
    {
        match self.ending {
            None => raised(&self.work),
            Some(Ending::Normal) => None,
            Some(Ending::Raised(cond)) => Some(cond),
        }
    }

    /// The condition: normal, but where one is on its way out of the active procedure, and at the end.
    pub fn condition(&self) -> &Current
        ensures { (s : SourceOf) (needs : List Need) → BelongsTo s needs self.now →
            result.now ≡ condition_at s (seen self.now).stage }
    {
        match self.way() {
            None => &self.unnamed.normal,
            Some(Condition::Leave) => &self.unnamed.leave,
            Some(Condition::Routine) => &self.unnamed.routine,
            Some(Condition::Space) => &self.unnamed.space,
            Some(Condition::Declared(number)) => declared(
                self.names.as_slice(),
                self.active(),
                number,
                &self.unnamed.routine,
            ),
        }
    }

    /// The byte place of what the next step does, or of main at the end.
    #[tactic(auto, unfolding(crate::specs::Views::Running::seen))]
    pub fn place(&self) -> u32
        ensures { result ≡ place_at (seen self.now).program (seen self.now).stage }
    {
        match self.ending {
            None => work_place(&self.program, self.procedure, &self.work),
            Some(_) => procedure_place(&self.program, self.program.main),
        }
    }

    /// How many activations there are.
    pub fn depth(&self) -> u32
        ensures { (s : SourceOf) (needs : List Need) → BelongsTo s needs self.now →
            result ≡ depth_at (seen self.now).stage }
    {
        // For the prover alone: each activation takes two words of the stack whose size this is.
        let _limit = self.ctrl;
        match self.ending {
            None => above(self.waiting.len()),
            Some(_) => 1,
        }
    }

    /// The variables of the active procedure, formals and then locals, or main's formals at the end.
    #[tactic(auto, unfolding(crate::specs::Views::Running::seen))]
    pub fn variables(&self) -> &[(Name, Value)]
        ensures values { held_values result.now ≡ values_at (seen self.now).stage }
        ensures names { (s : SourceOf) (needs : List Need) → BelongsTo s needs self.now →
            held_names result.now ≡ names_at s (seen self.now).stage }
    {
        self.variables.as_slice()
    }
}

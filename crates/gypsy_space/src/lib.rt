//! What programs of Micro-Gypsy need and cost: words of both stacks, words of code, instructions and steps.
//!
//! `specs/` has the definitions over programs with positions in place of names; such programs as code are here too.
#![tactic(auto)]

mod callees;
mod counting;
mod event;
mod laws;
mod need;
mod program;
mod resolving;

pub use counting::{needs, needs_with};
pub use event::{CostEvent, Outcome};
pub use laws::{calls_cost, room_is_room};
pub use need::{Lack, Need, Needs};
pub use program::{Application, Argument, CallSite, Condition, Node, Procedure, Program};
pub use resolving::resolve;

//! Runs of programs of Micro-Gypsy: the step machine as code.
//!
//! What it follows is defined in `gypsy_semantics`; `specs/Views` says how a run is seen, and what belongs together.
#![tactic(auto)]

mod activations;
mod applying;
mod calling;
mod copying;
mod effects;
mod finishing;
mod fitting;
mod laws;
mod moving;
mod names;
mod pending;
mod returning;
mod running;
mod showing;
mod starting;
mod stepping;
mod turn;
mod work;
mod writing;

pub use activations::Activation;
pub use gypsy_semantics::{Current, MeanRun, Moved};
pub use laws::{activations_go_on_as_shown, runs_keep_their_source};
pub use running::Meaning;

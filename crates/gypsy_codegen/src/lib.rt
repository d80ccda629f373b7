//! The Piton system that is generated from a program of Micro-Gypsy: its definition by places and as a text, and its laws.
//!
//! `specs/Generated` is the system by places, `specs/Text` the text with names and labels; the laws join the two, and say what
//! each step and each run of the system does. `generate` makes the text of an accepted source, checked, in one pass.
#![tactic(auto)]

mod apply;
mod calls;
mod context;
mod emitter;
mod fault;
mod generating;
mod handled;
mod laws;
mod lines;
mod marking;
mod procedure;
mod statement;
mod system;
mod words;

pub use fault::GenFault;
pub use generating::{generate, generate_with};
pub use laws::{
    examples_compute, generated_is_acceptable, guards_tell_room, meaning_runs, moments_are_marked,
    moments_are_reached, moments_have_frames, procedures_take_words, raise_follows, rows_follow,
    shown_states_read, source_runs, states_are_shown, steps_cost, steps_follow,
    variables_keep_names,
};
pub use marking::{MarkAt, marks, marks_with};

//! Every moment of a run of quick code: which state of the step machine the processor shows, and after how many instructions.
#![tactic(auto)]

mod laws;

pub use laws::{quick_images_show, quick_moments_show, quick_steps_show, steps_are_shown};

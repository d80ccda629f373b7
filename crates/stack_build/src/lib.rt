//! From the source of a program to its image.
//!
//! `build` reads and checks a source, generates its Piton system, links that, and writes the image file. Its contract
//! says that the image does what the source means: on all values, with the exact number of instructions. `start_meaning`,
//! `start_system` and `start_image` say where runs of a source on values begin.
#![tactic(auto)]

mod building;
mod built_starts;
mod fault;
mod formals;
mod imaging;
mod laws;
mod meaning_starts;
mod shown;
mod start_fault;
mod tables;
mod value_words;

pub use building::{Built, Origins, accept, build, build_accepted, build_with_origins, compile};
pub use built_starts::{ImageStart, SystemStart, start_image, start_system};
pub use fault::BuildFault;
pub use formals::read_formals;
pub use imaging::{linked_image, slots_from};
pub use laws::{
    builds_implement, builds_stay_inside, images_implement, images_keep_traces, images_say_moments,
    images_stand_for_piton, moments_are_read, placed_are_words, runs_are_meant,
    source_runs_tell_meaning,
};
pub use meaning_starts::start_meaning;
pub use shown::{formal_conditions, shown_formals};
pub use start_fault::StartFault;

//! Values for the variables of an image, and the machine that is loaded with them.
#![tactic(auto)]

mod fault;
mod judging;
mod loading;
mod parsed;
mod reading;
mod values;

pub use fault::ValuesFault;
pub use loading::load;
pub use values::{read_image_values, read_values};

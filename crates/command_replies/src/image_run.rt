//! Runs of images.
ghost use Rattle.fm_loader.specs.Loaded.{Fits};

use fm_image::Image;
use stack_text::{Seq, Value};

/// The run of an image on values of its variables, for so many instructions at most.
#[derive(Drop)]
pub struct ImageRun {
    /// The image that is run.
    pub image: Image,
    /// The values of the image's slots, which fit them.
    pub values: Seq<Value>,
    /// The most instructions that are made.
    pub budget: u64,
    ghost fits: { Fits image.slots values },
}

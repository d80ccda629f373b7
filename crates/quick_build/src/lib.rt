//! Quick images of sources.
#![tactic(auto)]

mod laws;

pub use laws::{
    product_is_quick, quick_images_end_as_meant, quick_images_implement,
    quick_programs_are_no_slower, swap_is_quick, upto_is_quick,
};

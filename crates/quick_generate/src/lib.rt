//! Quick images of sources, as code.
//!
//! `quicken` puts the calls of main in line, chooses the variables that have registers, and makes the image that `quick_build`
//! defines. If that would be too much, it keeps the plain image.
#![tactic(auto)]

mod access;
mod argument;
mod calls;
mod choice;
mod exits;
mod frame;
mod generating;
mod in_main;
mod laws;
mod lined_main;
mod lining;
mod measuring;
mod piece;
mod product;
mod reaching;
mod row;
mod scopes;
mod size;
mod statement;
mod window;

pub use generating::quicken;
pub use laws::quickened_images_mean;

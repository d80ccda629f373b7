//! What the images of sources do on the board.
#![tactic(auto)]

mod laws;

pub use laws::{built_on_board, spelled_on_board};

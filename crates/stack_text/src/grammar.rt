//! Grammars over trees.
//!
//! A grammar judges each tree: it is a value, or has faults. A reader returns the first fault in reading order, which is
//! the least where the places of a tree go up, as they do in a text.

mod atom;
mod fault;
mod name;
mod part;
mod printing;

pub use crate::printer::separate;
pub use atom::is_numeral_atom;
pub use fault::FormFault;
pub use name::{named, names};
pub use part::{Part, each, each_in, list_length};
pub use printing::{Print, print_items, print_name, spaced_items, spaced_name};

//! The text of Piton: the tree of a system, its operations with their arguments, and what keeps a text from being a
//! system's.
//!
//! `specs/` has the grammar, the faults of the form and the printed text.
#![tactic(auto)]

mod argument;
mod fault;
mod laws;
mod op;
mod printing;
mod reading;
mod system;
mod tag;
mod test_kind;
mod word_text;

pub use argument::{ArgKind, ArgText, Arguments};
pub use fault::PitonFault;
pub use laws::plain_form;
pub use op::{PitonOp, operation_named};
pub use printing::print_piton;
pub use reading::read_piton;
pub use system::{Area, InstrText, Program, System};
pub use tag::{Tag, tag_named};
pub use test_kind::{TestFamily, TestKind, test_named};
pub use word_text::{Number, WordItem, WordText};

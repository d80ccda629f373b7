//! The text form that every crate of the stack shares, and the vocabulary of their contracts: names, numerals, trees
//! and values, lists in contracts, and out of memory.
#![tactic(auto)]

mod breach;
mod class;
/// Parts of a grammar: how they are read from trees, and printed as trees.
pub mod grammar;
mod laws;
mod lexer;
mod limits;
mod line;
mod memory;
mod name;
mod numeral;
mod pieces;
mod printer;
mod reader;
mod seq;
mod shape;
mod text_fault;
mod tree;
mod value;

pub use breach::{Breach, note_if};
pub use laws::tree_or_fault;
pub use limits::{
    MOST_ARRAY, MOST_DECLARED, MOST_IMAGE_FILE, MOST_NAME_BYTES, MOST_PROCEDURES, MOST_STACK,
    MOST_STEPS, MOST_TASKS, MOST_TEXT,
};
pub use line::is_plain_line;
pub use memory::Memory;
pub use name::{Name, Named, is_name, read_name};
pub use numeral::{is_digits, is_numeral, read_numeral};
pub use pieces::push_each;
pub use printer::print_tree;
pub use reader::{read_in_plenty, read_text_tree, read_tree};
pub use seq::Seq;
pub use shape::{Kind, Shape};
pub use text_fault::{TextFault, TextRule};
pub use tree::{TextTree, Tree};
pub use value::Value;

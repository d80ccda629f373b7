//! Names: lists of them, each once, and tables, in which a name has the value with which it was entered first.
#![tactic(auto)]

mod kept;
mod name_key;
mod name_keys;
mod name_list;
mod name_table;

pub use name_keys::NameKeys;
pub use name_list::NameList;
pub use name_table::NameTable;

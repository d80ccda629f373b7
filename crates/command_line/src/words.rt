//! The words of the command line.

mod name;
mod number;
mod reader;
mod row;

pub use name::FileName;
pub use number::{ProcedureCount, StackSize, TurnLength};
pub use reader::{Level, WordsFault};
pub use row::command_of;

//! Scripts of a debugger: a text of lines, each of which is empty or one command.
//!
//! `step N`, `show`, `up`, `attach WATCH`, `detach WATCH` and `tally WATCH`, where WATCH is `count`, `cost`, `last`
//! or `peak`, `words ADDRESS N`, and `until PLACE N`, where PLACE is a number, a program's name and a number, or
//! `depth<=M`.
#![tactic(auto)]

mod command;
mod fault;
mod line;
mod reading;

pub use command::{Command, Place, Places, WatchWord};
pub use fault::ScriptFault;
pub use reading::{Line, read_script};

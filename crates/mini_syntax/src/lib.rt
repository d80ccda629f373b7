//! A small language with infix expressions: its text, and its reader.
//!
//! `specs/` has the tokens and the grammar of a text, what is wrong with one, and programs with positions in place of names.
#![tactic(auto)]

mod blocks;
mod expected;
mod expressions;
mod fault;
mod judging;
mod laws;
mod lexeme;
mod lexer;
mod mark;
mod operator;
mod program;
mod reading;
mod scope;
mod sort;
mod typed;
mod word;

pub use fault::MiniFault;
pub use laws::{examples_compute, expected_decides, texts_have_an_answer, texts_have_one_answer};
pub use operator::{Infix, Prefix};
pub use program::{Declared, Exp, InfixProgram, Statement};
pub use reading::read_mini;
pub use sort::Sort;

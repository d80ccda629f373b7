//! The processor's circuit as Verilog.
#![tactic(auto)]

mod text;
mod wire_name;

pub use text::{clock, push_declaration, verilog};
pub use wire_name::name;

//! What an image says of the procedures of its source.

use stack_text::{Name, Shape};
use std::marker::Model;

/// A variable of a procedure.
#[derive(Debug, Drop)]
pub struct VarInfo {
    /// Its name, which no other variable of the procedure has.
    pub name: Name,
    /// The kind of its items; a length of 0 for a simple type, or else 1 to 4096.
    pub shape: Shape,
    /// The word of the procedure's frame that has its index: 0 to 199.
    pub offset: u32,
}

/// A procedure: its name, its conditions from number 3 on, and its variables.
///
/// Contracts see it as a record of the same fields, with lists in place of the vectors.
#[derive(Debug, Drop)]
pub struct ProcInfo {
    /// Its name, which no other procedure of the image has.
    pub name: Name,
    /// At most 201, all different.
    pub conditions: Vec<Name>,
    /// At most 200, their names all different.
    pub variables: Vec<VarInfo>,
}

impl Model for ProcInfo {
    ghost use Rattle.fm_image.specs.Procedure.{ProcedureOf};

    ghost Value = { ProcedureOf };

    ghost view = { λ p. record { name = p.name; conditions = p.conditions.items; variables = p.variables.items } };
}

/// An address at which memory can be read as a state of the source.
#[derive(Clone, Copy, Debug)]
pub struct Mark {
    /// The address in the window.
    pub address: u32,
    /// The number of its procedure, from 0.
    pub procedure: u32,
    /// The place in the source: below 2^20.
    pub place: u32,
}

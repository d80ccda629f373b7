//! Programs of the infix language, with sorts and positions in place of names.

use crate::operator::{Infix, Prefix};
use crate::sort::Sort;
use stack_text::Name;

/// A declared variable.
#[derive(Debug, Drop)]
pub struct Declared {
    /// The name of the variable.
    pub name: Name,
    /// What the variable holds.
    pub sort: Sort,
}

/// An expression. Contracts see it through `exp_of`.
#[derive(Debug, Drop)]
pub enum Exp {
    /// A variable of a sort, by its position among the declared ones.
    Variable {
        sort: Sort,
        index: u32,
    },
    /// A number of 31 bits.
    Number(u32),
    /// `true` or `false`.
    Truth(bool),
    /// An operator before its operand.
    Before {
        op: Prefix,
        operand: Box<Exp>,
    },
    /// An operator between its operands.
    Between {
        /// Which operator it is.
        op: Infix,
        /// The operand before the operator.
        left: Box<Exp>,
        /// The operand behind the operator.
        right: Box<Exp>,
    },
}

/// A statement. Contracts see it through `statement_in`, and a list of them through `block_in`.
#[derive(Debug, Drop)]
pub enum Statement {
    /// The declared variable at this position takes the expression's value.
    Assign {
        index: u32,
        value: Exp,
    },
    /// The body again and again, as long as the test is true.
    While {
        test: Exp,
        body: Vec<Statement>,
    },
    /// One of two blocks, by a test.
    If {
        /// The expression that decides.
        test: Exp,
        /// The block that is done where the test is true.
        then: Vec<Statement>,
        /// The block that is done where the test is false.
        otherwise: Vec<Statement>,
    },
}

/// A program that was read: its declarations, and its statements.
#[derive(Debug, Drop)]
pub struct InfixProgram {
    /// The declared variables, in order.
    pub declared: Vec<Declared>,
    /// The statements, in turn.
    pub body: Vec<Statement>,
}

impl Exp {
    ghost use Rattle.std.specs.Prelude.{◌≡◌};
    ghost use Rattle.mini_syntax.specs.{ProgramView.{exp_of}, Operands.{sort_of}};

    /// The sort of what the expression is worth.
    pub fn sort(&self) -> Sort
        ensures { result ≡ sort_of (exp_of self.now) }
    {
        match self {
            Exp::Variable { sort, index: _ } => *sort,
            Exp::Number(_) => Sort::Int,
            Exp::Truth(_) => Sort::Bool,
            Exp::Before { op, .. } => op.sort(),
            Exp::Between { op, .. } => op.sort(),
        }
    }
}

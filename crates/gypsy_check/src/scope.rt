//! The names that a procedure declares.

ghost use Rattle.std.specs.Prelude.{◌≡◌, ◌++◌};
ghost use Rattle.gypsy_syntax.specs.Views.SourceView.{proc_of};
ghost use Rattle.gypsy_check.specs.{Declarations.{is_condition, type_of}, Tables.{KnowsNames, KnowsTypes, declared}};

use gypsy_syntax::{Proc, TypeText};
use name_tables::{NameList, NameTable};
use stack_text::Name;
use std::marker::Model;

/// A procedure, with the type of the first variable of each name, formals before locals, and the names of its conditions.
///
/// Contracts see it as the procedure.
#[derive(Drop)]
pub(crate) struct Scope<'a> {
    proc: &'a Proc,
    variables: NameTable<'a, TypeText>,
    conds: NameList<'a>,
}

impl<'a> Model for Scope<'a> {
    ghost use Rattle.std.specs.{Prelude.{◌++◌}, Coded.{codes}};
    ghost use Rattle.gypsy_syntax.specs.declared.proc.Proc.{Proc};
    ghost use Rattle.gypsy_check.specs.Tables.{KnowsNames, KnowsTypes, declared};
    ghost use Rattle.gypsy_syntax.specs.contracts.literal.Literal as literal;
    ghost use Rattle.gypsy_syntax.specs.contracts.statement.Stmt as statement;

    ghost Value = { Proc };

    ghost coded = { Prim.hlevel (codes, literal.the_row.coded, statement.the_row.coded) };

    ghost view = { λ s. s.proc.now };

    ghost invariant = { λ s. KnowsTypes s.variables (declared s.proc.now)
        × KnowsNames s.conds (s.proc.now.conds.items ++ s.proc.now.local_conds.items) };
}

impl<'a> Scope<'a> {
    /// A procedure with its variables and conditions.
    pub(crate) fn new(
        proc: &'a Proc,
        variables: NameTable<'a, TypeText>,
        conds: NameList<'a>,
    ) -> Scope<'a>
        requires variables { KnowsTypes variables (declared proc.now) }
        requires conds { KnowsNames conds (proc.now.conds.items ++ proc.now.local_conds.items) }
        ensures { result ≡ proc.now }
    {
        Scope {
            proc,
            variables,
            conds,
        }
    }

    /// The type of the first variable of a name.
    pub(crate) fn type_of(&self, name: &Name) -> Option<TypeText>
        ensures { result ≡ type_of (proc_of self.now) name.now }
    {
        self.variables.get(name.bytes())
    }

    /// Whether a condition of the name is declared, formal or local.
    pub(crate) fn has_condition(&self, name: &Name) -> bool
        ensures { result ≡ is_condition (proc_of self.now) name.now }
    {
        self.conds.contains(name.bytes())
    }
}

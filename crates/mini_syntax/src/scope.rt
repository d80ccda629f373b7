//! The declared variables, found by their names.

ghost use Rattle.std.specs.Prelude.{◌≡◌, ◌<◌, ◌^◌, ◌++◌, [], ◌∷◌, length, OnOk, option_map};
ghost use Rattle.stack_heap.specs.Heaps.{OnOkUnless};
ghost use Rattle.mini_syntax.specs.{Breaches.{or_first, variable_named}, declared.program.Declared.{Declared}, Internal.Scopes.{IsScope}};

use crate::program::Declared;
use crate::sort::Sort;
use name_tables::NameTable;
use stack_heap::Heap;
use stack_text::{Memory, Name};

/// A declared variable.
#[derive(Clone, Copy, Debug)]
pub struct Variable {
    /// Its position among the declarations, from 0.
    pub index: u32,
    /// What it holds.
    pub sort: Sort,
}

/// The declared variables, and the first one of each name.
#[derive(Drop)]
pub struct Scope<'a> {
    /// The variables in the order of their declarations.
    pub declared: Vec<Declared>,
    /// The first variable of each name.
    pub variables: NameTable<'a, Variable>,
}

impl<'a> Scope<'a> {
    /// The first variable of a name.
    pub(crate) fn named(&self, name: &[u8]) -> Option<Variable>
        requires { IsScope self.now }
        ensures { result ≡ variable_named self.now.declared.items name.now }
    {
        self.variables.get(name)
    }
}

/// The sort of a variable that was found.
pub(crate) fn sort_of(found: Option<Variable>) -> Option<Sort>
    ensures { result ≡ option_map (λ v. v.sort) found }
{
    found.map(|variable| variable.sort)
}

/// The position of a variable that was found, or 0.
pub(crate) fn index_of(found: Option<Variable>) -> u32
    ensures { result ≡ (or_first found).index }
{
    match found {
        Some(variable) => variable.index,
        None => 0,
    }
}

/// Enters a variable behind those that are declared, unless its name is known.
pub(crate) fn enter<'a, H: Heap>(
    heap: H,
    scope: &mut Scope<'a>,
    name: Name,
    bytes: &'a [u8],
    sort: Sort,
) -> Result<(), Memory>
    requires scope { IsScope scope.old }
    requires few { length scope.old.declared.items < 2 ^ 32 }
    requires same { name ≡ bytes.now }
    ensures scope { OnOkUnless (H.may_refuse heap) result (IsScope scope.new) }
    ensures declared { let one : Declared = record { name = name; sort = sort } in
        OnOk result (scope.new.declared.items ≡ scope.old.declared.items ++ one ∷ []) }
{
    let index = scope.declared.len() as u32;
    scope
        .variables
        .enter(heap, bytes, Variable { index, sort })?;
    heap.push(&mut scope.declared, Declared { name, sort })?;
    Ok(())
}

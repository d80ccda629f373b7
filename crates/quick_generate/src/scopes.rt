//! Where conditions go.

ghost use Rattle.std.specs.Prelude.{◌≡◌};
ghost use Rattle.gypsy_space.specs.Nodes.{seen_cond};
ghost use Rattle.quick_generate.specs.Views.{targets};

use crate::exits::{Exits, exit_place};
use gypsy_semantics::{is_among, is_leave};
use gypsy_space::Condition;

/// What stands round a statement, the nearest first: a loop with the address behind it, and a `begin` with its
/// conditions and the address of its handler.
#[derive(Clone, Copy)]
pub(crate) enum Scopes<'a> {
    Outside(&'a Exits),
    InLoop(u32, &'a Scopes<'a>),
    InBegin(&'a [Condition], u32, &'a Scopes<'a>),
}

/// The address to which a condition goes.
pub(crate) fn target(scopes: &Scopes, cond: Condition) -> u32
    ensures { result ≡ targets scopes.now (seen_cond cond) }
{
    match scopes {
        Scopes::Outside(exits) => exit_place(exits, cond),
        Scopes::InLoop(behind, outer) => {
            if is_leave(cond) {
                *behind
            } else {
                target(outer, cond)
            }
        }
        Scopes::InBegin(conds, arm, outer) => {
            if is_among(cond, conds) {
                *arm
            } else {
                target(outer, cond)
            }
        }
    }
}

//! Conditions.

ghost use Rattle.std.specs.{Prelude.{◌≡◌, map}, List.{list_any}};
ghost use Rattle.gypsy_space.specs.Nodes.{seen_cond, seen_program};
ghost use Rattle.gypsy_semantics.specs.Calls.{has_cond, same_cond, is_leave, is_passed_on};

use gypsy_space::{Condition, Program};

/// Whether a condition is `leave`.
pub fn is_leave(cond: Condition) -> bool
    ensures { result ≡ is_leave (seen_cond cond) }
{
    matches!(cond, Condition::Leave)
}

/// Whether two conditions are one.
pub fn is_same(left: Condition, right: Condition) -> bool
    ensures { result ≡ same_cond (seen_cond left) (seen_cond right) }
{
    match (left, right) {
        (Condition::Leave, Condition::Leave) => true,
        (Condition::Routine, Condition::Routine) => true,
        (Condition::Space, Condition::Space) => true,
        (Condition::Declared(i), Condition::Declared(j)) => i == j,
        _ => false,
    }
}

/// Whether a condition is one of these.
fn is_any(cond: Condition, conds: &[Condition]) -> bool
    ensures { result ≡ list_any (λ d. same_cond (seen_cond cond) (seen_cond d)) conds.now }
{
    conds.iter().any(|other| is_same(cond, *other))
}

/// Whether a condition stands in a list.
#[tactic(auto, using(crate::proofs::CondLaws::has_any))]
pub fn is_among(cond: Condition, conds: &[Condition]) -> bool
    ensures { result ≡ has_cond (seen_cond cond) (map seen_cond conds.now) }
{
    is_any(cond, conds)
}

/// Whether a condition is passed on where it leaves a procedure: one of its formal ones, or spaceerror.
#[tactic(auto, unfolding(crate::specs::Calls::is_passed_on))]
pub fn is_passed_on(program: &Program, procedure: u32, cond: Condition) -> bool
    ensures { result ≡ is_passed_on (seen_program program.now) procedure (seen_cond cond) }
{
    match (cond, program.procedures.get(procedure as usize)) {
        (Condition::Space, _) => true,
        (Condition::Declared(number), Some(procedure)) => (number as usize) < procedure.conds.len(),
        _ => false,
    }
}

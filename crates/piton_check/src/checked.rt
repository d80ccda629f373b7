//! Checked systems.

ghost use Rattle.std.specs.Prelude.{◌≡◌, IfOk, IfErr};
ghost use Rattle.piton_syntax.specs.PitonReading.{KeepsForm};
ghost use Rattle.piton_check.specs.PitonChecking.{IsLeastUnless, IsChecked};

use crate::fault::CheckFault;
use crate::resolved::Resolved;
use crate::system::resolve;
use piton_syntax::System;
use stack_heap::Heap;
use std::marker::Model;

/// A system that keeps the form and breaks no static rule, and the same with each name replaced by a position.
///
/// Contracts see it as the record of both. `IsChecked` is known of each, by the clause `checked` of either method: above
/// all that what the resolved system names exists (`IsSound`).
#[derive(Debug, Drop)]
pub struct Checked {
    system: System,
    resolved: Resolved,
}

impl Model for Checked {
    ghost use Rattle.piton_check.specs.PitonChecking.{CheckedOf, IsChecked};

    ghost Value = { CheckedOf };

    ghost view = { λ c. record { system = c.system; resolved = c.resolved } };

    ghost invariant = { λ c. IsChecked (record { system = c.system; resolved = c.resolved }) };
}

impl Checked {
    /// The system as it was written.
    pub fn system(&self) -> &System
        ensures value { result.now ≡ self.now.system }
        ensures checked { IsChecked self.now }
    {
        &self.system
    }

    /// The system with each name replaced by a position.
    pub fn resolved(&self) -> &Resolved
        ensures value { result.now ≡ self.now.resolved }
        ensures checked { IsChecked self.now }
    {
        &self.resolved
    }
}

/// Checks a system against the static rules.
///
/// # Errors
///
/// The least breach, place before rule, of all that there are; or out of memory. The time is linear in the text, but for
/// names that were picked so that they meet in a hash table, whose seed is fixed.
pub fn check<H: Heap>(heap: H, system: System) -> Result<Checked, CheckFault>
    requires { KeepsForm system }
    ensures checked { IfOk result IsChecked }
    ensures kept { IfOk result (λ checked. checked.system ≡ system) }
    ensures least { IfErr result (IsLeastUnless (H.may_refuse heap) system) }
{
    let mut best = None;
    let resolved = resolve(heap, &mut best, &system)?;
    match best {
        None => Ok(Checked { system, resolved }),
        Some(breach) => Err(CheckFault::Violation {
            rule: breach.rule,
            place: breach.place,
        }),
    }
}

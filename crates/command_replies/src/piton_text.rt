//! Piton texts, read and judged.
ghost use Rattle.std.specs.Prelude.{◌≡◌, ◌≤◌, ◌^◌, Some, IfOk, OnErr, length};
ghost use Rattle.stack_heap.specs.Heaps.{IfOkUnless};
ghost use Rattle.stack_text.specs.Breaches.{least};
ghost use Rattle.piton_syntax.specs.PitonReading.{KeepsForm, fault_of};
ghost use Rattle.piton_syntax.specs.declared.fault.PitonFault.TheVariants as faults;
ghost use Rattle.piton_check.specs.{PitonChecking.{IsChecked}, Violations.{violations}};
ghost use Rattle.command_replies.specs.Commands.PitonText.{piton_verdict, checked_unless, checked_in};

use crate::reply::{RuleLetter, Verdict, text_rule_number};
use piton_check::{CheckFault, Checked, check};
use piton_syntax::{PitonFault, System, read_piton};
use stack_heap::Heap;
use stack_text::Memory;

/// The verdict by which a text is refused that is no system.
fn verdict_of(fault: PitonFault) -> Result<Verdict, Memory>
    ensures known { IfOk result (λ verdict. fault_of fault ≡ Some fault) }
    ensures memory { OnErr result (fault ≡ faults.Memory) }
    ensures verdict { IfOk result (λ verdict. verdict ≡ piton_verdict fault) }
{
    match fault {
        PitonFault::Text { rule, place } => Ok(Verdict::Refused {
            letter: RuleLetter::G,
            number: text_rule_number(rule),
            place,
        }),
        PitonFault::Form {
            rule: number,
            place,
        } => Ok(Verdict::Refused {
            letter: RuleLetter::P,
            number,
            place,
        }),
        PitonFault::Memory => Err(Memory),
    }
}

/// The checked system, or the verdict by which it is refused.
fn check_system<H: Heap>(heap: H, system: System) -> Result<Result<Checked, Verdict>, Memory>
    requires { KeepsForm system }
    ensures found { IfOkUnless (H.may_refuse heap) result
        (λ found. found ≡ checked_unless system (least (violations system))) }
    ensures checked { IfOk result (λ found. IfOk found IsChecked) }
{
    match check(heap, system) {
        Ok(checked) => Ok(Ok(checked)),
        Err(
            CheckFault::Violation {
                rule: number,
                place,
            },
        ) => Ok(Err(Verdict::Refused {
            letter: RuleLetter::Q,
            number,
            place,
        })),
        Err(CheckFault::Memory) => Err(Memory),
    }
}

/// The checked system of a text, or the verdict by which the text is refused.
#[tactic(auto, unfolding(crate::specs::Commands::PitonText::checked_in))]
pub fn read_checked<H: Heap>(heap: H, text: &[u8]) -> Result<Result<Checked, Verdict>, Memory>
    requires { length text.now ≤ 2 ^ 31 }
    ensures found { IfOkUnless (H.may_refuse heap) result (λ found. found ≡ checked_in text.now) }
    ensures checked { IfOk result (λ found. IfOk found IsChecked) }
{
    match read_piton(heap, text) {
        Ok(system) => check_system(heap, system),
        Err(fault) => Ok(Err(verdict_of(fault)?)),
    }
}

//! Texts of sources, read and judged.
ghost use Rattle.std.specs.Prelude.{◌≡◌, ◌≤◌, ◌^◌, Some, None, IfOk, OnErr, length};
ghost use Rattle.stack_heap.specs.Heaps.{IfOkUnless};
ghost use Rattle.stack_build.specs.{Build.{fault_of}, Starts.{start_fault_of}};
ghost use Rattle.command_replies.specs.{Plans.{pending_reply}, Replies.{verdict_alone}};
ghost use Rattle.stack_commands.specs.Commands.SourceText.{build_verdict, start_verdict, accepted_in, found_source};

use command_replies::{Plan, RuleLetter, SizeOf, Verdict, text_rule_number};
use gypsy_check::Accepted;
use stack_build::{BuildFault, StartFault, accept};
use stack_heap::Heap;
use stack_text::Memory;
use std::alloc::Global;

/// How a command ends where nothing was built.
pub fn verdict_of(fault: BuildFault) -> Result<Verdict, Memory>
    ensures known { IfOk result (λ verdict. fault_of fault ≡ Some fault) }
    ensures memory { OnErr result (fault_of fault ≡ None) }
    ensures verdict { IfOk result (λ verdict. verdict ≡ build_verdict fault) }
{
    match fault {
        BuildFault::Text { rule, place } => Ok(Verdict::Refused {
            letter: RuleLetter::G,
            number: text_rule_number(rule),
            place,
        }),
        BuildFault::Form {
            rule: number,
            place,
        } => Ok(Verdict::Refused {
            letter: RuleLetter::M,
            number,
            place,
        }),
        BuildFault::Rule {
            rule: number,
            place,
        } => Ok(Verdict::Refused {
            letter: RuleLetter::S,
            number,
            place,
        }),
        BuildFault::Size => Ok(Verdict::Usage),
        BuildFault::Control { need } => Ok(Verdict::Size {
            of: SizeOf::Control,
            need,
        }),
        BuildFault::Temporary { need } => Ok(Verdict::Size {
            of: SizeOf::Temporary,
            need,
        }),
        BuildFault::Words { count: need } => Ok(Verdict::Size {
            of: SizeOf::Words,
            need,
        }),
        BuildFault::Memory => Err(Memory),
    }
}

/// The plan of a command for which nothing was built.
pub fn refused(handle: Global, fault: BuildFault) -> Result<Plan, Memory>
    ensures known { IfOk result (λ _. fault_of fault ≡ Some fault) }
    ensures memory { OnErr result (fault_of fault ≡ None) }
    ensures stored { IfOk result (λ plan. plan.stored ≡ None) }
    ensures reply { IfOk result (λ plan. pending_reply plan.pending ≡ verdict_alone (build_verdict fault)) }
{
    Ok(Plan::verdict_alone(handle, verdict_of(fault)?))
}

/// How a command ends where a run of a source does not begin.
pub fn start_verdict(fault: StartFault) -> Result<Verdict, Memory>
    ensures known { IfOk result (λ verdict. start_fault_of fault ≡ Some fault) }
    ensures memory { OnErr result (start_fault_of fault ≡ None) }
    ensures verdict { IfOk result (λ verdict. verdict ≡ start_verdict fault) }
{
    match fault {
        StartFault::Build(fault) => verdict_of(fault),
        StartFault::Values { rule, place } => Ok(Verdict::Values { rule, place }),
    }
}

/// The accepted source of a text, or the verdict by which the text is refused.
#[tactic(auto, unfolding(crate::specs::Commands::SourceText::accepted_in))]
pub fn read_accepted<H: Heap>(heap: H, text: &[u8]) -> Result<Result<Accepted, Verdict>, Memory>
    requires { length text.now ≤ 2 ^ 31 }
    ensures { IfOkUnless (H.may_refuse heap) result (λ found. found_source found ≡ accepted_in text.now) }
{
    match accept(heap, text) {
        Ok(accepted) => Ok(Ok(accepted)),
        Err(fault) => Ok(Err(verdict_of(fault)?)),
    }
}

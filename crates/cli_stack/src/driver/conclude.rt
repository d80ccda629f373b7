//! Prints how a command ended, and keeps its machine.
ghost use Rattle.std.specs.Prelude.{◌≡◌, ◌⊎◌, IfOk, Some, None, map};
ghost use Rattle.stack_heap.specs.Heaps.{IfOkUnless};
ghost use Rattle.stack_commands.specs.Works.{IsEnding};
ghost use Rattle.cli_stack.specs.{World.{out_of}, RepliesTo.{TookLines}, Driver.{machine_kept, conclusion_of, replied, Printed, Stopped, Concludes}};

use command_line::{EarlyEnd, Status, print_owned};
use fm_machine::Machine;
use level_debuggers::Watch;
use stack_commands::{Ending, Reply, tell_session};
use stack_heap::Heap;
use stack_shelf::{PutFault, Sink};
use stack_text::{Memory, Seq};

/// All that is printed at the end of a command that has it at hand, its status, and the machine that was run.
#[derive(Drop)]
pub struct Conclusion {
    /// The bytes that are printed, with the last line.
    pub text: Seq<u8>,
    /// The exit status of the program.
    pub status: Status,
    /// The machine as its run left it, or none where no machine was run.
    pub machine: Option<Machine>,
}

/// How a command concludes, unless memory runs out here or ran out before, so that there is nothing to print.
fn conclusion_of<H: Heap>(heap: H, ran: Result<Reply, EarlyEnd>) -> Result<Conclusion, Memory>
    ensures { IfOkUnless (H.may_refuse heap ⊎ (conclusion_of ran ≡ None)) result
        (λ conclusion. conclusion_of ran ≡ Some conclusion) }
{
    match ran {
        Ok(
            Reply {
                said,
                verdict,
                machine,
            },
        ) => {
            let mut text = said.into_vec();
            heap.extend_from_slice(&mut text, verdict.line(heap)?.as_slice())?;
            Ok(Conclusion {
                text: Seq::from_vec(text),
                status: verdict.status(),
                machine,
            })
        }
        Err(EarlyEnd::OutOfMemory) => Err(Memory),
        Err(end) => Ok(Conclusion {
            text: Seq::from_vec(end.line(heap)?),
            status: end.status(),
            machine: None,
        }),
    }
}

/// Puts a machine into the place for it, where there is one.
fn keep(kept: &mut Option<Machine>, machine: Option<Machine>)
    ensures { kept.new ≡ machine_kept kept.old machine }
{
    if machine.is_some() {
        *kept = machine;
    }
}

/// Prints a conclusion, and ends with its status, or with that of what stopped the printing.
fn print_conclusion<H: Heap, K: Sink>(
    heap: H,
    conclusion: Conclusion,
    out: &mut K,
    kept: &mut Option<Machine>,
) -> Status
    ensures { let before = out_of (K.taken out.old) (K.faults out.old) kept.old in
        let after = out_of (K.taken out.new) (K.faults out.new) kept.new in
        Printed (TookLines K.took out.old out.new) conclusion result before after
        ⊎ Stopped (H.may_refuse heap ⊎ K.may_refuse) conclusion result before after }
{
    let Conclusion {
        text,
        status,
        machine,
    } = conclusion;
    match print_owned(heap, out, text.into_vec()) {
        Ok(()) => {
            keep(kept, machine);
            status
        }
        Err(PutFault::Failed) => Status::SinkFault,
        Err(PutFault::Memory) => Status::OutOfMemory,
    }
}

/// Prints how a command ended of which all that it says is there, and ends with its status.
pub fn conclude_reply<H: Heap, K: Sink>(
    heap: H,
    ran: Result<Reply, EarlyEnd>,
    out: &mut K,
    kept: &mut Option<Machine>,
) -> Status
    ensures { Concludes (H.may_refuse heap ⊎ K.may_refuse)
        (TookLines K.took out.old out.new) (conclusion_of ran) result
        (out_of (K.taken out.old) (K.faults out.old) kept.old)
        (out_of (K.taken out.new) (K.faults out.new) kept.new) }
{
    match conclusion_of(heap, ran) {
        Ok(conclusion) => print_conclusion(heap, conclusion, out, kept),
        Err(Memory) => Status::OutOfMemory,
    }
}

/// Prints how a command ended, and ends with its status. A session has these watches; what it says is printed as it is said.
pub fn conclude<H: Heap, K: Sink>(
    heap: H,
    ran: Result<Ending, EarlyEnd>,
    watches: Vec<Box<dyn Watch>>,
    out: &mut K,
    kept: &mut Option<Machine>,
) -> Status
    requires { IfOk ran IsEnding }
    ensures { Concludes (H.may_refuse heap ⊎ K.may_refuse) (TookLines K.took out.old out.new)
        (conclusion_of (replied (map watching watches.items) ran)) result
        (out_of (K.taken out.old) (K.faults out.old) kept.old)
        (out_of (K.taken out.new) (K.faults out.new) kept.new) }
{
    match ran {
        Ok(Ending::Session(run)) => match tell_session(heap, run, watches, out) {
            Ok(status) => status,
            Err(fault) => match fault {
                PutFault::Failed => Status::SinkFault,
                PutFault::Memory => Status::OutOfMemory,
            },
        },
        Ok(Ending::Reply(reply)) => conclude_reply(heap, Ok(reply), out, kept),
        Err(end) => conclude_reply(heap, Err(end), out, kept),
    }
}

//! The command `turns`: builds sources side by side, and runs their images by turns in one memory.
ghost use Rattle.std.specs.Prelude.{◌≡◌, ◌≤◌, ◌^◌, All, None, IfOk, length, map};
ghost use Rattle.stack_heap.specs.Heaps.{IfOkUnless};
ghost use Rattle.gypsy_space.specs.Needs.{stack_sizes};
ghost use Rattle.command_line.specs.{declared.role.Role.TheVariants.{TaskSource, TaskValues}, Gathered.{texts_of}};
ghost use Rattle.command_replies.specs.{Plans.{pending_reply}, Replies.{reply_of}};
ghost use Rattle.stack_commands.specs.Commands.Turns.{turns_reply, fault_reply};
ghost use Rattle.stack_commands.specs.declared.turns.tasks.TasksFault.TheVariants as TasksFault;

mod rounds;
mod tasks;

use crate::lines::push_line;
use crate::turns::rounds::run_by_turns;
pub use crate::turns::tasks::TasksFault;
use crate::turns::tasks::new_tasks;
use command_line::{Role, StackSize, Texts, TurnLength};
use command_replies::{Pending, Plan, Reply, SizeOf, Verdict};
use stack_heap::Heap;
use stack_text::{Memory, Seq};

/// The reply where a task is refused. Tasks are counted from 1.
fn refused_reply<H: Heap>(heap: H, number: u32, verdict: Verdict) -> Result<Reply, Memory>
    ensures { IfOkUnless (H.may_refuse heap) result
        (λ reply. reply_of reply ≡ fault_reply (TasksFault.Refused number verdict)) }
{
    let mut said = Vec::new(heap.handle());
    push_line(heap, &mut said, b"task ", u64::from(number))?;
    Ok(Reply {
        said: Seq::from_vec(said),
        verdict,
        machine: None,
    })
}

/// The reply to the texts of sources and of their values.
fn reply_to<H: Heap>(
    heap: H,
    sources: &[&[u8]],
    texts: &[&[u8]],
    control: &StackSize,
    temporary: &StackSize,
    turn: &TurnLength,
    budget: u64,
) -> Result<Reply, Memory>
    requires sources { All (λ text. length text.now ≤ 2 ^ 31) sources.now }
    requires texts { All (λ text. length text.now ≤ 2 ^ 31) texts.now }
    ensures { IfOkUnless (H.may_refuse heap) result
        (λ reply. reply_of reply ≡ turns_reply turn.now budget (stack_sizes control.now temporary.now)
        (map (λ text. text.now) sources.now) (map (λ text. text.now) texts.now)) }
{
    match new_tasks(heap, sources, texts, control.words(), temporary.words()) {
        Ok(tasks) => run_by_turns(heap, tasks, turn.instructions(), budget),
        Err(TasksFault::Count) => Ok(Reply::verdict_alone(heap.handle(), Verdict::Usage)),
        Err(TasksFault::Refused { number, verdict }) => refused_reply(heap, number, verdict),
        Err(TasksFault::Large { words: need }) => Ok(Reply::verdict_alone(
            heap.handle(),
            Verdict::Size {
                of: SizeOf::Words,
                need,
            },
        )),
        Err(TasksFault::Memory) => Err(Memory),
    }
}

/// What is left of `turns` once its texts are there.
pub fn prepare<H: Heap>(
    heap: H,
    texts: &Texts,
    turn: &TurnLength,
    budget: u64,
    control: &StackSize,
    temporary: &StackSize,
) -> Result<Plan, Memory>
    ensures stored { IfOkUnless (H.may_refuse heap) result (λ plan. plan.stored ≡ None) }
    ensures reply { IfOk result (λ plan. pending_reply plan.pending
        ≡ turns_reply turn.now budget (stack_sizes control.now temporary.now)
        (texts_of TaskSource texts.now) (texts_of TaskValues texts.now)) }
{
    let sources = texts.all_of(heap, Role::TaskSource)?;
    let values = texts.all_of(heap, Role::TaskValues)?;
    let reply = reply_to(
        heap,
        sources.as_slice(),
        values.as_slice(),
        control,
        temporary,
        turn,
        budget,
    )?;
    Ok(Plan {
        stored: None,
        pending: Pending::Reply(reply),
    })
}

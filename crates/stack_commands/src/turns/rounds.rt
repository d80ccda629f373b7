//! Runs tasks by turns, and tells how each of them ended.
ghost use Rattle.std.specs.{Prelude.{◌≡◌, ◌≤◌, ◌<◌, ℕ, length, slice_get, Some, IfOk}, List.{list_all}};
ghost use Rattle.stack_heap.specs.Heaps.{IfOkUnless};
ghost use Rattle.display_maps.specs.{Reading.{reading}, Report.{report_text}};
ghost use Rattle.fm_turns.specs.{declared.context.TaskContext.{TaskContext}, OwnMachines.{own_machine}, Starting.{new_tasks, AllFit, side_by_side}};
ghost use Rattle.fm_turns.specs.Turns.{AreWithin, images_of, states_of};
ghost use Rattle.command_replies.specs.Replies.{reply_of};
ghost use Rattle.stack_commands.specs.{Internal.Tasks.{AreReady}, Internal.Told.{GoneRound, round_in, end_text, told_of, told_from, has_ended, told_reply}};
ghost use Rattle.stack_commands.specs.Commands.Turns.{round_line, tasks_reply};

use command_replies::{Reply, Verdict};
use display_maps::report;
use fm_image::Image;
use fm_show::push_number;
use fm_turns::{Task, Turns, TurnsFault, each_ends_as_alone};
use stack_heap::Heap;
use stack_text::{Memory, Seq, Value};

/// Goes round until no task runs any more, or the turns have come to the budget.
fn go_round(turns: &mut Turns, turn: u64, budget: u64)
    requires some { 1 ≤ turn }
    requires within { AreWithin budget turns.old.contexts }
    ensures rounds { GoneRound turn budget turns.old turns.new }
    ensures images { images_of turns.new ≡ images_of turns.old }
{
    for _made in 0..budget.div_ceil(turn) {
        if !turns.has_running() {
            return;
        }
        turns.round(turn, budget);
    }
}

/// The line of a task and of the round in which it ended.
fn round_line<H: Heap>(heap: H, i: u32, round: u64) -> Result<Vec<u8>, Memory>
    requires { i ≤ 8 }
    ensures { IfOkUnless (H.may_refuse heap) result (λ line. line.items ≡ round_line i round) }
{
    let mut line = heap.copied(b"task ")?;
    push_number(heap, &mut line, i + 1)?;
    heap.extend_from_slice(&mut line, b" round ")?;
    push_number(heap, &mut line, round)?;
    heap.push(&mut line, b'\n')?;
    Ok(line)
}

/// The round in which a task came to how it stands; none was made where it still runs.
fn round_in(state: Task) -> u64
    ensures { result ≡ round_in state }
{
    match state {
        Task::Running { .. } => 0,
        Task::Ended { round, .. } | Task::Spent { round, .. } | Task::Outside { round, .. } => {
            round
        }
    }
}

/// The report of a task that came to its end after so many instructions.
fn task_report<H: Heap>(heap: H, turns: &Turns, i: u32, count: u64) -> Result<Vec<u8>, Memory>
    requires { i < length turns.now.contexts }
    ensures { IfOkUnless (H.may_refuse heap) result
        (λ text. (context : TaskContext) → slice_get turns.now.contexts i ≡ Some context
        → text.items ≡ report_text context.image (reading context.image (own_machine turns.now context)) count) }
{
    let reading = turns.read(heap, i)?;
    report(heap, turns.image(i), &reading, count)
}

/// What the run of a task came to, that stands so.
fn end_text<H: Heap>(
    heap: H,
    turns: &Turns,
    i: u32,
    state: Task,
    budget: u64,
) -> Result<Vec<u8>, Memory>
    requires { i < length turns.now.contexts }
    ensures { IfOkUnless (H.may_refuse heap) result
        (λ text. (context : TaskContext) → slice_get turns.now.contexts i ≡ Some context
        → text.items ≡ end_text budget context.image (reading context.image (own_machine turns.now context)) state) }
{
    match state {
        Task::Ended { count, .. } => task_report(heap, turns, i, count),
        Task::Running { .. } | Task::Spent { .. } => {
            Verdict::Unfinished { limit: budget }.line(heap)
        }
        Task::Outside { address, count, .. } => Verdict::Outside { address, count }.line(heap),
    }
}

/// What is told of a task.
fn task_text<H: Heap>(heap: H, turns: &Turns, i: u32, budget: u64) -> Result<Vec<u8>, Memory>
    requires there { i < length turns.now.contexts }
    requires few { i ≤ 8 }
    ensures { IfOkUnless (H.may_refuse heap) result
        (λ text. (context : TaskContext) → slice_get turns.now.contexts i ≡ Some context
        → text.items ≡ told_of budget turns.now i context) }
{
    let state = turns.task(i);
    let mut text = round_line(heap, i, round_in(state))?;
    heap.extend_from_slice(
        &mut text,
        end_text(heap, turns, i, state, budget)?.as_slice(),
    )?;
    Ok(text)
}

/// What is told of all tasks.
fn tasks_text<H: Heap>(heap: H, turns: &Turns, count: u32, budget: u64) -> Result<Vec<u8>, Memory>
    requires all { length turns.now.contexts ≡ count }
    requires few { count ≤ 8 }
    ensures { IfOkUnless (H.may_refuse heap) result
        (λ text. text.items ≡ told_from budget turns.now 0 turns.now.contexts) }
{
    let mut text = Vec::new(heap.handle());
    for i in 0..count {
        heap.extend_from_slice(&mut text, task_text(heap, turns, i, budget)?.as_slice())?;
    }
    Ok(text)
}

/// Whether a task came to its final program counter.
fn has_ended(state: Task) -> bool
    ensures { result ≡ has_ended state }
{
    matches!(state, Task::Ended { .. })
}

/// Whether all tasks came to their final program counters.
fn have_ended(turns: &Turns, count: u32) -> bool
    requires { length turns.now.contexts ≡ count }
    ensures { result ≡ list_all has_ended (states_of turns.now) }
{
    for i in 0..count {
        if !has_ended(turns.task(i)) {
            return false;
        }
    }
    true
}

/// The reply once no task runs any more.
fn told_reply<H: Heap>(heap: H, turns: &Turns, count: u32, budget: u64) -> Result<Reply, Memory>
    requires all { length turns.now.contexts ≡ count }
    requires few { count ≤ 8 }
    ensures { IfOkUnless (H.may_refuse heap) result (λ reply. reply_of reply ≡ told_reply budget turns.now) }
{
    let said = tasks_text(heap, turns, count, budget)?;
    let verdict = if have_ended(turns, count) {
        Verdict::Done
    } else {
        Verdict::SomeUnfinished
    };
    Ok(Reply {
        said: Seq::from_vec(said),
        verdict,
        machine: None,
    })
}

/// The tasks as they begin.
fn begin<H: Heap>(heap: H, tasks: Vec<(Image, Vec<Value>)>) -> Result<Turns, Memory>
    requires fit { AllFit (new_tasks tasks.items) }
    requires ready { AreReady (new_tasks tasks.items) }
    ensures turns { IfOkUnless (H.may_refuse heap) result (λ turns. turns ≡ side_by_side (new_tasks tasks.items)) }
    ensures within { IfOk result (λ turns. (budget : ℕ) → AreWithin budget turns.contexts) }
{
    match Turns::new(heap, tasks) {
        Ok(turns) => Ok(turns),
        Err(TurnsFault::Memory) => Err(Memory),
        Err(_) => unreachable!(),
    }
}

/// Runs tasks by turns, and replies how each of them ended.
pub fn run_by_turns<H: Heap>(
    heap: H,
    tasks: Vec<(Image, Vec<Value>)>,
    turn: u64,
    budget: u64,
) -> Result<Reply, Memory>
    requires some { 1 ≤ turn }
    requires fit { AllFit (new_tasks tasks.items) }
    requires ready { AreReady (new_tasks tasks.items) }
    ensures { IfOkUnless (H.may_refuse heap) result
        (λ reply. reply_of reply ≡ tasks_reply turn budget (new_tasks tasks.items)) }
{
    each_ends_as_alone();
    let count = tasks.len() as u32;
    let mut turns = begin(heap, tasks)?;
    go_round(&mut turns, turn, budget);
    told_reply(heap, &turns, count, budget)
}

//! How tasks begin.

ghost use Rattle.std.specs.Prelude.{◌≡◌, ◌+◌, ◌≤◌, ◌<◌, ◌^◌, ◌==◌, length, map, All, IfOk, IfErr, OnOk, IsTrue, Some, false};
ghost use Rattle.stack_heap.specs.Heaps.{IfOkUnless};
ghost use Rattle.fm_machine.specs.State.{is_refused};
ghost use Rattle.fm_loader.specs.Loaded.{Fits, with_words};
ghost use Rattle.fm_turns.specs.Starting.{new_task, new_tasks, AllFit, machine_of, context_of, first_base, adjoin, total_size, window_size, with_tasks};
ghost use Rattle.fm_turns.specs.Starting.{fault_of};

use crate::context::TaskContext;
use crate::copying::copy_window;
use crate::fault::TurnsFault;
use fm_image::Image;
use fm_loader::load;
use fm_machine::Machine;
use fm_words::MOST_WINDOW;
use stack_heap::Heap;
use stack_text::{MOST_TASKS, Memory, Value};

/// The most words of the window of all.
const MOST_WORDS: u64 = MOST_WINDOW as u64;

/// The base of the first window, or 0 where there is none.
pub(crate) fn first_base(tasks: &[(Image, Vec<Value>)]) -> u32
    ensures { result ≡ first_base (new_tasks tasks.now) }
{
    match tasks {
        [] => 0,
        [(image, _), ..] => image.base,
    }
}

/// Whether the window of an image begins at an address.
fn begins_at(image: &Image, address: u64) -> bool
    ensures { result ≡ (image.now.base == address) }
{
    u64::from(image.base) == address
}

/// The size of an image's window.
fn size_of(image: &Image) -> u64
    ensures value { result ≡ image.now.size }
    ensures some { 1 ≤ result }
    ensures few { result ≤ 2 ^ 20 }
{
    u64::from(image.size)
}

/// The address behind the window of an image.
fn end_of(image: &Image) -> u64
    ensures value { result ≡ image.now.base + image.now.size }
    ensures below { result < 2 ^ 32 }
{
    u64::from(image.base) + u64::from(image.size)
}

/// Whether each window begins where the one before it ends.
fn adjoin(tasks: &[(Image, Vec<Value>)]) -> bool
    ensures value { result ≡ adjoin (new_tasks tasks.now) }
    ensures below { IsTrue result → first_base (new_tasks tasks.now) + total_size (new_tasks tasks.now) < 2 ^ 32 }
{
    let mut from = u64::from(first_base(tasks));
    for task in tasks {
        if !begins_at(&task.0, from) {
            return false;
        }
        from = end_of(&task.0);
    }
    true
}

/// How many words the windows have together.
fn total_size(tasks: &[(Image, Vec<Value>)]) -> u64
    requires { length tasks.now ≤ 8 }
    ensures value { result ≡ total_size (new_tasks tasks.now) }
    ensures some { length tasks.now ≤ result }
{
    let mut words = 0;
    for task in tasks {
        words += size_of(&task.0);
    }
    words
}

/// The size of the window of all, or why the tasks can't take turns.
#[tactic(auto, unfolding(crate::specs::Starting::window_size))]
pub(crate) fn window_size(tasks: &[(Image, Vec<Value>)]) -> Result<u32, TurnsFault>
    ensures value { result ≡ window_size (new_tasks tasks.now) }
    ensures window { IfOk result (λ size. is_refused (first_base (new_tasks tasks.now)) size ≡ false) }
    ensures fault { IfErr result (λ fault. fault_of fault ≡ Some fault) }
{
    if tasks.is_empty() || tasks.len() > MOST_TASKS as usize {
        return Err(TurnsFault::Count);
    }
    if !adjoin(tasks) {
        return Err(TurnsFault::Apart);
    }
    let words = total_size(tasks);
    if words > MOST_WORDS {
        return Err(TurnsFault::Size { words });
    }
    Ok(words as u32)
}

/// Loads a task into a machine of its own, and copies its words into that of all.
fn load_task<H: Heap>(
    heap: H,
    machine: &mut Machine,
    task: (Image, Vec<Value>),
) -> Result<TaskContext, Memory>
    requires fits { Fits task.0.slots task.1.items }
    requires above { machine.old.state.base ≤ task.0.base }
    ensures context { IfOkUnless (H.may_refuse heap) result
        (λ context. context ≡ context_of task.0 (machine_of (new_task task.0 task.1.items))) }
    ensures memory { OnOk result (machine.new.state ≡ record machine.old.state {
      memory = with_words
          machine.old.state.base task.0.base (machine_of (new_task task.0 task.1.items)).memory
          machine.old.state.memory;
    }) }
{
    let (image, values) = task;
    let own = load(heap, &image, values.as_slice())?;
    copy_window(&own, machine, image.base, image.size);
    Ok(TaskContext::new(image, &own))
}

/// Loads each task, copies its words into the machine of all, and gives what each has to itself.
pub(crate) fn load_tasks<H: Heap>(
    heap: H,
    machine: &mut Machine,
    tasks: Vec<(Image, Vec<Value>)>,
) -> Result<Vec<TaskContext>, Memory>
    requires fit { AllFit (new_tasks tasks.items) }
    requires above { All (λ task. machine.old.state.base ≤ task.image.base) (new_tasks tasks.items) }
    ensures contexts { IfOkUnless (H.may_refuse heap) result (λ contexts. contexts.items
        ≡ map (λ task. context_of task.image (machine_of task)) (new_tasks tasks.items)) }
    ensures memory { OnOk result (machine.new.state ≡ record machine.old.state {
      memory = with_tasks machine.old.state.base (new_tasks tasks.items) machine.old.state.memory;
    }) }
{
    let mut contexts = Vec::new(heap.handle());
    for task in tasks {
        heap.push(&mut contexts, load_task(heap, machine, task)?)?;
    }
    Ok(contexts)
}

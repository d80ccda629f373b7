//! Makes tasks of the texts of sources and of their values.
ghost use Rattle.std.specs.Prelude.{◌≡◌, ◌≤◌, ◌^◌, All, IfOk, length, map, slice_index_or, [], Ok};
ghost use Rattle.stack_text.specs.Gives.{GivesUnless};
ghost use Rattle.fm_loader.specs.{Loaded.{Fits}, Values.{values_in}};
ghost use Rattle.fm_turns.specs.Starting.{new_tasks, AllFit};
ghost use Rattle.gypsy_space.specs.Needs.{stack_sizes};
ghost use Rattle.stack_build.specs.Build.{built};
ghost use Rattle.stack_commands.specs.Commands.Turns.{image_or_fault, images_from, word_count, small_enough, values_or_fault, tasks_from, tasks_of};
ghost use Rattle.stack_commands.specs.Internal.Tasks.{fault_of, AreReady};

use crate::build::image_of;
use crate::source_text::verdict_of;
use command_replies::Verdict;
use fm_image::Image;
use fm_loader::{ValuesFault, read_image_values};
use fm_words::MOST_WINDOW;
use stack_build::{build, builds_implement, builds_stay_inside};
use stack_heap::Heap;
use stack_text::{MOST_TASKS, Memory, Value};
use std::alloc::AllocFailed;

/// The most tasks.
const TASKS: usize = MOST_TASKS as usize;

/// Why there are no tasks.
#[derive(Drop)]
pub enum TasksFault {
    /// They are none, or over 8.
    Count,
    /// The source, the sizes or the values of a task are refused. Tasks are counted from 1.
    Refused { number: u32, verdict: Verdict },
    /// Their windows have over 2^20 words together, and they have so many.
    Large { words: u64 },
    /// An allocation failed.
    Memory,
}

impl From<Memory> for TasksFault {
    ghost use Rattle.std.specs.Prelude.{◌≡◌};
    ghost use Rattle.stack_commands.specs.declared.turns.tasks.TasksFault.TheVariants as faults;

    ghost from_gives = { λ _ e. e ≡ faults.Memory };

    fn from(_error: Memory) -> TasksFault {
        TasksFault::Memory
    }
}

impl<T: Drop> From<AllocFailed<T>> for TasksFault {
    ghost use Rattle.std.specs.Prelude.{◌≡◌};
    ghost use Rattle.stack_commands.specs.declared.turns.tasks.TasksFault.TheVariants as faults;

    ghost from_gives = { λ _ e. e ≡ faults.Memory };

    fn from(_error: AllocFailed<T>) -> TasksFault {
        TasksFault::Memory
    }
}

/// The size of an image's window.
fn size_of(image: &Image) -> u32
    ensures value { result ≡ image.now.size }
    ensures few { result ≤ 2 ^ 20 }
{
    image.size
}

/// The image of a task's source, in a window from `base` on.
fn build_task<H: Heap>(
    heap: H,
    i: u32,
    source: &[u8],
    control: u32,
    temporary: u32,
    base: u32,
) -> Result<Image, TasksFault>
    requires source { length source.now ≤ 2 ^ 31 }
    requires base { base ≤ 2 ^ 31 }
    requires few { i ≤ 8 }
    ensures { GivesUnless (H.may_refuse heap) fault_of (λ image. image) result
        (image_or_fault i (built source.now control temporary base)) }
{
    match build(heap, source, control, temporary, base) {
        Ok(built) => Ok(image_of(built)),
        Err(fault) => Err(TasksFault::Refused {
            number: i + 1,
            verdict: verdict_of(fault)?,
        }),
    }
}

/// The images of sources, in windows that lie side by side from 0 on.
fn build_tasks<H: Heap>(
    heap: H,
    sources: &[&[u8]],
    control: u32,
    temporary: u32,
) -> Result<Vec<Image>, TasksFault>
    requires sources { All (λ text. length text.now ≤ 2 ^ 31) sources.now }
    requires few { length sources.now ≤ 8 }
    ensures images { GivesUnless (H.may_refuse heap) fault_of (λ images. images.items) result
        (images_from (stack_sizes control temporary) 0 0 (map (λ text. text.now) sources.now)) }
    ensures count { IfOk result (λ images. length images.items ≡ length sources.now) }
{
    let mut images = Vec::new(heap.handle());
    let mut base = 0;
    for (i, source) in sources.iter().enumerate() {
        let image = build_task(heap, i as u32, source, control, temporary, base)?;
        base += size_of(&image);
        heap.push(&mut images, image)?;
    }
    Ok(images)
}

/// How many words the windows of images have together.
fn word_count(images: &[Image]) -> u64
    requires { length images.now ≤ 8 }
    ensures { result ≡ word_count images.now }
{
    let mut words = 0;
    for image in images {
        words += u64::from(size_of(image));
    }
    words
}

/// The images, if their windows have at most 2^20 words together.
fn small_enough(images: Vec<Image>) -> Result<Vec<Image>, TasksFault>
    requires { length images.items ≤ 8 }
    ensures images { GivesUnless ⊥ fault_of (λ images. images.items) result (small_enough images.items) }
    ensures count { IfOk result (λ small. length small.items ≡ length images.items) }
{
    let words = word_count(images.as_slice());
    if words > u64::from(MOST_WINDOW) {
        return Err(TasksFault::Large { words });
    }
    Ok(images)
}

/// The text of a number, or none.
fn text_at<'a>(texts: &[&'a [u8]], i: u32) -> &'a [u8]
    requires { All (λ text. length text.now ≤ 2 ^ 31) texts.now }
    ensures value { result.now ≡ slice_index_or (map (λ text. text.now) texts.now) i [] }
    ensures short { length result.now ≤ 2 ^ 31 }
{
    match texts.get(i as usize) {
        Some(text) => text,
        None => &[],
    }
}

/// The values of a task for its image.
fn read_task<H: Heap>(heap: H, i: u32, image: &Image, text: &[u8]) -> Result<Vec<Value>, TasksFault>
    requires text { length text.now ≤ 2 ^ 31 }
    requires few { i ≤ 8 }
    ensures value { GivesUnless (H.may_refuse heap) fault_of (λ values. values.items) result
        (values_or_fault i (values_in image.now.slots text.now)) }
    ensures fits { IfOk result (λ values. Fits image.now.slots values.items) }
{
    match read_image_values(heap, text, image) {
        Ok(values) => Ok(values),
        Err(ValuesFault::Refused { rule, place }) => Err(TasksFault::Refused {
            number: i + 1,
            verdict: Verdict::Values { rule, place },
        }),
        Err(ValuesFault::Memory) => Err(TasksFault::Memory),
    }
}

/// Each image with its values.
fn read_tasks<H: Heap>(
    heap: H,
    images: Vec<Image>,
    texts: &[&[u8]],
) -> Result<Vec<(Image, Vec<Value>)>, TasksFault>
    requires texts { All (λ text. length text.now ≤ 2 ^ 31) texts.now }
    requires few { length images.items ≤ 8 }
    ensures tasks { GivesUnless (H.may_refuse heap) fault_of (λ tasks. new_tasks tasks.items) result
        (tasks_from (map (λ text. text.now) texts.now) 0 images.items) }
    ensures fit { IfOk result (λ tasks. AllFit (new_tasks tasks.items)) }
{
    let mut tasks = Vec::new(heap.handle());
    let mut i = 0;
    for image in images {
        let values = read_task(heap, i, &image, text_at(texts, i))?;
        heap.push(&mut tasks, (image, values))?;
        i += 1;
    }
    Ok(tasks)
}

/// The tasks of sources and texts of values, for stacks of these sizes.
#[tactic(auto, unfolding(crate::specs::Commands::Turns::tasks_of))]
pub fn new_tasks<H: Heap>(
    heap: H,
    sources: &[&[u8]],
    texts: &[&[u8]],
    control: u32,
    temporary: u32,
) -> Result<Vec<(Image, Vec<Value>)>, TasksFault>
    requires sources { All (λ text. length text.now ≤ 2 ^ 31) sources.now }
    requires texts { All (λ text. length text.now ≤ 2 ^ 31) texts.now }
    ensures tasks { GivesUnless (H.may_refuse heap) fault_of (λ tasks. new_tasks tasks.items) result
        (tasks_of (stack_sizes control temporary) (map (λ text. text.now) sources.now)
        (map (λ text. text.now) texts.now)) }
    ensures fit { IfOk result (λ tasks. AllFit (new_tasks tasks.items)) }
    ensures ready { IfOk result (λ tasks. AreReady (new_tasks tasks.items)) }
{
    builds_implement();
    builds_stay_inside();
    if sources.is_empty() || sources.len() > TASKS {
        return Err(TasksFault::Count);
    }
    let images = build_tasks(heap, sources, control, temporary)?;
    read_tasks(heap, small_enough(images)?, texts)
}

//! Running an image on values, and reading its memory at the end.

ghost use Rattle.std.specs.Prelude.{◌≡◌, ◌≤◌, ◌^◌, length};
ghost use Rattle.stack_heap.specs.Heaps.{IfOkUnless};
ghost use Rattle.fm_loader.specs.Rules.{GivesValuesUnless};
ghost use Rattle.display_maps.specs.Endings.{ending_of, run_on};

use crate::reading::{Reading, read_up};
use fm_image::Image;
use fm_loader::{ValuesFault, load, read_image_values};
use fm_machine::{Machine, Run};
use stack_heap::Heap;
use stack_text::Memory;

/// How a run of an image ends.
#[derive(Debug, Drop)]
pub enum Ending {
    /// At the final program counter, after so many instructions, with what memory says there.
    Finished { count: u64, reading: Reading },
    /// Not within the budget.
    Unfinished,
    /// After so many instructions, since the next needs this address, which is outside the window.
    Outside { address: u32, count: u64 },
}

/// What is told of a run that ended so.
#[tactic(auto, unfolding(crate::specs::Endings::ending_of))]
fn ending_of<H: Heap>(heap: H, image: &Image, end: Run, machine: &Machine) -> Result<Ending, Memory>
    ensures { IfOkUnless (H.may_refuse heap) result (λ ending. ending ≡ ending_of image.now end machine.now.state) }
{
    match end {
        Run::Ended { count } => {
            let reading = read_up(heap, machine, image)?;
            Ok(Ending::Finished { count, reading })
        }
        Run::Spent => Ok(Ending::Unfinished),
        Run::Outside { address, count } => Ok(Ending::Outside { address, count }),
    }
}

/// Loads an image with the values that a text of at most 2^31 bytes gives its slots, runs it for at most so many
/// instructions, and reads memory at the end.
///
/// # Errors
///
/// The rule that the text of the values breaks, with its place; or out of memory.
#[tactic(auto, unfolding(crate::specs::Endings::run_on))]
pub fn run_on<H: Heap>(
    heap: H,
    image: &Image,
    values: &[u8],
    budget: u64,
) -> Result<Ending, ValuesFault>
    requires { length values.now ≤ 2 ^ 31 }
    ensures { GivesValuesUnless (H.may_refuse heap) (λ ending. ending) result (run_on image.now values.now budget) }
{
    let values = read_image_values(heap, values, image)?;
    let mut machine = load(heap, image, &values)?;
    let end = machine.run(budget, image.final_pc);
    Ok(ending_of(heap, image, end, &machine)?)
}

//! Where the runs of what is built of a source begin.

ghost use Rattle.std.specs.Prelude.{◌≤◌, ◌^◌, IfOk, length};
ghost use Rattle.gypsy_space.specs.Needs.{stack_sizes};
ghost use Rattle.gypsy_syntax.specs.Views.SourceView.{source_of};
ghost use Rattle.fm_loader.specs.Loaded.{Fits};
ghost use Rattle.piton_semantics.specs.{Fits.{system_in}, Placed.{placed}, StateView.{IsSeen}};
ghost use Rattle.stack_build.specs.Starts.{GivesStartUnless, CanRun, built_start, system_start, image_start};

use crate::building::{Built, build_accepted};
use crate::start_fault::StartFault;
use crate::value_words::with_values;
use fm_image::Image;
use fm_loader::{load, read_values};
use fm_machine::Machine;
use gypsy_check::Accepted;
use gypsy_codegen::generated_is_acceptable;
use piton_check::Checked;
use piton_machine::State;
use stack_heap::Heap;
use stack_text::Value;

/// The Piton system and the image that are built of an accepted source, and the values that a text gives the image's slots.
#[tactic(auto, unfolding(crate::specs::Starts::built_start))]
fn built_start<H: Heap>(
    heap: H,
    accepted: &Accepted,
    control: u32,
    temporary: u32,
    text: &[u8],
) -> Result<(Checked, Image, Vec<Value>), StartFault>
    requires { length text.now ≤ 2 ^ 31 }
    ensures start { GivesStartUnless (H.may_refuse heap)
        (λ start. record { checked = start.0; image = start.1; values = start.2.items }) result
        (built_start (source_of accepted.now) (stack_sizes control temporary) text.now) }
    ensures runs { IfOk result (λ start.
        CanRun (source_of accepted.now) record { checked = start.0; image = start.1; values = start.2.items }) }
    ensures fits { IfOk result (λ start. Fits start.1.slots start.2.items) }
{
    generated_is_acceptable();
    let Built {
        piton,
        image,
        bytes: _,
    } = build_accepted(heap, accepted, control, temporary, 0)?;
    let values = read_values(heap, text, &image.slots)?;
    Ok((piton, image, values))
}

/// A run of a Piton system at its start.
#[derive(Drop)]
pub struct SystemStart {
    /// The system.
    pub checked: Checked,
    /// Its image.
    pub image: Image,
    /// The state from which it runs.
    pub state: State,
}

/// A run of an image at its start.
#[derive(Drop)]
pub struct ImageStart {
    /// The image that the machine runs.
    pub image: Image,
    /// The machine, loaded with the image and values of its slots.
    pub machine: Machine,
}

/// The Piton system that is built of an accepted source, with stacks of `control` and `temporary` words, at its start on the
/// values that a text of at most 2^31 bytes gives the formals of its main procedure: their words are at the bottom of the
/// initial stack.
///
/// # Errors
///
/// `Build` with the fault by which nothing is built for such stacks; else `Values`; or out of memory.
#[tactic(auto, unfolding(crate::specs::Starts::system_start))]
pub fn start_system<H: Heap>(
    heap: H,
    accepted: &Accepted,
    control: u32,
    temporary: u32,
    values: &[u8],
) -> Result<SystemStart, StartFault>
    requires { length values.now ≤ 2 ^ 31 }
    ensures start { GivesStartUnless (H.may_refuse heap) (λ start. start) result
        (system_start (source_of accepted.now) (stack_sizes control temporary) values.now) }
    ensures seen { IfOk result (λ start. IsSeen (system_in start.checked) start.state) }
    ensures small { IfOk result (λ start. (placed (system_in start.checked)).size ≤ 2 ^ 20) }
{
    let (checked, image, values) = built_start(heap, accepted, control, temporary, values)?;
    let stack = with_values(heap, &values, checked.resolved().stack.as_slice())?;
    let state = State::start_with(heap, &checked, &stack)?;
    Ok(SystemStart {
        checked,
        image,
        state,
    })
}

/// The image that is built of an accepted source, with stacks of `control` and `temporary` words, loaded with the values that a
/// text of at most 2^31 bytes gives its slots.
///
/// # Errors
///
/// `Build` with the fault by which nothing is built for such stacks; else `Values`; or out of memory.
#[tactic(auto, unfolding(crate::specs::Starts::image_start))]
pub fn start_image<H: Heap>(
    heap: H,
    accepted: &Accepted,
    control: u32,
    temporary: u32,
    values: &[u8],
) -> Result<ImageStart, StartFault>
    requires { length values.now ≤ 2 ^ 31 }
    ensures start { GivesStartUnless (H.may_refuse heap) (λ start. (start.image, start.machine.state)) result
        (image_start (source_of accepted.now) (stack_sizes control temporary) values.now) }
{
    let (_, image, values) = built_start(heap, accepted, control, temporary, values)?;
    let machine = load(heap, &image, &values)?;
    Ok(ImageStart { image, machine })
}

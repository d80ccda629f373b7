//! The command `idebug`.
ghost use Rattle.std.specs.Prelude.{◌≡◌, ◌≤◌, ◌^◌, List, None, IfOk, length};
ghost use Rattle.stack_heap.specs.Heaps.{IfOkUnless};
ghost use Rattle.fm_loader.specs.Values.{values_in};
ghost use Rattle.level_debuggers.specs.{Levels.{IsRunner}, Tallies.{Watching}};
ghost use Rattle.command_line.specs.declared.role.Role.TheVariants as Role;
ghost use Rattle.command_line.specs.Gathered.{text_of};
ghost use Rattle.stack_commands.specs.{Commands.Debug.{found_run}, Commands.Idebug.{loaded_run, image_run_in, idebug_reply}, Works.{IsLeft, left_reply}};

use crate::debug::session_work;
use crate::work::Work;
use command_line::{Role, Texts};
use command_replies::Verdict;
use fm_image::{Image, ImageFault, read_image};
use fm_loader::{ValuesFault, load, read_image_values};
use level_debuggers::Runner;
use stack_heap::Heap;
use stack_text::Memory;

/// What is left of `idebug` once its texts are there.
pub fn prepare<H: Heap>(heap: H, texts: &Texts) -> Result<Work, Memory>
    ensures stored { IfOkUnless (H.may_refuse heap) result (λ work. work.stored ≡ None) }
    ensures reply { IfOk result (λ work. (watches : List Watching) → left_reply watches work.left
        ≡ idebug_reply (text_of Role.SessionImage texts.now) (text_of Role.Values texts.now)
        (text_of Role.Script texts.now) watches) }
    ensures is { IfOk result (λ work. IsLeft work.left) }
{
    let found = image_session_run(heap, texts.of(Role::SessionImage), texts.of(Role::Values))?;
    session_work(heap, found, texts.of(Role::Script))
}

/// The run of an image on values that a session begins with, or the verdict if there is none.
pub fn image_session_run<H: Heap>(
    heap: H,
    image: &[u8],
    values: &[u8],
) -> Result<Result<Runner, Verdict>, Memory>
    requires { length values.now ≤ 2 ^ 31 }
    ensures run { IfOkUnless (H.may_refuse heap) result
        (λ found. found_run found ≡ image_run_in image.now values.now) }
    ensures is { IfOk result (λ found. IfOk found IsRunner) }
{
    match read_image(heap, image) {
        Ok(image) => image_runner(heap, image, values),
        Err(ImageFault::Refused { rule, place }) => Ok(Err(Verdict::Image { rule, place })),
        Err(ImageFault::Memory) => Err(Memory),
    }
}

/// A runner of the machine that is loaded with an image and the values of a text, or the rule that the values break.
fn image_runner<H: Heap>(
    heap: H,
    image: Image,
    values: &[u8],
) -> Result<Result<Runner, Verdict>, Memory>
    requires { length values.now ≤ 2 ^ 31 }
    ensures run { IfOkUnless (H.may_refuse heap) result
        (λ found. found_run found ≡ loaded_run image (values_in image.slots values.now)) }
    ensures is { IfOk result (λ found. IfOk found IsRunner) }
{
    match read_image_values(heap, values, &image) {
        Ok(values) => {
            let machine = load(heap, &image, &values)?;
            Ok(Ok(Runner::Fm { image, machine }))
        }
        Err(ValuesFault::Refused { rule, place }) => Ok(Err(Verdict::Values { rule, place })),
        Err(ValuesFault::Memory) => Err(Memory),
    }
}

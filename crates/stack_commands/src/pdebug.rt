//! The command `pdebug`.
ghost use Rattle.std.specs.Prelude.{◌≡◌, ◌≤◌, ◌^◌, List, None, IfOk, length};
ghost use Rattle.stack_heap.specs.Heaps.{IfOkUnless};
ghost use Rattle.piton_check.specs.PitonChecking.{IsChecked};
ghost use Rattle.level_debuggers.specs.{Levels.{IsRunner}, Tallies.{Watching}};
ghost use Rattle.command_line.specs.declared.role.Role.TheVariants as Role;
ghost use Rattle.command_line.specs.Gathered.{text_of};
ghost use Rattle.stack_commands.specs.{Commands.Debug.{found_run}, Commands.Pdebug.{opened_within, piton_run_in, pdebug_reply}, Works.{IsLeft, left_reply}};

use crate::debug::session_work;
use crate::work::Work;
use command_line::{Role, Texts};
use command_replies::{SizeOf, Verdict, read_checked};
use level_debuggers::Runner;
use piton_check::Checked;
use piton_linker::LinkFault;
use piton_machine::State;
use stack_build::linked_image;
use stack_heap::Heap;
use stack_text::Memory;

/// What is left of `pdebug` once its texts are there.
pub fn prepare<H: Heap>(heap: H, texts: &Texts) -> Result<Work, Memory>
    ensures stored { IfOkUnless (H.may_refuse heap) result (λ work. work.stored ≡ None) }
    ensures reply { IfOk result (λ work. (watches : List Watching) → left_reply watches work.left
        ≡ pdebug_reply (text_of Role.Piton texts.now) (text_of Role.Script texts.now) watches) }
    ensures is { IfOk result (λ work. IsLeft work.left) }
{
    let found = piton_session_run(heap, texts.of(Role::Piton))?;
    session_work(heap, found, texts.of(Role::Script))
}

/// The run of a Piton text that a session begins with, or the verdict if there is none.
#[tactic(auto, unfolding(crate::specs::Commands::Pdebug::piton_run_in))]
pub fn piton_session_run<H: Heap>(heap: H, piton: &[u8]) -> Result<Result<Runner, Verdict>, Memory>
    requires { length piton.now ≤ 2 ^ 31 }
    ensures run { IfOkUnless (H.may_refuse heap) result (λ found. found_run found ≡ piton_run_in piton.now) }
    ensures is { IfOk result (λ found. IfOk found IsRunner) }
{
    match read_checked(heap, piton)? {
        Ok(checked) => system_runner(heap, checked),
        Err(verdict) => Ok(Err(verdict)),
    }
}

/// A runner of a checked system, or the verdict if it has more words than a window.
fn system_runner<H: Heap>(heap: H, checked: Checked) -> Result<Result<Runner, Verdict>, Memory>
    requires { IsChecked checked }
    ensures run { IfOkUnless (H.may_refuse heap) result (λ found. found_run found ≡ opened_within checked) }
    ensures is { IfOk result (λ found. IfOk found IsRunner) }
{
    match linked_image(heap, &checked) {
        Ok(image) => {
            let state = State::start(heap, &checked)?;
            Ok(Ok(Runner::Piton {
                checked,
                image,
                state,
            }))
        }
        Err(LinkFault::Large { words: need }) => Ok(Err(Verdict::Size {
            of: SizeOf::Words,
            need,
        })),
        Err(LinkFault::Memory) => Err(Memory),
    }
}

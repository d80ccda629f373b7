//! The commands of the short stack: what each makes of its texts, and what it replies.
#![tactic(auto)]

ghost use Rattle.std.specs.Prelude.{◌≡◌, List, IfOk};
ghost use Rattle.stack_heap.specs.Heaps.{IfOkUnless};
ghost use Rattle.level_debuggers.specs.Tallies.{Watching};
ghost use Rattle.stack_commands.specs.{Internal.Planned.{IsPlanned}, Prepared.{stored_by, reply_by}, Works.{IsEnding, IsLeft, ending_reply, left_reply}};
ghost use Rattle.command_replies.specs.{Plans.{pending_reply}, Replies.{reply_of}};

mod big;
mod build;
mod cert;
mod check;
mod debug;
mod go;
mod idebug;
mod lines;
mod mean;
mod need;
mod pbuild;
mod pdebug;
mod pit;
mod quick;
mod script_run;
mod source_text;
mod talking;
mod telling;
mod turns;
mod work;

use command_line::{Command, Role, Texts};
use command_replies::{asm, complete, migrate, mini, pcheck, prun, run, show, unasm};
pub use command_replies::{ImageRun, Pending, Plan, Reply, RuleLetter, SizeOf, Verdict};
pub use debug::session_run;
pub use idebug::image_session_run;
pub use pdebug::piton_session_run;
pub use script_run::ScriptRun;
use stack_heap::Heap;
use stack_text::Memory;
pub use talking::{TalkEnd, TalkFault, talk_session, talks_are_scripts};
pub use telling::tell_session;
pub use turns::TasksFault;
use work::planned;
pub use work::{Ending, Left, Work};

/// The plan of a command: each has one, but those that leave a session.
#[tactic(auto, unfolding(crate::specs::Prepared::stored_by, crate::specs::Prepared::reply_by))]
fn plan_of<H: Heap>(heap: H, command: &Command, texts: &Texts) -> Result<Plan, Memory>
    requires { IsPlanned command.now }
    ensures stored { IfOkUnless (H.may_refuse heap) result (λ plan. plan.stored ≡ stored_by command.now texts.now) }
    ensures reply { IfOk result (λ plan. (watches : List Watching)
        → pending_reply plan.pending ≡ reply_by command.now watches texts.now) }
{
    let (source, values) = (texts.of(Role::Source), texts.of(Role::Values));
    let (piton, image) = (texts.of(Role::Piton), texts.of(Role::Image));
    match command {
        Command::Check { .. } => check::prepare(heap, source),
        Command::Mean {
            control,
            temporary,
            limit,
            ..
        } => mean::prepare(heap, source, values, control, temporary, *limit),
        Command::Pit {
            control,
            temporary,
            piton: name,
            ..
        } => pit::prepare(heap, source, control, temporary, name),
        Command::Build {
            control,
            temporary,
            ..
        } => build::prepare(heap, source, control, temporary),
        Command::Pcheck { .. } => pcheck::prepare(heap, piton),
        Command::Prun { limit, .. } => prun::prepare(heap, piton, *limit),
        Command::Pbuild { .. } => pbuild::prepare(heap, piton),
        Command::Run { budget, .. } => run::prepare(heap, image, values, *budget),
        Command::Go {
            control,
            temporary,
            budget,
            ..
        } => go::prepare(heap, source, values, control, temporary, *budget),
        Command::Show { .. } => show::prepare(heap, image),
        Command::Migrate { output, .. } => migrate::prepare(heap, image, output),
        Command::Asm { .. } => asm::prepare(heap, texts.of(Role::Assembly)),
        Command::Unasm { assembly: name, .. } => unasm::prepare(heap, image, name),
        Command::Need { .. } => need::prepare(heap, source),
        Command::Cert {
            control,
            temporary,
            ..
        } => cert::prepare(
            heap,
            source,
            texts.of(Role::Certificate),
            control,
            temporary,
        ),
        Command::Debug { .. } | Command::Pdebug { .. } | Command::Idebug { .. } => {
            unreachable!()
        }
        Command::Turns {
            turn,
            budget,
            control,
            temporary,
            ..
        } => turns::prepare(heap, texts, turn, *budget, control, temporary),
        Command::Big { number, procedures } => big::prepare(heap, *number, procedures),
        Command::Mini { source: name, .. } => mini::prepare(heap, texts.of(Role::Infix), name),
        Command::Quick {
            control,
            temporary,
            ..
        } => quick::prepare(heap, source, control, temporary),
    }
}

/// What a command stores, and what is left to do.
#[tactic(auto, unfolding(crate::specs::Prepared::stored_by, crate::specs::Prepared::reply_by))]
pub fn prepare<H: Heap>(heap: H, command: &Command, texts: &Texts) -> Result<Work, Memory>
    ensures stored { IfOkUnless (H.may_refuse heap) result (λ work. work.stored ≡ stored_by command.now texts.now) }
    ensures reply { IfOk result (λ work. (watches : List Watching)
        → left_reply watches work.left ≡ reply_by command.now watches texts.now) }
    ensures is { IfOk result (λ work. IsLeft work.left) }
{
    match command {
        Command::Debug {
            level,
            control,
            temporary,
            ..
        } => debug::prepare(heap, *level, texts, control, temporary),
        Command::Pdebug { .. } => pdebug::prepare(heap, texts),
        Command::Idebug { .. } => idebug::prepare(heap, texts),
        _ => Ok(planned(plan_of(heap, command, texts)?)),
    }
}

/// How a command ends.
#[tactic(auto, unfolding(crate::specs::Commands::Debug::lines_reply))]
pub fn finish<H: Heap>(heap: H, left: Left) -> Result<Ending, Memory>
    ensures reply { IfOkUnless (H.may_refuse heap) result (λ ending. (watches : List Watching)
        → reply_of (ending_reply watches ending) ≡ left_reply watches left) }
    ensures is { IsLeft left → IfOk result IsEnding }
{
    match left {
        Left::Pending(pending) => Ok(Ending::Reply(complete(heap, pending)?)),
        Left::Session(run) => Ok(Ending::Session(run)),
    }
}

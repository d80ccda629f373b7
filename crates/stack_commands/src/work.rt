//! What a command stores, what is left to do then, and how it ends.
//!
//! `Plan` and `Pending` of `command_replies` are other types, since they say less: a plan follows no session, and
//! `command_replies` stands on no session's crate. `Ending` in turn has no run that is still to be made. One enum for
//! all three would have cases that never occur in two of them.
ghost use Rattle.std.specs.Prelude.{◌≡◌};
ghost use Rattle.stack_commands.specs.Works.{work_of};

use crate::script_run::ScriptRun;
use command_replies::{Pending, Plan, Reply};
use stack_text::Seq;

/// What is left of any command once its file is stored.
#[derive(Drop)]
pub enum Left {
    /// What a plan has left, of which the reply is made.
    Pending(Pending),
    /// A script that a session follows, and replies to line by line.
    Session(ScriptRun),
}

/// What any command stores, and what is left to do.
#[derive(Drop)]
pub struct Work {
    /// The bytes of the file that is stored, or none where the command stores nothing.
    pub stored: Option<Seq<u8>>,
    /// What is left to do.
    pub left: Left,
}

/// How a command ends: what is still to be printed, and with which status.
#[derive(Drop)]
pub enum Ending {
    /// All that it says is there.
    Reply(Reply),
    /// A session says it, line by line, while it follows a script.
    Session(ScriptRun),
}

/// A plan as the work of a command.
pub(crate) fn planned(plan: Plan) -> Work
    ensures { result ≡ work_of plan }
{
    Work {
        stored: plan.stored,
        left: Left::Pending(plan.pending),
    }
}

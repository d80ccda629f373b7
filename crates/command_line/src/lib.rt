//! Commands and what is around them: the words of a command line, the files that a command reads and writes, printing, and exit
//! statuses. It knows of no language; what a command makes of its texts is `stack_commands`'.
#![tactic(auto)]

mod command;
mod early_end;
mod fetching;
mod laws;
mod printing;
mod role;
mod status;
mod storing;
mod texts;
mod words;

pub use command::{Command, TaskFiles};
pub use early_end::EarlyEnd;
pub use fetching::gather;
pub use laws::texts_are_read;
pub use printing::{print, print_owned};
pub use role::{Role, RoleFile};
pub use status::{Status, exit_code};
pub use storing::save;
pub use texts::Texts;
pub use words::{FileName, Level, ProcedureCount, StackSize, TurnLength, WordsFault, command_of};

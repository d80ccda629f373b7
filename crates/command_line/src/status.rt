//! Exit statuses.
ghost use Rattle.std.specs.Prelude.{◌≡◌};
ghost use Rattle.command_line.specs.Status.{exit_code};

use std::io;

/// How the program ended.
#[derive(Clone, Copy, PartialEq, Eq)]
pub enum Status {
    /// The command came to its defined end.
    Done,
    /// The words are no command.
    Usage,
    /// The source or the Piton text breaks a rule.
    Refused,
    /// The values break a rule.
    Values,
    /// The image breaks a rule.
    Image,
    /// So many steps were made as were allowed, and the end was not reached.
    Unfinished,
    /// The next instruction needs an address outside the window.
    Outside,
    /// A run of Piton met an error.
    Error,
    /// A file that is read is not there.
    Missing,
    /// The shelf failed.
    ShelfFault,
    /// The sink failed.
    SinkFault,
    /// A file is over its limit, a stack is smaller than the program needs, or a program has too many words.
    Size,
    /// The script breaks a rule, or one of its commands can't be carried out.
    Script,
    /// There was no memory.
    OutOfMemory,
    /// The image is not one that a text of the assembler spells.
    NotPlain,
    /// A procedure that main reaches by calls reaches itself.
    Recursive,
    /// The certificate breaks a rule.
    Certificate,
    /// The words of the command line can't be read. `cli` never ends so.
    NoWords,
}

impl Status {
    ghost use Rattle.std.specs.Prelude.{◌≡◌};
    ghost use Rattle.command_line.specs.Status.{status_code};

    /// Its number.
    pub fn code(self) -> u8
        ensures { result ≡ status_code self }
    {
        match self {
            Status::Done => 0,
            Status::Usage => 1,
            Status::Refused => 2,
            Status::Values => 3,
            Status::Image => 4,
            Status::Unfinished => 5,
            Status::Outside => 6,
            Status::Error => 8,
            Status::Missing => 9,
            Status::ShelfFault => 10,
            Status::SinkFault => 11,
            Status::Size => 12,
            Status::Script => 13,
            Status::OutOfMemory => 14,
            Status::NotPlain => 16,
            Status::Recursive => 17,
            Status::Certificate => 18,
            Status::NoWords => 19,
        }
    }
}

/// The exit status of a program that read its words and ended with a code, or why it could not read them.
pub fn exit_code(ran: io::Result<u8>) -> u8
    ensures { result ≡ exit_code ran }
{
    match ran {
        Ok(code) => code,
        Err(e) if e.kind() == io::ErrorKind::OutOfMemory => Status::OutOfMemory.code(),
        Err(_) => Status::NoWords.code(),
    }
}

//! The roles of files.
use crate::words::FileName;
use stack_text::{MOST_IMAGE_FILE, MOST_TEXT};

/// The most bytes of a text of Piton.
const MOST_PITON_TEXT: u64 = 1 << 24;

/// What a command takes a file for.
#[derive(Clone, Copy, PartialEq, Eq)]
pub enum Role {
    /// A source of Micro-Gypsy.
    Source,
    /// A text of Piton.
    Piton,
    /// An image.
    Image,
    /// Values of variables.
    Values,
    /// A script of a debugger.
    Script,
    /// A text of the assembler.
    Assembly,
    /// A certificate that calls have room.
    Certificate,
    /// A program of the infix language.
    Infix,
    /// A source of a task.
    TaskSource,
    /// Values of a task's variables.
    TaskValues,
    /// A quick image, or a plain one in its place.
    QuickImage,
    /// An image that a session runs.
    SessionImage,
}

impl Role {
    ghost use Rattle.std.specs.Prelude.{◌≡◌, ◌≤◌, ◌^◌};
    ghost use Rattle.command_line.specs.Roles.{limit_of, is_role};

    /// Whether the two are one role.
    pub fn is(self, other: Role) -> bool
        ensures { result ≡ is_role self other }
    {
        self == other
    }

    /// The file of this name, in this role.
    pub fn file(self, name: &FileName) -> RoleFile<'_>
        ensures role { result.role ≡ self }
        ensures name { result.name.now ≡ name.now }
    {
        RoleFile { role: self, name }
    }

    /// The most bytes of a file that is read in this role.
    pub fn limit(self) -> u64
        ensures value { result ≡ limit_of self }
        ensures small { result ≤ 2 ^ 31 }
    {
        match self {
            Role::Source
            | Role::Values
            | Role::Script
            | Role::Certificate
            | Role::Infix
            | Role::TaskSource
            | Role::TaskValues => u64::from(MOST_TEXT),
            Role::Piton => MOST_PITON_TEXT,
            Role::Image | Role::Assembly | Role::QuickImage | Role::SessionImage => {
                u64::from(MOST_IMAGE_FILE)
            }
        }
    }
}

/// A file that a command reads or writes.
#[derive(Clone, Copy)]
pub struct RoleFile<'a> {
    /// What it is taken for.
    pub role: Role,
    /// Its name on the shelf.
    pub name: &'a FileName,
}

//! The calls of a program: which of them have room, and the words in use in them.

ghost use Rattle.std.specs.Prelude.{◌≡◌, ◌-◌, ◌<◌, length, true};
ghost use Rattle.gypsy_syntax.specs.Programs.{proc_at};
ghost use Rattle.gypsy_space.specs.{Needs.{has_room, with_call}, Nodes.{seen_proc}};
ghost use Rattle.quick_generate.specs.LinedViews.{IsTable, called_program, sizes_of, used_in};

use gypsy_space::{Needs, Procedure, Program};

/// What tells which calls have room: the program, what its procedures need, and the sizes of the stacks.
#[derive(Clone, Copy)]
pub(crate) struct Calls<'a> {
    pub program: &'a Program,
    pub needs: &'a Needs,
    pub ctrl: u32,
    pub temp: u32,
}

/// An activation: the words in use of both stacks, and how deep further calls may nest in it.
#[derive(Clone, Copy)]
pub(crate) struct Activation {
    pub ctrl: u64,
    pub temp: u64,
    pub calls: u32,
}

impl<'a> Calls<'a> {
    /// A procedure of the program.
    pub(crate) fn procedure(&self, position: u32) -> &'a Procedure
        requires { position < length self.now.program.now.procedures.items }
        ensures { seen_proc result.now ≡ proc_at (called_program self.now) position }
    {
        &self.program.procedures[position as usize]
    }

    /// Whether a call has room.
    pub(crate) fn has_room(&self, callee: u32, from: Activation) -> bool
        requires table { IsTable self.now }
        requires there { callee < length self.now.program.now.procedures.items }
        ensures { result ≡ has_room (called_program self.now) (sizes_of self.now) callee (used_in from) }
    {
        gypsy_space::room_is_room();
        self.needs
            .room(callee, from.temp, from.ctrl, self.temp, self.ctrl)
    }

    /// The activation of a call that has room.
    pub(crate) fn activation(&self, callee: u32, from: Activation) -> Activation
        requires table { IsTable self.now }
        requires there { callee < length self.now.program.now.procedures.items }
        requires room { has_room (called_program self.now) (sizes_of self.now) callee (used_in from) ≡ true }
        requires nests { 0 < from.calls }
        ensures used { used_in result ≡ with_call (called_program self.now) callee (used_in from) }
        ensures calls { result.calls ≡ from.calls - 1 }
    {
        let need = self.needs.need_of(callee);
        Activation {
            ctrl: from.ctrl + (2 + need.vars),
            temp: from.temp + need.locals_words,
            calls: from.calls - 1,
        }
    }
}

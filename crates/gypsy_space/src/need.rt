//! The words that procedures need, and what their runs cost.

ghost use Rattle.std.specs.Prelude.{◌≡◌, ◌^◌, ◌<◌};
ghost use Rattle.gypsy_space.specs.Events.{AreSmall, IsSmall, event_count, has_ctrl_room_by, has_room_by, has_temp_room_by, lack_by, need_at};
ghost use Rattle.gypsy_space.specs.Needs.{stack_sizes};

use crate::event::{CostEvent, predef_count};

/// What a procedure needs.
#[derive(Clone, Copy, Debug, PartialEq, Eq)]
pub struct Need {
    /// The most words of the temporary stack that its calls take, those of their callees apart, and at least 1.
    pub temp: u64,
    /// The greatest frame of its predefined calls.
    pub ctrl: u64,
    /// The words of its locals.
    pub locals_words: u64,
    /// How many formals and locals it has.
    pub vars: u64,
    /// The words of its code.
    pub code_words: u64,
}

impl Need {
    /// Whether a call has room on a temporary stack of this size, with these words in use.
    fn has_temp_room(self, size: u32, used: u64) -> bool
        requires { IsSmall self }
        ensures { result ≡ has_temp_room_by self size used }
    {
        let above = (self.locals_words + self.vars).max(self.locals_words + self.temp);
        used.saturating_add(above) <= size as u64
    }

    /// Whether a call has room on a control stack of this size, with these words in use.
    fn has_ctrl_room(self, size: u32, used: u64) -> bool
        requires { IsSmall self }
        ensures { result ≡ has_ctrl_room_by self size used }
    {
        let frame = 2 + self.vars + self.ctrl;
        used.saturating_add(frame) <= size as u64
    }
}

/// What each procedure of a source needs, in the order of the source.
#[derive(Debug, Drop)]
pub struct Needs {
    /// One for each procedure, by its position.
    pub procedures: Vec<Need>,
}

/// Which stack lacks room for a call.
#[derive(Clone, Copy, Debug, PartialEq, Eq)]
pub enum Lack {
    /// The call has room.
    Nothing,
    /// The temporary stack, whether or not the control stack has room.
    Temporary,
    /// The control stack alone.
    Control,
}

impl Needs {
    /// What a procedure needs, or nothing where there is no such procedure.
    pub fn need_of(&self, procedure: u32) -> Need
        ensures { result ≡ need_at self.now.procedures.items procedure }
    {
        match self.procedures.get(procedure as usize) {
            Some(need) => *need,
            None => Need {
                temp: 0,
                ctrl: 0,
                locals_words: 0,
                vars: 0,
                code_words: 0,
            },
        }
    }

    /// Whether a call has room, with these words in use, on stacks of these sizes.
    #[tactic(auto, unfolding(crate::specs::Events::has_room_by))]
    pub fn room(&self, callee: u32, used_temp: u64, used_ctrl: u64, temp: u32, ctrl: u32) -> bool
        requires { AreSmall self.now.procedures.items }
        ensures { let need = need_at self.now.procedures.items callee in
            result ≡ has_room_by need (stack_sizes ctrl temp) (stack_sizes used_ctrl used_temp) }
    {
        let need = self.need_of(callee);
        need.has_temp_room(temp, used_temp) && need.has_ctrl_room(ctrl, used_ctrl)
    }

    /// Which stack lacks room for a call, with these words in use, on stacks of these sizes; the temporary one is looked
    /// at first.
    #[tactic(auto, unfolding(crate::specs::Events::lack_by))]
    pub fn lack(&self, callee: u32, used_temp: u64, used_ctrl: u64, temp: u32, ctrl: u32) -> Lack
        requires { AreSmall self.now.procedures.items }
        ensures { let need = need_at self.now.procedures.items callee in
            result ≡ lack_by need (stack_sizes ctrl temp) (stack_sizes used_ctrl used_temp) }
    {
        let need = self.need_of(callee);
        if !need.has_temp_room(temp, used_temp) {
            Lack::Temporary
        } else if !need.has_ctrl_room(ctrl, used_ctrl) {
            Lack::Control
        } else {
            Lack::Nothing
        }
    }

    /// What a step costs, in instructions.
    #[tactic(auto, unfolding(crate::specs::Events::event_count))]
    pub fn cost(&self, event: CostEvent) -> u64
        requires { AreSmall self.now.procedures.items }
        ensures count { result ≡ event_count self.now.procedures.items event }
        ensures bounded { result < 2 ^ 63 }
    {
        match event {
            CostEvent::NoOp | CostEvent::LoopRound | CostEvent::LoopBack | CostEvent::JoinOne => 1,
            CostEvent::JoinThen | CostEvent::GuardNormal => 2,
            CostEvent::Caught => 3,
            CostEvent::Signal | CostEvent::OutFormal => 4,
            CostEvent::EndMain => 5,
            CostEvent::OutOther => 7,
            CostEvent::IfTrue => 8,
            CostEvent::IfFalse => 9,
            CostEvent::ReturnRaised => 10,
            CostEvent::EndProc => 12,
            CostEvent::LackTemporary => 15,
            CostEvent::LackControl => 26,
            CostEvent::Call { callee } => {
                let need = self.need_of(callee);
                26 + (need.locals_words + 4 * need.vars)
            }
            CostEvent::Predef { which, outcome } => predef_count(which, outcome),
        }
    }
}

//! Where main's variables stand, and how quick code reaches them.

ghost use Rattle.std.specs.Prelude.{◌≡◌, ◌-◌, ◌<◌, get_or};
ghost use Rattle.quick_code.specs.Access.{register_of};
ghost use Rattle.quick_gypsy.specs.Layout.{count_of, first_of, last_address};
ghost use Rattle.quick_generate.specs.Views.{frame_layout, seen_access};

use crate::access::Access;
use crate::frame::{Frame, words_of};

/// The first register that holds the address of a variable.
const FIRST_HELD: u8 = 5;

impl Frame {
    /// The index of the first word of a variable, counted from the end.
    fn first(&self, variable: u32) -> u32
        ensures { result ≡ first_of (frame_layout self.now) variable }
    {
        let before = self.shapes.len().min(variable as usize);
        words_of(&self.shapes.as_slice()[..before])
    }

    /// How many items a variable has.
    pub(crate) fn count(&self, variable: u32) -> u32
        ensures { result ≡ count_of (frame_layout self.now) variable }
    {
        match self.shapes.get(variable as usize) {
            Some(shape) => shape.item_count() as u32,
            None => 1,
        }
    }

    /// The address of the first word of a variable.
    pub(crate) fn address(&self, variable: u32) -> u32
        ensures { result ≡ self.now.end - 1 - first_of (frame_layout self.now) variable }
    {
        self.end
            .saturating_sub(1)
            .saturating_sub(self.first(variable))
    }

    /// The address of a variable's last item, which is its lowest.
    pub(crate) fn last_address(&self, variable: u32) -> u32
        ensures { result ≡ last_address (frame_layout self.now) variable }
    {
        let last = self.first(variable) + self.count(variable).saturating_sub(1);
        self.end.saturating_sub(1).saturating_sub(last)
    }

    /// How a variable's first word is reached.
    pub(crate) fn reach(&self, variable: u32) -> Access
        ensures value { seen_access result ≡ (frame_layout self.now).access variable }
        ensures register { register_of (seen_access result) < 16 }
    {
        let mut register = FIRST_HELD;
        for chosen in self.chosen.as_slice() {
            if *chosen == variable {
                return Access::Held(register);
            }
            register += 1;
        }
        Access::Known(self.address(variable))
    }

    /// The address in the register with this number among those that hold one.
    pub(crate) fn held(&self, number: usize) -> u32
        ensures { let b = get_or self.now.chosen.items number 0 in
            result ≡ self.now.end - 1 - first_of (frame_layout self.now) b }
    {
        let variable = match self.chosen.get(number) {
            Some(variable) => *variable,
            None => 0,
        };
        self.address(variable)
    }
}

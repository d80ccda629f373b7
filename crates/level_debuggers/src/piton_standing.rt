//! A state of Piton's machine, as it is read at a mark.

use crate::piton_level::PitonLevel;
use crate::piton_reading::number_there;
use display_maps::Standing;

/// Where a run stands, and the numbers of the words of its areas.
#[derive(Drop)]
pub(crate) struct PitonAt<'a> {
    pub level: &'a PitonLevel,
    pub areas: Vec<u32>,
}

impl<'a> Standing for PitonAt<'a> {
    ghost use Rattle.level_debuggers.specs.Standings.{standing_of};

    ghost standing = { standing_of };

    fn address(&self) -> u32 {
        self.level.address()
    }

    fn word(&self, address: u32) -> Option<u32> {
        number_there(self.level.areas_start(), &self.areas, address)
    }

    fn local(&self, offset: u32) -> Option<u32> {
        self.level.local(offset)
    }

    fn below(&self, place: u64) -> Option<u32> {
        self.level.element(place)
    }
}

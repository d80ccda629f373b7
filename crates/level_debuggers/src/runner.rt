//! What a session runs.

use fm_image::Image;
use fm_machine::Machine;
use gypsy_check::Accepted;
use gypsy_meaning::Meaning;
use gypsy_space::Needs;
use piton_check::Checked;
use piton_machine::State;

/// A run at one of the levels, as a session takes it.
#[derive(Drop)]
pub enum Runner {
    /// A run of an accepted source.
    Gypsy {
        /// The source.
        accepted: Accepted,
        /// What the source's procedures need.
        needs: Needs,
        /// The run as it stands.
        meaning: Meaning,
    },
    /// A run of a system of Piton.
    Piton {
        /// The system.
        checked: Checked,
        /// The image that is linked from the system.
        image: Image,
        /// The state in which the run stands.
        state: State,
    },
    /// A machine that runs an image.
    Fm {
        image: Image,
        machine: Machine,
    },
}

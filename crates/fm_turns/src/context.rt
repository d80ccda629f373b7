//! What a task has to itself.

ghost use Rattle.std.specs.Prelude.{◌≡◌};
ghost use Rattle.fm_turns.specs.Starting.{state_at_start, context_of};

use crate::task::Task;
use fm_image::Image;
use fm_machine::Machine;
use fm_words::Flags;

/// What a task has to itself: its image, its registers and flags, and how it stands. Its words are in the memory of all.
///
/// Between its turns it keeps the registers and flags here; at its turn the machine has them.
#[derive(Debug, Drop)]
pub struct TaskContext {
    /// The image that it was loaded with.
    pub image: Image,
    /// Its sixteen registers, from r0 on. r15 is its program counter.
    pub registers: [u32; 16],
    /// Its flags.
    pub flags: Flags,
    /// How it stands.
    pub state: Task,
}

/// How a task stands as its machine is loaded.
fn state_at_start(machine: &Machine, final_pc: u32) -> Task
    ensures { result ≡ state_at_start final_pc machine.now.state }
{
    if machine.register(15) == final_pc {
        Task::Ended { count: 0, round: 0 }
    } else {
        Task::Running { count: 0 }
    }
}

impl TaskContext {
    /// A task with the registers and flags of the machine that its image is loaded into.
    pub(crate) fn new(image: Image, machine: &Machine) -> TaskContext
        ensures { result ≡ context_of image machine.now.state }
    {
        let state = state_at_start(machine, image.final_pc);
        TaskContext {
            image,
            registers: *machine.registers(),
            flags: machine.flags(),
            state,
        }
    }
}

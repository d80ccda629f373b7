//! The commands.
ghost use Rattle.std.specs.Prelude.{◌≡◌, map};
ghost use Rattle.stack_heap.specs.Heaps.{IfOkUnless};
ghost use Rattle.command_line.specs.CommandFiles.{task_inputs};

use crate::role::{Role, RoleFile};
use crate::words::{FileName, Level, ProcedureCount, StackSize, TurnLength};
use stack_heap::Heap;
use stack_text::{Memory, Seq};

/// What the words ask for, with the names of the files, the sizes of the two stacks, and the most steps.
#[derive(Drop)]
pub enum Command {
    /// Judges a source.
    Check {
        source: FileName,
    },
    /// Follows the meaning of a source.
    Mean {
        /// The source that is followed.
        source: FileName,
        /// The values of main's formals.
        values: FileName,
        /// How many words the control stack has.
        control: StackSize,
        /// How many words the temporary stack has.
        temporary: StackSize,
        /// The most steps that are made, 0 to 2^40.
        limit: u64,
    },
    /// Compiles a source to a Piton text, and stores that.
    Pit {
        /// The source that is compiled.
        source: FileName,
        /// How many words the control stack has.
        control: StackSize,
        /// How many words the temporary stack has.
        temporary: StackSize,
        /// Where the Piton text is stored.
        piton: FileName,
    },
    /// Compiles a source to an image, and stores that.
    Build {
        /// The source that is compiled.
        source: FileName,
        /// How many words the control stack has.
        control: StackSize,
        /// How many words the temporary stack has.
        temporary: StackSize,
        /// Where the image is stored.
        image: FileName,
    },
    /// Judges a Piton text.
    Pcheck {
        piton: FileName,
    },
    /// Runs a Piton text for at most `limit` steps, which is 0 to 2^40.
    Prun {
        piton: FileName,
        limit: u64,
    },
    /// Links a Piton text to an image, and stores that.
    Pbuild {
        piton: FileName,
        image: FileName,
    },
    /// Runs an image on values.
    Run {
        /// The image that is run.
        image: FileName,
        /// The values of the image's slots.
        values: FileName,
        /// The most instructions that are made, 0 to 2^40.
        budget: u64,
    },
    /// Compiles a source to an image, stores that, and runs it on values.
    Go {
        /// The source that is compiled.
        source: FileName,
        /// The values of main's formals.
        values: FileName,
        /// How many words the control stack has.
        control: StackSize,
        /// How many words the temporary stack has.
        temporary: StackSize,
        /// The most instructions that are made, 0 to 2^40.
        budget: u64,
        /// Where the image is stored.
        image: FileName,
    },
    /// Lists an image.
    Show {
        image: FileName,
    },
    /// Stores an image as one of version 2, under the name `output`.
    Migrate {
        image: FileName,
        output: FileName,
    },
    /// Assembles a text to an image, and stores that.
    Asm {
        assembly: FileName,
        image: FileName,
    },
    /// Prints an image as a text of the assembler, and stores that.
    Unasm {
        image: FileName,
        assembly: FileName,
    },
    /// Makes the least certificate of a source, and stores that.
    Need {
        source: FileName,
        certificate: FileName,
    },
    /// Judges whether a certificate covers a source in stacks of these sizes.
    Cert {
        /// The source that the certificate is to cover.
        source: FileName,
        /// The certificate that is judged.
        certificate: FileName,
        /// How many words the control stack has.
        control: StackSize,
        /// How many words the temporary stack has.
        temporary: StackSize,
    },
    /// Follows a script of a debugger in a session of a source's program, at a level.
    Debug {
        /// At which level the steps are made.
        level: Level,
        /// The source whose program is run.
        source: FileName,
        /// The values of main's formals.
        values: FileName,
        /// How many words the control stack has.
        control: StackSize,
        /// How many words the temporary stack has.
        temporary: StackSize,
        /// The script that is followed.
        script: FileName,
    },
    /// Follows a script of a debugger in a session of a Piton text's run.
    Pdebug {
        piton: FileName,
        script: FileName,
    },
    /// Follows a script of a debugger in a session of an image's run on values.
    Idebug {
        /// The image that is run.
        image: FileName,
        /// The values of the image's slots.
        values: FileName,
        /// The script that is followed.
        script: FileName,
    },
    /// Builds sources, and runs their images by turns in one memory.
    Turns {
        /// How many instructions a turn has at most.
        turn: TurnLength,
        /// The most instructions of each task, 0 to 2^40.
        budget: u64,
        /// How many words the control stack of each task has.
        control: StackSize,
        /// How many words the temporary stack of each task has.
        temporary: StackSize,
        /// The files of one to eight tasks, in the order of their turns.
        tasks: Seq<TaskFiles>,
    },
    /// Builds and runs a large source of so many procedures, which is made from a number.
    Big {
        number: u32,
        procedures: ProcedureCount,
    },
    /// Lowers a program of the infix language to a source, and stores that.
    Mini {
        program: FileName,
        source: FileName,
    },
    /// Compiles a source to an image of fewer instructions, if it has one, and stores that.
    Quick {
        /// The source that is compiled.
        source: FileName,
        /// How many words the control stack has.
        control: StackSize,
        /// How many words the temporary stack has.
        temporary: StackSize,
        /// Where the image is stored.
        image: FileName,
    },
}

/// The files of a task.
#[derive(Drop)]
pub struct TaskFiles {
    /// Its source.
    pub source: FileName,
    /// The values of its variables.
    pub values: FileName,
}

impl Command {
    ghost use Rattle.std.specs.{Prelude.{◌≡◌, map}, Option.{option_map}};
    ghost use Rattle.stack_heap.specs.Heaps.{IfOkUnless};
    ghost use Rattle.command_line.specs.CommandFiles.{inputs_of, output_of};

    /// The files that it reads, in order; out of memory is the only error.
    #[tactic(auto, unfolding(crate::specs::CommandFiles::inputs_of))]
    pub fn inputs<H: Heap>(&self, heap: H) -> Result<Vec<RoleFile<'_>>, Memory>
        ensures { IfOkUnless (H.may_refuse heap) result (λ inputs.
            map (λ input. (input.role, input.name.now)) inputs.items ≡ inputs_of self.now) }
    {
        match self {
            Command::Check { source }
            | Command::Pit { source, .. }
            | Command::Build { source, .. }
            | Command::Need { source, .. }
            | Command::Quick { source, .. } => Ok(heap.copied(&[Role::Source.file(source)])?),
            Command::Mean { source, values, .. } | Command::Go { source, values, .. } => Ok(
                heap.copied(&[Role::Source.file(source), Role::Values.file(values)])?,
            ),
            Command::Pcheck { piton }
            | Command::Prun { piton, .. }
            | Command::Pbuild { piton, .. } => Ok(heap.copied(&[Role::Piton.file(piton)])?),
            Command::Run { image, values, .. } => Ok(heap.copied(&[
                Role::Image.file(image),
                Role::Values.file(values),
            ])?),
            Command::Show { image }
            | Command::Migrate { image, .. }
            | Command::Unasm { image, .. } => Ok(heap.copied(&[Role::Image.file(image)])?),
            Command::Asm { assembly, .. } => Ok(heap.copied(&[Role::Assembly.file(assembly)])?),
            Command::Cert {
                source,
                certificate,
                ..
            } => Ok(heap.copied(&[
                Role::Source.file(source),
                Role::Certificate.file(certificate),
            ])?),
            Command::Debug {
                source,
                values,
                script,
                ..
            } => Ok(heap.copied(&[
                Role::Source.file(source),
                Role::Values.file(values),
                Role::Script.file(script),
            ])?),
            Command::Pdebug { piton, script } => Ok(heap.copied(&[
                Role::Piton.file(piton),
                Role::Script.file(script),
            ])?),
            Command::Idebug {
                image,
                values,
                script,
            } => Ok(heap.copied(&[
                Role::SessionImage.file(image),
                Role::Values.file(values),
                Role::Script.file(script),
            ])?),
            Command::Turns { tasks, .. } => task_inputs(heap, tasks.as_slice()),
            Command::Big { .. } => Ok(Vec::new(heap.handle())),
            Command::Mini { program, .. } => Ok(heap.copied(&[Role::Infix.file(program)])?),
        }
    }

    /// The file that it writes.
    #[tactic(auto, unfolding(crate::specs::CommandFiles::output_of))]
    pub fn output(&self) -> Option<RoleFile<'_>>
        ensures { option_map (λ output. (output.role, output.name.now)) result ≡ output_of self.now }
    {
        match self {
            Command::Pit { piton, .. } => Some(Role::Piton.file(piton)),
            Command::Build { image, .. }
            | Command::Pbuild { image, .. }
            | Command::Go { image, .. }
            | Command::Asm { image, .. } => Some(Role::Image.file(image)),
            Command::Migrate { output, .. } => Some(Role::Image.file(output)),
            Command::Unasm { assembly, .. } => Some(Role::Assembly.file(assembly)),
            Command::Need { certificate, .. } => Some(Role::Certificate.file(certificate)),
            Command::Mini { source, .. } => Some(Role::Source.file(source)),
            Command::Quick { image, .. } => Some(Role::QuickImage.file(image)),
            _ => None,
        }
    }
}

/// The files that the tasks read, task by task; out of memory is the only error.
fn task_inputs<H: Heap>(heap: H, tasks: &[TaskFiles]) -> Result<Vec<RoleFile<'_>>, Memory>
    ensures { IfOkUnless (H.may_refuse heap) result (λ inputs.
        map (λ input. (input.role, input.name.now)) inputs.items ≡ task_inputs tasks.now) }
{
    let mut inputs = Vec::new(heap.handle());
    for task in tasks {
        heap.push(&mut inputs, Role::TaskSource.file(&task.source))?;
        heap.push(&mut inputs, Role::TaskValues.file(&task.values))?;
    }
    Ok(inputs)
}

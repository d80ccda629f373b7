//! Builds the image of a source.
ghost use Rattle.std.specs.Prelude.{◌≤◌, ◌^◌, IfOk, length};
ghost use Rattle.piton_syntax.specs.PitonReading.{KeepsForm};
ghost use Rattle.gypsy_check.specs.Accepted.{IsAccepted};
ghost use Rattle.gypsy_space.specs.Needs.{stack_sizes};
ghost use Rattle.gypsy_syntax.specs.Views.SourceView.{source_of};
ghost use Rattle.stack_build.specs.Build.{GivesBuiltUnless, accepted_source, source_built, compiled, built, Builds, BuildsText};

use crate::fault::BuildFault;
use crate::imaging::image;
use fm_image::{Image, write_image};
use gypsy_check::{Accepted, check};
use gypsy_codegen::generate_with;
use gypsy_space::{Program, needs_with, resolve};
use gypsy_syntax::read_gypsy;
use piton_check::Checked;
use stack_heap::Heap;
use std::marker::Model;

/// What is built from a source.
///
/// Contracts see it as a record of the same fields, with a list in place of the vector.
#[derive(Debug, Drop)]
pub struct Built {
    /// The Piton system.
    pub piton: Checked,
    /// The image, one for all values of main's formals.
    pub image: Image,
    /// Its file.
    pub bytes: Vec<u8>,
}

impl Model for Built {
    ghost use Rattle.stack_build.specs.Build.{BuiltOf};

    ghost Value = { BuiltOf };

    ghost view = { λ b. record { piton = b.piton; image = b.image; bytes = b.bytes.items } };
}

impl Built {
    ghost use Rattle.std.specs.Prelude.{◌≡◌};

    /// The image alone.
    pub fn into_image(self) -> Image
        ensures { result ≡ self.image }
    {
        let Built {
            image,
            piton: _,
            bytes: _,
        } = self;
        image
    }
}

/// The accepted source of a text.
///
/// # Errors
///
/// `Text`, `Form` or `Rule`; or out of memory.
pub fn accept<H: Heap>(heap: H, text: &[u8]) -> Result<Accepted, BuildFault>
    requires { length text.now ≤ 2 ^ 31 }
    ensures { GivesBuiltUnless (H.may_refuse heap) source_of result (accepted_source text.now) }
{
    let source = read_gypsy(heap, text)?;
    Ok(check(heap, source)?)
}

/// What an image was made of: the accepted source, and its program.
///
/// Their memory is given back node by node. A caller whose process ends next can forget them.
#[derive(Drop)]
pub struct Origins {
    accepted: Accepted,
    program: Program,
}

/// What is built of an accepted source, and the source's program.
fn build_program<H: Heap>(
    heap: H,
    accepted: &Accepted,
    ctrl: u32,
    temp: u32,
    base: u32,
) -> Result<(Built, Program), BuildFault>
    requires { base ≤ 2 ^ 31 }
    ensures value { GivesBuiltUnless (H.may_refuse heap) (λ made. made.0) result
        (source_built (source_of accepted.now) (stack_sizes ctrl temp) base) }
    ensures implements { IfOk result (λ made. Builds (source_of accepted.now) (stack_sizes ctrl temp) made.0) }
    ensures accepted { IfOk result (λ _. IsAccepted (source_of accepted.now)) }
{
    let program = resolve(heap, accepted)?;
    let needs = needs_with(heap, accepted, &program)?;
    let piton = generate_with(heap, accepted, &program, &needs, ctrl, temp, base)?;
    let image = image(heap, accepted, &program, &needs, &piton)?;
    let bytes = write_image(heap, &image)?;
    let built = Built {
        piton,
        image,
        bytes,
    };
    Ok((built, program))
}

/// What `build` builds of an accepted source.
///
/// # Errors
///
/// `Size`, `Control`, `Temporary` or `Words`; or out of memory.
pub fn build_accepted<H: Heap>(
    heap: H,
    accepted: &Accepted,
    ctrl: u32,
    temp: u32,
    base: u32,
) -> Result<Built, BuildFault>
    requires { base ≤ 2 ^ 31 }
    ensures value { GivesBuiltUnless (H.may_refuse heap) (λ built. built) result
        (source_built (source_of accepted.now) (stack_sizes ctrl temp) base) }
    ensures implements { IfOk result (Builds (source_of accepted.now) (stack_sizes ctrl temp)) }
    ensures accepted { IfOk result (λ _. IsAccepted (source_of accepted.now)) }
{
    let (built, _program) = build_program(heap, accepted, ctrl, temp, base)?;
    Ok(built)
}

/// The Piton system of the source in a text, for a control stack of `ctrl` words, a temporary stack of `temp` words, and a
/// window that begins at `base`.
///
/// # Errors
///
/// The first reason in the order of `BuildFault` for which there is none, where `Words` is the sum of the code's words alone;
/// or out of memory.
#[tactic(auto, unfolding(crate::specs::Build::compiled))]
pub fn compile<H: Heap>(
    heap: H,
    text: &[u8],
    ctrl: u32,
    temp: u32,
    base: u32,
) -> Result<Checked, BuildFault>
    requires text { length text.now ≤ 2 ^ 31 }
    requires base { base ≤ 2 ^ 31 }
    ensures system { GivesBuiltUnless (H.may_refuse heap) (λ checked. checked.system) result
        (compiled text.now ctrl temp base) }
    ensures form { IfOk result (λ checked. KeepsForm checked.system) }
{
    let accepted = accept(heap, text)?;
    let program = resolve(heap, &accepted)?;
    let needs = needs_with(heap, &accepted, &program)?;
    Ok(generate_with(heap, &accepted, &program, &needs, ctrl, temp, base)?)
}

/// Builds the image of a source, as `build` does, and keeps what it was made of.
///
/// # Errors
///
/// Those of `build`.
pub fn build_with_origins<H: Heap>(
    heap: H,
    text: &[u8],
    ctrl: u32,
    temp: u32,
    base: u32,
) -> Result<(Built, Origins), BuildFault>
    requires text { length text.now ≤ 2 ^ 31 }
    requires base { base ≤ 2 ^ 31 }
    ensures value { GivesBuiltUnless (H.may_refuse heap) (λ made. made.0) result (built text.now ctrl temp base) }
    ensures implements { IfOk result (λ made. BuildsText text.now ctrl temp made.0) }
{
    let accepted = accept(heap, text)?;
    let (built, program) = build_program(heap, &accepted, ctrl, temp, base)?;
    Ok((built, Origins { accepted, program }))
}

/// Builds the image of a source, for a control stack of `ctrl` words, a temporary stack of `temp` words, and a window
/// that begins at `base`.
///
/// The time is linear in the text, in the words of the code that is generated, and in the sizes of the two stacks, with
/// factors that the form bounds: a name is sought among those that are declared, and a raise asks the loops and the
/// handlers round it.
///
/// # Errors
///
/// The first reason in the order of `BuildFault` for which there is no image; or out of memory.
pub fn build<H: Heap>(
    heap: H,
    text: &[u8],
    ctrl: u32,
    temp: u32,
    base: u32,
) -> Result<Built, BuildFault>
    requires text { length text.now ≤ 2 ^ 31 }
    requires base { base ≤ 2 ^ 31 }
    // What is built, and each fault, are those of the text, the two sizes and the base. Memory runs out only where the heap may refuse.
    ensures value { GivesBuiltUnless (H.may_refuse heap) (λ built. built) result (built text.now ctrl temp base) }
    // The image does what the source means, and its file can be read again.
    ensures implements { IfOk result (BuildsText text.now ctrl temp) }
{
    let (built, _origins) = build_with_origins(heap, text, ctrl, temp, base)?;
    Ok(built)
}

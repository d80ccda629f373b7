//! Images of the examples.
ghost use Rattle.std.specs.Prelude.{◌≤◌, ◌^◌, IfOk};
ghost use Rattle.proved_programs.specs.{Sum.{SumsUp}, SumText.{IsSumText}};

use stack_build::{BuildFault, Built, build};
use std::alloc::Global;

/// Builds the image of `examples/arrays/sum.gypsy`, for a control stack of `ctrl` words, a temporary stack of `temp` words, and a
/// window that begins at `base`.
///
/// # Errors
///
/// As `build`.
pub fn build_sum(
    alloc: Global,
    text: &[u8],
    ctrl: u32,
    temp: u32,
    base: u32,
) -> Result<Built, BuildFault>
    requires text { IsSumText text.now }
    requires base { base ≤ 2 ^ 31 }
    ensures { IfOk result (λ built. SumsUp built.image) }
{
    build(alloc, text, ctrl, temp, base)
}

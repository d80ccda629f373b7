//! Values of main's formals, without an image.
ghost use Rattle.std.specs.Prelude.{◌≤◌, ◌^◌, IfOk, length};
ghost use Rattle.fm_loader.specs.{Rules.{GivesValuesUnless}, Values.{values_in}};
ghost use Rattle.gypsy_syntax.specs.Views.SourceView.{source_of};
ghost use Rattle.stack_build.specs.{Image.{formal_slots}, Implements.{FitsFormals}};

use crate::imaging::slots_from;
use crate::shown::shown_formals;
use fm_loader::{ValuesFault, read_values};
use gypsy_check::Accepted;
use stack_heap::Heap;
use stack_text::Value;

/// The values that a text of at most 2^31 bytes gives the formals of a source's main procedure, in their order.
///
/// # Errors
///
/// The rule of values files that the text breaks, with its place; or out of memory.
pub fn read_formals<H: Heap>(
    heap: H,
    accepted: &Accepted,
    text: &[u8],
) -> Result<Vec<Value>, ValuesFault>
    requires { length text.now ≤ 2 ^ 31 }
    ensures value { GivesValuesUnless (H.may_refuse heap) (λ values. values.items) result
        (values_in (formal_slots (source_of accepted.now)) text.now) }
    ensures fits { IfOk result (λ values. FitsFormals (source_of accepted.now) values.items) }
{
    let source = accepted.source();
    let slots = slots_from(heap, 0, shown_formals(source))?;
    read_values(heap, text, &slots)
}

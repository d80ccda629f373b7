//! Where the runs of a source's own steps begin.

ghost use Rattle.std.specs.Prelude.{◌≡◌, ◌≤◌, ◌^◌, IfOk, length};
ghost use Rattle.stack_heap.specs.Heaps.{IfOkUnless};
ghost use Rattle.gypsy_meaning.specs.{Views.Belongs.{BelongsTo}, Views.Running.{seen}};
ghost use Rattle.gypsy_space.specs.{Events.{AreNeeds, AreSmall}, Needs.{stack_sizes, main_need}};
ghost use Rattle.gypsy_syntax.specs.{Resolved.{program_of}, Views.SourceView.{source_of}};
ghost use Rattle.stack_build.specs.Starts.{GivesStartUnless, shortage_of, gypsy_start};

use crate::fault::BuildFault;
use crate::formals::read_formals;
use crate::start_fault::StartFault;
use gypsy_check::Accepted;
use gypsy_meaning::Meaning;
use gypsy_semantics::{control_need, temporary_need};
use gypsy_space::{Needs, resolve};
use stack_heap::Heap;
use stack_text::Memory;

/// Which of the stacks is smaller than main itself needs.
fn shortage_of<H: Heap>(
    heap: H,
    accepted: &Accepted,
    needs: &Needs,
    control: u32,
    temporary: u32,
) -> Result<Option<BuildFault>, Memory>
    requires needs { AreNeeds (program_of (source_of accepted.now)) needs.now.procedures.items }
    requires small { AreSmall needs.now.procedures.items }
    ensures { IfOkUnless (H.may_refuse heap) result (λ shortage. shortage
        ≡ shortage_of (main_need (program_of (source_of accepted.now))) (stack_sizes control temporary)) }
{
    let program = resolve(heap, accepted)?;
    let need = control_need(&program, needs);
    if u64::from(control) < need {
        return Ok(Some(BuildFault::Control { need }));
    }
    let need = temporary_need(&program, needs);
    if u64::from(temporary) < need {
        return Ok(Some(BuildFault::Temporary { need }));
    }
    Ok(None)
}

/// A run of an accepted source at its start, with stacks of `control` and `temporary` words, on the values that a text of at
/// most 2^31 bytes gives the formals of its main procedure.
///
/// # Errors
///
/// `Build` with `Control` or `Temporary` where a stack is smaller than main itself needs; else `Values`; or out of memory.
#[tactic(auto, unfolding(crate::specs::Starts::gypsy_start))]
pub fn start_meaning<H: Heap>(
    heap: H,
    accepted: &Accepted,
    needs: &Needs,
    control: u32,
    temporary: u32,
    values: &[u8],
) -> Result<Meaning, StartFault>
    requires needs { AreNeeds (program_of (source_of accepted.now)) needs.now.procedures.items }
    requires small { AreSmall needs.now.procedures.items }
    requires values { length values.now ≤ 2 ^ 31 }
    ensures start { GivesStartUnless (H.may_refuse heap) seen result
        (gypsy_start (source_of accepted.now) (stack_sizes control temporary) values.now) }
    ensures belongs { IfOk result (BelongsTo (source_of accepted.now) needs.now.procedures.items) }
{
    if let Some(shortage) = shortage_of(heap, accepted, needs, control, temporary)? {
        return Err(StartFault::Build(shortage));
    }
    let values = read_formals(heap, accepted, values)?;
    Ok(Meaning::start(heap, accepted, needs, values.as_slice(), control, temporary)?)
}

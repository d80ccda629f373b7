//! The generator.

ghost use Rattle.std.specs.Prelude.{◌≡◌, ◌≤◌, ◌<◌, ◌^◌, [], length, IfOk};
ghost use Rattle.stack_heap.specs.Heaps.{IfOkUnless};
ghost use Rattle.piton_syntax.specs.PitonReading.{KeepsForm};
ghost use Rattle.piton_check.specs.{PitonChecking.{IsChecked}, Violations.{violations}};
ghost use Rattle.gypsy_syntax.specs.{ProgramFits.{ProgramFits}, Resolved.{program_of}, Views.SourceView.{source_of}};
ghost use Rattle.gypsy_check.specs.Accepted.{IsAccepted};
ghost use Rattle.gypsy_space.specs.{Events.{AreNeeds, AreSmall}, Needs.{stack_sizes}, Nodes.{seen_program}};
ghost use Rattle.gypsy_codegen.specs.Generation.{GivesGeneratedUnless, SystemImplements, TakesCodeWords, are_sizes, generation, size_fault};
ghost use Rattle.gypsy_codegen.specs.Internal.Views.{AreModest, words_together};

use crate::fault::GenFault;
use crate::laws::{
    generated_is_acceptable, moments_are_reached, procedures_take_words, source_runs,
};
use crate::system::system;
use fm_words::MOST_WINDOW;
use gypsy_check::Accepted;
use gypsy_semantics::{control_need, temporary_need};
use gypsy_space::{Need, Needs, Program, resolve};
use piton_check::{CheckFault, Checked, check};
use piton_syntax::System;
use stack_heap::Heap;
use stack_text::{MOST_STACK, Memory};

/// The most words of code.
const MOST_WORDS: u64 = MOST_WINDOW as u64;

/// Whether both stacks have 1 to 65,536 words.
fn are_sizes(ctrl: u32, temp: u32) -> bool
    ensures { result ≡ are_sizes (stack_sizes ctrl temp) }
{
    1 <= ctrl && ctrl <= MOST_STACK && 1 <= temp && temp <= MOST_STACK
}

/// The words of the code of all procedures.
fn words_together(needs: &[Need]) -> u64
    requires few { length needs.now ≤ 1000 }
    requires modest { AreModest needs.now }
    ensures { result ≡ words_together needs.now }
{
    let mut words = 0;
    for need in needs {
        words += need.code_words;
    }
    words
}

/// The first limit that the sizes of the stacks or the words of the code are outside of.
#[tactic(auto, unfolding(crate::specs::Generation::size_fault))]
fn size_fault(program: &Program, needs: &Needs, ctrl: u32, temp: u32) -> Option<GenFault>
    requires needs { AreNeeds (seen_program program.now) needs.now.procedures.items }
    requires small { AreSmall needs.now.procedures.items }
    requires fits { ProgramFits (seen_program program.now) }
    requires few { length needs.now.procedures.items ≤ 1000 }
    requires modest { AreModest needs.now.procedures.items }
    ensures { result ≡ size_fault (seen_program program.now) (stack_sizes ctrl temp) }
{
    if !are_sizes(ctrl, temp) {
        return Some(GenFault::Size);
    }
    let need = control_need(program, needs);
    if (ctrl as u64) < need {
        return Some(GenFault::Control { need });
    }
    let need = temporary_need(program, needs);
    if (temp as u64) < need {
        return Some(GenFault::Temporary { need });
    }
    let count = words_together(needs.procedures.as_slice());
    if MOST_WORDS < count {
        return Some(GenFault::Words { count });
    }
    None
}

/// A system that breaks no rule, checked.
fn checked<H: Heap>(heap: H, system: System) -> Result<Checked, Memory>
    requires form { KeepsForm system }
    requires rules { violations system ≡ [] }
    ensures known { IfOkUnless (H.may_refuse heap) result IsChecked }
    ensures kept { IfOk result (λ checked. checked.system ≡ system) }
{
    match check(heap, system) {
        Ok(checked) => Ok(checked),
        Err(CheckFault::Memory) => Err(Memory),
        Err(CheckFault::Violation { rule: _, place: _ }) => unreachable!(),
    }
}

/// The system of Piton of an accepted source, for stacks of these sizes, from this base on.
///
/// The system runs as the source means: where the meaning is done, the system, with the values' words at the bottom of its
/// first stack, first halts with the same, in the counted steps and at the counted cost. So it is at every moment: after each
/// step of the source's step machine the system has made the counted steps, and stands at the mark of what comes next with the
/// variables and the condition of that moment. Each procedure takes as many words of code as are counted for it.
///
/// The memory is in proportion to what is generated. So is the time, with factors that the form bounds: a name is sought
/// among those that are declared, a handler's table has at most an entry for each condition of its procedure, and a raise
/// asks the loops and the handlers round it.
///
/// It is for callers outside: the program calls `generate_with`.
///
/// # Errors
///
/// The first of these: a size that is not 1 to 65,536, a control stack or a temporary stack below main's own need, and
/// more than 1,048,576 words of code; or out of memory. No source of these sizes breaks a rule of Piton.
pub fn generate<H: Heap>(
    heap: H,
    accepted: &Accepted,
    needs: &Needs,
    ctrl: u32,
    temp: u32,
    base: u32,
) -> Result<Checked, GenFault>
    requires needs { AreNeeds (program_of (source_of accepted.now)) needs.now.procedures.items }
    requires small { AreSmall needs.now.procedures.items }
    requires base { base ≤ 2 ^ 31 }
    ensures value { let s = source_of accepted.now in
        GivesGeneratedUnless (H.may_refuse heap) (λ checked. checked.system) result
        (generation s (stack_sizes ctrl temp) base) }
    ensures runs { IfOk result (SystemImplements (source_of accepted.now) (stack_sizes ctrl temp) base) }
    ensures words { IfOk result (TakesCodeWords (source_of accepted.now)) }
{
    let program = resolve(heap, accepted)?;
    generate_with(heap, accepted, &program, needs, ctrl, temp, base)
}

/// The same, for callers that have the program of the source.
pub fn generate_with<H: Heap>(
    heap: H,
    accepted: &Accepted,
    program: &Program,
    needs: &Needs,
    ctrl: u32,
    temp: u32,
    base: u32,
) -> Result<Checked, GenFault>
    requires program { seen_program program.now ≡ program_of (source_of accepted.now) }
    requires accepted { IsAccepted (source_of accepted.now) }
    requires needs { AreNeeds (program_of (source_of accepted.now)) needs.now.procedures.items }
    requires small { AreSmall needs.now.procedures.items }
    requires base { base ≤ 2 ^ 31 }
    ensures value { let s = source_of accepted.now in
        GivesGeneratedUnless (H.may_refuse heap) (λ checked. checked.system) result
        (generation s (stack_sizes ctrl temp) base) }
    ensures runs { IfOk result (SystemImplements (source_of accepted.now) (stack_sizes ctrl temp) base) }
    ensures words { IfOk result (TakesCodeWords (source_of accepted.now)) }
{
    if let Some(fault) = size_fault(program, needs, ctrl, temp) {
        return Err(fault);
    }
    generated_is_acceptable();
    source_runs();
    moments_are_reached();
    procedures_take_words();
    let system = system(heap, accepted.source(), program, needs, ctrl, temp, base)?;
    let made = checked(heap, system)?;
    Ok(made)
}

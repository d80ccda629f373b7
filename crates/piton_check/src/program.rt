//! Programs.

ghost use Rattle.std.specs.{Prelude.{◌≡◌, ◌+◌, ◌-◌, ◌++◌, [], length, map, slice_get, IfOk, OnOk}, List.{flat_map}};
ghost use Rattle.stack_heap.specs.Heaps.{IfOkUnless};
ghost use Rattle.stack_text.specs.Breaches.{Notes};
ghost use Rattle.piton_check.specs.{Resolved.{resolved_program}, Declarations.{label_names, local_names, repeats}, Tables.{IsSmall, AreSmall, Knows}};
ghost use Rattle.piton_check.specs.{Tables.{KnowsSystem, KnowsProgram}, Violations.{is_end, end_breaches, program_breaches}};

use crate::argument::instructions;
use crate::names::{Names, Scope, declare_labels, declare_locals, label_keys, local_keys};
use crate::resolved::ResolvedProgram;
use crate::word::temporary_words;
use name_tables::NameTable;
use piton_syntax::{InstrText, PitonOp, Program};
use stack_heap::Heap;
use stack_text::{Breach, Memory, note_if};

/// Whether the instruction after it is not reached.
fn is_end(op: PitonOp) -> bool
    ensures { result ≡ is_end op }
{
    matches!(
        op,
        PitonOp::Ret | PitonOp::Jump | PitonOp::JumpCase | PitonOp::Popj
    )
}

/// Whether the last instruction is such a one.
fn check_end(best: &mut Option<Breach>, instrs: &[InstrText])
    ensures { Notes best.old (end_breaches (slice_get instrs.now (length instrs.now - 1))) best.new }
{
    if let Some(last) = instrs.last() {
        note_if(best, !is_end(last.op), last.place, 12);
    }
}

/// The table of a program's formals and temporaries.
fn locals<'a, H: Heap>(
    heap: H,
    best: &mut Option<Breach>,
    text: &'a Program,
) -> Result<NameTable<'a, u32>, Memory>
    requires { IsSmall text.now }
    ensures known { IfOkUnless (H.may_refuse heap) result (λ table. Knows table (local_names text.now)) }
    ensures noted { OnOk result (Notes best.old (repeats 5 [] (local_names text.now)) best.new) }
{
    let keys = local_keys(&text.formals, &text.temporaries);
    let mut table = NameTable::keyed(heap.handle(), keys);
    declare_locals(heap, best, &mut table, &text.formals, &text.temporaries)?;
    Ok(table)
}

/// The table of a program's labels.
fn labels<'a, H: Heap>(
    heap: H,
    best: &mut Option<Breach>,
    text: &'a Program,
) -> Result<NameTable<'a, u32>, Memory>
    requires { IsSmall text.now }
    ensures known { IfOkUnless (H.may_refuse heap) result (λ table. Knows table (label_names text.now)) }
    ensures noted { OnOk result (Notes best.old (repeats 6 [] (label_names text.now)) best.new) }
{
    let keys = label_keys(&text.instrs);
    let mut table = NameTable::keyed(heap.handle(), keys);
    declare_labels(heap, best, &mut table, &text.instrs)?;
    Ok(table)
}

/// The names that a program's instructions may use.
fn scope<'a, 'b, H: Heap>(
    heap: H,
    best: &mut Option<Breach>,
    names: &'b Names<'a>,
    text: &'a Program,
) -> Result<Scope<'a, 'b>, Memory>
    requires known { KnowsSystem names.now }
    requires small { IsSmall text.now }
    ensures of { IfOkUnless (H.may_refuse heap) result (λ scope. scope.program.now ≡ text.now) }
    ensures names { IfOk result (λ scope. scope.names.now ≡ names.now) }
    ensures known { IfOk result KnowsProgram }
    ensures noted { let breaches = repeats 5 [] (local_names text.now) ++ repeats 6 [] (label_names text.now) in
        OnOk result (Notes best.old breaches best.new) }
{
    let locals = locals(heap, best, text)?;
    let labels = labels(heap, best, text)?;
    Ok(Scope {
        names,
        program: text,
        locals,
        labels,
    })
}

/// A program.
fn program<'a, 'b, H: Heap>(
    heap: H,
    best: &mut Option<Breach>,
    names: &'b Names<'a>,
    text: &'a Program,
) -> Result<ResolvedProgram, Memory>
    requires known { KnowsSystem names.now }
    requires small { IsSmall text.now }
    ensures value { IfOkUnless (H.may_refuse heap) result
        (λ resolved. resolved ≡ resolved_program names.now.system.now text.now) }
    ensures noted { OnOk result (Notes best.old (program_breaches names.now.system.now text.now) best.new) }
{
    let scope = scope(heap, best, names, text)?;
    let temporaries = temporary_words(heap, best, names, &text.temporaries)?;
    let instrs = instructions(heap, best, &scope, &text.instrs)?;
    check_end(best, &text.instrs);
    Ok(ResolvedProgram {
        formals: text.formals.len() as u32,
        temporaries,
        instrs,
    })
}

/// Programs, one after the other.
pub(crate) fn programs<'a, 'b, H: Heap>(
    heap: H,
    best: &mut Option<Breach>,
    names: &'b Names<'a>,
    texts: &'a [Program],
) -> Result<Vec<ResolvedProgram>, Memory>
    requires known { KnowsSystem names.now }
    requires small { AreSmall texts.now }
    ensures value { IfOkUnless (H.may_refuse heap) result
        (λ programs. programs.items ≡ map (resolved_program names.now.system.now) texts.now) }
    ensures noted { OnOk result (Notes best.old (flat_map (program_breaches names.now.system.now) texts.now) best.new) }
{
    let mut programs = Vec::new(heap.handle());
    for text in texts {
        heap.push(&mut programs, program(heap, best, names, text)?)?;
    }
    Ok(programs)
}

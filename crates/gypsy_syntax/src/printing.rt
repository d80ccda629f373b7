//! The text of a source.

ghost use Rattle.std.specs.{Prelude.{◌≡◌, ◌++◌, ◌∷◌, map, IfOk}, List.{flat_map}};
ghost use Rattle.stack_heap.specs.Heaps.{IfOkUnless, OnOkUnless};
ghost use Rattle.stack_text.specs.{TreeText.{items_text, spaced_text}, Views.TreeView.{nodes}, Grammar.Printed.{lines_text}};
ghost use Rattle.gypsy_syntax.specs.{GypsyReading.{KeepsForm, ReadsAs}, Printed.{gypsy_text, proc_head, proc_rest, proc_text, source_head}};
ghost use Rattle.gypsy_syntax.specs.Views.SourceView.{proc_of, source_of};

mod declaration;
mod literals;
mod statements;

use crate::printing::declaration::{spaced_list, spaced_locals};
use crate::printing::statements::print_statement;
use crate::proc::{Proc, Source};
use stack_heap::Heap;
use stack_text::Memory;
use stack_text::grammar::print_name;

/// What a procedure takes.
fn print_head<H: Heap>(heap: H, out: &mut Vec<u8>, proc: &Proc) -> Result<(), Memory>
    ensures { OnOkUnless (H.may_refuse heap) result
        (out.new.items ≡ out.old.items ++ 40 ∷ items_text (nodes (proc_head (proc_of proc.now)))) }
{
    heap.extend_from_slice(out, b"(proc ")?;
    print_name(heap, out, &proc.name)?;
    spaced_list(heap, out, &proc.formals)?;
    spaced_list(heap, out, &proc.conds)
}

/// What is a procedure's own.
fn spaced_rest<H: Heap>(heap: H, out: &mut Vec<u8>, proc: &Proc) -> Result<(), Memory>
    ensures { OnOkUnless (H.may_refuse heap) result
        (out.new.items ≡ out.old.items ++ spaced_text (nodes (proc_rest (proc_of proc.now)))) }
{
    spaced_locals(heap, out, &proc.locals)?;
    spaced_list(heap, out, &proc.local_conds)?;
    heap.push(out, b' ')?;
    print_statement(heap, out, &proc.body)
}

/// Appends a procedure.
fn print_procedure<H: Heap>(heap: H, out: &mut Vec<u8>, proc: &Proc) -> Result<(), Memory>
    ensures { OnOkUnless (H.may_refuse heap) result (out.new.items ≡ out.old.items ++ proc_text (proc_of proc.now)) }
{
    print_head(heap, out, proc)?;
    spaced_rest(heap, out, proc)?;
    heap.push(out, b')')?;
    Ok(())
}

/// Each procedure on a line of its own.
fn print_procedures<H: Heap>(heap: H, out: &mut Vec<u8>, procs: &[Proc]) -> Result<(), Memory>
    ensures { OnOkUnless (H.may_refuse heap) result
        (out.new.items ≡ out.old.items ++ flat_map (λ p. 10 ∷ proc_text p) (map proc_of procs.now)) }
{
    for proc in procs {
        heap.push(out, b'\n')?;
        print_procedure(heap, out, proc)?;
    }
    Ok(())
}

/// Appends a source.
fn print_source<H: Heap>(heap: H, out: &mut Vec<u8>, source: &Source) -> Result<(), Memory>
    ensures { let text = lines_text proc_text (source_head (source_of source.now)) (source_of source.now).procs in
        OnOkUnless (H.may_refuse heap) result (out.new.items ≡ out.old.items ++ text) }
{
    heap.extend_from_slice(out, b"(program ")?;
    print_name(heap, out, &source.main)?;
    print_procedures(heap, out, &source.procs)?;
    heap.push(out, b')')?;
    Ok(())
}

/// The text of a source: a single space between the items of each list, but a line end before each procedure, and one
/// at the end.
///
/// It is read again as the same source but for places. So it asks for a source that keeps the form, as each does that
/// was read.
pub fn print_gypsy<H: Heap>(heap: H, source: &Source) -> Result<Vec<u8>, Memory>
    requires { KeepsForm (source_of source.now) }
    ensures exact { IfOkUnless (H.may_refuse heap) result (λ text. text.items ≡ gypsy_text (source_of source.now)) }
    ensures again { IfOk result (λ text. ReadsAs text.items (source_of source.now)) }
{
    let mut out = Vec::new(heap.handle());
    print_source(heap, &mut out, source)?;
    heap.push(&mut out, b'\n')?;
    Ok(out)
}

//! Types and declarations.

ghost use Rattle.std.specs.Prelude.{◌≡◌, ◌++◌, ◌∷◌, Some, map};
ghost use Rattle.stack_heap.specs.Heaps.{OnOkUnless};
ghost use Rattle.stack_text.specs.{TreeText.{tree_text}, Grammar.Printed.{list_tree}};
ghost use Rattle.gypsy_syntax.specs.{Printed.{local_tree, type_tree, type_tree_by}, Views.SourceView.{local_of}};

use crate::literal::{Decl, Local, TypeText};
use crate::printing::literals::print_literal;
use itoa::Buffer;
use stack_heap::Heap;
use stack_text::grammar::{Print, print_items, print_name};
use stack_text::{Memory, push_each};

/// Appends an array's type.
fn print_array<H: Heap>(
    heap: H,
    out: &mut Vec<u8>,
    shape: TypeText,
    length: i128,
) -> Result<(), Memory>
    ensures { OnOkUnless (H.may_refuse heap) result
        (out.new.items ≡ out.old.items ++ tree_text (type_tree_by shape.kind (Some length))) }
{
    let mut digits = Buffer::new();
    let kind = shape.kind.name().as_bytes();
    let length = digits.format(length).as_bytes();
    push_each(heap, out, &[b"(array ", kind, b" ", length, b")"])
}

/// Appends a type.
fn print_type<H: Heap>(heap: H, out: &mut Vec<u8>, shape: TypeText) -> Result<(), Memory>
    ensures { OnOkUnless (H.may_refuse heap) result (out.new.items ≡ out.old.items ++ tree_text (type_tree shape)) }
{
    match shape.length {
        None => {
            heap.extend_from_slice(out, shape.kind.name().as_bytes())?;
            Ok(())
        }
        Some(length) => print_array(heap, out, shape, length),
    }
}

/// Appends a name and a type.
fn print_declared<H: Heap>(heap: H, out: &mut Vec<u8>, decl: &Decl) -> Result<(), Memory>
    ensures { let text = decl.now.name.name ++ 32 ∷ tree_text (type_tree decl.now.shape) in
        OnOkUnless (H.may_refuse heap) result (out.new.items ≡ out.old.items ++ text) }
{
    print_name(heap, out, &decl.name)?;
    heap.push(out, b' ')?;
    print_type(heap, out, decl.shape)
}

impl Print for Decl {
    ghost use Rattle.gypsy_syntax.specs.Printed.{decl_tree};

    ghost tree = { decl_tree };

    fn print<H: Heap>(&self, heap: H, out: &mut Vec<u8>) -> Result<(), Memory> {
        heap.push(out, b'(')?;
        print_declared(heap, out, self)?;
        heap.push(out, b')')?;
        Ok(())
    }
}

impl Print for Local {
    ghost use Rattle.gypsy_syntax.specs.{Printed.{local_tree}, Views.SourceView.{local_of}};

    ghost tree = { λ local. local_tree (local_of local) };

    fn print<H: Heap>(&self, heap: H, out: &mut Vec<u8>) -> Result<(), Memory> {
        heap.push(out, b'(')?;
        print_declared(heap, out, &self.decl)?;
        heap.push(out, b' ')?;
        print_literal(heap, out, &self.value)?;
        heap.push(out, b')')?;
        Ok(())
    }
}

/// Appends a space and a list.
pub fn spaced_list<T: Print, H: Heap>(heap: H, out: &mut Vec<u8>, items: &[T]) -> Result<(), Memory>
    ensures { OnOkUnless (H.may_refuse heap) result
        (out.new.items ≡ out.old.items ++ 32 ∷ tree_text (list_tree T.tree items.now)) }
{
    heap.extend_from_slice(out, b" (")?;
    print_items(heap, out, items)?;
    heap.push(out, b')')?;
    Ok(())
}

/// Appends a space and the list of local variables.
pub fn spaced_locals<H: Heap>(heap: H, out: &mut Vec<u8>, locals: &[Local]) -> Result<(), Memory>
    ensures { let text = 32 ∷ tree_text (list_tree local_tree (map local_of locals.now)) in
        OnOkUnless (H.may_refuse heap) result (out.new.items ≡ out.old.items ++ text) }
{
    spaced_list(heap, out, locals)?;
    Ok(())
}

//! Types and declarations.

ghost use Rattle.std.specs.Prelude.{◌≡◌, Some, Ok};
ghost use Rattle.stack_text.specs.{Trees.{list}, Views.TreeView.{node_of, nodes_of}, Grammar.Judged.{◌⊛◌}, Grammar.Parts.{list_or}, Grammar.Reading.{Finds}};
ghost use Rattle.stack_text.specs.Grammar.Reading.{ReadsUnless};
ghost use Rattle.gypsy_syntax.specs.{Grammar.{array_type, decl_in, literal_in, local_in, named_in, type_in}, Made.{new_decl, new_local}};
ghost use Rattle.gypsy_syntax.specs.Views.SourceView.{local_of};

use crate::keyword::kind_named;
use crate::literal::{Decl, Local, TypeText};
use crate::reading::literals::literal;
use crate::reading::word::{is_array_word, kind_in, named, number};
use stack_heap::Heap;
use stack_text::grammar::{FormFault, Part, each_in, is_numeral_atom};
use stack_text::{Breach, Kind, TextTree};

/// M7 at a type.
fn no_type(place: u32) -> Breach
    ensures { result ≡ record { rule = 7; place = place } }
{
    Breach { rule: 7, place }
}

/// An array's type, of which the kind and the length are given.
fn array_type(place: u32, kind: Kind, length: &TextTree) -> Result<TypeText, Breach>
    ensures { Finds (λ shape. shape) result (array_type place (Some kind) (node_of length.now)) }
{
    if !is_numeral_atom(length) {
        return Err(no_type(place));
    }
    let length = number(length)?;
    Ok(TypeText {
        place,
        kind,
        length: Some(length),
    })
}

/// The type that the items of a list are.
fn array_at(place: u32, items: &[TextTree]) -> Result<TypeText, Breach>
    ensures { Finds (λ shape. shape) result (type_in (list place (nodes_of items.now))) }
{
    if items.len() != 3 {
        return Err(no_type(place));
    }
    let (word, kind, length) = (&items[0], &items[1], &items[2]);
    if !is_array_word(word) {
        return Err(no_type(place));
    }
    match kind_in(kind) {
        None => Err(no_type(place)),
        Some(kind) => array_type(place, kind, length),
    }
}

/// The type that a tree is: M7 where it is none, M11 where its length is out of the 128-bit range.
fn type_in(tree: &TextTree) -> Result<TypeText, Breach>
    ensures { Finds (λ shape. shape) result (type_in (node_of tree.now)) }
{
    match tree {
        TextTree::List { place, items } => array_at(*place, items),
        TextTree::Atom { place, text } => match kind_named(text) {
            None => Err(no_type(*place)),
            Some(kind) => Ok(TypeText {
                place: *place,
                kind,
                length: None,
            }),
        },
    }
}

/// M4 at a tree.
fn no_formal(place: u32) -> Breach
    ensures { result ≡ record { rule = 4; place = place } }
{
    Breach { rule: 4, place }
}

/// A declaration, of which the parts are given.
fn decl_parts<H: Heap>(heap: H, name: &TextTree, shape: &TextTree) -> Result<Decl, FormFault>
    ensures { ReadsUnless (H.may_refuse heap) (λ decl. decl) result
        (Ok new_decl ⊛ named_in (node_of name.now) ⊛ type_in (node_of shape.now)) }
{
    let name = named(heap, name)?;
    let shape = type_in(shape)?;
    Ok(Decl { name, shape })
}

/// The declaration that the items of a list are.
fn decl_at<H: Heap>(heap: H, place: u32, items: &[TextTree]) -> Result<Decl, FormFault>
    ensures { ReadsUnless (H.may_refuse heap) (λ decl. decl) result (decl_in (list place (nodes_of items.now))) }
{
    if items.len() != 2 {
        return Err(no_formal(place).into());
    }
    decl_parts(heap, &items[0], &items[1])
}

impl Part for Decl {
    ghost use Rattle.gypsy_syntax.specs.{Grammar.{decl_in}, declared.literal.Decl.{Decl as DeclText}};

    ghost Seen = { DeclText };

    ghost view = { λ decl. decl };

    ghost part_of = { decl_in };

    fn read<H: Heap>(heap: H, tree: &TextTree) -> Result<Decl, FormFault> {
        match tree {
            TextTree::Atom { place, text: _ } => Err(no_formal(*place).into()),
            TextTree::List { place, items } => decl_at(heap, *place, items),
        }
    }
}

/// The declarations that the items of a list are, or M4 where the tree is no list.
pub fn formals<H: Heap>(heap: H, tree: &TextTree) -> Result<Vec<Decl>, FormFault>
    ensures { ReadsUnless (H.may_refuse heap) (λ decls. decls.items) result (list_or 4 decl_in (node_of tree.now)) }
{
    each_in(heap, 4, tree)
}

/// M6 at a tree.
fn no_local(place: u32) -> Breach
    ensures { result ≡ record { rule = 6; place = place } }
{
    Breach { rule: 6, place }
}

/// A local variable, of which the parts are given.
fn local_parts<H: Heap>(
    heap: H,
    name: &TextTree,
    shape: &TextTree,
    value: &TextTree,
) -> Result<Local, FormFault>
    ensures { ReadsUnless (H.may_refuse heap) local_of result
        (Ok new_local ⊛ named_in (node_of name.now) ⊛ type_in (node_of shape.now) ⊛ literal_in (node_of value.now)) }
{
    let name = named(heap, name)?;
    let shape = type_in(shape)?;
    let value = literal(heap, value)?;
    Ok(Local {
        decl: Decl { name, shape },
        value,
    })
}

/// The local variable that the items of a list are.
fn local_at<H: Heap>(heap: H, place: u32, items: &[TextTree]) -> Result<Local, FormFault>
    ensures { ReadsUnless (H.may_refuse heap) local_of result (local_in (list place (nodes_of items.now))) }
{
    if items.len() != 3 {
        return Err(no_local(place).into());
    }
    local_parts(heap, &items[0], &items[1], &items[2])
}

impl Part for Local {
    ghost use Rattle.gypsy_syntax.specs.{Grammar.{local_in}, Sources.{LocalOf}, Views.SourceView.{local_of}};

    ghost Seen = { LocalOf };

    ghost view = { local_of };

    ghost part_of = { local_in };

    fn read<H: Heap>(heap: H, tree: &TextTree) -> Result<Local, FormFault> {
        match tree {
            TextTree::Atom { place, text: _ } => Err(no_local(*place).into()),
            TextTree::List { place, items } => local_at(heap, *place, items),
        }
    }
}

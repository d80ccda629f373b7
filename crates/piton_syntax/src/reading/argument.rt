//! The arguments of an operation.

ghost use Rattle.std.specs.{Prelude.{◌≡◌, IsTrue}, List.{list_all}};
ghost use Rattle.stack_text.specs.{Grammar.Judged.{each_of}, Grammar.Reading.{Finds, ReadsUnless}, Views.TreeView.{node_of, nodes_of}};
ghost use Rattle.piton_syntax.specs.Grammar.{are_of_kind, argument_of, arguments_of, is_of_kind, test_at};
ghost use Rattle.piton_syntax.specs.declared.argument.Arguments.TheVariants as row;

use crate::argument::{ArgKind, ArgText, Arguments};
use crate::reading::atom::{is_digits_atom, is_name_atom, name, number};
use crate::reading::word::word;
use crate::test_kind::{TestFamily, TestKind, test_named};
use stack_heap::Heap;
use stack_text::grammar::FormFault;
use stack_text::{Breach, TextTree};

/// P7 at an operation's list.
fn wrong_arguments(place: u32) -> Breach
    ensures { result ≡ record { rule = 7; place = place } }
{
    Breach { rule: 7, place }
}

/// Whether the tree is of the kind, where the kind is not that of words.
fn is_of_kind(kind: ArgKind, tree: &TextTree) -> bool
    ensures { result ≡ is_of_kind kind (node_of tree.now) }
{
    match kind {
        ArgKind::Word => true,
        ArgKind::Count => is_digits_atom(tree),
        ArgKind::Local | ArgKind::Area | ArgKind::Label | ArgKind::Program => is_name_atom(tree),
    }
}

/// Whether each tree is of the kind.
fn are_of_kind(kind: ArgKind, trees: &[TextTree]) -> bool
    ensures { result ≡ list_all (λ tree. is_of_kind kind (node_of tree)) trees.now }
{
    trees.iter().all(|tree| is_of_kind(kind, tree))
}

/// The argument of a kind that a tree is.
fn argument<H: Heap>(heap: H, kind: ArgKind, tree: &TextTree) -> Result<ArgText, FormFault>
    requires { IsTrue (is_of_kind kind (node_of tree.now)) }
    ensures { ReadsUnless (H.may_refuse heap) (λ argument. argument) result (argument_of kind (node_of tree.now)) }
{
    match kind {
        ArgKind::Word => Ok(ArgText::Word(word(heap, tree)?)),
        ArgKind::Count => Ok(ArgText::Number(number(tree)?)),
        ArgKind::Local | ArgKind::Area | ArgKind::Label | ArgKind::Program => {
            Ok(ArgText::Name(name(heap, tree)?))
        }
    }
}

/// The arguments of an operation that has none.
fn no_arguments<H: Heap>(heap: H, place: u32, trees: &[TextTree]) -> Result<Vec<ArgText>, Breach>
    ensures { Finds (λ args. args.items) result (arguments_of row.Zero place (nodes_of trees.now)) }
{
    if trees.is_empty() {
        Ok(Vec::new(heap.handle()))
    } else {
        Err(wrong_arguments(place))
    }
}

/// The arguments of an operation that has one.
fn one_argument<H: Heap>(
    heap: H,
    kind: ArgKind,
    place: u32,
    trees: &[TextTree],
) -> Result<Vec<ArgText>, FormFault>
    ensures { ReadsUnless (H.may_refuse heap) (λ args. args.items) result
        (arguments_of (row.One kind) place (nodes_of trees.now)) }
{
    if trees.len() != 1 {
        return Err(wrong_arguments(place).into());
    }
    let tree = &trees[0];
    if !is_of_kind(kind, tree) {
        return Err(wrong_arguments(place).into());
    }
    let only = argument(heap, kind, tree)?;
    let mut arguments = Vec::new(heap.handle());
    heap.push(&mut arguments, only)?;
    Ok(arguments)
}

/// The test of the family that a tree is, if it is the word of one.
fn test_at(family: TestFamily, tree: &TextTree) -> Option<TestKind>
    ensures { result ≡ test_at family (node_of tree.now) }
{
    match tree {
        TextTree::Atom { place: _, text } => test_named(family, text),
        TextTree::List { place: _, items: _ } => None,
    }
}

/// A test and a label, as arguments.
fn test_and_label<H: Heap>(
    heap: H,
    family: TestFamily,
    place: u32,
    trees: &[TextTree],
) -> Result<Vec<ArgText>, FormFault>
    ensures { ReadsUnless (H.may_refuse heap) (λ args. args.items) result
        (arguments_of (row.TestAndLabel family) place (nodes_of trees.now)) }
{
    if trees.len() != 2 {
        return Err(wrong_arguments(place).into());
    }
    let (test, label) = (&trees[0], &trees[1]);
    let Some(test) = test_at(family, test) else {
        return Err(wrong_arguments(place).into());
    };
    if !is_name_atom(label) {
        return Err(wrong_arguments(place).into());
    }
    let label = name(heap, label)?;
    let mut arguments = Vec::new(heap.handle());
    heap.push(&mut arguments, ArgText::Test(test))?;
    heap.push(&mut arguments, ArgText::Name(label))?;
    Ok(arguments)
}

/// The argument of a kind that each tree is.
fn each_argument<H: Heap>(
    heap: H,
    kind: ArgKind,
    trees: &[TextTree],
) -> Result<Vec<ArgText>, FormFault>
    requires { IsTrue (are_of_kind kind (nodes_of trees.now)) }
    ensures { ReadsUnless (H.may_refuse heap) (λ args. args.items) result
        (each_of (argument_of kind) (nodes_of trees.now)) }
{
    let mut arguments = Vec::new(heap.handle());
    for tree in trees {
        let argument = argument(heap, kind, tree)?;
        heap.push(&mut arguments, argument)?;
    }
    Ok(arguments)
}

/// The arguments of an operation that has one or more of a kind.
fn some_arguments<H: Heap>(
    heap: H,
    kind: ArgKind,
    place: u32,
    trees: &[TextTree],
) -> Result<Vec<ArgText>, FormFault>
    ensures { ReadsUnless (H.may_refuse heap) (λ args. args.items) result
        (arguments_of (row.OneOrMore kind) place (nodes_of trees.now)) }
{
    if trees.is_empty() {
        return Err(wrong_arguments(place).into());
    }
    if !are_of_kind(kind, trees) {
        return Err(wrong_arguments(place).into());
    }
    each_argument(heap, kind, trees)
}

/// The arguments that an operation takes, or P7 at the place of its list where there are others.
pub fn arguments<H: Heap>(
    heap: H,
    row: Arguments,
    place: u32,
    trees: &[TextTree],
) -> Result<Vec<ArgText>, FormFault>
    ensures { ReadsUnless (H.may_refuse heap) (λ args. args.items) result
        (arguments_of row place (nodes_of trees.now)) }
{
    match row {
        Arguments::Zero => Ok(no_arguments(heap, place, trees)?),
        Arguments::One(kind) => one_argument(heap, kind, place, trees),
        Arguments::TestAndLabel(family) => test_and_label(heap, family, place, trees),
        Arguments::OneOrMore(kind) => some_arguments(heap, kind, place, trees),
    }
}

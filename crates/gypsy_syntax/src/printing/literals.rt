//! Numbers, values and arguments.

ghost use Rattle.std.specs.{Prelude.{◌≡◌, ◌++◌}, Fmt.{signed_decimal}};
ghost use Rattle.stack_heap.specs.Heaps.{OnOkUnless};
ghost use Rattle.stack_text.specs.TreeText.{items_text, tree_text};
ghost use Rattle.gypsy_syntax.specs.{Printed.{literal_tree, literal_trees, truth_tree}, Views.SourceView.{items_of_list, literal_of}};

use crate::literal::Literal;
use crate::statement::Arg;
use itoa::Buffer;
use stack_heap::Heap;
use stack_text::Memory;
use stack_text::grammar::{Print, print_name, separate};

/// Appends a number in decimal digits, after a `-` where it is negative.
fn print_number<H: Heap>(heap: H, out: &mut Vec<u8>, number: i128) -> Result<(), Memory>
    ensures { OnOkUnless (H.may_refuse heap) result (out.new.items ≡ out.old.items ++ signed_decimal number) }
{
    let mut digits = Buffer::new();
    heap.extend_from_slice(out, digits.format(number).as_bytes())?;
    Ok(())
}

/// Appends a truth value.
fn print_truth<H: Heap>(heap: H, out: &mut Vec<u8>, truth: bool) -> Result<(), Memory>
    ensures { OnOkUnless (H.may_refuse heap) result (out.new.items ≡ out.old.items ++ tree_text (truth_tree truth)) }
{
    if truth {
        heap.extend_from_slice(out, b"true")?;
    } else {
        heap.extend_from_slice(out, b"false")?;
    }
    Ok(())
}

/// Appends the values with one space between.
#[cycle(literals)]
fn print_values<H: Heap>(heap: H, out: &mut Vec<u8>, items: &[Literal]) -> Result<(), Memory>
    ensures { OnOkUnless (H.may_refuse heap) result
        (out.new.items ≡ out.old.items ++ items_text (literal_trees (items_of_list items.now))) }
{
    for (index, item) in items.iter().enumerate() {
        separate(heap, out, index)?;
        print_literal(heap, out, item)?;
    }
    Ok(())
}

/// Appends a value.
#[cycle(literals)]
pub fn print_literal<H: Heap>(heap: H, out: &mut Vec<u8>, literal: &Literal) -> Result<(), Memory>
    ensures { OnOkUnless (H.may_refuse heap) result
        (out.new.items ≡ out.old.items ++ tree_text (literal_tree (literal_of literal.now))) }
{
    match literal {
        Literal::Integer { place: _, number } => print_number(heap, out, *number),
        Literal::Truth { place: _, truth } => print_truth(heap, out, *truth),
        Literal::Character { place: _, code } => {
            heap.push(out, b'#')?;
            print_number(heap, out, *code)
        }
        Literal::List { place: _, items } => {
            heap.push(out, b'(')?;
            print_values(heap, out, items.as_slice())?;
            heap.push(out, b')')?;
            Ok(())
        }
    }
}

impl Print for Arg {
    ghost use Rattle.gypsy_syntax.specs.{Printed.{arg_tree}, Views.SourceView.{arg_of}};

    ghost tree = { λ arg. arg_tree (arg_of arg) };

    fn print<H: Heap>(&self, heap: H, out: &mut Vec<u8>) -> Result<(), Memory> {
        match self {
            Arg::Variable(name) => print_name(heap, out, name),
            Arg::Constant(literal) => print_literal(heap, out, literal),
        }
    }
}

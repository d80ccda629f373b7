//! The quick code of predefined calls.

ghost use Rattle.std.specs.Prelude.{◌≡◌, ◌++◌, ◌<◌, map};
ghost use Rattle.stack_heap.specs.Heaps.{OnOkUnless};
ghost use Rattle.gypsy_syntax.specs.declared.predef.Predef.TheVariants as predef;
ghost use Rattle.gypsy_space.specs.Nodes.{seen_arg};
ghost use Rattle.quick_gypsy.specs.RowCode.{row_code};
ghost use Rattle.quick_generate.specs.{Rows.{compared_code, counted_code, joined_code, front_code}, Views.{frame_layout}};

use crate::argument::{number, reach, variable};
use crate::frame::Frame;
use crate::piece::{
    assign, by_literal, by_word, fetch, jump_when, load, put, store, store_literal, truth,
};
use crate::product::{FLAG_V, product};
use fm_code::word::{ALL_FLAGS, FLAG_C, FLAG_Z};
use fm_words::{Cc, Flags, Op};
use gypsy_space::Argument;
use gypsy_syntax::Predef;
use stack_heap::Heap;
use stack_text::Memory;

/// The truth of a comparison of two variables.
fn compared<H: Heap>(
    heap: H,
    words: &mut Vec<u32>,
    frame: &Frame,
    args: &[Argument],
    op: Op,
    set: Flags,
    cc: Cc,
) -> Result<(), Memory>
    ensures { let code = compared_code (frame_layout frame.now) (map seen_arg args.now) op set cc in
        OnOkUnless (H.may_refuse heap) result (words.new.items ≡ words.old.items ++ code) }
{
    load(heap, words, reach(frame, args, 2))?;
    by_word(heap, words, op, set, reach(frame, args, 1))?;
    truth(heap, words, cc, reach(frame, args, 0))?;
    Ok(())
}

/// Whether a variable is equal to a literal.
fn compared_constant<H: Heap>(
    heap: H,
    words: &mut Vec<u32>,
    frame: &Frame,
    args: &[Argument],
) -> Result<(), Memory>
    ensures { let code = row_code (frame_layout frame.now) 0 (map seen_arg args.now) predef.MgSimpleConstantEq in
        OnOkUnless (H.may_refuse heap) result (words.new.items ≡ words.old.items ++ code) }
{
    by_literal(heap, words, Op::Move, Flags::NONE, number(args, 2))?;
    by_word(heap, words, Op::Xor, FLAG_Z, reach(frame, args, 1))?;
    truth(heap, words, Cc::Zs, reach(frame, args, 0))?;
    Ok(())
}

/// A variable negated, or a jump to the target of routineerror.
fn negated<H: Heap>(
    heap: H,
    words: &mut Vec<u32>,
    frame: &Frame,
    args: &[Argument],
    target: u32,
) -> Result<(), Memory>
    ensures { let code = row_code (frame_layout frame.now) target (map seen_arg args.now) predef.MgIntegerUnaryMinus in
        OnOkUnless (H.may_refuse heap) result (words.new.items ≡ words.old.items ++ code) }
{
    by_word(heap, words, Op::Neg, FLAG_V, reach(frame, args, 1))?;
    jump_when(heap, words, Cc::Vs, target)?;
    store(heap, words, reach(frame, args, 0))?;
    Ok(())
}

/// The sum or the difference of two variables, or a jump to the target of routineerror.
fn counted<H: Heap>(
    heap: H,
    words: &mut Vec<u32>,
    frame: &Frame,
    args: &[Argument],
    op: Op,
    target: u32,
) -> Result<(), Memory>
    ensures { let code = counted_code (frame_layout frame.now) target (map seen_arg args.now) op in
        OnOkUnless (H.may_refuse heap) result (words.new.items ≡ words.old.items ++ code) }
{
    load(heap, words, reach(frame, args, 1))?;
    by_word(heap, words, op, FLAG_V, reach(frame, args, 2))?;
    jump_when(heap, words, Cc::Vs, target)?;
    store(heap, words, reach(frame, args, 0))?;
    Ok(())
}

/// The product of two variables, or a jump to the target of routineerror.
fn multiplied<H: Heap>(
    heap: H,
    words: &mut Vec<u32>,
    frame: &Frame,
    args: &[Argument],
    target: u32,
) -> Result<(), Memory>
    ensures { let code = row_code (frame_layout frame.now) target (map seen_arg args.now) predef.MgIntegerMultiply in
        OnOkUnless (H.may_refuse heap) result (words.new.items ≡ words.old.items ++ code) }
{
    product(heap, words, reach(frame, args, 1), reach(frame, args, 2))?;
    jump_when(heap, words, Cc::Vs, target)?;
    store(heap, words, reach(frame, args, 0))?;
    Ok(())
}

/// Two Boolean variables joined by an operation.
fn joined<H: Heap>(
    heap: H,
    words: &mut Vec<u32>,
    frame: &Frame,
    args: &[Argument],
    op: Op,
) -> Result<(), Memory>
    ensures { let code = joined_code (frame_layout frame.now) (map seen_arg args.now) op in
        OnOkUnless (H.may_refuse heap) result (words.new.items ≡ words.old.items ++ code) }
{
    load(heap, words, reach(frame, args, 1))?;
    by_word(heap, words, op, Flags::NONE, reach(frame, args, 2))?;
    store(heap, words, reach(frame, args, 0))?;
    Ok(())
}

/// The inverse of a Boolean variable.
fn inverted<H: Heap>(
    heap: H,
    words: &mut Vec<u32>,
    frame: &Frame,
    args: &[Argument],
) -> Result<(), Memory>
    ensures { let code = row_code (frame_layout frame.now) 0 (map seen_arg args.now) predef.MgBooleanNot in
        OnOkUnless (H.may_refuse heap) result (words.new.items ≡ words.old.items ++ code) }
{
    load(heap, words, reach(frame, args, 1))?;
    by_literal(heap, words, Op::Xor, Flags::NONE, 1)?;
    store(heap, words, reach(frame, args, 0))?;
    Ok(())
}

/// r3 the address of an item of an array, or a jump where its index is in none.
fn item<H: Heap>(
    heap: H,
    words: &mut Vec<u32>,
    frame: &Frame,
    args: &[Argument],
    array: usize,
    target: u32,
) -> Result<(), Memory>
    requires { array < 2 }
    ensures { let code = front_code (frame_layout frame.now) target (map seen_arg args.now) array in
        OnOkUnless (H.may_refuse heap) result (words.new.items ≡ words.old.items ++ code) }
{
    let named = variable(args, array);
    let last = frame.count(named).saturating_sub(1);
    by_literal(heap, words, Op::Move, Flags::NONE, last)?;
    by_word(heap, words, Op::Sub, FLAG_C, reach(frame, args, array + 1))?;
    jump_when(heap, words, Cc::Cs, target)?;
    by_literal(heap, words, Op::Add, Flags::NONE, frame.last_address(named))?;
    Ok(())
}

/// A variable from an item of an array.
fn item_read<H: Heap>(
    heap: H,
    words: &mut Vec<u32>,
    frame: &Frame,
    args: &[Argument],
    target: u32,
) -> Result<(), Memory>
    ensures { let code = row_code (frame_layout frame.now) target (map seen_arg args.now) predef.MgIndexArray in
        OnOkUnless (H.may_refuse heap) result (words.new.items ≡ words.old.items ++ code) }
{
    item(heap, words, frame, args, 1, target)?;
    fetch(heap, words, reach(frame, args, 0), 3)?;
    Ok(())
}

/// An item of an array from a variable.
fn item_stored<H: Heap>(
    heap: H,
    words: &mut Vec<u32>,
    frame: &Frame,
    args: &[Argument],
    target: u32,
) -> Result<(), Memory>
    ensures { let args = map seen_arg args.now in
        let code = row_code (frame_layout frame.now) target args predef.MgArrayElementAssignment in
        OnOkUnless (H.may_refuse heap) result (words.new.items ≡ words.old.items ++ code) }
{
    item(heap, words, frame, args, 0, target)?;
    put(heap, words, reach(frame, args, 2))?;
    Ok(())
}

/// A predefined call, where a failure jumps to the target.
pub(crate) fn row<H: Heap>(
    heap: H,
    words: &mut Vec<u32>,
    frame: &Frame,
    which: Predef,
    args: &[Argument],
    target: u32,
) -> Result<(), Memory>
    ensures { let code = row_code (frame_layout frame.now) target (map seen_arg args.now) which in
        OnOkUnless (H.may_refuse heap) result (words.new.items ≡ words.old.items ++ code) }
{
    match which {
        Predef::MgSimpleVariableAssignment => {
            assign(heap, words, reach(frame, args, 0), reach(frame, args, 1))
        }
        Predef::MgSimpleConstantAssignment => {
            store_literal(heap, words, reach(frame, args, 0), number(args, 1))
        }
        Predef::MgSimpleVariableEq => {
            compared(heap, words, frame, args, Op::Xor, FLAG_Z, Cc::Zs)
        }
        Predef::MgSimpleConstantEq => compared_constant(heap, words, frame, args),
        Predef::MgIntegerLe => compared(heap, words, frame, args, Op::Sub, ALL_FLAGS, Cc::Ge),
        Predef::MgIntegerUnaryMinus => negated(heap, words, frame, args, target),
        Predef::MgIntegerAdd => counted(heap, words, frame, args, Op::Add, target),
        Predef::MgIntegerSubtract => counted(heap, words, frame, args, Op::Sub, target),
        Predef::MgIntegerMultiply => multiplied(heap, words, frame, args, target),
        Predef::MgBooleanOr => joined(heap, words, frame, args, Op::Or),
        Predef::MgBooleanAnd => joined(heap, words, frame, args, Op::And),
        Predef::MgBooleanNot => inverted(heap, words, frame, args),
        Predef::MgIndexArray => item_read(heap, words, frame, args, target),
        Predef::MgArrayElementAssignment => item_stored(heap, words, frame, args, target),
    }
}

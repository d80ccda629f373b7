//! Instructions of a text, put one behind the other. All their places are 0.

ghost use Rattle.std.specs.Prelude.{◌≡◌, ◌++◌, [], ◌∷◌, None};
ghost use Rattle.stack_heap.specs.Heaps.{IfOkUnless, OnOkUnless};
ghost use Rattle.stack_text.specs.Grammar.Printed.{unplaced};
ghost use Rattle.piton_syntax.specs.declared.argument.ArgText.TheVariants as arg;
ghost use Rattle.gypsy_predef.specs.Texts.{condition_area, constant, instruction, number};

use piton_syntax::{ArgText, InstrText, Number, PitonOp, TestKind, WordItem, WordText};
use stack_heap::Heap;
use stack_text::{Memory, Named};

/// A number.
pub fn number(value: i128) -> Number
    ensures { result ≡ number value }
{
    Number {
        place: 0,
        number: value,
    }
}

/// One more instruction.
#[inline(always)]
pub fn put<H: Heap>(
    heap: H,
    instrs: &mut Vec<InstrText>,
    label: Option<Named>,
    op: PitonOp,
    args: Vec<ArgText>,
) -> Result<(), Memory>
    ensures { OnOkUnless (H.may_refuse heap) result
        (instrs.new.items ≡ instrs.old.items ++ instruction label op args.items ∷ []) }
{
    let instr = InstrText {
        place: 0,
        label,
        op,
        args,
    };
    heap.push(instrs, instr)?;
    Ok(())
}

/// An instruction without arguments.
pub fn plain<H: Heap>(
    heap: H,
    instrs: &mut Vec<InstrText>,
    label: Option<Named>,
    op: PitonOp,
) -> Result<(), Memory>
    ensures { OnOkUnless (H.may_refuse heap) result
        (instrs.new.items ≡ instrs.old.items ++ instruction label op [] ∷ []) }
{
    put(heap, instrs, label, op, Vec::new(heap.handle()))
}

/// An instruction of a name.
#[inline(always)]
pub fn of_name<H: Heap>(
    heap: H,
    instrs: &mut Vec<InstrText>,
    op: PitonOp,
    name: Named,
) -> Result<(), Memory>
    ensures { OnOkUnless (H.may_refuse heap) result
        (instrs.new.items ≡ instrs.old.items ++ instruction None op (arg.Name name ∷ []) ∷ []) }
{
    let mut args = heap.with_room(1)?;
    heap.push(&mut args, ArgText::Name(name))?;
    put(heap, instrs, None, op, args)
}

/// A `push-constant`.
#[inline(always)]
pub fn constant<H: Heap>(
    heap: H,
    instrs: &mut Vec<InstrText>,
    label: Option<Named>,
    item: WordItem,
) -> Result<(), Memory>
    ensures { OnOkUnless (H.may_refuse heap) result (instrs.new.items ≡ instrs.old.items ++ constant label item ∷ []) }
{
    let mut args = heap.with_room(1)?;
    heap.push(&mut args, ArgText::Word(WordText { place: 0, item }))?;
    put(heap, instrs, label, PitonOp::PushConstant, args)
}

/// A test, and the jump to a label.
#[inline(always)]
pub fn test<H: Heap>(
    heap: H,
    instrs: &mut Vec<InstrText>,
    op: PitonOp,
    kind: TestKind,
    to: Named,
) -> Result<(), Memory>
    ensures { let args = arg.Test kind ∷ arg.Name to ∷ [] in
        OnOkUnless (H.may_refuse heap) result (instrs.new.items ≡ instrs.old.items ++ instruction None op args ∷ []) }
{
    let mut args = heap.with_room(2)?;
    heap.push(&mut args, ArgText::Test(kind))?;
    heap.push(&mut args, ArgText::Name(to))?;
    put(heap, instrs, None, op, args)
}

/// The name of the area that holds the current condition.
pub fn condition_area<H: Heap>(heap: H) -> Result<Named, Memory>
    ensures { IfOkUnless (H.may_refuse heap) result (λ name. name ≡ unplaced condition_area) }
{
    Named::unplaced(heap, b"c-c".as_slice())
}

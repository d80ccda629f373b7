//! Instructions, put one behind the other.

ghost use Rattle.std.specs.Prelude.{◌≡◌, ◌++◌, [], ◌∷◌, pos, None, option_map};
ghost use Rattle.stack_heap.specs.Heaps.{IfOkUnless, OnOkUnless};
ghost use Rattle.piton_syntax.specs.declared.argument.ArgText.TheVariants as arg;
ghost use Rattle.piton_syntax.specs.declared.op.PitonOp.TheVariants as op;
ghost use Rattle.gypsy_predef.specs.Texts.{instruction, constant, of_name, condition_area, number};
ghost use Rattle.gypsy_codegen.specs.{Internal.Views.{labelled}, Written.{label_name, label_arg}};

use crate::lines::label_named;
use gypsy_predef::instruction_text;
use gypsy_predef::instruction_text::{condition_area, number};
use piton_syntax::{ArgText, InstrText, PitonOp, TestKind, WordItem, WordText};
use stack_heap::{Heap, MODEST_COUNT};
use stack_text::{Memory, Named};
use std::marker::Model;

/// The instructions of a procedure so far. Contracts see the list of them.
///
/// A label that a method is given stands in front of the new instruction.
#[derive(Drop)]
pub(crate) struct Emitter {
    instrs: Vec<InstrText>,
}

impl Model for Emitter {
    ghost use Rattle.std.specs.Prelude.{List};
    ghost use Rattle.piton_syntax.specs.Systems.{InstrOf};

    ghost Value = { List InstrOf };

    ghost view = { λ emitter. emitter.instrs.items };
}

impl Emitter {
    /// Without instructions yet, and with room for so many, or for `MODEST_COUNT` if that is less.
    pub(crate) fn with_capacity<H: Heap>(heap: H, capacity: usize) -> Result<Self, Memory>
        ensures { IfOkUnless (H.may_refuse heap) result (λ emitter. emitter ≡ []) }
    {
        let instrs = heap.with_room(capacity.min(MODEST_COUNT))?;
        Ok(Emitter { instrs })
    }

    /// The instructions.
    pub(crate) fn into_instrs(self) -> Vec<InstrText>
        ensures { result.items ≡ self }
    {
        self.instrs
    }

    /// One more instruction.
    #[inline(always)]
    pub(crate) fn put<H: Heap>(
        &mut self,
        heap: H,
        label: Option<u32>,
        op: PitonOp,
        args: Vec<ArgText>,
    ) -> Result<(), Memory>
        ensures { OnOkUnless (H.may_refuse heap) result (self.new ≡ self.old ++ labelled label op args.items ∷ []) }
    {
        let label = match label {
            Some(label) => Some(label_named(heap, label)?),
            None => None,
        };
        instruction_text::put(heap, &mut self.instrs, label, op, args)
    }

    /// An instruction without arguments.
    pub(crate) fn plain<H: Heap>(
        &mut self,
        heap: H,
        label: Option<u32>,
        op: PitonOp,
    ) -> Result<(), Memory>
        ensures { OnOkUnless (H.may_refuse heap) result (self.new ≡ self.old ++ labelled label op [] ∷ []) }
    {
        self.put(heap, label, op, Vec::new(heap.handle()))
    }

    /// An instruction of a number of words.
    pub(crate) fn of_number<H: Heap>(
        &mut self,
        heap: H,
        op: PitonOp,
        count: u64,
    ) -> Result<(), Memory>
        ensures { let args = arg.Number (number (pos count)) ∷ [] in
            OnOkUnless (H.may_refuse heap) result (self.new ≡ self.old ++ instruction None op args ∷ []) }
    {
        let mut args = heap.with_room(1)?;
        heap.push(&mut args, ArgText::Number(number(count as i128)))?;
        self.put(heap, None, op, args)
    }

    /// An instruction of a name.
    #[inline(always)]
    pub(crate) fn of_name<H: Heap>(
        &mut self,
        heap: H,
        op: PitonOp,
        name: Named,
    ) -> Result<(), Memory>
        ensures { OnOkUnless (H.may_refuse heap) result
            (self.new ≡ self.old ++ instruction None op (arg.Name name ∷ []) ∷ []) }
    {
        instruction_text::of_name(heap, &mut self.instrs, op, name)
    }

    /// A `push-constant`.
    #[inline(always)]
    pub(crate) fn constant<H: Heap>(
        &mut self,
        heap: H,
        label: Option<u32>,
        item: WordItem,
    ) -> Result<(), Memory>
        ensures { OnOkUnless (H.may_refuse heap) result
            (self.new ≡ self.old ++ constant (option_map label_name label) item ∷ []) }
    {
        let mut args = heap.with_room(1)?;
        heap.push(&mut args, ArgText::Word(WordText { place: 0, item }))?;
        self.put(heap, label, PitonOp::PushConstant, args)
    }

    /// A jump.
    pub(crate) fn jump<H: Heap>(&mut self, heap: H, to: u32) -> Result<(), Memory>
        ensures { OnOkUnless (H.may_refuse heap) result
            (self.new ≡ self.old ++ instruction None op.Jump (label_arg to ∷ []) ∷ []) }
    {
        let name = label_named(heap, to)?;
        self.of_name(heap, PitonOp::Jump, name)
    }

    /// An instruction of the area that holds the condition.
    pub(crate) fn area<H: Heap>(&mut self, heap: H, op: PitonOp) -> Result<(), Memory>
        ensures { OnOkUnless (H.may_refuse heap) result (self.new ≡ self.old ++ of_name op condition_area ∷ []) }
    {
        let name = condition_area(heap)?;
        self.of_name(heap, op, name)
    }

    /// A test, and the jump to a label.
    pub(crate) fn test<H: Heap>(
        &mut self,
        heap: H,
        op: PitonOp,
        kind: TestKind,
        to: u32,
    ) -> Result<(), Memory>
        ensures { let args = arg.Test kind ∷ label_arg to ∷ [] in
            OnOkUnless (H.may_refuse heap) result (self.new ≡ self.old ++ instruction None op args ∷ []) }
    {
        let name = label_named(heap, to)?;
        instruction_text::test(heap, &mut self.instrs, op, kind, name)
    }
}

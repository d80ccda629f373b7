//! What predefined calls do.

ghost use Rattle.std.specs.Prelude.{◌≡◌, ◌<◌, ◌*ℤ◌, ◌∷◌, [], IsTrue, MatchOption, length, slice_set};
ghost use Rattle.stack_heap.specs.Heaps.{IfOkUnless};
ghost use Rattle.stack_text.specs.Values.{is_item};
ghost use Rattle.gypsy_syntax.specs.{Programs.{simple}, Effects.{item_of_value, is_true_value, value_at, number_effect, truth_value, indexed, stored}};
ghost use Rattle.gypsy_syntax.specs.Effects.{no_value};
ghost use Rattle.gypsy_syntax.specs.Effects as effect;
ghost use Rattle.gypsy_space.specs.Nodes.{held_values};
ghost use Rattle.gypsy_meaning.specs.Internal.PredefinedEffects.{Suits, effect_of, argument_at, applied_effect};

use crate::turn::item_of;
use gypsy_space::Argument;
use gypsy_syntax::Predef;
use stack_heap::Heap;
use stack_text::{Kind, Memory, Name, Shape, Value};

/// The value that a predefined call writes, or how it fails.
#[derive(Drop)]
pub enum OwnedEffect {
    /// The value that the variable takes.
    Normal(Value),
    /// A number that doesn't fit 32 signed bits, or a negative index.
    Fault,
    /// An index that isn't below the array's length.
    Beyond,
}

/// The value of a variable, where there is one.
fn variable_at(variables: &[(Name, Value)], variable: u32) -> Option<&Value>
    ensures { let value = value_at (held_values variables.now) variable in
        MatchOption result (value ≡ no_value) (λ v. v.now ≡ value) }
{
    match variables.get(variable as usize) {
        Some((_, value)) => Some(value),
        None => None,
    }
}

/// The value of an argument, where there is one.
fn lent<'a>(variables: &'a [(Name, Value)], args: &'a [Argument], index: usize) -> Option<&'a Value>
    ensures { let value = argument_at (held_values variables.now) args.now index in
        MatchOption result (value ≡ no_value) (λ v. v.now ≡ value) }
{
    match args.get(index) {
        Some(Argument::Variable(variable)) => variable_at(variables, *variable),
        Some(Argument::Constant(value)) => Some(value),
        None => None,
    }
}

/// The item of a variable.
pub fn item_in(variables: &[(Name, Value)], variable: u32) -> i32
    ensures { result ≡ item_of_value (value_at (held_values variables.now) variable) }
{
    match variable_at(variables, variable) {
        Some(value) => item_of(value),
        None => 0,
    }
}

/// The item of an argument.
fn item_at(variables: &[(Name, Value)], args: &[Argument], index: usize) -> i32
    ensures { result ≡ item_of_value (argument_at (held_values variables.now) args.now index) }
{
    match lent(variables, args, index) {
        Some(value) => item_of(value),
        None => 0,
    }
}

/// Whether an argument is a Boolean that is true.
fn truth_at(variables: &[(Name, Value)], args: &[Argument], index: usize) -> bool
    ensures { result ≡ is_true_value (argument_at (held_values variables.now) args.now index) }
{
    item_at(variables, args, index) == 1
}

/// A value of a simple kind with this item, which is of the kind.
pub fn simple_value<H: Heap>(heap: H, kind: Kind, item: i32) -> Result<Value, Memory>
    requires { IsTrue (is_item kind item) }
    ensures { IfOkUnless (H.may_refuse heap) result (λ v. v ≡ record { shape = simple kind; items = item ∷ [] }) }
{
    let items = heap.copied(&[item])?;
    match Value::new(Shape { kind, length: 0 }, items) {
        Some(value) => Ok(value),
        None => unreachable!(),
    }
}

/// A copy of an argument's value.
fn argument<H: Heap>(
    heap: H,
    variables: &[(Name, Value)],
    args: &[Argument],
    index: usize,
) -> Result<Value, Memory>
    ensures { IfOkUnless (H.may_refuse heap) result (λ v. v ≡ argument_at (held_values variables.now) args.now index) }
{
    match lent(variables, args, index) {
        Some(value) => value.copied(heap),
        None => simple_value(heap, Kind::Integer, 0),
    }
}

/// A number, where 32 signed bits have it.
fn number<H: Heap>(heap: H, number: i64) -> Result<OwnedEffect, Memory>
    ensures { IfOkUnless (H.may_refuse heap) result (λ e. effect_of e ≡ number_effect number) }
{
    if -2_147_483_648 <= number && number <= 2_147_483_647 {
        Ok(OwnedEffect::Normal(simple_value(heap, Kind::Integer, number as i32)?))
    } else {
        Ok(OwnedEffect::Fault)
    }
}

/// The product of two integers.
fn product(left: i32, right: i32) -> i64
    ensures { result ≡ left *ℤ right }
{
    left as i64 * right as i64
}

fn truth<H: Heap>(heap: H, truth: bool) -> Result<OwnedEffect, Memory>
    ensures { IfOkUnless (H.may_refuse heap) result (λ e. effect_of e ≡ effect.Normal (truth_value truth)) }
{
    if truth {
        Ok(OwnedEffect::Normal(simple_value(heap, Kind::Boolean, 1)?))
    } else {
        Ok(OwnedEffect::Normal(simple_value(heap, Kind::Boolean, 0)?))
    }
}

/// The item at an index.
fn indexed<H: Heap>(heap: H, array: &Value, index: i32) -> Result<OwnedEffect, Memory>
    ensures { IfOkUnless (H.may_refuse heap) result (λ e. effect_of e ≡ indexed array.now index) }
{
    if index < 0 {
        return Ok(OwnedEffect::Fault);
    }
    match array.items.get(index as usize) {
        Some(item) => Ok(OwnedEffect::Normal(simple_value(heap, array.shape.kind, *item)?)),
        None => Ok(OwnedEffect::Beyond),
    }
}

/// Writes an item.
fn set_item(items: &mut Vec<i32>, place: usize, item: i32)
    requires { place < length items.old.items }
    ensures { items.new.items ≡ slice_set items.old.items place item }
{
    items[place] = item;
}

/// A copy of an array with another item at a place.
fn with_item<H: Heap>(heap: H, array: &Value, place: usize, item: i32) -> Result<Value, Memory>
    requires place { place < length array.now.items }
    requires item { IsTrue (is_item array.now.shape.kind item) }
    ensures { IfOkUnless (H.may_refuse heap) result
        (λ v. v ≡ record { shape = array.now.shape; items = slice_set array.now.items place item }) }
{
    let mut items = heap.copied(array.items.as_slice())?;
    set_item(&mut items, place, item);
    match Value::new(array.shape, items) {
        Some(value) => Ok(value),
        None => unreachable!(),
    }
}

/// The array with another item at an index.
fn stored<H: Heap>(heap: H, array: &Value, index: i32, item: i32) -> Result<OwnedEffect, Memory>
    requires { IsTrue (is_item array.now.shape.kind item) }
    ensures { IfOkUnless (H.may_refuse heap) result (λ e. effect_of e ≡ stored array.now index item) }
{
    if index < 0 {
        return Ok(OwnedEffect::Fault);
    }
    let place = index as usize;
    if place >= array.items.len() {
        return Ok(OwnedEffect::Beyond);
    }
    Ok(OwnedEffect::Normal(with_item(heap, array, place, item)?))
}

/// The item of an array argument.
fn index_array<H: Heap>(
    heap: H,
    variables: &[(Name, Value)],
    args: &[Argument],
) -> Result<OwnedEffect, Memory>
    ensures { let value = argument_at (held_values variables.now) args.now in
        IfOkUnless (H.may_refuse heap) result (λ e. effect_of e ≡ indexed (value 1) (item_of_value (value 2))) }
{
    let index = item_at(variables, args, 2);
    match lent(variables, args, 1) {
        Some(array) => indexed(heap, array, index),
        None => indexed(heap, &simple_value(heap, Kind::Integer, 0)?, index),
    }
}

/// An array argument with another item.
fn store_in_array<H: Heap>(
    heap: H,
    variables: &[(Name, Value)],
    args: &[Argument],
) -> Result<OwnedEffect, Memory>
    requires { let value = argument_at (held_values variables.now) args.now in
        IsTrue (is_item (value 0).shape.kind (item_of_value (value 2))) }
    ensures { let value = argument_at (held_values variables.now) args.now in
        IfOkUnless (H.may_refuse heap) result
        (λ e. effect_of e ≡ stored (value 0) (item_of_value (value 1)) (item_of_value (value 2))) }
{
    let index = item_at(variables, args, 1);
    let item = item_at(variables, args, 2);
    match lent(variables, args, 0) {
        Some(array) => stored(heap, array, index, item),
        None => stored(heap, &simple_value(heap, Kind::Integer, 0)?, index, item),
    }
}

/// What a predefined call does.
#[tactic(auto, unfolding(crate::specs::Internal::PredefinedEffects::applied_effect, gypsy_syntax::specs::Predefined::effect_by, crate::specs::Internal::PredefinedEffects::Suits))]
pub fn apply<H: Heap>(
    heap: H,
    which: Predef,
    variables: &[(Name, Value)],
    args: &[Argument],
) -> Result<OwnedEffect, Memory>
    requires { Suits which (held_values variables.now) args.now }
    ensures { IfOkUnless (H.may_refuse heap) result
        (λ e. effect_of e ≡ applied_effect which (held_values variables.now) args.now) }
{
    match which {
        Predef::MgSimpleVariableAssignment | Predef::MgSimpleConstantAssignment => {
            Ok(OwnedEffect::Normal(argument(heap, variables, args, 1)?))
        }
        Predef::MgSimpleVariableEq | Predef::MgSimpleConstantEq => truth(
            heap,
            item_at(variables, args, 1) == item_at(variables, args, 2),
        ),
        Predef::MgIntegerLe => truth(
            heap,
            item_at(variables, args, 1) <= item_at(variables, args, 2),
        ),
        Predef::MgIntegerUnaryMinus => number(heap, -(item_at(variables, args, 1) as i64)),
        Predef::MgIntegerAdd => number(
            heap,
            item_at(variables, args, 1) as i64 + item_at(variables, args, 2) as i64,
        ),
        Predef::MgIntegerSubtract => number(
            heap,
            item_at(variables, args, 1) as i64 - item_at(variables, args, 2) as i64,
        ),
        Predef::MgBooleanOr => truth(
            heap,
            truth_at(variables, args, 1) | truth_at(variables, args, 2),
        ),
        Predef::MgBooleanAnd => truth(
            heap,
            truth_at(variables, args, 1) & truth_at(variables, args, 2),
        ),
        Predef::MgBooleanNot => truth(heap, !truth_at(variables, args, 1)),
        Predef::MgIndexArray => index_array(heap, variables, args),
        Predef::MgArrayElementAssignment => store_in_array(heap, variables, args),
        Predef::MgIntegerMultiply => number(
            heap,
            product(item_at(variables, args, 1), item_at(variables, args, 2)),
        ),
    }
}

//! Values of a shape.

ghost use Rattle.std.specs.{Prelude.{◌≡◌, IsTrue, IfSome, ◌↔◌, IsSome, length}, List.{list_all}};
ghost use Rattle.stack_heap.specs.Heaps.{IfOkUnless, FitsBound};
ghost use Rattle.stack_text.specs.Values.{is_item, is_value, ValueOf};

use crate::Memory;
use crate::shape::{Kind, Shape};
use stack_heap::BoundedHeap;
use std::alloc::AllocError;
use std::marker::Model;

/// A value: a single item where the shape is simple, and an item for each place of an array, all of the shape's kind.
///
/// Contracts see it as the record of its shape and the list of its items.
#[derive(Debug, Drop)]
pub struct Value {
    /// The kind of its items, and how many there are.
    pub shape: Shape,
    /// Its items, from place 0 of an array on, each in the range of the kind.
    pub items: Vec<i32>,
}

impl Model for Value {
    ghost use Rattle.std.specs.Prelude.{IsTrue};
    ghost use Rattle.stack_text.specs.Values.{is_value, ValueOf};

    ghost Value = { ValueOf };

    ghost view = { λ v. record { shape = v.shape; items = v.items.items } };

    ghost invariant = { λ v. IsTrue (is_value v.shape v.items.items) };
}

/// Whether each is an item of the kind.
fn are_items(kind: Kind, items: &[i32]) -> bool
    ensures { result ≡ list_all (λ item. is_item kind item) items.now }
{
    items.iter().all(|item| kind.has(*item))
}

/// Whether a value of the shape may have these items.
fn is_value(shape: Shape, items: &[i32]) -> bool
    ensures { result ≡ is_value shape items.now }
{
    items.len() == shape.item_count() && are_items(shape.kind, items)
}

impl Value {
    /// The value of a shape with these items: `None` exactly where their number or one of them is not the shape's.
    pub fn new(shape: Shape, items: Vec<i32>) -> Option<Value>
        ensures when { IsSome result ↔ IsTrue (is_value shape items.items) }
        ensures same { IfSome result (λ v. v ≡ record { shape = shape; items = items.items }) }
    {
        if is_value(shape, items.as_slice()) {
            Some(Value { shape, items })
        } else {
            None
        }
    }
}

impl Value {
    /// The same value again.
    pub fn copied<H: BoundedHeap>(&self, heap: H) -> Result<Value, Memory>
        requires { FitsBound (H.bound heap) (length self.now.items) }
        ensures { IfOkUnless (H.may_refuse heap) result (λ value. value ≡ self.now) }
    {
        let items = heap.copied(self.items.as_slice())?;
        Ok(Value {
            shape: self.shape,
            items,
        })
    }
}

impl Clone for Value {
    ghost is_clone = { λ old new. new ≡ old };

    fn clone(&self) -> Result<Value, AllocError> {
        let items = Vec::from_slice(*self.items.allocator(), self.items.as_slice())?;
        Ok(Value {
            shape: self.shape,
            items,
        })
    }
}

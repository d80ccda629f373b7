//! Main's variables, at the end of a window.

ghost use Rattle.std.specs.Prelude.{◌≡◌, ◌++◌, ◌^◌, ◌<◌, ◌≤◌, length, map};
ghost use Rattle.stack_heap.specs.Heaps.{IfOkUnless, OnOkUnless};
ghost use Rattle.gypsy_syntax.specs.Programs.{shapes_of, words_of};
ghost use Rattle.gypsy_space.specs.Nodes.{held_shapes, held_values, seen_proc};

use gypsy_space::Procedure;
use stack_heap::Heap;
use stack_text::{Memory, Name, Shape, Value};

/// The shapes of formals.
fn formal_shapes<H: Heap>(
    heap: H,
    shapes: &mut Vec<Shape>,
    formals: &[(Name, Shape)],
) -> Result<(), Memory>
    ensures { OnOkUnless (H.may_refuse heap) result (shapes.new.items ≡ shapes.old.items ++ held_shapes formals.now) }
{
    for (_, shape) in formals {
        heap.push(shapes, *shape)?;
    }
    Ok(())
}

/// The shapes of locals.
fn local_shapes<H: Heap>(
    heap: H,
    shapes: &mut Vec<Shape>,
    locals: &[(Name, Value)],
) -> Result<(), Memory>
    ensures { OnOkUnless (H.may_refuse heap) result
        (shapes.new.items ≡ shapes.old.items ++ map (λ v. v.shape) (held_values locals.now)) }
{
    for (_, value) in locals {
        heap.push(shapes, value.shape)?;
    }
    Ok(())
}

/// The shapes of the variables of a procedure.
pub(crate) fn shapes<H: Heap>(heap: H, procedure: &Procedure) -> Result<Vec<Shape>, Memory>
    ensures { IfOkUnless (H.may_refuse heap) result (λ shapes. shapes.items ≡ shapes_of (seen_proc procedure.now)) }
{
    let mut shapes = Vec::new(heap.handle());
    formal_shapes(heap, &mut shapes, procedure.formals.as_slice())?;
    local_shapes(heap, &mut shapes, procedure.locals.as_slice())?;
    Ok(shapes)
}

/// The words that variables of these shapes take.
pub(crate) fn words_of(shapes: &[Shape]) -> u32
    requires { words_of shapes.now < 2 ^ 32 }
    ensures { result ≡ words_of shapes.now }
{
    let mut words = 0;
    for shape in shapes {
        words += shape.item_count() as u32;
    }
    words
}

/// The variables at the end of a window, of which registers hold the addresses of the chosen ones.
#[derive(Drop)]
pub(crate) struct Frame {
    pub end: u32,
    pub shapes: Vec<Shape>,
    pub chosen: Vec<u32>,
    ghost room: { words_of shapes.items < end },
    ghost fits: { end < 2 ^ 32 },
    ghost ten: { length chosen.items ≤ 10 },
}

impl Frame {
    /// Variables of these shapes that end a window.
    pub(crate) fn new(end: u32, shapes: Vec<Shape>, chosen: Vec<u32>) -> Frame
        requires room { words_of shapes.items < end }
        requires ten { length chosen.items ≤ 10 }
        ensures end { result.end ≡ end }
        ensures shapes { result.shapes.items ≡ shapes.items }
        ensures chosen { result.chosen.items ≡ chosen.items }
    {
        Frame {
            end,
            shapes,
            chosen,
        }
    }

    /// The same variables at another end.
    pub(crate) fn moved(self, end: u32) -> Frame
        requires { words_of self.shapes.items < end }
        ensures end { result.end ≡ end }
        ensures shapes { result.shapes.items ≡ self.shapes.items }
        ensures chosen { result.chosen.items ≡ self.chosen.items }
    {
        let Frame {
            end: _,
            shapes,
            chosen,
        } = self;
        Frame::new(end, shapes, chosen)
    }
}

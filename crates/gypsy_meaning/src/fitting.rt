//! Whether values and sizes suit the start of a run.

ghost use Rattle.std.specs.{Prelude.{◌≡◌}, List.{list_all}};
ghost use Rattle.gypsy_syntax.specs.{ProgramFits.{ProgramFits}, Ranges.{is_in_range}};
ghost use Rattle.gypsy_space.specs.{Events.{AreNeeds, AreSmall}, Needs.{main_need, stack_sizes}, Nodes.{held_shapes, seen_program}};
ghost use Rattle.gypsy_semantics.specs.Views.Fitting.{are_as_many, are_values, can_start, is_value_of, same_shape, suffice};

use gypsy_semantics::{control_need, main_formals, temporary_need};
use gypsy_space::{Needs, Program};
use stack_text::{Kind, MOST_ARRAY, Name, Shape, Value};

/// Whether an item is one of the kind.
fn is_in_range(kind: Kind, item: i32) -> bool
    ensures { result ≡ is_in_range kind item }
{
    match kind {
        Kind::Integer => true,
        Kind::Boolean => item == 0 || item == 1,
        Kind::Character => 0 <= item && item <= 127,
    }
}

/// Whether all are items of the kind.
fn are_in_range(kind: Kind, items: &[i32]) -> bool
    ensures { result ≡ list_all (is_in_range kind) items.now }
{
    items.iter().all(|item| is_in_range(kind, *item))
}

/// Whether the items are as many as a shape of at most 4,096 has.
fn are_as_many(shape: Shape, items: &[i32]) -> bool
    ensures { result ≡ are_as_many shape items.now }
{
    shape.length <= MOST_ARRAY && items.len() == shape.item_count()
}

/// Whether two shapes are the same.
fn same_shape(left: Shape, right: Shape) -> bool
    ensures { result ≡ same_shape left right }
{
    left.kind == right.kind && left.length == right.length
}

/// Whether a value is one of the shape.
#[tactic(auto, unfolding(gypsy_semantics::specs::Views::Fitting::is_value_of))]
fn is_value_of(shape: Shape, value: &Value) -> bool
    ensures { result ≡ is_value_of shape value.now }
{
    same_shape(value.shape, shape)
        && are_as_many(shape, value.items.as_slice())
        && are_in_range(shape.kind, value.items.as_slice())
}

/// Whether there are as many values as formals, each of its formal's shape.
fn are_values(formals: &[(Name, Shape)], values: &[Value]) -> bool
    ensures { result ≡ are_values (held_shapes formals.now) values.now }
{
    let mut rest = values;
    for (_, shape) in formals {
        match rest {
            [first, others @ ..] => {
                if !is_value_of(*shape, first) {
                    return false;
                }
                rest = others;
            }
            [] => return false,
        }
    }
    rest.is_empty()
}

/// Whether sizes are at least main's own need.
fn suffice(program: &Program, needs: &Needs, ctrl: u32, temp: u32) -> bool
    requires needs { AreNeeds (seen_program program.now) needs.now.procedures.items }
    requires small { AreSmall needs.now.procedures.items }
    requires fits { ProgramFits (seen_program program.now) }
    ensures { result ≡ suffice (main_need (seen_program program.now)) (stack_sizes ctrl temp) }
{
    temporary_need(program, needs) <= temp as u64 && control_need(program, needs) <= ctrl as u64
}

/// Whether a run of a program may start from these values with stacks of these sizes.
pub fn can_start(program: &Program, needs: &Needs, values: &[Value], ctrl: u32, temp: u32) -> bool
    requires needs { AreNeeds (seen_program program.now) needs.now.procedures.items }
    requires small { AreSmall needs.now.procedures.items }
    requires fits { ProgramFits (seen_program program.now) }
    ensures { result ≡ can_start (seen_program program.now) values.now (stack_sizes ctrl temp) }
{
    are_values(main_formals(program), values) && suffice(program, needs, ctrl, temp)
}

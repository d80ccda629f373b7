//! The statements that put an expression's value into a temporary.

ghost use Rattle.std.specs.Prelude.{◌≡◌, ◌+◌, ◌<◌, ◌≤◌, ◌++◌, [], ◌∷◌, length, map, pos, suc};
ghost use Rattle.stack_heap.specs.Heaps.{IfOkUnless, OnOkUnless};
ghost use Rattle.gypsy_syntax.specs.declared.predef.Predef.TheVariants as row;
ghost use Rattle.gypsy_syntax.specs.{Made.{new_predef}, Sources.{constant, integer, truth}, Views.SourceView.{stmt_of}};
ghost use Rattle.mini_syntax.specs.{declared.sort.Sort.TheVariants.{Bool, Int}, Lawful.{nth_name}, ProgramView.{exp_of}, Sorted.{depth as depth_of}};
ghost use Rattle.mini_syntax.specs.{Sorted.{IsWellSorted, depths}, Operands.{infix_sort, prefix_sort}};
ghost use Rattle.mini_gypsy.specs.{Lowered.{argument, set_name, temporary_name, value_parts}, Steps.{infix_row, prefix_row}};

use crate::predefs::{call_constant, call_three, call_two};
use crate::rows::{infix_row, prefix_row};
use crate::temporaries::{temporary, variable};
use gypsy_syntax::{Literal, Predef, Stmt};
use mini_syntax::{Declared, Exp, Infix, Prefix, Sort};
use stack_heap::Heap;
use stack_text::Memory;

/// A declared variable's value goes to a temporary.
fn copied<H: Heap>(
    heap: H,
    declared: &[Declared],
    sort: Sort,
    index: u32,
    depth: u32,
) -> Result<Stmt, Memory>
    requires there { index < length declared.now }
    requires shallow { depth < depths }
    ensures { let name = nth_name (map (λ d. d.name) declared.now) index in
        IfOkUnless (H.may_refuse heap) result (λ made. stmt_of made ≡ set_name (temporary_name sort depth) name) }
{
    let to = temporary(heap, sort, depth)?;
    let from = variable(heap, declared, index)?;
    call_two(heap, Predef::MgSimpleVariableAssignment, to, from)
}

/// A number goes to a temporary.
fn number<H: Heap>(heap: H, number: u32, depth: u32) -> Result<Stmt, Memory>
    requires { depth < depths }
    ensures { IfOkUnless (H.may_refuse heap) result (λ made. stmt_of made ≡ new_predef 0 row.MgSimpleConstantAssignment
        (argument (temporary_name Int depth) ∷ constant (integer 0 (pos number)) ∷ [])) }
{
    let to = temporary(heap, Sort::Int, depth)?;
    let literal = Literal::Integer {
        place: 0,
        number: i128::from(number),
    };
    call_constant(heap, Predef::MgSimpleConstantAssignment, to, literal)
}

/// A truth value goes to a temporary.
fn truth<H: Heap>(heap: H, value: bool, depth: u32) -> Result<Stmt, Memory>
    requires { depth < depths }
    ensures { IfOkUnless (H.may_refuse heap) result (λ made. stmt_of made ≡ new_predef 0 row.MgSimpleConstantAssignment
        (argument (temporary_name Bool depth) ∷ constant (truth 0 value) ∷ [])) }
{
    let to = temporary(heap, Sort::Bool, depth)?;
    let literal = Literal::Truth {
        place: 0,
        truth: value,
    };
    call_constant(heap, Predef::MgSimpleConstantAssignment, to, literal)
}

/// The operator on the temporary at a depth, where its operand's value stands.
fn before<H: Heap>(heap: H, op: Prefix, operand: Sort, depth: u32) -> Result<Stmt, Memory>
    requires { depth < depths }
    ensures { IfOkUnless (H.may_refuse heap) result (λ made. stmt_of made ≡ new_predef 0 (prefix_row op)
        (argument (temporary_name (prefix_sort op) depth) ∷ argument (temporary_name operand depth) ∷ [])) }
{
    let to = temporary(heap, op.sort(), depth)?;
    let from = temporary(heap, operand, depth)?;
    call_two(heap, prefix_row(op), to, from)
}

/// The operator on the temporaries at a depth and at the next, where its operands' values stand.
fn between<H: Heap>(heap: H, op: Infix, left: Sort, right: Sort, depth: u32) -> Result<Stmt, Memory>
    requires { depth + 1 < depths }
    ensures { IfOkUnless (H.may_refuse heap) result (λ made. stmt_of made ≡ new_predef 0 (infix_row op)
        (argument (temporary_name (infix_sort op) depth) ∷ argument (temporary_name left depth)
        ∷ argument (temporary_name right (suc depth)) ∷ [])) }
{
    let to = temporary(heap, op.sort(), depth)?;
    let first = temporary(heap, left, depth)?;
    let second = temporary(heap, right, depth + 1)?;
    call_three(heap, infix_row(op), to, first, second)
}

/// Appends what puts an expression's value into the temporary of its sort at a depth.
pub(crate) fn append_value<H: Heap>(
    heap: H,
    parts: &mut Vec<Stmt>,
    declared: &[Declared],
    depth: u32,
    value: &Exp,
) -> Result<(), Memory>
    requires sorted { IsWellSorted (map (λ d. d.sort) declared.now) (exp_of value.now) }
    requires shallow { depth + depth_of (exp_of value.now) ≤ depths }
    ensures { let values = value_parts (map (λ d. d.name) declared.now) depth (exp_of value.now) in
        OnOkUnless (H.may_refuse heap) result (map stmt_of parts.new.items ≡ map stmt_of parts.old.items ++ values) }
{
    match value {
        Exp::Variable { sort, index } => {
            let made = copied(heap, declared, *sort, *index, depth)?;
            heap.push(parts, made)?;
            Ok(())
        }
        Exp::Number(n) => {
            let made = number(heap, *n, depth)?;
            heap.push(parts, made)?;
            Ok(())
        }
        Exp::Truth(b) => {
            let made = truth(heap, *b, depth)?;
            heap.push(parts, made)?;
            Ok(())
        }
        Exp::Before { op, operand } => {
            append_value(heap, parts, declared, depth, operand)?;
            let made = before(heap, *op, operand.sort(), depth)?;
            heap.push(parts, made)?;
            Ok(())
        }
        Exp::Between { op, left, right } => {
            append_value(heap, parts, declared, depth, left)?;
            append_value(heap, parts, declared, depth + 1, right)?;
            let made = between(heap, *op, left.sort(), right.sort(), depth)?;
            heap.push(parts, made)?;
            Ok(())
        }
    }
}

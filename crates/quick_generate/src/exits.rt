//! Main's exits: where they stand, and their code.

ghost use Rattle.std.specs.Prelude.{◌≡◌, ◌+◌, ◌*◌, ◌^◌, ◌++◌, ◌<◌};
ghost use Rattle.stack_heap.specs.Heaps.{OnOkUnless};
ghost use Rattle.gypsy_space.specs.Nodes.{seen_cond};
ghost use Rattle.quick_build.specs.QuickImage.{declared_numbers, exit_code, exit_numbers, exit_of, exit_place, exits_code};

use crate::piece::{jump, set_area};
use gypsy_space::Condition;
use stack_heap::Heap;
use stack_text::Memory;

/// The words of an exit.
pub(crate) const EXIT_SIZE: u32 = 6;

/// The exits of a main procedure with so many formal conditions, which stand from the base of the window on.
#[derive(Drop)]
pub(crate) struct Exits {
    pub base: u32,
    pub conds: u32,
    ghost fits: { base + 6 * (2 + conds) < 2 ^ 32 },
}

/// Which exit a condition takes, where there are so many formal conditions.
fn exit_of(conds: u32, cond: Condition) -> u32
    requires { 2 + conds < 2 ^ 32 }
    ensures value { result ≡ exit_of conds (seen_cond cond) }
    ensures there { result < 2 + conds }
{
    match cond {
        Condition::Leave | Condition::Routine => 0,
        Condition::Space => 1,
        Condition::Declared(number) if number < conds => 2 + number,
        Condition::Declared(_) => 0,
    }
}

/// The address of the exit that a condition takes.
pub(crate) fn exit_place(exits: &Exits, cond: Condition) -> u32
    ensures { result ≡ exit_place exits.now.base exits.now.conds (seen_cond cond) }
{
    exits.base + EXIT_SIZE * exit_of(exits.conds, cond)
}

/// The number of routineerror.
const ROUTINE: u32 = 1;

/// The number of spaceerror.
const SPACE: u32 = 3;

/// The number of the first declared condition.
const FIRST_DECLARED: u32 = 4;

/// The number is stored in the condition's word, and a jump to the end.
fn exit<H: Heap>(
    heap: H,
    words: &mut Vec<u32>,
    cell: u32,
    behind: u32,
    number: u32,
) -> Result<(), Memory>
    ensures { OnOkUnless (H.may_refuse heap) result
        (words.new.items ≡ words.old.items ++ exit_code cell behind number) }
{
    set_area(heap, words, cell, number)?;
    jump(heap, words, behind)?;
    Ok(())
}

/// The exits of so many declared conditions.
fn declared_exits<H: Heap>(
    heap: H,
    words: &mut Vec<u32>,
    cell: u32,
    behind: u32,
    conds: u32,
) -> Result<(), Memory>
    requires { 4 + conds < 2 ^ 32 }
    ensures { OnOkUnless (H.may_refuse heap) result
        (words.new.items ≡ words.old.items ++ exits_code cell behind (declared_numbers 4 conds)) }
{
    for index in 0..conds {
        exit(heap, words, cell, behind, FIRST_DECLARED + index)?;
    }
    Ok(())
}

/// An exit for routineerror, one for spaceerror, and one for each formal condition.
pub(crate) fn append_exits<H: Heap>(
    heap: H,
    words: &mut Vec<u32>,
    cell: u32,
    behind: u32,
    conds: u32,
) -> Result<(), Memory>
    requires { 4 + conds < 2 ^ 32 }
    ensures { OnOkUnless (H.may_refuse heap) result
        (words.new.items ≡ words.old.items ++ exits_code cell behind (exit_numbers conds)) }
{
    exit(heap, words, cell, behind, ROUTINE)?;
    exit(heap, words, cell, behind, SPACE)?;
    declared_exits(heap, words, cell, behind, conds)?;
    Ok(())
}

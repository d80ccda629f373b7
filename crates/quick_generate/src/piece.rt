//! The pieces of quick code, each appended to the words so far.

ghost use Rattle.std.specs.Prelude.{◌≡◌, ◌++◌, ◌<◌};
ghost use Rattle.stack_heap.specs.Heaps.{OnOkUnless};
ghost use Rattle.fm_code.specs.Templates.{jump_code};
ghost use Rattle.quick_code.specs.{Access.{find_code, register_of}, Pieces.{by_word_code, by_literal_code, store_code, store_literal_code, truth_code}};
ghost use Rattle.quick_code.specs.Pieces.{move_code, put_code, jump_when_code, set_area_code};
ghost use Rattle.quick_gypsy.specs.RowCode.{load, assign_code};
ghost use Rattle.quick_generate.specs.Views.{seen_access};

use crate::access::Access;
use fm_code::word::{at, immediate, literal, literal_at, mov, reg, setting, when};
use fm_words::{Cc, Flags, Op};
use stack_heap::Heap;
use stack_text::Memory;

/// Appends words.
pub(crate) fn append<H: Heap>(heap: H, words: &mut Vec<u32>, more: &[u32]) -> Result<(), Memory>
    ensures { OnOkUnless (H.may_refuse heap) result (words.new.items ≡ words.old.items ++ more.now) }
{
    heap.extend_from_slice(words, more)?;
    Ok(())
}

/// Nothing, or `MOVE r4,=a`.
pub(crate) fn find<H: Heap>(heap: H, words: &mut Vec<u32>, access: Access) -> Result<(), Memory>
    ensures { OnOkUnless (H.may_refuse heap) result
        (words.new.items ≡ words.old.items ++ find_code (seen_access access)) }
{
    match access {
        Access::Held(_) => append(heap, words, &[]),
        Access::Known(address) => append(heap, words, &[mov(reg(4), literal()), address]),
    }
}

/// `OP{set} r3,(x)`: an operation on r3 by a variable's word.
pub(crate) fn by_word<H: Heap>(
    heap: H,
    words: &mut Vec<u32>,
    op: Op,
    set: Flags,
    access: Access,
) -> Result<(), Memory>
    requires { register_of (seen_access access) < 16 }
    ensures { OnOkUnless (H.may_refuse heap) result
        (words.new.items ≡ words.old.items ++ by_word_code op set (seen_access access)) }
{
    find(heap, words, access)?;
    append(
        heap,
        words,
        &[setting(set, op, reg(3), at(access.register()))],
    )?;
    Ok(())
}

/// `MOVE r3,(x)`.
pub(crate) fn load<H: Heap>(heap: H, words: &mut Vec<u32>, access: Access) -> Result<(), Memory>
    requires { register_of (seen_access access) < 16 }
    ensures { OnOkUnless (H.may_refuse heap) result (words.new.items ≡ words.old.items ++ load (seen_access access)) }
{
    by_word(heap, words, Op::Move, Flags::NONE, access)
}

/// `OP{set} r3,=w`.
pub(crate) fn by_literal<H: Heap>(
    heap: H,
    words: &mut Vec<u32>,
    op: Op,
    set: Flags,
    word: u32,
) -> Result<(), Memory>
    ensures { OnOkUnless (H.may_refuse heap) result (words.new.items ≡ words.old.items ++ by_literal_code op set word) }
{
    append(heap, words, &[setting(set, op, reg(3), literal()), word])
}

/// `MOVE (x),r3`: r3 stored in a variable.
pub(crate) fn store<H: Heap>(heap: H, words: &mut Vec<u32>, access: Access) -> Result<(), Memory>
    requires { register_of (seen_access access) < 16 }
    ensures { OnOkUnless (H.may_refuse heap) result
        (words.new.items ≡ words.old.items ++ store_code (seen_access access)) }
{
    find(heap, words, access)?;
    append(heap, words, &[mov(at(access.register()), reg(3))])?;
    Ok(())
}

/// `MOVE (x),=w`.
pub(crate) fn store_literal<H: Heap>(
    heap: H,
    words: &mut Vec<u32>,
    access: Access,
    word: u32,
) -> Result<(), Memory>
    requires { register_of (seen_access access) < 16 }
    ensures { OnOkUnless (H.may_refuse heap) result
        (words.new.items ≡ words.old.items ++ store_literal_code (seen_access access) word) }
{
    find(heap, words, access)?;
    append(heap, words, &[mov(at(access.register()), literal()), word])?;
    Ok(())
}

/// `MOVE (x),#0; MOVE[cc] (x),#1`: whether the condition holds of the flags.
pub(crate) fn truth<H: Heap>(
    heap: H,
    words: &mut Vec<u32>,
    cc: Cc,
    access: Access,
) -> Result<(), Memory>
    requires { register_of (seen_access access) < 16 }
    ensures { OnOkUnless (H.may_refuse heap) result
        (words.new.items ≡ words.old.items ++ truth_code cc (seen_access access)) }
{
    find(heap, words, access)?;
    let target = at(access.register());
    let clear = mov(target, immediate(0));
    let set = when(cc, Op::Move, target, immediate(1));
    append(heap, words, &[clear, set])?;
    Ok(())
}

/// `MOVE (x),(rk)`: the word at the address in a register stored in a variable.
pub(crate) fn fetch<H: Heap>(
    heap: H,
    words: &mut Vec<u32>,
    access: Access,
    register: u8,
) -> Result<(), Memory>
    requires target { register_of (seen_access access) < 16 }
    requires source { register < 16 }
    ensures { OnOkUnless (H.may_refuse heap) result
        (words.new.items ≡ words.old.items ++ move_code (seen_access access) register) }
{
    find(heap, words, access)?;
    append(heap, words, &[mov(at(access.register()), at(register))])?;
    Ok(())
}

/// A variable from another one: in one instruction where a register has the address of that.
pub(crate) fn assign<H: Heap>(
    heap: H,
    words: &mut Vec<u32>,
    target: Access,
    source: Access,
) -> Result<(), Memory>
    requires target { register_of (seen_access target) < 16 }
    requires source { register_of (seen_access source) < 16 }
    ensures { OnOkUnless (H.may_refuse heap) result
        (words.new.items ≡ words.old.items ++ assign_code (seen_access target) (seen_access source)) }
{
    match source {
        Access::Held(register) => {
            fetch(heap, words, target, register)?;
            Ok(())
        }
        Access::Known(_) => {
            load(heap, words, source)?;
            store(heap, words, target)?;
            Ok(())
        }
    }
}

/// `MOVE (r3),(x)`: a variable's word stored at the address in r3.
pub(crate) fn put<H: Heap>(heap: H, words: &mut Vec<u32>, access: Access) -> Result<(), Memory>
    requires { register_of (seen_access access) < 16 }
    ensures { OnOkUnless (H.may_refuse heap) result
        (words.new.items ≡ words.old.items ++ put_code (seen_access access)) }
{
    find(heap, words, access)?;
    append(heap, words, &[mov(at(3), at(access.register()))])?;
    Ok(())
}

/// `MOVE[cc] r15,=target`.
pub(crate) fn jump_when<H: Heap>(
    heap: H,
    words: &mut Vec<u32>,
    cc: Cc,
    target: u32,
) -> Result<(), Memory>
    ensures { OnOkUnless (H.may_refuse heap) result (words.new.items ≡ words.old.items ++ jump_when_code cc target) }
{
    append(
        heap,
        words,
        &[when(cc, Op::Move, reg(15), literal()), target],
    )
}

/// `MOVE r15,@target`.
pub(crate) fn jump<H: Heap>(heap: H, words: &mut Vec<u32>, target: u32) -> Result<(), Memory>
    ensures { OnOkUnless (H.may_refuse heap) result (words.new.items ≡ words.old.items ++ jump_code target) }
{
    append(heap, words, &[mov(reg(15), literal_at()), target])
}

/// `MOVE r3,=address; MOVE (r3),=w`: a word of the areas set.
pub(crate) fn set_area<H: Heap>(
    heap: H,
    words: &mut Vec<u32>,
    address: u32,
    word: u32,
) -> Result<(), Memory>
    ensures { OnOkUnless (H.may_refuse heap) result (words.new.items ≡ words.old.items ++ set_area_code address word) }
{
    append(
        heap,
        words,
        &[mov(reg(3), literal()), address, mov(at(3), literal()), word],
    )
}

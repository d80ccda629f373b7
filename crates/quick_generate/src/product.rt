//! The code of a product, r3 = (x) * (y).

ghost use Rattle.std.specs.Prelude.{◌≡◌, ◌++◌, ◌<◌};
ghost use Rattle.stack_heap.specs.Heaps.{OnOkUnless};
ghost use Rattle.quick_code.specs.{Access.{register_of}, Pieces.{factors_code, product_code, rounds_code, signs_code}};
ghost use Rattle.quick_generate.specs.Views.{seen_access};

use crate::access::Access;
use crate::piece::{append, find};
use fm_code::word::{always, at, immediate, mov, reg, setting, when};
use fm_words::{Cc, Flags, Instr, Mode, Op, OperandA, encode};
use stack_heap::Heap;
use stack_text::Memory;

/// `{n}`
const FLAG_N: Flags = Flags {
    c: false,
    v: false,
    n: true,
    z: false,
};

/// `{v}`
pub(crate) const FLAG_V: Flags = Flags {
    c: false,
    v: true,
    n: false,
    z: false,
};

/// `{cz}`
const FLAGS_CZ: Flags = Flags {
    c: true,
    v: false,
    n: false,
    z: true,
};

/// `ADD[cs]{v} r3,r0`
const ADD_WHERE_CARRY: Instr = Instr {
    op: Op::Add,
    cc: Cc::Cs,
    set: FLAG_V,
    mode_b: Mode::Register,
    reg_b: 3,
    a: OperandA::Place {
        mode: Mode::Register,
        reg: 0,
    },
};

/// `MOVE r3,#0; MOVE r0,(x); MOVE{n} r4,(y)`: the factors.
fn factors<H: Heap>(heap: H, words: &mut Vec<u32>, x: Access, y: Access) -> Result<(), Memory>
    requires x { register_of (seen_access x) < 16 }
    requires y { register_of (seen_access y) < 16 }
    ensures { OnOkUnless (H.may_refuse heap) result
        (words.new.items ≡ words.old.items ++ factors_code (seen_access x) (seen_access y)) }
{
    append(heap, words, &[mov(reg(3), immediate(0))])?;
    find(heap, words, x)?;
    append(heap, words, &[mov(reg(0), at(x.register()))])?;
    find(heap, words, y)?;
    append(
        heap,
        words,
        &[setting(FLAG_N, Op::Move, reg(4), at(y.register()))],
    )?;
    Ok(())
}

/// `ADD[nc] r15,#3; NEG r4,r4; NEG{v} r0,r0; ADD[vs] r15,#5`: if the second factor is negative, both change their
/// signs.
fn signs<H: Heap>(heap: H, words: &mut Vec<u32>) -> Result<(), Memory>
    ensures { OnOkUnless (H.may_refuse heap) result (words.new.items ≡ words.old.items ++ signs_code) }
{
    let over = when(Cc::Nc, Op::Add, reg(15), immediate(3));
    let second = always(Op::Neg, reg(4), reg(4));
    let first = setting(FLAG_V, Op::Neg, reg(0), reg(0));
    let out = when(Cc::Vs, Op::Add, reg(15), immediate(5));
    append(heap, words, &[over, second, first, out])
}

/// `LSR{cz} r4,r4; ADD[cs]{v} r3,r0; ADD[zs] r15,#2; ADD{v} r0,r0; SUB[vc] r15,#5`: a round for each binary digit of r4.
fn rounds<H: Heap>(heap: H, words: &mut Vec<u32>) -> Result<(), Memory>
    ensures { OnOkUnless (H.may_refuse heap) result (words.new.items ≡ words.old.items ++ rounds_code) }
{
    let halve = setting(FLAGS_CZ, Op::Lsr, reg(4), reg(4));
    let sum = encode(ADD_WHERE_CARRY);
    let out = when(Cc::Zs, Op::Add, reg(15), immediate(2));
    let double = setting(FLAG_V, Op::Add, reg(0), reg(0));
    let again = when(Cc::Vc, Op::Sub, reg(15), immediate(5));
    append(heap, words, &[halve, sum, out, double, again])
}

/// r3 the product of two variables. The overflow flag is set if it doesn't fit in 32 signed bits.
pub(crate) fn product<H: Heap>(
    heap: H,
    words: &mut Vec<u32>,
    x: Access,
    y: Access,
) -> Result<(), Memory>
    requires x { register_of (seen_access x) < 16 }
    requires y { register_of (seen_access y) < 16 }
    ensures { OnOkUnless (H.may_refuse heap) result
        (words.new.items ≡ words.old.items ++ product_code (seen_access x) (seen_access y)) }
{
    factors(heap, words, x, y)?;
    signs(heap, words)?;
    rounds(heap, words)?;
    Ok(())
}

//! Names as keys of a table.

ghost use Rattle.std.specs.{Prelude.{[], ◌∷◌}, Str.{bytes_eq}, Cmp.{on_equiv, on_per, partial_equiv_from_equiv}, Cmp.Lexicographic.{bytes_decides}};
ghost use Rattle.std.specs.Cmp.Lexicographic.{nat_list_eq_equiv};
ghost use Rattle.std.proofs.Common.{ap};

use indexmap::Equivalent;
use std::hash::{Hash, Hasher};

/// A name that is hashed in one piece. A slice would be hashed byte by byte.
#[derive(Clone, Copy)]
pub(crate) struct NameKey<'a> {
    pub bytes: &'a [u8],
}

impl<'a> PartialEq for NameKey<'a> {
    ghost eq = { λ x y. bytes_eq x.bytes.now y.bytes.now };

    ghost laws = { on_per (λ key. key.bytes.now) (partial_equiv_from_equiv nat_list_eq_equiv) };

    fn eq(&self, other: &Self) -> bool {
        self.bytes == other.bytes
    }
}

impl<'a> Eq for NameKey<'a> {
    ghost laws = { on_equiv (λ key. key.bytes.now) nat_list_eq_equiv };
}

impl<'a> Hash for NameKey<'a> {
    ghost hash_input = { λ key. key.bytes.now ∷ [] };

    ghost respects_eq = { λ x y h. ap (λ bytes. bytes ∷ []) ((bytes_decides x.bytes.now y.bytes.now).0 h) };

    fn hash<H: Hasher>(&self, state: &mut H) {
        state.write(self.bytes);
    }
}

impl<'a, 'b> Equivalent<NameKey<'a>> for NameKey<'b> {
    ghost equivalent = { λ q k. bytes_eq q.bytes.now k.bytes.now };

    ghost respects_hash = { λ q k h. ap (λ bytes. bytes ∷ []) ((bytes_decides q.bytes.now k.bytes.now).0 h) };

    ghost respects_eq = { λ q x y. nat_list_eq_equiv.congr q.bytes.now x.bytes.now y.bytes.now };

    fn equivalent(&self, key: &NameKey<'a>) -> bool {
        self.bytes == key.bytes
    }
}

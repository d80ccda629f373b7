//! Bits, truth values and comparisons.
ghost use Rattle.std.specs.Prelude.{◌≡◌, ◌==◌, nat_lt};
ghost use Rattle.piton_words.specs.{Views.{where_true}, OperationRows.{are_same, bitv_word, bool_word}};

use crate::outcome::{Outcome, WordError};
use crate::view::{addr, bitv, int, nat, truth};
use crate::word::Word;

/// The 32 bits as the one word that is pushed. It refuses none.
pub fn bitv_word(bits: u32) -> Result<Outcome, WordError>
    ensures { result ≡ bitv_word bits }
{
    Ok(Outcome::One(Word::Bitv(bits)))
}

/// The truth value as the one word that is pushed. It refuses none.
pub fn bool_word(truth: bool) -> Result<Outcome, WordError>
    ensures { result ≡ bool_word truth }
{
    Ok(Outcome::One(Word::Bool(truth)))
}

/// Whether an address is before another one of the same area.
pub fn addr_lt(t: (u32, u32), s: (u32, u32)) -> Result<Outcome, WordError>
    ensures { result ≡ where_true (s.0 == t.0) (bool_word (nat_lt s.1 t.1)) }
{
    if s.0 != t.0 {
        return Err(WordError::Range);
    }
    bool_word(s.1 < t.1)
}

/// Whether two words of one tag are the same.
pub fn are_same(second: Word, top: Word) -> Result<bool, WordError>
    ensures { result ≡ are_same second top }
{
    match second {
        Word::Int(s) => Ok(s == int(top)?),
        Word::Nat(s) => Ok(s == nat(top)?),
        Word::Bitv(s) => Ok(s == bitv(top)?),
        Word::Bool(s) => Ok(s == truth(top)?),
        Word::Addr { area, offset } => {
            let (other, at) = addr(top)?;
            Ok(area == other && offset == at)
        }
        Word::Pc { program, place } => match top {
            Word::Pc {
                program: other,
                place: at,
            } => Ok(program == other && place == at),
            _ => Err(WordError::Tag),
        },
        Word::Subr { program } => match top {
            Word::Subr { program: other } => Ok(program == other),
            _ => Err(WordError::Tag),
        },
    }
}

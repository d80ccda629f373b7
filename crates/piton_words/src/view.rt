//! What is in a word of one type.
ghost use Rattle.std.specs.Prelude.{◌≡◌};
ghost use Rattle.piton_words.specs.Views.{int_of, nat_of, bitv_of, bool_of, addr_of};

use crate::outcome::WordError;
use crate::word::Word;

/// The integer of an `int`, or [`WordError::Tag`].
pub fn int(word: Word) -> Result<i32, WordError>
    ensures { result ≡ int_of word }
{
    match word {
        Word::Int(number) => Ok(number),
        _ => Err(WordError::Tag),
    }
}

/// The natural number of a `nat`, or [`WordError::Tag`].
pub fn nat(word: Word) -> Result<u32, WordError>
    ensures { result ≡ nat_of word }
{
    match word {
        Word::Nat(number) => Ok(number),
        _ => Err(WordError::Tag),
    }
}

/// The bits of a `bitv`, as the number that they write; or [`WordError::Tag`].
pub fn bitv(word: Word) -> Result<u32, WordError>
    ensures { result ≡ bitv_of word }
{
    match word {
        Word::Bitv(bits) => Ok(bits),
        _ => Err(WordError::Tag),
    }
}

/// The truth value of a `bool`, or [`WordError::Tag`].
pub fn truth(word: Word) -> Result<bool, WordError>
    ensures { result ≡ bool_of word }
{
    match word {
        Word::Bool(truth) => Ok(truth),
        _ => Err(WordError::Tag),
    }
}

/// The area of an `addr`, by its position from 0, and the offset in it; or [`WordError::Tag`].
pub fn addr(word: Word) -> Result<(u32, u32), WordError>
    ensures { result ≡ addr_of word }
{
    match word {
        Word::Addr { area, offset } => Ok((area, offset)),
        _ => Err(WordError::Tag),
    }
}

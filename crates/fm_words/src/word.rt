//! Words of 32 bits, and the integers that they are read as.

ghost use Rattle.std.specs.Prelude.{◌≡◌, IsTrue};
ghost use Rattle.fm_words.specs.Word.{signed_of, is_int, is_nat, word_of_int, wrapped};

/// The signed reading of a word: the word itself below 2^31, and else the word minus 2^32.
#[tactic(auto, using(crate::proofs::WordLaws::readings))]
pub fn signed_of(word: u32) -> i32
    ensures value { result ≡ signed_of word }
    ensures back { word_of_int result ≡ word }
{
    word.cast_signed()
}

/// The word of an integer, whose signed reading is that integer.
#[tactic(auto, using(crate::proofs::WordLaws::readings, crate::proofs::WordLaws::is_int_from_fits))]
pub fn word_of_int(number: i32) -> u32
    ensures value { result ≡ word_of_int number }
    ensures back { signed_of result ≡ number }
{
    number.cast_unsigned()
}

/// Whether an integer fits 32 bits with a sign: whether it is from -2^31 to 2^31 - 1.
pub fn is_int(number: i64) -> bool
    ensures { result ≡ is_int number }
{
    number >= i64::from(i32::MIN) && number <= i64::from(i32::MAX)
}

/// Whether an integer fits 32 bits without a sign: whether it is from 0 to 2^32 - 1.
pub fn is_nat(number: i64) -> bool
    ensures { result ≡ is_nat number }
{
    number >= 0 && number <= i64::from(u32::MAX)
}

/// What 32 bits keep of an integer: the integer modulo 2^32. Where it fits 32 bits with a sign,
/// that is its word.
pub fn wrapped(number: i64) -> u32
    ensures value { result ≡ wrapped number }
    ensures word { IsTrue (is_int number) → result ≡ word_of_int number }
{
    number.rem_euclid(1 << 32) as u32
}

//! The numbers of kinds and addresses.

ghost use Rattle.std.specs.Prelude.{◌≡◌, ◌≤◌};
ghost use Rattle.fm_image.specs.{Spelling.{address_number, kind_number}, Reading.{address_from, kind_of}};

use stack_text::Kind;

/// The number that says that there is no condition word.
const NO_ADDRESS: u32 = u32::MAX;

/// The kind of a number.
pub(crate) fn kind_from(number: u32) -> Kind
    requires { number ≤ 2 }
    ensures { result ≡ kind_of number }
{
    match number {
        0 => Kind::Integer,
        1 => Kind::Boolean,
        _ => Kind::Character,
    }
}

/// The number of a kind.
pub(crate) fn kind_bits(kind: Kind) -> u32
    ensures { result ≡ kind_number kind }
{
    match kind {
        Kind::Integer => 0,
        Kind::Boolean => 1,
        Kind::Character => 2,
    }
}

/// The address of a number, where it is one.
pub(crate) fn address_from(number: u32) -> Option<u32>
    ensures { result ≡ address_from number }
{
    if number == NO_ADDRESS {
        None
    } else {
        Some(number)
    }
}

/// The number of an address.
pub(crate) fn address_bits(address: Option<u32>) -> u32
    ensures { result ≡ address_number address }
{
    address.unwrap_or(NO_ADDRESS)
}

//! What a byte of a text is.

ghost use Rattle.std.specs.Prelude.{◌≡◌};
ghost use Rattle.stack_text.specs.Tokens.{class_of};

/// What a byte outside comments is.
#[derive(Clone, Copy, Debug, PartialEq, Eq)]
pub enum Class {
    /// LF, the separator that also ends a comment.
    LineEnd,
    /// A separator: space, tab or CR.
    Space,
    /// `;`, which starts a comment.
    Semicolon,
    /// `(`.
    Opening,
    /// `)`.
    Closing,
    /// Any other visible ASCII byte, which belongs to an atom.
    AtomByte,
    /// A byte that only comments may have.
    Invalid,
}

/// The class of a byte.
#[inline]
pub fn class_of_byte(byte: u8) -> Class
    ensures { result ≡ class_of byte }
{
    match byte {
        b'\n' => Class::LineEnd,
        b' ' | b'\t' | b'\r' => Class::Space,
        b';' => Class::Semicolon,
        b'(' => Class::Opening,
        b')' => Class::Closing,
        0x21..=0x7e => Class::AtomByte,
        _ => Class::Invalid,
    }
}

//! Names.

ghost use Rattle.std.specs.{Prelude.{◌≡◌, ◌≤◌, length, IfOk, IsTrue}, List.{list_all}};
ghost use Rattle.stack_heap.specs.Heaps.{IfOkUnless};
ghost use Rattle.stack_text.specs.{Gives.{ReturnsUnless}, Grammar.Printed.{unplaced}, Names.{begins_with_letter, is_mark, is_name, is_name_byte}};
ghost use Rattle.stack_text.specs.{Names.{is_truth_word, name_of}, Views.NameView.{kept_bytes, FitsInPlace}};

use crate::Memory;
use crate::limits::MOST_NAME_BYTES;
use stack_heap::BoundedHeap;
use std::alloc::AllocError;
use std::fmt;
use std::hash::{Hash, Hasher};
use std::marker::Model;

/// The most bytes that a name has in place: as many as a longer one takes for its vector.
const MAX_IN_PLACE: usize = 30;

/// Where a name has its bytes.
#[derive(Debug, Drop)]
pub(crate) enum NameBytes {
    /// In place, where the first so many are the name's.
    InPlace {
        length: u8,
        bytes: [u8; MAX_IN_PLACE],
    },
    /// In memory of their own, where they are too many.
    InVector(Vec<u8>),
}

/// A name: a letter, followed by up to 63 letters, digits and marks, which are `-`, `_`, `*` and `$`. The words `true`
/// and `false` are truth values and no names.
///
/// Upper and lower case differ. Contracts see a name as its bytes, and it is compared and hashed by them, so that it
/// can be a key of a map. One of up to 30 bytes takes no memory.
#[derive(Debug, Drop)]
pub struct Name {
    kept: NameBytes,
}

impl Model for Name {
    ghost use Rattle.std.specs.Prelude.{List, ℕ, IsTrue};
    ghost use Rattle.stack_text.specs.{Names.{is_name}, Views.NameView.{kept_bytes, FitsInPlace}};

    ghost Value = { List ℕ };

    ghost view = { λ n. kept_bytes n.kept };

    ghost invariant = { λ n. FitsInPlace n.kept × IsTrue (is_name (kept_bytes n.kept)) };
}

impl Name {
    /// The bytes.
    pub fn bytes(&self) -> &[u8]
        ensures bytes { result.now ≡ self.now }
        ensures name { IsTrue (is_name self.now) }
    {
        match &self.kept {
            NameBytes::InPlace { length, bytes } => &bytes[..*length as usize],
            NameBytes::InVector(bytes) => bytes.as_slice(),
        }
    }

    /// The same as text: each byte of a name is ASCII.
    pub fn as_str(&self) -> &str
        ensures { result.now ≡ self.now }
    {
        match str::from_utf8(self.bytes()) {
            Ok(text) => text,
            Err(_) => unreachable!(),
        }
    }

    /// The same name again.
    pub fn copied<H: BoundedHeap>(&self, heap: H) -> Result<Name, Memory>
        ensures { IfOkUnless (H.may_refuse heap) result (λ name. name ≡ self.now) }
    {
        let kept = match &self.kept {
            NameBytes::InPlace { length, bytes } => NameBytes::InPlace {
                length: *length,
                bytes: *bytes,
            },
            NameBytes::InVector(bytes) => NameBytes::InVector(heap.copied(bytes.as_slice())?),
        };
        Ok(Name { kept })
    }

    /// The name, with 0 for its place.
    pub fn unplaced<H: BoundedHeap>(&self, heap: H) -> Result<Named, Memory>
        ensures { IfOkUnless (H.may_refuse heap) result (λ named. named ≡ unplaced self.now) }
    {
        Ok(Named {
            place: 0,
            name: self.copied(heap)?,
        })
    }
}

impl Clone for Name {
    ghost is_clone = { λ old new. new ≡ old };

    fn clone(&self) -> Result<Name, AllocError> {
        let kept = match &self.kept {
            NameBytes::InPlace { length, bytes } => NameBytes::InPlace {
                length: *length,
                bytes: *bytes,
            },
            NameBytes::InVector(bytes) => {
                NameBytes::InVector(Vec::from_slice(*bytes.allocator(), bytes.as_slice())?)
            }
        };
        Ok(Name { kept })
    }
}

impl fmt::Display for Name {
    ghost use Rattle.std.specs.Prelude.{Some};

    ghost output = { λ name. Some name };

    fn fmt<W: fmt::Write>(&self, f: &mut fmt::Formatter<W>) -> fmt::Result {
        f.write_str(self.as_str())
    }
}

impl PartialEq for Name {
    ghost use Rattle.std.specs.{Str.{bytes_eq}, Cmp.Rules.{comparing}};
    ghost use Rattle.std.proofs.Common.{rules};

    ghost eq = { bytes_eq };

    ghost laws = { Prim.search (comparing, rules) };

    fn eq(&self, other: &Self) -> bool {
        self.bytes() == other.bytes()
    }
}

impl Eq for Name {
    ghost use Rattle.std.specs.Cmp.Rules.{comparing};
    ghost use Rattle.std.proofs.Common.{rules};

    ghost laws = { Prim.search (comparing, rules) };
}

impl Hash for Name {
    ghost use Rattle.std.specs.Hash as fed;
    ghost use Rattle.std.specs.Cmp.Rules.{hashing};
    ghost use Rattle.std.proofs.Common.{rules};

    ghost hash_input = { fed.slice fed.u8 };

    ghost respects_eq = { Prim.search (hashing, rules) };

    fn hash<H: Hasher>(&self, state: &mut H) {
        self.bytes().hash(state);
    }
}

/// A name of a text.
#[derive(Debug, Drop)]
pub struct Named {
    /// The place of its first byte, counted in bytes from 0; 0 also where it is from no text.
    pub place: u32,
    /// The name without its place.
    pub name: Name,
}

impl Named {
    /// The name that the bytes are, with 0 for its place.
    pub fn unplaced<H: BoundedHeap>(heap: H, bytes: &[u8]) -> Result<Named, Memory>
        requires { IsTrue (is_name bytes.now) }
        ensures { IfOkUnless (H.may_refuse heap) result (λ named. named ≡ unplaced bytes.now) }
    {
        let kept = keep_bytes(heap, bytes)?;
        Ok(Named {
            place: 0,
            name: Name { kept },
        })
    }
}

/// The bytes, in place where there is room for them.
fn keep_bytes<H: BoundedHeap>(heap: H, bytes: &[u8]) -> Result<NameBytes, Memory>
    requires { length bytes.now ≤ 256 }
    ensures bytes { IfOkUnless (H.may_refuse heap) result (λ kept. kept_bytes kept ≡ bytes.now) }
    ensures fits { IfOk result FitsInPlace }
{
    let length = bytes.len();
    if length <= MAX_IN_PLACE {
        let mut in_place = [0; MAX_IN_PLACE];
        in_place[..length].copy_from_slice(bytes);
        Ok(NameBytes::InPlace {
            length: length as u8,
            bytes: in_place,
        })
    } else {
        Ok(NameBytes::InVector(heap.copied(bytes)?))
    }
}

/// Whether the byte is one of the marks that a name may have.
fn is_mark(byte: u8) -> bool
    ensures { result ≡ is_mark byte }
{
    matches!(byte, b'-' | b'_' | b'*' | b'$')
}

/// Whether a name may have the byte.
fn is_name_byte(byte: u8) -> bool
    ensures { result ≡ is_name_byte byte }
{
    byte.is_ascii_alphanumeric() || is_mark(byte)
}

/// Whether the first byte is a letter.
fn begins_with_letter(bytes: &[u8]) -> bool
    ensures { result ≡ begins_with_letter bytes.now }
{
    match bytes {
        [] => false,
        [first, ..] => first.is_ascii_alphabetic(),
    }
}

/// Whether a name may have each of the bytes.
fn are_name_bytes(bytes: &[u8]) -> bool
    ensures { result ≡ list_all is_name_byte bytes.now }
{
    bytes.iter().all(|byte| is_name_byte(*byte))
}

/// Whether the bytes are one of the two words for truth values.
fn is_truth_word(bytes: &[u8]) -> bool
    ensures { result ≡ is_truth_word bytes.now }
{
    bytes == b"true".as_slice() || bytes == b"false".as_slice()
}

/// Whether the bytes are a name, for which `read_name` has `Some`. It takes no memory.
pub fn is_name(bytes: &[u8]) -> bool
    ensures { result ≡ is_name bytes.now }
{
    begins_with_letter(bytes)
        && are_name_bytes(bytes)
        && bytes.len() <= MOST_NAME_BYTES as usize
        && !is_truth_word(bytes)
}

/// The name that the bytes are: `None` exactly where they are not one.
pub fn read_name<H: BoundedHeap>(heap: H, bytes: &[u8]) -> Result<Option<Name>, Memory>
    ensures { ReturnsUnless (H.may_refuse heap) (λ name. name) result (name_of bytes.now) }
{
    if !is_name(bytes) {
        return Ok(None);
    }
    let kept = keep_bytes(heap, bytes)?;
    Ok(Some(Name { kept }))
}

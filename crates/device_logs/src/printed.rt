//! The bytes that a sink took, or that came as lines, up to 2^24 of them.
ghost use Rattle.std.specs.Prelude.{◌≡◌, ◌≤◌, ◌+◌, ◌++◌, [], IsTrue, OnErr, length, take};
ghost use Rattle.stack_heap.specs.Heaps.{OnOkUnless};
ghost use Rattle.device_logs.specs.Logged.{log_limit, offered_text};

use stack_heap::Heap;
use std::alloc::{AllocError, Global};
use std::marker::Model;
use std::rc::Rc;

/// How many bytes a log has at most: more than any report has, and less than a session may print.
pub(crate) const LOG_LIMIT: usize = 1 << 24;

/// For how many bytes of its own a log first has room. A vector doubles its room, so a log never has room for more than `LOG_LIMIT` if no piece
/// has more bytes than this.
const FIRST_ROOM: usize = 1 << 16;

/// The first 2^24 of the bytes that were noted. Contracts see them as a list.
///
/// The first of them are the beginning of a text that was offered, as far as what was noted is just that; the others are a copy.
#[derive(Drop)]
pub(crate) struct Printed {
    text: Option<Rc<Vec<u8>>>,
    count: usize,
    own: Vec<u8>,
}

impl Model for Printed {
    ghost use Rattle.std.specs.Prelude.{ℕ, List, ◌++◌, ◌+◌, ◌≤◌, length, take};
    ghost use Rattle.device_logs.specs.Logged.{log_limit, offered_text};

    ghost Value = { List ℕ };

    ghost view = { λ p. take p.count (offered_text p.text) ++ p.own.items };

    ghost invariant = { λ p. (p.count ≤ length (offered_text p.text)) × (p.count + length p.own.items ≤ log_limit) };
}

impl Printed {
    /// No bytes. It takes no memory.
    pub(crate) fn new(alloc: Global) -> Printed
        ensures { result ≡ [] }
    {
        Printed {
            text: None,
            count: 0,
            own: Vec::new(alloc),
        }
    }

    /// How many bytes were noted, and no more than 2^24.
    pub(crate) fn len(&self) -> usize
        ensures value { result ≡ length self.now }
        ensures most { result ≤ log_limit }
    {
        self.count + self.own.len()
    }

    /// The bytes that were noted: those that lie in the text that was offered, and the others.
    pub(crate) fn pieces(&self) -> (&[u8], &[u8])
        ensures { result.0.now ++ result.1.now ≡ self.now }
    {
        let text = offered_text(&self.text);
        (first(text, self.count), self.own.as_slice())
    }

    /// Keeps a text in which the bytes may lie that are noted next. It is kept only if nothing lies in another one.
    pub(crate) fn offer<H: Heap>(&mut self, heap: H, text: &Rc<Vec<u8>>)
        ensures { self.new ≡ self.old }
    {
        if self.count == 0 {
            if let Ok(text) = heap.shared_again(text) {
                self.text = Some(text);
            }
        }
    }

    /// Notes bytes behind the others, as many of them as make 2^24. Bytes that the text goes on with aren't copied.
    pub(crate) fn note<H: Heap>(&mut self, heap: H, bytes: &[u8]) -> Result<(), AllocError>
        ensures { OnOkUnless (H.may_refuse heap) result (self.new ≡ take log_limit (self.old ++ bytes.now)) }
    {
        let bytes = first(bytes, LOG_LIMIT - self.len());
        if self.own.is_empty() && goes_on(offered_text(&self.text), self.count, bytes) {
            self.count += bytes.len();
            return Ok(());
        }
        append(heap, &mut self.own, bytes)?;
        Ok(())
    }

    /// Takes back all bytes but the first so many.
    pub(crate) fn truncate(&mut self, count: usize)
        ensures { self.new ≡ take count self.old }
    {
        if count < self.count {
            self.own.clear();
            self.count = count;
        } else {
            self.own.truncate(count - self.count);
        }
    }
}

/// The bytes of a text, if there is one.
fn offered_text(text: &Option<Rc<Vec<u8>>>) -> &[u8]
    ensures { result.now ≡ offered_text text.now }
{
    match text {
        Some(text) => text.as_ref().as_slice(),
        None => &[],
    }
}

/// The first bytes, at most so many.
fn first(bytes: &[u8], most: usize) -> &[u8]
    ensures value { result.now ≡ take most bytes.now }
    ensures most { length result.now ≤ most }
{
    let count = bytes.len().min(most);
    &bytes[..count]
}

/// Whether a text has these bytes from a place on.
fn goes_on(text: &[u8], place: usize, bytes: &[u8]) -> bool
    requires { place ≤ length text.now }
    ensures within { IsTrue result → place + length bytes.now ≤ length text.now }
    ensures same { IsTrue result → take (place + length bytes.now) text.now ≡ take place text.now ++ bytes.now }
{
    let rest = &text[place..];
    rest.starts_with(bytes)
}

/// Appends bytes, or leaves those that are there as they were. The first ones come with room for `FIRST_ROOM`.
fn append<H: Heap>(heap: H, own: &mut Vec<u8>, bytes: &[u8]) -> Result<(), AllocError>
    ensures ok { OnOkUnless (H.may_refuse heap) result (own.new.items ≡ own.old.items ++ bytes.now) }
    ensures err { OnErr result (own.new.items ≡ own.old.items) }
{
    if own.is_empty() {
        heap.reserve(own, FIRST_ROOM)?;
    }
    heap.extend_from_slice(own, bytes)?;
    Ok(())
}

//! What keys the hash of names.

use std::hash::{BuildHasher, DefaultHasher, Hasher};

/// The state of a SipHash that was given names: with it a table hashes names.
///
/// Who picks names that are all given to it before they are entered picks the key with them, and so can't pick names that collide.
/// No contract speaks of it: what a table answers is the same by every key.
#[derive(Clone, Copy)]
pub struct NameKeys {
    state: DefaultHasher,
}

impl NameKeys {
    /// The key of no names, which is known to everyone: for tables that have few names.
    pub fn new() -> NameKeys {
        NameKeys {
            state: DefaultHasher::new(),
        }
    }

    /// Takes a name in: its length, without which other names could make the same bytes, and its bytes, up to a whole word.
    pub fn take_in(&mut self, name: &[u8]) {
        self.state.write_usize(name.len());
        self.state.write(name);
        self.state.write(&[0; 8][name.len() % 8..]);
    }
}

impl BuildHasher for NameKeys {
    type Hasher = DefaultHasher;

    ghost build_hasher = { λ keys. keys.state };

    fn build_hasher(&self) -> DefaultHasher {
        self.state
    }
}

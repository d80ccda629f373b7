//! The texts that a command reads.

use crate::role::Role;
use stack_heap::Heap;
use stack_text::Memory;
use std::alloc::{AllocFailed, Global};
use std::marker::Model;
use std::rc::Rc;

/// The bytes of a file that was read, at most 2^31. A shelf may own them too. Contracts see them as a list.
#[derive(Drop)]
pub struct Text {
    bytes: Rc<Vec<u8>>,
}

impl Model for Text {
    ghost use Rattle.std.specs.Prelude.{List, ℕ, ◌≤◌, ◌^◌, length};

    ghost Value = { List ℕ };

    ghost view = { λ t. t.bytes.value.items };

    ghost invariant = { λ t. length t.bytes.value.items ≤ 2 ^ 31 };
}

impl Text {
    ghost use Rattle.std.specs.Prelude.{◌≡◌, ◌≤◌, ◌^◌, length};

    /// The text of these bytes, at most 2^31.
    pub fn new(bytes: Rc<Vec<u8>>) -> Text
        requires { length bytes.value.items ≤ 2 ^ 31 }
        ensures { result ≡ bytes.value.items }
    {
        Text { bytes }
    }

    /// Its bytes.
    pub fn as_slice(&self) -> &[u8]
        ensures value { result.now ≡ self.now }
        ensures short { length result.now ≤ 2 ^ 31 }
    {
        self.bytes.as_ref().as_slice()
    }
}

/// The texts of the files that a command reads, each with its role, and no longer than that allows. Contracts see them as a list.
#[derive(Drop)]
pub struct Texts {
    texts: Vec<(Role, Text)>,
}

impl Model for Texts {
    ghost use Rattle.std.specs.Prelude.{List, ℕ, ◌≤◌, All, length};
    ghost use Rattle.command_line.specs.{declared.role.Role.{Role}, Roles.{limit_of}};

    ghost Value = { List (Role × List ℕ) };

    ghost view = { λ t. t.texts.items };

    ghost invariant = { λ t. All (λ text. length text.1 ≤ limit_of text.0) t.texts.items };
}

impl Texts {
    ghost use Rattle.std.specs.Prelude.{◌≡◌, ◌≤◌, ◌^◌, ◌++◌, ◌∷◌, [], length, map, All, IfOk, OnErr};
    ghost use Rattle.stack_heap.specs.Heaps.{IfOkUnless, OnOkUnless};
    ghost use Rattle.command_line.specs.{Gathered.{text_of, texts_of}, Roles.{limit_of}};

    /// No texts. It takes no memory.
    pub fn new(alloc: Global) -> Texts
        ensures { result ≡ [] }
    {
        Texts {
            texts: Vec::new(alloc),
        }
    }

    /// Puts a text after the others. Out of memory leaves them as they were.
    pub fn push<H: Heap>(
        &mut self,
        heap: H,
        role: Role,
        text: Text,
    ) -> Result<(), AllocFailed<(Role, Text)>>
        requires { length text ≤ limit_of role }
        ensures ok { OnOkUnless (H.may_refuse heap) result (self.new ≡ self.old ++ (role, text) ∷ []) }
        ensures err { OnErr result (self.new ≡ self.old) }
    {
        heap.push(&mut self.texts, (role, text))
    }

    /// The bytes of the first text of a role, or none.
    pub fn of(&self, role: Role) -> &[u8]
        ensures value { result.now ≡ text_of role self.now }
        ensures within { length result.now ≤ limit_of role }
        ensures short { length result.now ≤ 2 ^ 31 }
    {
        for text in &self.texts {
            if text.0.is(role) {
                return text.1.as_slice();
            }
        }
        &[]
    }

    /// The bytes of all texts of a role, in order; out of memory is the only error.
    pub fn all_of<H: Heap>(&self, heap: H, role: Role) -> Result<Vec<&[u8]>, Memory>
        ensures value { IfOkUnless (H.may_refuse heap) result
            (λ texts. map (λ text. text.now) texts.items ≡ texts_of role self.now) }
        ensures short { IfOk result (λ texts. All (λ text. length text.now ≤ 2 ^ 31) texts.items) }
    {
        let mut found = Vec::new(heap.handle());
        for text in &self.texts {
            if text.0.is(role) {
                heap.push(&mut found, text.1.as_slice())?;
            }
        }
        Ok(found)
    }
}

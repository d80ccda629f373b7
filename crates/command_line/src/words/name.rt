//! Names of files.
ghost use Rattle.std.specs.Prelude.{◌≡◌};
ghost use Rattle.stack_heap.specs.Heaps.{IfOkUnless};

use stack_heap::Heap;
use stack_text::Memory;
use std::marker::Model;

/// The name of a file. Contracts see its bytes.
#[derive(Drop)]
pub struct FileName {
    text: String,
}

impl Model for FileName {
    ghost use Rattle.std.specs.Prelude.{List, ℕ, string_bytes};

    ghost Value = { List ℕ };

    ghost view = { λ n. string_bytes n.text };
}

impl FileName {
    /// A name of these bytes, which it copies; out of memory is the only error.
    pub fn new<H: Heap>(heap: H, text: &str) -> Result<FileName, Memory>
        ensures { IfOkUnless (H.may_refuse heap) result (λ name. name ≡ text.now) }
    {
        Ok(FileName {
            text: heap.text(text)?,
        })
    }

    /// The name as a text.
    pub fn as_str(&self) -> &str
        ensures { result.now ≡ self.now }
    {
        self.text.as_str()
    }
}

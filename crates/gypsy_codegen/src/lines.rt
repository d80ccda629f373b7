//! Labels, and names of a table, as instructions have them.

ghost use Rattle.std.specs.Prelude.{◌≡◌, ◌++◌, [], ◌∷◌, ◌<◌, length};
ghost use Rattle.stack_heap.specs.Heaps.{IfOkUnless, OnOkUnless};
ghost use Rattle.gypsy_codegen.specs.Written.{label_name, label_arg, name_in};

use itoa::Buffer;
use piton_syntax::ArgText;
use stack_heap::Heap;
use stack_text::{Memory, Name, Named};

/// The most bytes of a label: `L` and the digits of 32 bits.
const MAX_LABEL_BYTES: usize = 11;

/// The name of a label.
#[tactic(auto, unfolding(crate::specs::Written::label_text))]
pub(crate) fn label_named<H: Heap>(heap: H, label: u32) -> Result<Named, Memory>
    ensures { IfOkUnless (H.may_refuse heap) result (λ name. name ≡ label_name label) }
{
    let mut buffer = Buffer::new();
    let digits = buffer.format(label).as_bytes();
    let mut text = [b'L'; MAX_LABEL_BYTES];
    let end = 1 + digits.len();
    text[1..end].copy_from_slice(digits);
    Named::unplaced(heap, &text[..end])
}

/// Appends a label to the arguments of an instruction.
pub(crate) fn push_label<H: Heap>(
    heap: H,
    args: &mut Vec<ArgText>,
    label: u32,
) -> Result<(), Memory>
    ensures { OnOkUnless (H.may_refuse heap) result (args.new.items ≡ args.old.items ++ label_arg label ∷ []) }
{
    let name = label_named(heap, label)?;
    Ok(heap.push(args, ArgText::Name(name))?)
}

/// A name of a table.
pub(crate) fn name_in<H: Heap>(heap: H, names: &[Name], at: usize) -> Result<Named, Memory>
    requires { at < length names.now }
    ensures { IfOkUnless (H.may_refuse heap) result (λ name. name ≡ name_in names.now at) }
{
    names[at].unplaced(heap)
}

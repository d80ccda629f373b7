//! Trees.

ghost use Rattle.std.specs.Prelude.{◌≡◌};
ghost use Rattle.stack_heap.specs.Heaps.{IfOkUnless, FitsBound};
ghost use Rattle.stack_text.specs.{Lengths.{longest_in}, Trees.{place_of}, Views.TreeView.{node_of, owned_node}};

use stack_heap::BoundedHeap;
use std::alloc::AllocError;

/// What a text is: an atom, or a list of trees. Contracts see it through `owned_node`, which puts lists in place of the
/// vectors at every level.
///
/// Each tree has the place of its first byte in the text that it was read from, counted in bytes from 0.
#[derive(Debug, Drop)]
pub enum Tree {
    /// A word of visible ASCII without `(`, `)` and `;`.
    Atom { place: u32, text: Vec<u8> },
    /// The trees between a `(`, whose place this is, and its `)`.
    List { place: u32, items: Vec<Tree> },
}

/// A tree whose atoms are bytes of the text that it was read from. Grammars read these, so that no atom is copied but
/// where it is kept. Contracts see it through `node_of`, as they see a `Tree` through `owned_node`.
#[derive(Debug, Drop)]
pub enum TextTree<'a> {
    /// A word of visible ASCII without `(`, `)` and `;`.
    Atom {
        place: u32,
        text: &'a [u8],
    },
    /// The trees between a `(`, whose place this is, and its `)`.
    List {
        place: u32,
        items: Vec<TextTree<'a>>,
    },
}

impl Tree {
    /// The place of its first byte.
    pub fn place(&self) -> u32
        ensures { result ≡ place_of (owned_node self.now) }
    {
        match self {
            Tree::Atom { place, text: _ } => *place,
            Tree::List { place, items: _ } => *place,
        }
    }
}

impl<'a> TextTree<'a> {
    /// The place of its first byte.
    pub fn place(&self) -> u32
        ensures { result ≡ place_of (node_of self.now) }
    {
        match self {
            TextTree::Atom { place, text: _ } => *place,
            TextTree::List { place, items: _ } => *place,
        }
    }

    /// The same tree, with bytes of its own.
    pub(crate) fn to_owned<H: BoundedHeap>(&self, heap: H) -> Result<Tree, AllocError>
        requires { FitsBound (H.bound heap) (longest_in (node_of self.now)) }
        ensures { IfOkUnless (H.may_refuse heap) result (λ tree. owned_node tree ≡ node_of self.now) }
    {
        match self {
            TextTree::Atom { place, text } => {
                let text = heap.copied(text)?;
                Ok(Tree::Atom {
                    place: *place,
                    text,
                })
            }
            TextTree::List { place, items } => {
                let mut owned = heap.with_room_for(items.as_slice())?;
                for item in items.iter() {
                    heap.push(&mut owned, item.to_owned(heap)?)?;
                }
                Ok(Tree::List {
                    place: *place,
                    items: owned,
                })
            }
        }
    }
}

//! Reading a tree.

ghost use Rattle.std.specs.Prelude.{◌≡◌, ◌<◌, ◌≤◌, ◌^◌, length, drop, IfOk, IfErr, MatchResult};
ghost use Rattle.stack_text.specs.{Tokens.{tokens, between}, Trees.{Node, TreeOf, IsWellFormed}, Views.TreeView.{node_of, owned_node}};
ghost use Rattle.stack_text.specs.{TextFaults.{ReportsFault}, TreeIn.{tree_in, GivesTreeUnless, ReadsExactly}, PlaceOrder.{IsInOrder}};
ghost use Rattle.stack_text.specs.{Internal.TokenSpans.{token_in}, Internal.OpenLists.{opened, Puts, Steps, ReturnsAlone, ReadsText}};
ghost use Rattle.stack_text.specs.declared.text_fault.TextFault.TheVariants.{Fault, Memory};
ghost use Rattle.stack_heap.specs.Heaps.{FitsBound, RefusesWithin, room_after};

use crate::lexer::{TokenKind, TokenSpan, next_token};
use crate::text_fault::{TextFault, TextRule};
use crate::tree::{TextTree, Tree};
use stack_heap::BoundedHeap;

/// How many lists may lie in one another.
const MOST_NESTING: usize = 200;

/// A list that is not closed yet.
#[derive(Drop)]
pub struct OpenList<'a> {
    /// The place of its `(`, counted in bytes from 0.
    pub place: u32,
    /// The items that are complete, the first in the text first.
    pub items: Vec<TextTree<'a>>,
}

/// Puts a tree into the innermost list, or gives it back where none is open.
fn put<'a, H: BoundedHeap>(
    heap: H,
    stack: &mut Vec<OpenList<'a>>,
    tree: TextTree<'a>,
) -> Result<Option<TextTree<'a>>, TextFault>
    requires { FitsBound (H.bound heap) (length (opened stack.old.items)) }
    ensures value { Puts (H.may_refuse heap) stack.old.items tree.entry result stack.new.items }
    ensures room { IfErr result (λ e. e ≡ Memory →
        RefusesWithin (H.may_refuse_room heap) (room_after (length (opened stack.old.items)))) }
{
    match stack.last_mut() {
        None => Ok(Some(tree)),
        Some(innermost) => {
            heap.push(&mut innermost.items, tree)?;
            Ok(None)
        }
    }
}

/// The fault of a rule that is broken at a byte.
fn fault_at(rule: TextRule, byte: usize) -> TextFault
    requires { byte < 2 ^ 32 }
    ensures { result ≡ Fault rule byte }
{
    TextFault::Fault {
        rule,
        place: byte as u32,
    }
}

/// Takes in the next token: the whole tree where it ends there, or the token's fault.
fn step<'a, H: BoundedHeap>(
    heap: H,
    stack: &mut Vec<OpenList<'a>>,
    text: &'a [u8],
    found: TokenSpan,
) -> Result<Option<TextTree<'a>>, TextFault>
    requires small { length text.now ≤ 2 ^ 31 }
    requires order { found.start < found.end }
    requires within { found.end ≤ length text.now }
    requires short { FitsBound (H.bound heap) (length (opened stack.old.items)) }
    ensures value { Steps (H.may_refuse heap) stack.old.items (token_in text.now found) result stack.new.items }
    ensures room { IfErr result (λ e. e ≡ Memory →
        RefusesWithin (H.may_refuse_room heap) (room_after (length (opened stack.old.items)))) }
{
    let place = found.start as u32;
    match found.kind {
        TokenKind::Invalid => Err(fault_at(TextRule::G1, found.start)),
        TokenKind::Opening => {
            if stack.len() >= MOST_NESTING {
                return Err(fault_at(TextRule::G4, found.start));
            }
            let items = Vec::new(heap.handle());
            heap.push(stack, OpenList { place, items })?;
            Ok(None)
        }
        TokenKind::Closing => match stack.pop() {
            None => Err(fault_at(TextRule::G3, found.start)),
            Some(OpenList { place, items }) => put(heap, stack, TextTree::List { place, items }),
        },
        TokenKind::Atom => {
            let text = &text[found.start..found.end];
            put(heap, stack, TextTree::Atom { place, text })
        }
    }
}

/// The tree, if no token follows it.
fn finish<'a>(text: &[u8], from: usize, tree: TextTree<'a>) -> Result<TextTree<'a>, TextFault>
    requires small { length text.now ≤ 2 ^ 31 }
    requires within { from ≤ length text.now }
    ensures { ReturnsAlone (length text.now) tree.entry (tokens between from (drop from text.now)) result }
{
    match next_token(text, from) {
        None => Ok(tree),
        Some(found) => match found.kind {
            TokenKind::Invalid => Err(fault_at(TextRule::G1, found.start)),
            _ => Err(fault_at(TextRule::G5, found.start)),
        },
    }
}

/// Reads token by token, with the open lists on a stack.
fn read<'a, H: BoundedHeap>(heap: H, text: &'a [u8]) -> Result<TextTree<'a>, TextFault>
    requires small { length text.now ≤ 2 ^ 31 }
    requires short { FitsBound (H.bound heap) (length text.now) }
    ensures value { ReadsText (H.may_refuse heap) node_of text.now result }
    ensures room { IfErr result (λ e. e ≡ Memory →
        RefusesWithin (H.may_refuse_room heap) (room_after (length text.now))) }
{
    let mut stack: Vec<OpenList<'a>> = Vec::new(heap.handle());
    let mut at = 0;
    while let Some(found) = next_token(text, at) {
        match step(heap, &mut stack, text, found)? {
            Some(tree) => return finish(text, found.end, tree),
            None => at = found.end,
        }
    }
    match stack.pop() {
        Some(innermost) => Err(TextFault::Fault {
            rule: TextRule::G2,
            place: innermost.place,
        }),
        None => Err(fault_at(TextRule::G6, text.len())),
    }
}

/// Reads a tree with bytes of its own.
fn read_owned<H: BoundedHeap>(heap: H, text: &[u8]) -> Result<Tree, TextFault>
    requires small { length text.now ≤ 2 ^ 31 }
    requires short { FitsBound (H.bound heap) (length text.now) }
    ensures { ReadsText (H.may_refuse heap) owned_node text.now result }
{
    let tree = read(heap, text)?;
    Ok(tree.to_owned(heap)?)
}

/// The tree of a text of at most 2^31 bytes, with the places of its atoms and lists.
///
/// It is for callers outside: the program calls `read_text_tree`.
///
/// # Errors
///
/// The first thing from the left that is wrong with the text, and where; or out of memory. The time is linear in the
/// text.
pub fn read_tree<H: BoundedHeap>(heap: H, text: &[u8]) -> Result<Tree, TextFault>
    requires small { length text.now ≤ 2 ^ 31 }
    requires short { FitsBound (H.bound heap) (length text.now) }
    // What is read is the tree of the text.
    ensures found { IfOk result (λ t. TreeOf text.now (owned_node t)) }
    // Where the text is a tree's, that tree is read, unless memory runs out.
    ensures only { (t : Node) → TreeOf text.now t → MatchResult result (λ u. owned_node u ≡ t) (λ e. e ≡ Memory) }
    // An error is the text's first fault.
    ensures fault { ReportsFault text.now result }
    // All three in one: what is returned is a function of the text, and memory runs out only where the heap may refuse.
    ensures value { GivesTreeUnless (H.may_refuse heap) owned_node result (tree_in text.now) }

    // What every tree that was read keeps.
    ensures well_formed { IfOk result (λ t. IsWellFormed (owned_node t)) }
    ensures order { IfOk result (λ t. IsInOrder (owned_node t)) }
{
    read_owned(heap, text)
}

/// The same tree, whose atoms are bytes of the text.
///
/// # Errors
///
/// As `read_tree`.
pub fn read_text_tree<'a, H: BoundedHeap>(
    heap: H,
    text: &'a [u8],
) -> Result<TextTree<'a>, TextFault>
    requires small { length text.now ≤ 2 ^ 31 }
    requires short { FitsBound (H.bound heap) (length text.now) }
    ensures value { GivesTreeUnless (H.may_refuse heap) node_of result (tree_in text.now) }
    ensures well_formed { IfOk result (λ t. IsWellFormed (node_of t)) }
    ensures order { IfOk result (λ t. IsInOrder (node_of t)) }
    ensures room { IfErr result (λ e. e ≡ Memory →
        RefusesWithin (H.may_refuse_room heap) (room_after (length text.now))) }
{
    read(heap, text)
}

/// Where the heap refuses no room for two items for each byte of the text and 8 more, reading gives the tree of the
/// text or its first fault, and never runs out of memory.
pub fn read_in_plenty<'a, H: BoundedHeap>(
    heap: H,
    text: &'a [u8],
) -> Result<TextTree<'a>, TextFault>
    requires small { length text.now ≤ 2 ^ 31 }
    requires short { FitsBound (H.bound heap) (length text.now) }
    requires plenty { ¬ (RefusesWithin (H.may_refuse_room heap) (room_after (length text.now))) }
    ensures { ReadsExactly node_of result (tree_in text.now) }
{
    read_text_tree(heap, text)
}

//! Areas, and whole systems.

ghost use Rattle.std.specs.{Prelude.{◌≡◌, ℕ, IsTrue, List, ◌&&◌, Ok, MatchOption, codes}, Str.{bytes_eq}};
ghost use Rattle.stack_text.specs.{Grammar.Judged.{each_of, ◌⊛◌}, Grammar.Parts.{is_atom_of}, Grammar.Reading.{ReadsUnless}, Numerals.{is_digits}};
ghost use Rattle.stack_text.specs.{Trees.{atom, list}, Views.TreeView.{node_of, nodes_of}};
ghost use Rattle.piton_syntax.specs.{Grammar.{area_of, named_of, number_of, program_of, system_of, word_of}, Limits.{is_small_system}, Systems.{new_area}};
ghost use Rattle.piton_syntax.specs.Systems.{new_system};

use crate::reading::atom::{is_digits_atom, name as read_name, number};
use crate::system::{Area, System};
use stack_heap::Heap;
use stack_text::grammar::{FormFault, Part, each};
use stack_text::{Breach, TextTree};

/// The most areas of a system.
const MOST_AREAS: usize = 1000;

/// The most programs of a system.
const MOST_PROGRAMS: usize = 1100;

/// P2 at an area.
fn no_area(place: u32) -> Breach
    ensures { result ≡ record { rule = 2; place = place } }
{
    Breach { rule: 2, place }
}

/// An area, of which the name and the words are given.
fn area_parts<H: Heap>(
    heap: H,
    place: u32,
    name: &TextTree,
    words: &[TextTree],
) -> Result<Area, FormFault>
    ensures { ReadsUnless (H.may_refuse heap) (λ area. area) result
        (Ok (new_area place) ⊛ named_of (node_of name.now) ⊛ each_of word_of (nodes_of words.now)) }
{
    let name = read_name(heap, name)?;
    let words = each(heap, words)?;
    Ok(Area { place, name, words })
}

/// The area that the items of a list are.
fn area_at<H: Heap>(heap: H, place: u32, items: &[TextTree]) -> Result<Area, FormFault>
    ensures { ReadsUnless (H.may_refuse heap) (λ area. area) result (area_of (list place (nodes_of items.now))) }
{
    if items.len() < 2 {
        return Err(no_area(place).into());
    }
    area_parts(heap, place, &items[0], &items[1..])
}

impl Part for Area {
    ghost use Rattle.piton_syntax.specs.{Grammar.{area_of}, Systems.{AreaOf}};

    ghost Seen = { AreaOf };

    ghost view = { λ area. area };

    ghost part_of = { area_of };

    fn read<H: Heap>(heap: H, tree: &TextTree) -> Result<Area, FormFault> {
        match tree {
            TextTree::Atom { place, text: _ } => Err(no_area(*place).into()),
            TextTree::List { place, items } => area_at(heap, *place, items),
        }
    }
}

/// P1 at the whole tree.
fn no_system(place: u32) -> Breach
    ensures { result ≡ record { rule = 1; place = place } }
{
    Breach { rule: 1, place }
}

/// Whether the tree is the word that begins a system.
fn is_keyword(tree: &TextTree) -> bool
    ensures { result ≡ is_atom_of (λ bytes. bytes_eq bytes (codes "piton")) (node_of tree.now) }
{
    match tree {
        TextTree::Atom { place: _, text } => *text == b"piton".as_slice(),
        TextTree::List { place: _, items: _ } => false,
    }
}

/// Whether the trees are the word that begins a system, and three numbers.
fn is_head(keyword: &TextTree, ctrl: &TextTree, temp: &TextTree, base: &TextTree) -> bool
    ensures { result
        ≡ (is_atom_of (λ bytes. bytes_eq bytes (codes "piton")) (node_of keyword.now)
        && is_atom_of is_digits (node_of ctrl.now) && is_atom_of is_digits (node_of temp.now)
        && is_atom_of is_digits (node_of base.now)) }
{
    is_keyword(keyword) && is_digits_atom(ctrl) && is_digits_atom(temp) && is_digits_atom(base)
}

/// The items of a list.
fn items_of<'a, 'b>(tree: &'a TextTree<'b>) -> Option<&'a [TextTree<'b>]>
    ensures { MatchOption result
        ((p : ℕ) × (bytes : List ℕ) × (node_of tree.now ≡ atom p bytes))
        (λ items. (p : ℕ) × (node_of tree.now ≡ list p (nodes_of items.now))) }
{
    match tree {
        TextTree::Atom { place: _, text: _ } => None,
        TextTree::List { place: _, items } => Some(items),
    }
}

/// Whether a system has no more parts than it may.
fn is_small(areas: &[TextTree], programs: &[TextTree]) -> bool
    ensures { result ≡ is_small_system (nodes_of areas.now) (nodes_of programs.now) }
{
    areas.len() <= MOST_AREAS && programs.len() <= MOST_PROGRAMS
}

/// The trees of a system after the word that begins it.
#[derive(Clone, Copy)]
struct SystemTrees<'a, 'b> {
    main: &'a TextTree<'b>,
    ctrl: &'a TextTree<'b>,
    temp: &'a TextTree<'b>,
    base: &'a TextTree<'b>,
    areas: &'a [TextTree<'b>],
    stack: &'a [TextTree<'b>],
    programs: &'a [TextTree<'b>],
}

/// A system, of which the parts are given.
fn system_parts<H: Heap>(heap: H, place: u32, trees: SystemTrees) -> Result<System, FormFault>
    requires ctrl { IsTrue (is_atom_of is_digits (node_of trees.ctrl.now)) }
    requires temp { IsTrue (is_atom_of is_digits (node_of trees.temp.now)) }
    requires base { IsTrue (is_atom_of is_digits (node_of trees.base.now)) }
    ensures { let parts = trees.entry in
        ReadsUnless (H.may_refuse heap) (λ system. system) result
        (Ok (new_system place) ⊛ named_of (node_of parts.main.now) ⊛ number_of (node_of parts.ctrl.now)
        ⊛ number_of (node_of parts.temp.now) ⊛ number_of (node_of parts.base.now)
        ⊛ each_of area_of (nodes_of parts.areas.now) ⊛ each_of word_of (nodes_of parts.stack.now)
        ⊛ each_of program_of (nodes_of parts.programs.now)) }
{
    let main = read_name(heap, trees.main)?;
    let ctrl = number(trees.ctrl)?;
    let temp = number(trees.temp)?;
    let base = number(trees.base)?;
    let areas = each(heap, trees.areas)?;
    let stack = each(heap, trees.stack)?;
    let programs = each(heap, trees.programs)?;
    Ok(System {
        place,
        main,
        ctrl,
        temp,
        base,
        areas,
        stack,
        programs,
    })
}

/// The system that the items of a list are.
fn system_at<H: Heap>(heap: H, place: u32, items: &[TextTree]) -> Result<System, FormFault>
    ensures { ReadsUnless (H.may_refuse heap) (λ system. system) result (system_of (list place (nodes_of items.now))) }
{
    if items.len() < 8 {
        return Err(no_system(place).into());
    }
    let (keyword, main) = (&items[0], &items[1]);
    let (ctrl, temp, base) = (&items[2], &items[3], &items[4]);
    let Some(areas) = items_of(&items[5]) else {
        return Err(no_system(place).into());
    };
    let Some(stack) = items_of(&items[6]) else {
        return Err(no_system(place).into());
    };
    if !is_head(keyword, ctrl, temp, base) {
        return Err(no_system(place).into());
    }
    let programs = &items[7..];
    if !is_small(areas, programs) {
        return Err(FormFault::Form { rule: 9, place });
    }
    let trees = SystemTrees {
        main,
        ctrl,
        temp,
        base,
        areas,
        stack,
        programs,
    };
    system_parts(heap, place, trees)
}

/// The system that a tree is: P1 where it is none, P9 where it is too large, and else the first fault in reading order.
pub fn system<H: Heap>(heap: H, tree: &TextTree) -> Result<System, FormFault>
    ensures { ReadsUnless (H.may_refuse heap) (λ system. system) result (system_of (node_of tree.now)) }
{
    match tree {
        TextTree::Atom { place, text: _ } => Err(no_system(*place).into()),
        TextTree::List { place, items } => system_at(heap, *place, items),
    }
}

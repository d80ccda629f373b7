//! Programs.

ghost use Rattle.std.specs.Prelude.{◌≡◌, Ok};
ghost use Rattle.stack_text.specs.{Grammar.Judged.{each_of, ◌⊛◌}, Grammar.Reading.{ReadsUnless}, Trees.{list, place_of}, Views.TreeView.{node_of, nodes_of}};
ghost use Rattle.piton_syntax.specs.{Grammar.{instruction_of, list_of, named_of, program_of, temporary_of}, Limits.{is_small_program}, Systems.{new_program}};

use crate::reading::atom::name as read_name;
use crate::reading::word::word as read_word;
use crate::system::Program;
use crate::word_text::WordText;
use stack_heap::Heap;
use stack_text::grammar::{FormFault, Part, each, list_length, names};
use stack_text::{Breach, Named, TextTree};

/// The most formals and temporaries of a program.
const MOST_VARIABLES: usize = 400;

/// The most instructions of a program.
const MOST_INSTRUCTIONS: usize = 1_048_576;

/// P3 at a tree.
fn no_program(place: u32) -> Breach
    ensures { result ≡ record { rule = 3; place = place } }
{
    Breach { rule: 3, place }
}

/// A temporary with its word at the start, which are the items of a list.
fn temporary_at<H: Heap>(
    heap: H,
    place: u32,
    items: &[TextTree],
) -> Result<(Named, WordText), FormFault>
    ensures { ReadsUnless (H.may_refuse heap) (λ temporary. temporary) result
        (temporary_of (list place (nodes_of items.now))) }
{
    if items.len() != 2 {
        return Err(no_program(place).into());
    }
    let (name, word) = (&items[0], &items[1]);
    let name = read_name(heap, name)?;
    let word = read_word(heap, word)?;
    Ok((name, word))
}

/// The temporary that a tree is, or P3 where it is no list of two.
fn temporary<H: Heap>(heap: H, tree: &TextTree) -> Result<(Named, WordText), FormFault>
    ensures { ReadsUnless (H.may_refuse heap) (λ temporary. temporary) result (temporary_of (node_of tree.now)) }
{
    match tree {
        TextTree::Atom { place, text: _ } => Err(no_program(*place).into()),
        TextTree::List { place, items } => temporary_at(heap, *place, items),
    }
}

/// The temporary that each tree is.
fn each_temporary<H: Heap>(heap: H, trees: &[TextTree]) -> Result<Vec<(Named, WordText)>, FormFault>
    ensures { ReadsUnless (H.may_refuse heap) (λ temporaries. temporaries.items) result
        (each_of temporary_of (nodes_of trees.now)) }
{
    let mut temporaries = Vec::new(heap.handle());
    for tree in trees {
        let temporary = temporary(heap, tree)?;
        heap.push(&mut temporaries, temporary)?;
    }
    Ok(temporaries)
}

/// The temporaries of a program, or P3 where the tree is no list.
fn read_temporaries<H: Heap>(heap: H, tree: &TextTree) -> Result<Vec<(Named, WordText)>, FormFault>
    ensures { ReadsUnless (H.may_refuse heap) (λ temporaries. temporaries.items) result
        (list_of temporary_of (node_of tree.now)) }
{
    match tree {
        TextTree::Atom { place, text: _ } => Err(no_program(*place).into()),
        TextTree::List { place: _, items } => each_temporary(heap, items),
    }
}

/// Whether a program has no more parts than it may.
fn is_small(formals: &TextTree, temporaries: &TextTree, instructions: &[TextTree]) -> bool
    ensures { result ≡ is_small_program (node_of formals.now) (node_of temporaries.now) (nodes_of instructions.now) }
{
    let variables = list_length(formals).saturating_add(list_length(temporaries));
    variables <= MOST_VARIABLES && instructions.len() <= MOST_INSTRUCTIONS
}

/// A program, of which the parts are given.
fn program_parts<H: Heap>(
    heap: H,
    place: u32,
    name: &TextTree,
    formals: &TextTree,
    temporaries: &TextTree,
    instructions: &[TextTree],
) -> Result<Program, FormFault>
    ensures { ReadsUnless (H.may_refuse heap) (λ program. program) result
        (Ok (new_program place (place_of (node_of formals.now)))
        ⊛ named_of (node_of name.now) ⊛ list_of named_of (node_of formals.now)
        ⊛ list_of temporary_of (node_of temporaries.now) ⊛ each_of instruction_of (nodes_of instructions.now)) }
{
    let name = read_name(heap, name)?;
    let formals_place = formals.place();
    let formals = names(heap, 3, 4, formals)?;
    let temporaries = read_temporaries(heap, temporaries)?;
    let instrs = each(heap, instructions)?;
    Ok(Program {
        place,
        name,
        formals_place,
        formals,
        temporaries,
        instrs,
    })
}

/// The program that the items of a list are.
fn program_at<H: Heap>(heap: H, place: u32, items: &[TextTree]) -> Result<Program, FormFault>
    ensures { ReadsUnless (H.may_refuse heap) (λ program. program) result
        (program_of (list place (nodes_of items.now))) }
{
    if items.len() < 4 {
        return Err(no_program(place).into());
    }
    let (name, formals, temporaries) = (&items[0], &items[1], &items[2]);
    let instructions = &items[3..];
    if !is_small(formals, temporaries, instructions) {
        return Err(FormFault::Form { rule: 9, place });
    }
    program_parts(heap, place, name, formals, temporaries, instructions)
}

impl Part for Program {
    ghost use Rattle.piton_syntax.specs.{Grammar.{program_of}, Systems.{ProgramOf}};

    ghost Seen = { ProgramOf };

    ghost view = { λ program. program };

    ghost part_of = { program_of };

    fn read<H: Heap>(heap: H, tree: &TextTree) -> Result<Program, FormFault> {
        match tree {
            TextTree::Atom { place, text: _ } => Err(no_program(*place).into()),
            TextTree::List { place, items } => program_at(heap, *place, items),
        }
    }
}

//! Memory read at a mark.

ghost use Rattle.std.specs.{Prelude.{◌≡◌, map, slice_get, None, IfOk, IfErr}, Option.{option_map}};
ghost use Rattle.stack_heap.specs.Heaps.{IfOkUnless};
ghost use Rattle.display_maps.specs.ReadingAt.{items_below, items_at, variables_at, mark_there, condition_word, read_in, read_from, reading_at, read_variable};
ghost use Rattle.display_maps.specs.{ReadingAt.{reading_at_text}, Variable.{variable_of_line}};

use crate::printing::{Variable, push_lines};
use crate::shown::{Shown, condition_of, item_of, push};
use fm_image::{Image, Mark, ProcInfo, VarInfo};
use fm_machine::Machine;
use fm_show::push_number;
use stack_heap::Heap;
use stack_text::{Memory, Name, Shape};
use std::marker::Model;

/// Where a run of an image stands, and what can be read there: each word where it is there.
pub trait Standing {
    ghost use Rattle.std.specs.Prelude.{◌≡◌};
    ghost use Rattle.display_maps.specs.ReadingAt.{StandingOf};

    /// Where it stands.
    ghost standing: { Self → StandingOf };

    /// The address of what comes next.
    fn address(&self) -> u32
        ensures { result ≡ (standing self.now).address };

    /// The word at an address.
    fn word(&self, address: u32) -> Option<u32>
        ensures { result ≡ (standing self.now).word address };

    /// The word of the newest frame, so far from its beginning.
    fn local(&self, offset: u32) -> Option<u32>
        ensures { result ≡ (standing self.now).local offset };

    /// The word so far below the last one of memory.
    fn below(&self, place: u64) -> Option<u32>
        ensures { result ≡ (standing self.now).below place };
}

/// What a run says at a mark of its image.
///
/// Contracts see it as a record of the same fields, with lists in place of the vectors.
#[derive(Debug, Drop)]
pub struct ReadingAt {
    /// The name of the active procedure.
    pub procedure: Name,
    /// The place in the source of what comes next.
    pub place: u32,
    /// The condition.
    pub condition: Shown,
    /// The name, the shape and the items of each variable of the procedure.
    pub items: Vec<(Name, Shape, Vec<Shown>)>,
}

impl Model for ReadingAt {
    ghost use Rattle.std.specs.Prelude.{map};
    ghost use Rattle.display_maps.specs.ReadingAt.{ReadingAtOf};

    ghost Value = { ReadingAtOf };

    ghost view = { λ r. record { procedure = r.procedure; place = r.place; condition = r.condition; items = map (λ item. (item.0, item.1, item.2.items)) r.items.items } };
}

/// The machine of an image, where it stands.
#[derive(Clone, Copy)]
struct MachineAt<'a, 'b> {
    image: &'a Image,
    machine: &'b Machine,
}

impl<'a, 'b> Standing for MachineAt<'a, 'b> {
    ghost use Rattle.display_maps.specs.ReadingAt.{machine_at};

    ghost standing = { λ m. machine_at m.image.now m.machine.now.state };

    fn address(&self) -> u32 {
        self.machine.register(15)
    }

    fn word(&self, address: u32) -> Option<u32> {
        self.machine.peek(address)
    }

    fn local(&self, offset: u32) -> Option<u32> {
        let address = u64::from(self.machine.register(0)) + u64::from(offset);
        if address < 1 << 32 {
            self.machine.peek(address as u32)
        } else {
            None
        }
    }

    fn below(&self, place: u64) -> Option<u32> {
        let image = self.image;
        if place < u64::from(image.size) {
            self.machine
                .peek(image.base + (image.size - 1 - place as u32))
        } else {
            None
        }
    }
}

/// The items of a shape, the first of them so far below the last word, where all of them are there.
fn items_below<S: Standing, H: Heap>(
    heap: H,
    run: &S,
    index: u32,
    shape: Shape,
) -> Result<Option<Vec<Shown>>, Memory>
    ensures { IfOkUnless (H.may_refuse heap) result (λ items.
        option_map (λ read. read.items) items ≡ items_below (S.standing run.now) index shape) }
{
    let mut items = Vec::new(heap.handle());
    for place in 0..shape.item_count() as u64 {
        match run.below(u64::from(index) + place) {
            Some(word) => heap.push(&mut items, item_of(shape.kind, word))?,
            None => return Ok(None),
        }
    }
    Ok(Some(items))
}

/// The items of a variable, where all of them are there.
fn items_at<S: Standing, H: Heap>(
    heap: H,
    run: &S,
    variable: &VarInfo,
) -> Result<Option<Vec<Shown>>, Memory>
    ensures { IfOkUnless (H.may_refuse heap) result (λ items.
        option_map (λ read. read.items) items ≡ items_at (S.standing run.now) variable.now) }
{
    match run.local(variable.offset) {
        Some(index) => items_below(heap, run, index, variable.shape),
        None => Ok(None),
    }
}

/// The variables, where all that they need is there.
fn variables_at<S: Standing, H: Heap>(
    heap: H,
    run: &S,
    variables: &[VarInfo],
) -> Result<Option<Vec<(Name, Shape, Vec<Shown>)>>, Memory>
    ensures { IfOkUnless (H.may_refuse heap) result (λ read.
        option_map (λ all. map (λ item. (item.0, item.1, item.2.items)) all.items) read
        ≡ variables_at (S.standing run.now) variables.now) }
{
    let mut read = Vec::new(heap.handle());
    for variable in variables {
        match items_at(heap, run, variable)? {
            Some(items) => {
                let name = variable.name.copied(heap)?;
                heap.push(&mut read, (name, variable.shape, items))?;
            }
            None => return Ok(None),
        }
    }
    Ok(Some(read))
}

/// The place of the mark at an address, where there is one.
fn search(image: &Image, address: u32) -> Result<usize, usize>
    ensures found { IfOk result (λ place. mark_there address image.now.marks ≡ slice_get image.now.marks place) }
    ensures absent { IfErr result (λ place. mark_there address image.now.marks ≡ None) }
{
    image
        .marks
        .binary_search_by_key(&address, |mark| mark.address)
}

/// The mark at an address.
fn mark_there(image: &Image, address: u32) -> Option<Mark>
    ensures { result ≡ mark_there address image.now.marks }
{
    match search(image, address) {
        Ok(place) => image.marks.get(place).copied(),
        Err(_) => None,
    }
}

/// The procedure of a number.
fn procedure_at(procedures: &[ProcInfo], number: u32) -> Option<&ProcInfo>
    ensures { option_map (λ procedure. procedure.now) result ≡ slice_get procedures.now number }
{
    procedures.get(number as usize)
}

/// The condition word, where the image has an address for it and a word is there.
fn condition_word<S: Standing>(run: &S, address: Option<u32>) -> Option<u32>
    ensures { result ≡ condition_word (S.standing run.now) address }
{
    match address {
        Some(address) => run.word(address),
        None => None,
    }
}

/// What is read at a mark in a procedure.
fn read_in<S: Standing, H: Heap>(
    heap: H,
    run: &S,
    word: u32,
    mark: Mark,
    procedure: &ProcInfo,
) -> Result<Option<ReadingAt>, Memory>
    ensures { IfOkUnless (H.may_refuse heap) result
        (λ read. read ≡ read_in (S.standing run.now) word mark procedure.now) }
{
    let Some(items) = variables_at(heap, run, &procedure.variables)? else {
        return Ok(None);
    };
    Ok(Some(ReadingAt {
        procedure: procedure.name.copied(heap)?,
        place: mark.place,
        condition: condition_of(heap, &procedure.conditions, word)?,
        items,
    }))
}

/// What a run of an image says where it stands at a mark. `None` exactly where it stands at none, where the image has no
/// condition word, and where a word that this needs is not there.
///
/// The only error is out of memory.
#[tactic(auto, unfolding(crate::specs::ReadingAt::read_from))]
pub fn read_from<S: Standing, H: Heap>(
    heap: H,
    run: &S,
    image: &Image,
) -> Result<Option<ReadingAt>, Memory>
    ensures { IfOkUnless (H.may_refuse heap) result (λ read. read ≡ read_from image.now (S.standing run.now)) }
{
    let Some(mark) = mark_there(image, run.address()) else {
        return Ok(None);
    };
    let Some(procedure) = procedure_at(&image.procedures, mark.procedure) else {
        return Ok(None);
    };
    let Some(word) = condition_word(run, image.condition_address) else {
        return Ok(None);
    };
    read_in(heap, run, word, mark, procedure)
}

/// What the memory of an image's machine says where the machine stands at a mark: the active procedure, the place in the
/// source, the condition, and the variables. `None` exactly where it stands at no mark, where the image has no condition
/// word, and where a word that this needs lies outside the window.
///
/// The only error is out of memory.
pub fn read_at<H: Heap>(
    heap: H,
    machine: &Machine,
    image: &Image,
) -> Result<Option<ReadingAt>, Memory>
    ensures { IfOkUnless (H.may_refuse heap) result (λ read. read ≡ reading_at image.now machine.now.state) }
{
    read_from(heap, &MachineAt { image, machine }, image)
}

/// The variables of a reading, as they are printed.
fn variables_of<'a, H: Heap>(
    heap: H,
    items: &'a [(Name, Shape, Vec<Shown>)],
) -> Result<Vec<Variable<'a>>, Memory>
    ensures { IfOkUnless (H.may_refuse heap) result (λ variables. map variable_of_line variables.items
        ≡ map read_variable (map (λ item. (item.0, item.1, item.2.items)) items.now)) }
{
    let mut variables = Vec::new(heap.handle());
    for item in items {
        let variable = Variable {
            name: &item.0,
            shape: item.1,
            items: &item.2,
        };
        heap.push(&mut variables, variable)?;
    }
    Ok(variables)
}

/// A reading as lines: `in PROCEDURE at PLACE`, `condition` with the condition, and each variable as `NAME = VALUE`.
///
/// Each variable has as many items as its shape. The only error is out of memory.
pub fn report_at<H: Heap>(heap: H, reading: &ReadingAt) -> Result<Vec<u8>, Memory>
    ensures { IfOkUnless (H.may_refuse heap) result (λ text. text.items ≡ reading_at_text reading.now) }
{
    let variables = variables_of(heap, &reading.items)?;
    let mut text = Vec::new(heap.handle());
    push(heap, &mut text, "in ")?;
    heap.extend_from_slice(&mut text, reading.procedure.bytes())?;
    push(heap, &mut text, " at ")?;
    push_number(heap, &mut text, reading.place)?;
    push(heap, &mut text, "\n")?;
    push_lines(heap, &mut text, Some(&reading.condition), &variables)?;
    Ok(text)
}

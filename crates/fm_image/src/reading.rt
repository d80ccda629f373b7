//! Reading images.

ghost use Rattle.std.specs.Prelude.{◌≡◌, ◌∷◌, ◌++◌, [], IfOk, Ok};
ghost use Rattle.fm_image.specs.{Image.{ImageOf}, Limits.{last_mark}, Spelling.{Spelled}, Rules.{GivesExactly, GivesImageUnless}, Fields.{place, number_at}};
ghost use Rattle.fm_image.specs.{Fields.{bytes_at, text_at}, Reading.{opening_at, window_at, numbers_at, flags_at, condition_address_at, name_at, new_name_at}};
ghost use Rattle.fm_image.specs.Reading.{count_at, conditions_at, kind_at, shape_at, slot_at, slots_at, words_at, variable_at, variables_at, procedure_at};
ghost use Rattle.fm_image.specs.Reading.{procedures_at, mark_address_at, mark_at, marks_at, both_tables_at, tables_at, image_at, read_of, ReportsFault};

use crate::code::{address_from, kind_from};
use crate::fault::{ImageFault, Refusal, Rule};
use crate::image::Image;
use crate::limit::{
    MAGIC, MOST_MARKED_CONDITIONS, UNMARKED_VERSION, is_after, is_condition_address, is_inside,
    is_name_length, is_size, is_slot_address, is_version, most_conditions,
};
use crate::procedure::{Mark, ProcInfo, VarInfo};
use crate::slot::Slot;
use crate::window::Window;
use fm_words::{Flags, MOST_WINDOW};
use name_tables::NameList;
use stack_heap::Heap;
use stack_text::{
    Kind, MOST_ARRAY, MOST_DECLARED, MOST_PROCEDURES, MOST_TEXT, Name, Shape, read_name,
};

/// The last word of the longest frame.
const MAX_OFFSET: u32 = 199;

/// A broken rule, at the field that begins what is left of a file that ends at a place.
fn refused(rule: Rule, end: usize, left: &[u8]) -> Refusal
    ensures { result ≡ record { rule = rule; place = place end left.now } }
{
    Refusal {
        rule,
        place: end.saturating_sub(left.len()) as u64,
    }
}

fn bytes(end: usize, count: usize, left: &[u8]) -> Result<(&[u8], &[u8]), Refusal>
    ensures { GivesExactly (λ x. (x.0.now, x.1.now)) result (bytes_at end count left.now) }
{
    if left.len() < count {
        return Err(refused(Rule::Truncated, end, &[]));
    }
    Ok(left.split_at(count))
}

fn number(end: usize, left: &[u8]) -> Result<(u32, &[u8]), Refusal>
    ensures { GivesExactly (λ x. (x.0, x.1.now)) result (number_at end left.now) }
{
    if left.len() < 4 {
        return Err(refused(Rule::Truncated, end, &[]));
    }
    let (front, rest) = left.split_at(4);
    let number = u32::from_be_bytes([front[0], front[1], front[2], front[3]]);
    Ok((number, rest))
}

/// The magic and the version.
fn opening(end: usize, left: &[u8]) -> Result<(u32, &[u8]), Refusal>
    ensures { GivesExactly (λ x. (x.0, x.1.now)) result (opening_at end left.now) }
{
    let (magic, rest) = bytes(end, 4, left)?;
    if magic != MAGIC {
        return Err(refused(Rule::Magic, end, left));
    }
    let (version, after) = number(end, rest)?;
    if !is_version(version) {
        return Err(refused(Rule::Version, end, rest));
    }
    Ok((version, after))
}

fn window(end: usize, left: &[u8]) -> Result<(Window, &[u8]), Refusal>
    ensures { GivesExactly (λ x. (x.0, x.1.now)) result (window_at end left.now) }
{
    let (base, left) = number(end, left)?;
    let (size, rest) = number(end, left)?;
    if !is_size(base, size) {
        return Err(refused(Rule::Limit, end, left));
    }
    let (final_pc, after) = number(end, rest)?;
    if !is_inside(base, size, final_pc) {
        return Err(refused(Rule::Limit, end, rest));
    }
    let window = Window {
        base,
        size,
        final_pc,
    };
    Ok((window, after))
}

/// So many numbers.
fn numbers<H: Heap>(
    heap: H,
    end: usize,
    count: u32,
    left: &[u8],
) -> Result<(Vec<u32>, &[u8]), ImageFault>
    ensures { GivesImageUnless (H.may_refuse heap) (λ x. (x.0.items, x.1.now)) result (numbers_at end count left.now) }
{
    let mut numbers = Vec::new(heap.handle());
    let mut rest = left;
    for _ in 0..count {
        let (next, after) = number(end, rest)?;
        heap.push(&mut numbers, next)?;
        rest = after;
    }
    Ok((numbers, rest))
}

fn flags(end: usize, left: &[u8]) -> Result<(Flags, &[u8]), Refusal>
    ensures { GivesExactly (λ x. (x.0, x.1.now)) result (flags_at end left.now) }
{
    let (bits, rest) = number(end, left)?;
    if bits > 15 {
        return Err(refused(Rule::Limit, end, left));
    }
    Ok((Flags::from_bits(bits), rest))
}

fn condition_address(
    end: usize,
    window: Window,
    left: &[u8],
) -> Result<(Option<u32>, &[u8]), Refusal>
    ensures { GivesExactly (λ x. (x.0, x.1.now)) result (condition_address_at end window left.now) }
{
    let (bits, rest) = number(end, left)?;
    let address = address_from(bits);
    if !is_condition_address(window, address) {
        return Err(refused(Rule::Address, end, left));
    }
    Ok((address, rest))
}

/// The bytes after their length.
fn text(end: usize, left: &[u8]) -> Result<(&[u8], &[u8]), Refusal>
    ensures { GivesExactly (λ x. (x.0.now, x.1.now)) result (text_at end left.now) }
{
    let (length, rest) = number(end, left)?;
    if !is_name_length(length) {
        return Err(refused(Rule::Name, end, left));
    }
    bytes(end, length as usize, rest)
}

/// A name, with its bytes in the file.
fn name<'a, H: Heap>(
    heap: H,
    end: usize,
    left: &'a [u8],
) -> Result<(Name, &'a [u8], &'a [u8]), ImageFault>
    ensures name { GivesImageUnless (H.may_refuse heap) (λ x. (x.0, x.2.now)) result (name_at end left.now) }
    ensures bytes { IfOk result (λ x. x.1.now ≡ x.0) }
{
    let (text, rest) = text(end, left)?;
    match read_name(heap, text)? {
        Some(name) => Ok((name, text, rest)),
        None => Err(refused(Rule::Name, end, left).into()),
    }
}

/// A name after the earlier ones of its list, which is entered among them.
fn new_name<'a, H: Heap>(
    heap: H,
    end: usize,
    names: &mut NameList<'a>,
    left: &'a [u8],
) -> Result<(Name, &'a [u8]), ImageFault>
    ensures name { GivesImageUnless (H.may_refuse heap) (λ x. (x.0, x.1.now)) result
        (new_name_at end names.old left.now) }
    ensures entered { IfOk result (λ x. names.new ≡ names.old ++ x.0 ∷ []) }
{
    let (name, bytes, rest) = name(heap, end, left)?;
    let new = names.enter(heap, bytes)?;
    if !new {
        return Err(refused(Rule::Repeated, end, left).into());
    }
    Ok((name, rest))
}

/// How many items follow, where there is a limit.
fn count(most: u32, end: usize, left: &[u8]) -> Result<(u32, &[u8]), Refusal>
    ensures { GivesExactly (λ x. (x.0, x.1.now)) result (count_at most end left.now) }
{
    let (count, rest) = number(end, left)?;
    if count > most {
        return Err(refused(Rule::Limit, end, left));
    }
    Ok((count, rest))
}

/// At most so many names of conditions.
#[tactic(auto, unfolding(crate::specs::Reading::conditions_at))]
fn conditions<H: Heap>(
    heap: H,
    most: u32,
    end: usize,
    left: &[u8],
) -> Result<(Vec<Name>, &[u8]), ImageFault>
    ensures { GivesImageUnless (H.may_refuse heap) (λ x. (x.0.items, x.1.now)) result
        (conditions_at most end left.now) }
{
    let (count, mut rest) = count(most, end, left)?;
    let mut names = NameList::new(heap.handle());
    let mut conditions = Vec::new(heap.handle());
    for _ in 0..count {
        let (next, after) = new_name(heap, end, &mut names, rest)?;
        heap.push(&mut conditions, next)?;
        rest = after;
    }
    Ok((conditions, rest))
}

fn kind(end: usize, left: &[u8]) -> Result<(Kind, &[u8]), Refusal>
    ensures { GivesExactly (λ x. (x.0, x.1.now)) result (kind_at end left.now) }
{
    let (bits, rest) = number(end, left)?;
    if bits > 2 {
        return Err(refused(Rule::Limit, end, left));
    }
    Ok((kind_from(bits), rest))
}

fn shape(end: usize, left: &[u8]) -> Result<(Shape, &[u8]), Refusal>
    ensures { GivesExactly (λ x. (x.0, x.1.now)) result (shape_at end left.now) }
{
    let (kind, rest) = kind(end, left)?;
    let (length, after) = number(end, rest)?;
    if length > MOST_ARRAY {
        return Err(refused(Rule::Limit, end, rest));
    }
    Ok((Shape { kind, length }, after))
}

/// A slot, after those that were read before.
#[tactic(auto, unfolding(crate::specs::Reading::slot_at))]
fn slot<'a, H: Heap>(
    heap: H,
    end: usize,
    window: Window,
    names: &mut NameList<'a>,
    left: &'a [u8],
) -> Result<(Slot, &'a [u8]), ImageFault>
    ensures slot { GivesImageUnless (H.may_refuse heap) (λ x. (x.0, x.1.now)) result
        (slot_at end window names.old left.now) }
    ensures entered { IfOk result (λ x. names.new ≡ names.old ++ x.0.name ∷ []) }
{
    let (name, left) = new_name(heap, end, names, left)?;
    let (shape, left) = shape(end, left)?;
    let (address, rest) = number(end, left)?;
    if !is_slot_address(window, shape, address) {
        return Err(refused(Rule::Address, end, left).into());
    }
    let slot = Slot {
        name,
        shape,
        address,
    };
    Ok((slot, rest))
}

#[tactic(auto, unfolding(crate::specs::Reading::slots_at))]
fn slots<H: Heap>(
    heap: H,
    end: usize,
    window: Window,
    left: &[u8],
) -> Result<(Vec<Slot>, &[u8]), ImageFault>
    ensures { GivesImageUnless (H.may_refuse heap) (λ x. (x.0.items, x.1.now)) result (slots_at end window left.now) }
{
    let (count, mut rest) = count(MOST_DECLARED as u32, end, left)?;
    let mut names = NameList::new(heap.handle());
    let mut slots = Vec::new(heap.handle());
    for _ in 0..count {
        let (next, after) = slot(heap, end, window, &mut names, rest)?;
        heap.push(&mut slots, next)?;
        rest = after;
    }
    Ok((slots, rest))
}

#[tactic(auto, unfolding(crate::specs::Reading::words_at))]
fn words<H: Heap>(
    heap: H,
    end: usize,
    window: Window,
    left: &[u8],
) -> Result<(Vec<u32>, &[u8]), ImageFault>
    ensures { GivesImageUnless (H.may_refuse heap) (λ x. (x.0.items, x.1.now)) result (words_at end window left.now) }
{
    let (count, rest) = count(window.size, end, left)?;
    numbers(heap, end, count, rest)
}

/// A variable, after those whose names were entered.
#[tactic(auto, unfolding(crate::specs::Reading::variable_at))]
fn variable<'a, H: Heap>(
    heap: H,
    end: usize,
    names: &mut NameList<'a>,
    left: &'a [u8],
) -> Result<(VarInfo, &'a [u8]), ImageFault>
    ensures variable { GivesImageUnless (H.may_refuse heap) (λ x. (x.0, x.1.now)) result
        (variable_at end names.old left.now) }
    ensures entered { IfOk result (λ x. names.new ≡ names.old ++ x.0.name ∷ []) }
{
    let (name, left) = new_name(heap, end, names, left)?;
    let (shape, left) = shape(end, left)?;
    let (offset, rest) = number(end, left)?;
    if offset > MAX_OFFSET {
        return Err(refused(Rule::Limit, end, left).into());
    }
    let variable = VarInfo {
        name,
        shape,
        offset,
    };
    Ok((variable, rest))
}

#[tactic(auto, unfolding(crate::specs::Reading::variables_at))]
fn variables<H: Heap>(heap: H, end: usize, left: &[u8]) -> Result<(Vec<VarInfo>, &[u8]), ImageFault>
    ensures { GivesImageUnless (H.may_refuse heap) (λ x. (x.0.items, x.1.now)) result (variables_at end left.now) }
{
    let (count, mut rest) = count(MOST_DECLARED as u32, end, left)?;
    let mut names = NameList::new(heap.handle());
    let mut variables = Vec::new(heap.handle());
    for _ in 0..count {
        let (next, after) = variable(heap, end, &mut names, rest)?;
        heap.push(&mut variables, next)?;
        rest = after;
    }
    Ok((variables, rest))
}

/// A procedure, after those whose names were entered.
#[tactic(auto, unfolding(crate::specs::Reading::procedure_at))]
fn procedure<'a, H: Heap>(
    heap: H,
    end: usize,
    names: &mut NameList<'a>,
    left: &'a [u8],
) -> Result<(ProcInfo, &'a [u8]), ImageFault>
    ensures procedure { GivesImageUnless (H.may_refuse heap) (λ x. (x.0, x.1.now)) result
        (procedure_at end names.old left.now) }
    ensures entered { IfOk result (λ x. names.new ≡ names.old ++ x.0.name ∷ []) }
{
    let (name, left) = new_name(heap, end, names, left)?;
    let (conditions, left) = conditions(heap, MOST_MARKED_CONDITIONS, end, left)?;
    let (variables, rest) = variables(heap, end, left)?;
    let procedure = ProcInfo {
        name,
        conditions,
        variables,
    };
    Ok((procedure, rest))
}

#[tactic(auto, unfolding(crate::specs::Reading::procedures_at))]
fn procedures<H: Heap>(
    heap: H,
    end: usize,
    left: &[u8],
) -> Result<(Vec<ProcInfo>, &[u8]), ImageFault>
    ensures { GivesImageUnless (H.may_refuse heap) (λ x. (x.0.items, x.1.now)) result (procedures_at end left.now) }
{
    let (count, mut rest) = count(MOST_PROCEDURES as u32, end, left)?;
    let mut names = NameList::new(heap.handle());
    let mut procedures = Vec::new(heap.handle());
    for _ in 0..count {
        let (next, after) = procedure(heap, end, &mut names, rest)?;
        heap.push(&mut procedures, next)?;
        rest = after;
    }
    Ok((procedures, rest))
}

/// The last of the marks.
fn last_mark(marks: &[Mark]) -> Option<Mark>
    ensures { result ≡ last_mark marks.now }
{
    marks.last().copied()
}

/// The address of a mark, behind the mark before.
fn mark_address<'a>(
    end: usize,
    window: Window,
    before: Option<Mark>,
    left: &'a [u8],
) -> Result<(u32, &'a [u8]), Refusal>
    ensures { GivesExactly (λ x. (x.0, x.1.now)) result
        (mark_address_at end window before left.now) }
{
    let (address, rest) = number(end, left)?;
    if !is_inside(window.base, window.size, address) {
        return Err(refused(Rule::Address, end, left));
    }
    if !is_after(before, address) {
        return Err(refused(Rule::Order, end, left));
    }
    Ok((address, rest))
}

/// A mark, for so many procedures, behind the mark before.
#[tactic(auto, unfolding(crate::specs::Reading::mark_at))]
fn mark<'a>(
    end: usize,
    window: Window,
    procedures: u32,
    before: Option<Mark>,
    left: &'a [u8],
) -> Result<(Mark, &'a [u8]), Refusal>
    ensures { GivesExactly (λ x. (x.0, x.1.now)) result
        (mark_at end window procedures before left.now) }
{
    let (address, left) = mark_address(end, window, before, left)?;
    let (procedure, rest) = number(end, left)?;
    if procedure >= procedures {
        return Err(refused(Rule::Limit, end, left));
    }
    let (place, after) = number(end, rest)?;
    if place >= MOST_TEXT {
        return Err(refused(Rule::Limit, end, rest));
    }
    let mark = Mark {
        address,
        procedure,
        place,
    };
    Ok((mark, after))
}

#[tactic(auto, unfolding(crate::specs::Reading::marks_at))]
fn marks<H: Heap>(
    heap: H,
    end: usize,
    window: Window,
    procedures: u32,
    left: &[u8],
) -> Result<(Vec<Mark>, &[u8]), ImageFault>
    ensures { GivesImageUnless (H.may_refuse heap) (λ x. (x.0.items, x.1.now)) result
        (marks_at end window procedures left.now) }
{
    let (count, mut rest) = count(MOST_WINDOW, end, left)?;
    let mut marks: Vec<Mark> = Vec::new(heap.handle());
    for _ in 0..count {
        let before = last_mark(&marks);
        let (next, after) = mark(end, window, procedures, before, rest)?;
        heap.push(&mut marks, next)?;
        rest = after;
    }
    Ok((marks, rest))
}

/// Procedures, and marks that name them by their numbers.
#[tactic(auto, unfolding(crate::specs::Reading::both_tables_at))]
fn both_tables<H: Heap>(
    heap: H,
    end: usize,
    window: Window,
    left: &[u8],
) -> Result<(Vec<ProcInfo>, Vec<Mark>, &[u8]), ImageFault>
    ensures { GivesImageUnless (H.may_refuse heap)
        (λ x. (record { procedures = x.0.items; marks = x.1.items }, x.2.now)) result
        (both_tables_at end window left.now) }
{
    let (procedures, left) = procedures(heap, end, left)?;
    let (marks, rest) = marks(heap, end, window, procedures.len() as u32, left)?;
    Ok((procedures, marks, rest))
}

/// The fields that only version 2 has.
#[tactic(auto, unfolding(crate::specs::Reading::tables_at))]
fn tables<H: Heap>(
    heap: H,
    version: u32,
    end: usize,
    window: Window,
    left: &[u8],
) -> Result<(Vec<ProcInfo>, Vec<Mark>, &[u8]), ImageFault>
    ensures { GivesImageUnless (H.may_refuse heap)
        (λ x. (record { procedures = x.0.items; marks = x.1.items }, x.2.now)) result
        (tables_at version end window left.now) }
{
    if version == UNMARKED_VERSION {
        return Ok((Vec::new(heap.handle()), Vec::new(heap.handle()), left));
    }
    both_tables(heap, end, window, left)
}

/// The fields of its version, and nothing after them.
#[tactic(auto, unfolding(crate::specs::Reading::image_at))]
fn image<H: Heap>(heap: H, end: usize, left: &[u8]) -> Result<Image, ImageFault>
    ensures { GivesImageUnless (H.may_refuse heap) (λ image. image) result (image_at end left.now) }
{
    let (version, rest) = opening(end, left)?;
    let (window, rest) = window(end, rest)?;
    let (registers, rest) = numbers(heap, end, 16, rest)?;
    let (flags, rest) = flags(end, rest)?;
    let (condition_address, rest) = condition_address(end, window, rest)?;
    let (conditions, rest) = conditions(heap, most_conditions(version), end, rest)?;
    let (slots, rest) = slots(heap, end, window, rest)?;
    let (words, rest) = words(heap, end, window, rest)?;
    let (procedures, marks, rest) = tables(heap, version, end, window, rest)?;
    if !rest.is_empty() {
        return Err(refused(Rule::Trailing, end, rest).into());
    }
    Ok(Image {
        version,
        base: window.base,
        size: window.size,
        final_pc: window.final_pc,
        registers,
        flags,
        condition_address,
        conditions,
        slots,
        words,
        procedures,
        marks,
    })
}

/// The image that an image file has.
///
/// It reserves for what it has read, and not by a count alone: a count that the file has no bytes for costs nothing.
///
/// # Errors
///
/// The first rule of `docs/languages/image-file.md` that the bytes break, read from left to right, and its place; or out
/// of memory.
pub fn read_image<H: Heap>(heap: H, bytes: &[u8]) -> Result<Image, ImageFault>
    // What is read is spelled so, each byte of the file.
    ensures found { IfOk result (λ image. Spelled bytes.now image) }
    // Where the bytes spell an image, that image is read, or memory runs out where the heap may refuse.
    ensures only { (image : ImageOf) → Spelled bytes.now image →
        GivesImageUnless (H.may_refuse heap) (λ read. read) result (Ok image) }
    // An error is the first fault of the file.
    ensures fault { ReportsFault bytes.now result }
    ensures exact { GivesImageUnless (H.may_refuse heap) (λ image. image) result (read_of bytes.now) }
{
    image(heap, bytes.len(), bytes)
}

//! Words of code that a pass has made, while not all addresses are known.

ghost use Rattle.std.specs.Prelude.{◌≡◌, ◌+◌, ◌<◌, ◌^◌, ◌++◌, ◌∷◌, [], OnOk, length};
ghost use Rattle.stack_heap.specs.Heaps.{OnOkUnless};
ghost use Rattle.piton_check.specs.Instruction.{system_view};
ghost use Rattle.piton_semantics.specs.{Fits.{Each}, Placed.{end_of, addresses_of}, Templates.{word_of, words_of}};
ghost use Rattle.piton_linker.specs.{Drafts.{IsRow, known_place, known_word, filled, drafted, IsFixUp, IsDraft}, Tables.{table_of, PieceExists}};

use crate::table::{Table, word};
use piton_check::{Piece, Resolved};
use stack_heap::Heap;
use stack_text::Memory;
use std::alloc::Global;
use std::marker::Model;

/// A word that is not known yet: its place among the words, and what it stands for.
#[derive(Clone, Copy, Debug, PartialEq, Eq)]
pub(crate) struct FixUp {
    pub(crate) place: u32,
    pub(crate) piece: Piece,
}

/// The words so far. Where one needs an address that is not known yet there is a zero, and a fix-up says what it stands for.
#[derive(Drop)]
pub(crate) struct Draft {
    words: Vec<u32>,
    fixups: Vec<FixUp>,
}

impl Model for Draft {
    ghost use Rattle.piton_linker.specs.Drafts.{DraftOf};

    ghost Value = { DraftOf };

    ghost view = { λ d. record { words = d.words.items; fixups = d.fixups.items } };
}

impl Draft {
    /// A draft without words.
    pub(crate) fn new(alloc: Global) -> Draft
        ensures { result ≡ record { words = []; fixups = [] } }
    {
        Draft {
            words: Vec::new(alloc),
            fixups: Vec::new(alloc),
        }
    }

    /// The address of the next word.
    pub(crate) fn next(&self, checked: &Resolved) -> u32
        requires { (system_view checked.now).base + length self.now.words < 2 ^ 32 }
        ensures { result ≡ (system_view checked.now).base + length self.now.words }
    {
        checked.base + self.words.len() as u32
    }

    /// Appends the word of a piece that stands inside a program, whose first places have these addresses.
    pub(crate) fn push<H: Heap>(
        &mut self,
        heap: H,
        checked: &Resolved,
        program: u32,
        row: &[u32],
        piece: Piece,
    ) -> Result<(), Memory>
        requires draft { IsDraft (system_view checked.now) self.old }
        requires row { IsRow (system_view checked.now) program row.now }
        requires named { PieceExists (system_view checked.now) piece }
        requires room { (system_view checked.now).base + length self.old.words + 2 < 2 ^ 32 }
        ensures draft { OnOkUnless (H.may_refuse heap) result (IsDraft (system_view checked.now) self.new) }
        ensures words { OnOk result (drafted (system_view checked.now) self.new
            ≡ drafted (system_view checked.now) self.old
            ++ word_of (addresses_of (system_view checked.now))
            ((system_view checked.now).base + length self.old.words) piece ∷ []) }
    {
        let place = self.words.len() as u32;
        match known(program, row, checked.base + place, piece) {
            Some(word) => heap.push(&mut self.words, word)?,
            None => {
                heap.push(&mut self.fixups, FixUp { place, piece })?;
                heap.push(&mut self.words, 0)?;
            }
        }
        Ok(())
    }

    /// Appends the words of pieces that stand inside a program, whose first places have these addresses.
    pub(crate) fn append<H: Heap>(
        &mut self,
        heap: H,
        checked: &Resolved,
        program: u32,
        row: &[u32],
        pieces: &[Piece],
    ) -> Result<(), Memory>
        requires draft { IsDraft (system_view checked.now) self.old }
        requires row { IsRow (system_view checked.now) program row.now }
        requires named { Each (PieceExists (system_view checked.now)) pieces.now }
        requires room { (system_view checked.now).base + length self.old.words + length pieces.now + 2 < 2 ^ 32 }
        ensures draft { OnOkUnless (H.may_refuse heap) result (IsDraft (system_view checked.now) self.new) }
        ensures words { OnOk result (drafted (system_view checked.now) self.new
            ≡ drafted (system_view checked.now) self.old
            ++ words_of (addresses_of (system_view checked.now))
            ((system_view checked.now).base + length self.old.words) pieces.now) }
    {
        for piece in pieces {
            self.push(heap, checked, program, row, *piece)?;
        }
        Ok(())
    }

    /// The words, once all addresses are known.
    pub(crate) fn complete(self, table: &Table, checked: &Resolved) -> Vec<u32>
        requires table { table.now ≡ table_of (system_view checked.now) }
        requires fits { end_of (system_view checked.now) < 2 ^ 32 }
        requires draft { IsDraft (system_view checked.now) self }
        requires room { (system_view checked.now).base + length self.words + 2 < 2 ^ 32 }
        ensures { result.items ≡ drafted (system_view checked.now) self }
    {
        let Draft { mut words, fixups } = self;
        fill(&mut words, table, checked, fixups.as_slice());
        words
    }
}

/// The word of a piece that stands at an address inside a program, where no addresses are needed but those of the program's
/// first places.
fn known(inside: u32, row: &[u32], at: u32, piece: Piece) -> Option<u32>
    requires { at + 2 < 2 ^ 32 }
    ensures { result ≡ known_word inside row.now at piece }
{
    match piece {
        Piece::Code(word) => Some(word),
        Piece::Number(number) => Some(number),
        Piece::Place { program, place } => known_place(inside, row, program, place),
        Piece::Table => Some(at + 2),
        Piece::Entry { .. }
        | Piece::Area { .. }
        | Piece::TempEnd { .. }
        | Piece::TempStart
        | Piece::CtrlStart => None,
    }
}

/// The address of a place, where it is one of a program's first.
fn known_place(inside: u32, row: &[u32], program: u32, place: u32) -> Option<u32>
    ensures { result ≡ known_place inside row.now program place }
{
    if program == inside {
        row.get(place as usize).copied()
    } else {
        None
    }
}

/// Fills the places of fix-ups.
fn fill(words: &mut Vec<u32>, table: &Table, checked: &Resolved, fixups: &[FixUp])
    requires table { table.now ≡ table_of (system_view checked.now) }
    requires fits { end_of (system_view checked.now) < 2 ^ 32 }
    requires there { Each (IsFixUp (system_view checked.now) (length words.old.items)) fixups.now }
    requires room { (system_view checked.now).base + length words.old.items + 2 < 2 ^ 32 }
    ensures { words.new.items ≡ filled (addresses_of (system_view checked.now)) words.old.items fixups.now }
{
    for fixup in fixups {
        let at = checked.base + fixup.place;
        words[fixup.place as usize] = word(table, checked, at, fixup.piece);
    }
}

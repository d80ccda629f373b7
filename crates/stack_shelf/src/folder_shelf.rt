//! A shelf over the files of a folder.
ghost use Rattle.std.specs.Prelude.{◌≡◌, ◌≤◌, length, IfOk};
ghost use Rattle.stack_shelf.specs.{Causes.{NoneFell}, System.{for_each_name, folder_after_fetch, folder_after_store}};

use crate::replacing::store_at;
use crate::streams::fetch_from;
use crate::{FetchFault, Shelf, StoreFault};
use std::alloc::Global;
use std::fs;
use std::marker::Model;
use std::path::PathBuf;
use std::rt::Files;

/// The files of one folder, through the system.
///
/// A name is a path from that folder on; `""` as the folder is the current one. Contracts say nothing of
/// the files, since other programs may change them. The shelf keeps one count of each kind for all names
/// together, and adds one at each `Err` of that kind, up to `u64::MAX`.
///
/// A `store` that fails, or during which the program is ended, leaves an ordinary file as it was, and perhaps a file `partly-stored-1` or
/// the like beside it. What it has to write in place may be left with a prefix of the bytes. Reads and writes that were interrupted are tried
/// again.
#[derive(Drop)]
pub struct FolderShelf<R: Files + Drop> {
    rt: R,
    alloc: Global,
    folder: PathBuf,
    faults: u64,
    absences: u64,
    overruns: u64,
}

impl<R: Files + Drop> Model for FolderShelf<R> {
    ghost use Rattle.stack_shelf.specs.System.{FolderShelfOf};

    ghost Value = { FolderShelfOf };

    ghost view = { λ s. record { faults = s.faults; absences = s.absences; overruns = s.overruns } };
}

impl<R: Files + Drop> FolderShelf<R> {
    /// A shelf over a folder, with every count at 0. It touches no file.
    pub fn new(alloc: Global, rt: R, folder: PathBuf) -> FolderShelf<R>
        ensures { result ≡ record { faults = 0; absences = 0; overruns = 0 } }
    {
        FolderShelf {
            rt,
            alloc,
            folder,
            faults: 0,
            absences: 0,
            overruns: 0,
        }
    }
}

impl<R: Files + Drop> Shelf for FolderShelf<R> {
    ghost use Rattle.std.specs.Prelude.{None};
    ghost use Rattle.stack_shelf.specs.System.{for_each_name};

    ghost files = { λ _. None };

    ghost counts = { for_each_name };

    ghost gave = { λ s _ _. s };

    ghost got = { λ s _ _. s };

    ghost may_refuse = { Unit {0} };

    fn fetch(&mut self, alloc: Global, name: &str, limit: u64) -> Result<Vec<u8>, FetchFault>
        ensures length { IfOk result (λ bytes. length bytes.items ≤ limit) }
        ensures counts { NoneFell (for_each_name self.old) (for_each_name self.new) }
        ensures after { self.new ≡ folder_after_fetch self.old result }
    {
        let path = self.folder.join(alloc, name)?;
        let fetched = fetch_from(alloc, fs::open(&self.rt, path.as_path()), limit);
        match fetched {
            Err(FetchFault::Missing) => self.absences = self.absences.saturating_add(1),
            Err(FetchFault::TooLong) => self.overruns = self.overruns.saturating_add(1),
            Err(FetchFault::Failed) => self.faults = self.faults.saturating_add(1),
            Ok(_) | Err(FetchFault::Memory) => {}
        }
        fetched
    }

    fn store(&mut self, name: &str, bytes: &[u8]) -> Result<(), StoreFault>
        ensures counts { NoneFell (for_each_name self.old) (for_each_name self.new) }
        ensures after { self.new ≡ folder_after_store self.old result }
    {
        let path = self.folder.join(self.alloc, name)?;
        let stored = store_at(self.alloc, &self.rt, path.as_path(), bytes);
        if stored == Err(StoreFault::Failed) {
            self.faults = self.faults.saturating_add(1);
        }
        stored
    }
}

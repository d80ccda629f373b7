//! Bytes that are put under a path of the system. Where that can be, the old file gives way to a new one that is whole.
ghost use Rattle.std.specs.{Prelude.{◌≡◌, OnOk}, Io.KnownBytes.{Appends}};
ghost use Rattle.stack_shelf.specs.Streams.{is_refusal};

use crate::StoreFault;
use crate::streams::{store_into, write_whole};
use std::alloc::{AllocError, Global};
use std::fs::{Metadata, OpenFile, OpenOptions, Permissions};
use std::io::{ErrorKind, Write};
use std::os::unix::fs::{MetadataExt, OpenOptionsExt, PermissionsExt};
use std::path::{Path, PathBuf};
use std::rt::Files;
use std::{fs, io};

/// How many names there are for a file that isn't whole yet.
const MOST_PARTS: u32 = 1000;

/// The bits of a mode that say who may read, write and run a file.
const RIGHTS: u32 = 0o777;

/// The rights with which a new file is made, but for those that the process keeps back.
const NEW: u32 = 0o666;

/// The rights of a file that is to replace one, until it is given those of the old one.
const PRIVATE: u32 = 0o600;

/// The name by which the system leads to what standard output is open on.
const STANDARD_OUTPUT: &str = "/proc/self/fd/1";

/// A new file beside the one that it is to replace.
#[derive(Drop)]
struct Part<F: Drop> {
    file: F,
    path: PathBuf,
}

/// Puts bytes under a path, in place of what is there.
///
/// An ordinary file with no other name, or none, gives way to a new file: it is written beside it under the first free name of
/// `partly-stored-1`, `partly-stored-2`, .., and is renamed once the system has all of it. It has the rights of the old one. All else is
/// written in place: what is no ordinary file, is reached by a link or has a second name, whose owner or group a new file wouldn't have, or
/// beside which the system allows no other.
///
/// The ordinary file that standard output is open on is refused: what is printed would stand over the bytes, or be lost with the old file.
///
/// # Errors
///
/// `Failed` where the system fails, and for that file; what was to give way is then as it was. `Memory` before anything was written.
pub fn store_at<R: Files>(
    alloc: Global,
    rt: &R,
    path: Path<'_>,
    bytes: &[u8],
) -> Result<(), StoreFault> {
    // Asked before the file is opened, which takes the place of a standard output that is closed.
    let output = fs::metadata(rt, STANDARD_OUTPUT);
    let there = match OpenOptions::new().write(true).open(rt, path) {
        Ok(file) if is_output(&file, &output) => return Err(StoreFault::Failed),
        Ok(file) => Some(file),
        Err(e) if e.kind() == ErrorKind::NotFound => None,
        Err(_) => return Err(StoreFault::Failed),
    };
    if gives_way(rt, path, there.as_ref()) {
        let rights = if there.is_some() { PRIVATE } else { NEW };
        let part = part_beside(alloc, rt, path, rights)?;
        match replaced(rt, path, part, there.as_ref(), bytes) {
            Err(e) if is_refusal(e.kind()) => {}
            replaced => return replaced.map_err(|_| StoreFault::Failed),
        }
    }
    store_into(&mut emptied(rt, path, there), bytes)
}

/// Whether an opened file is the ordinary file that standard output was open on, by whatever name it was reached.
fn is_output<F: OpenFile>(file: &F, output: &io::Result<Metadata>) -> bool {
    match (file.metadata(), output) {
        (Ok(file), Ok(output)) => {
            file.is_file() && (file.dev(), file.ino()) == (output.dev(), output.ino())
        }
        _ => false,
    }
}

/// Whether what is under a path can give way to a new file: there is none, or it is an ordinary one with this name alone.
fn gives_way<R: Files>(rt: &R, path: Path<'_>, there: Option<&R::File>) -> bool {
    match (
        fs::symlink_metadata(rt, path),
        there.map(|file| file.metadata()),
    ) {
        (Err(e), None) => e.kind() == ErrorKind::NotFound,
        (Ok(named), Some(Ok(opened))) => named.is_file() && opened.is_file() && opened.nlink() == 1,
        _ => false,
    }
}

/// A new file beside a path, under the first name that is free.
fn part_beside<R: Files>(
    alloc: Global,
    rt: &R,
    path: Path<'_>,
    rights: u32,
) -> Result<io::Result<Part<R::File>>, AllocError> {
    for number in 1..=MOST_PARTS {
        let name = format!(in alloc; "partly-stored-{number}")?;
        let beside = path.with_file_name(alloc, name.as_str())?;
        let made = OpenOptions::new()
            .write(true)
            .create_new(true)
            .mode(rights)
            .open(rt, beside.as_path());
        match made {
            Err(e) if e.kind() == ErrorKind::AlreadyExists => {}
            Ok(file) => return Ok(Ok(Part { file, path: beside })),
            Err(e) => return Ok(Err(e)),
        }
    }
    Ok(Err(ErrorKind::AlreadyExists.into()))
}

/// Fills a part and renames it. Where that fails, it is removed.
fn replaced<R: Files>(
    rt: &R,
    path: Path<'_>,
    part: io::Result<Part<R::File>>,
    there: Option<&R::File>,
    bytes: &[u8],
) -> io::Result<()> {
    let mut part = part?;
    let renamed = filled(&mut part.file, there, bytes).and_then(|()| fs::rename(
        rt,
        part.path.as_path(),
        path,
    ));
    if renamed.is_err() {
        let _ = fs::remove_file(rt, part.path.as_path());
    }
    renamed
}

/// Gives a new file the rights of the old one and all bytes, and waits until the system has them.
fn filled<F: Write + OpenFile>(file: &mut F, there: Option<&F>, bytes: &[u8]) -> io::Result<()>
    ensures { OnOk result (Appends (F.contents file.old) (F.contents file.new) bytes.now) }
{
    if let Some(old) = there {
        take_rights(file, &old.metadata()?)?;
    }
    write_whole(file, bytes)?;
    file.sync_all()
}

/// Gives a new file the rights of an old one. It is refused where they don't have the same owner and group.
fn take_rights<F: OpenFile>(file: &F, old: &Metadata) -> io::Result<()> {
    let new = file.metadata()?;
    if (new.uid(), new.gid()) != (old.uid(), old.gid()) {
        return Err(ErrorKind::PermissionDenied.into());
    }
    file.set_permissions(Permissions::from_mode(old.mode() & RIGHTS))
}

/// What is under a path, with nothing in it where it is an ordinary file, or a new file.
fn emptied<R: Files>(rt: &R, path: Path<'_>, there: Option<R::File>) -> io::Result<R::File> {
    let Some(file) = there else {
        return fs::create(rt, path);
    };
    if file.metadata()?.is_file() {
        file.set_len(0)?;
    }
    Ok(file)
}

/// Whether an error says that the system allows no such file here, and not that it failed.
fn is_refusal(kind: ErrorKind) -> bool
    ensures { result ≡ is_refusal kind }
{
    matches!(
        kind,
        ErrorKind::PermissionDenied
            | ErrorKind::ReadOnlyFilesystem
            | ErrorKind::InvalidFilename
            | ErrorKind::ResourceBusy
            | ErrorKind::Unsupported
    )
}

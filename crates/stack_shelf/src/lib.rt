//! A program's files, its output, and the lines that it is given.
//!
//! Code above this crate reads and writes through three traits, and never through the system itself:
//! a [`Shelf`] has files under names, a [`Sink`] takes bytes in order, and [`Lines`] give one line after the other. Each has two
//! implementations. Of [`MemoryShelf`], [`MemorySink`] and [`MemoryLines`] all content is known, and they fail at the calls that their
//! makers name, so a proof or a test can speak of every file and of every fault.
//! [`FolderShelf`], [`StdoutSink`] and [`StdinLines`] are the edge to the system; of these only the counts are known.
//!
//! # What contracts know of a device
//!
//! An implementation says by ghost members what it is to a proof. `files`, `taken` and `ahead` are its
//! content, or `None` where other programs may change it unseen; then no clause speaks of content.
//! `counts`, `faults` and `overruns` say how often something went wrong. A count never falls, and it rises at
//! each fault of its kind. Code that holds a shelf only by its trait can't raise a count except by
//! a call, so a count that rose is evidence that a call of the shelf raised it.
//!
//! `gave`, `got`, `took`, `came` and `ended` say what a device is after a call that went well. By them a caller's clause tells which calls it
//! made, in which order and with what, over every device. `came` and `ended` are told the sink as it is when a line is asked for, so a clause can
//! say what was printed before that.
//!
//! `may_refuse` says whether a device may have no memory for a call. It is told of the type, so no clause has to say that a call
//! leaves it. Standard output takes none, and of the other five devices nothing is known.
//!
//! # Without copies
//!
//! `fetch_shared`, `store_owned` and `offer` have bodies in the traits, by the other methods. Their clauses are those of `fetch` and
//! `store`, and that nothing changes. A device that keeps what it gave, got or took has other bodies, and copies no bytes.
//!
//! # The edge
//!
//! `FolderShelf` and `StdoutSink` open a stream and hand it to a function that is generic over `Read`
//! or `Write`, whose contract names the bytes: which fault an error of opening or writing is, and that all
//! bytes are read or written, is proved there. That a read which breaks is a fault is tested, since std's
//! `Read` doesn't say when a read fails. What is left to trust is that the stream is opened at the right path and that the
//! call's own arguments are handed on, and that the ordinary file of standard output is told from others. A store of the folder first writes a file of another name, and renames it: that it has
//! all bytes by then is proved, and what the calls between do is tested.
//!
//! # Another shelf
//!
//! 1. Keep the counts as `u64`, and add with `saturating_add`: `Rose` allows for the last value.
//!    One count of each kind may serve all names; `Counts` is then three functions that look at no
//!    name.
//! 2. Give the struct an `impl Model` whose value is a record of what the members read, as
//!    `FolderShelfOf` or `MemoryShelfOf`.
//! 3. Say in a clause of your own what the value is after each answer, as `after` does in the six
//!    of this crate. Such clauses replace the trait's and have to imply them. Repeat
//!    `counts` (of a sink, `faults`), since a model doesn't show that a count fits a `u64`.
//! 4. `gave` and `got` are what that value is after such a call: the shelf itself where it is as before.
//! 5. `may_refuse` is `⊥` where no call returns out of memory, and else `Unit {0}`.
//! 6. `files`, where they are told, is a list: a file that is stored again keeps its place, and a new
//!    name comes last.
#![tactic(auto)]

mod failing;
mod fault;
mod folder_shelf;
mod line_reading;
mod lines;
mod memory_lines;
mod memory_shelf;
mod memory_sink;
mod replacing;
mod shelf;
mod sink;
mod stdin_lines;
mod stdout_sink;
mod streams;

pub use fault::{FetchFault, LineFault, PutFault, StoreFault};
pub use folder_shelf::FolderShelf;
pub use lines::Lines;
pub use memory_lines::MemoryLines;
pub use memory_shelf::MemoryShelf;
pub use memory_sink::MemorySink;
pub use shelf::Shelf;
pub use sink::Sink;
pub use stdin_lines::StdinLines;
pub use stdout_sink::StdoutSink;

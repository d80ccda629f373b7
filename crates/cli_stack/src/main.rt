//! The short stack as one program: runs the words of its command line over the files of the current folder.
#![tactic(auto)]

mod conversing;
mod driver;
mod in_memory;
mod late_lines;
mod laws;
mod moments;
mod program;
mod ran;
mod serving;

use command_line::exit_code;
use device_logs::{LoggedLines, LoggedShelf, LoggedSink};
use late_lines::LateLines;
use level_debuggers::{CostWatch, CountWatch, LastWatch, PeakWatch, Watch};
use serving::serve;
use stack_shelf::{FolderShelf, StdoutSink};
use std::alloc::Global;
use std::path::PathBuf;
use std::process::ExitCode;
use std::rt::Env;
use std::{env, io};

/// The words after the program's name.
fn arguments(alloc: Global, rt: &(impl Env + AllocGlobal)) -> io::Result<Vec<String>> {
    let mut words = Vec::new(alloc);
    for word in env::args(rt)?.skip(1) {
        words.push(word)?;
    }
    Ok(words)
}

/// Serves the words of the command line over the current folder, the lines of standard input and standard output, with a watch of each rule.
fn run(rt: HostRuntime) -> io::Result<u8> {
    let alloc = rt.alloc();
    let words = arguments(alloc, &rt)?;
    let count = Box::new(alloc, CountWatch::new())?;
    let cost = Box::new(alloc, CostWatch::new())?;
    let last = Box::new(alloc, LastWatch::new())?;
    let peak = Box::new(alloc, PeakWatch::new())?;
    let watches: [Box<dyn Watch>; 4] = [count, cost, last, peak];
    let watches = Vec::from_array(alloc, watches)?;
    let folder = FolderShelf::new(alloc, rt, PathBuf::new(alloc));
    let mut shelf = LoggedShelf::new(alloc, folder);
    let mut lines = LoggedLines::new(alloc, LateLines::new(rt.stdin()));
    let mut out = LoggedSink::new(alloc, StdoutSink::new(rt));
    let mut kept = None;
    Ok(serve(
        alloc, &words, &mut shelf, &mut lines, &mut out, &mut kept, watches,
    ))
}

fn main(rt: HostRuntime) -> ExitCode {
    ExitCode::from(exit_code(run(rt)))
}

//! Prints the processor's netlist as Verilog.
#![tactic(auto)]

ghost use Rattle.std.specs.Prelude.{◌≡◌, OnOk};
ghost use Rattle.stack_shelf.specs.Shelf.{appended};
ghost use Rattle.fm_netlist.specs.NetlistText.{netlist_text};

use fm_netlist::netlist;
use stack_shelf::{PutFault, Sink, StdoutSink};
use std::alloc::Global;
use std::process::ExitCode;

/// Puts the text on a sink.
///
/// # Errors
///
/// `Failed` where the sink took no more, and `Memory` where memory ran out.
fn print<K: Sink>(alloc: Global, out: &mut K) -> Result<(), PutFault>
    ensures { OnOk result (K.taken out.new ≡ appended (K.taken out.old) netlist_text) }
{
    let Ok(text) = netlist(alloc) else {
        return Err(PutFault::Memory);
    };
    out.put(&text)
}

/// Status 0, or 1 where memory runs out or standard output takes no more.
fn main(rt: HostRuntime) -> ExitCode {
    let alloc = rt.alloc();
    let mut out = StdoutSink::new(rt);
    match print(alloc, &mut out) {
        Ok(()) => ExitCode::from(0),
        Err(_) => ExitCode::from(1),
    }
}

//! Prints texts, a line at a time.
ghost use Rattle.std.specs.Prelude.{◌≡◌, ◌≤◌, ◌<◌, ◌⊎◌, ◌++◌, length, OnOk, OnErr, IsErrOf};
ghost use Rattle.stack_shelf.specs.{Causes.{Rose}, Shelf.{appended, PrefixAppended}};
ghost use Rattle.command_line.specs.Devices.{IsFirstLine, lines_of, took_each};

use stack_heap::Heap;
use stack_shelf::{PutFault, Sink};

/// The first line of a text with its line feed, and what follows it.
fn first_line(text: &[u8]) -> (&[u8], &[u8])
    requires { 0 < length text.now }
    ensures whole { result.0.now ++ result.1.now ≡ text.now }
    ensures some { 0 < length result.0.now }
    ensures line { IsFirstLine result.0.now result.1.now }
{
    match text.iter().position(|b| *b == b'\n') {
        Some(end) => text.split_at(end + 1),
        None => text.split_at(text.len()),
    }
}

/// Prints a text, each of its lines with its line feed by one call of `put`. Where the sink fails, a prefix of the text was printed.
pub fn print<K: Sink>(out: &mut K, text: &[u8]) -> Result<(), PutFault>
    ensures ok { OnOk result (K.taken out.new ≡ appended (K.taken out.old) text.now) }
    ensures lines { OnOk result (out.new ≡ took_each K.took out.old (lines_of text.now)) }
    ensures prefix { OnErr result (PrefixAppended (K.taken out.old) (K.taken out.new) text.now) }
    ensures failed { IsErrOf result PutFault.Failed → Rose (K.faults out.old) (K.faults out.new) }
    ensures refused { IsErrOf result PutFault.Memory → K.may_refuse }
    ensures faults { K.faults out.old ≤ K.faults out.new }
{
    let mut rest = text;
    while !rest.is_empty() {
        let (line, after) = first_line(rest);
        out.put(line)?;
        rest = after;
    }
    Ok(())
}

/// Prints a text that the caller hands over, as `print` does: the sink may keep it.
pub fn print_owned<H: Heap, K: Sink>(heap: H, out: &mut K, text: Vec<u8>) -> Result<(), PutFault>
    ensures ok { OnOk result (K.taken out.new ≡ appended (K.taken out.old) text.items) }
    ensures lines { OnOk result (out.new ≡ took_each K.took out.old (lines_of text.items)) }
    ensures prefix { OnErr result (PrefixAppended (K.taken out.old) (K.taken out.new) text.items) }
    ensures failed { IsErrOf result PutFault.Failed → Rose (K.faults out.old) (K.faults out.new) }
    ensures refused { IsErrOf result PutFault.Memory → H.may_refuse heap ⊎ K.may_refuse }
    ensures faults { K.faults out.old ≤ K.faults out.new }
{
    let text = heap.shared(text)?;
    out.offer(&text);
    print(out, text.as_ref().as_slice())
}

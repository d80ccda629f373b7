//! The text of the netlist.

ghost use Rattle.std.specs.{Prelude.{◌≡◌, ◌++◌, IfOk, OnOk}, List.{flat_map}};
ghost use Rattle.fm_netlist.specs.NetlistText.{below, word_declared, word_begun, word_shown, word_lines, declared_text, wire_lines, head_text, begin_text};
ghost use Rattle.fm_netlist.specs.NetlistText.{begun_text, element_text, tail_text, netlist_text};

use crate::bits::push;
use crate::lines::{push_declared, push_wire, push_word};
use fm_circuit::{Wire, wires};
use stack_text::Memory;
use std::alloc::Global;

/// The processor's netlist as a module `fm9001` of Verilog: a line for each bit of each wire, for
/// each carry of a sum and for each bit of the register file, of gates over bits alone.
///
/// The only error is out of memory.
#[tactic(auto, unfolding(crate::specs::NetlistText::netlist_text))]
pub fn netlist(alloc: Global) -> Result<Vec<u8>, Memory>
    ensures { IfOk result (λ text. text.items ≡ netlist_text) }
{
    let wires = wires();
    let mut text = Vec::new(alloc);
    text.extend_from_slice(head().as_bytes())?;
    declare_words(alloc, &mut text)?;
    text.extend_from_slice(begin().as_bytes())?;
    begin_words(alloc, &mut text)?;
    text.extend_from_slice(begun().as_bytes())?;
    show_words(alloc, &mut text)?;
    text.extend_from_slice(b"`endif\n")?;
    push_declarations(alloc, &mut text, &wires)?;
    push_wires(alloc, &mut text, &wires)?;
    push_words(alloc, &mut text)?;
    text.extend_from_slice(tail().as_bytes())?;
    Ok(text)
}

/// The ports.
#[tactic(auto, unfolding(crate::specs::NetlistText::head_text))]
fn head() -> &'static str
    ensures { result.now ≡ head_text }
{
    "module fm9001 #(parameter REGISTERS = \"registers.hex\") (\n  input clk, input reset, input [31:0] bus_read, input bus_outside,\n  output [31:0] bus_address, output [31:0] bus_data, output bus_write);\n"
}

/// How the words of the register file begin in a simulation.
#[tactic(auto, unfolding(crate::specs::NetlistText::begin_text))]
fn begin() -> &'static str
    ensures { result.now ≡ begin_text }
{
    "`ifndef SYNTHESIS\nreg [31:0] start [0:15];\ninitial begin\n  $readmemh(REGISTERS, start);\n"
}

/// The end of that, and the words as an array.
#[tactic(auto, unfolding(crate::specs::NetlistText::begun_text))]
fn begun() -> &'static str
    ensures { result.now ≡ begun_text }
{
    "end\nwire [31:0] file [0:15];\n"
}

/// What goes out.
fn tail() -> &'static str
    ensures { result.now ≡ tail_text }
{
    "assign bus_address = address;\nassign bus_data = out;\nassign bus_write = (~reset & memory_write[0]);\nendmodule\n"
}

/// Appends a declaration for each word of the register file.
fn declare_words(alloc: Global, text: &mut Vec<u8>) -> Result<(), Memory>
    ensures { OnOk result (text.new.items ≡ text.old.items ++ below word_declared 16) }
{
    for r in 0..16u8 {
        declare_word(alloc, text, r)?;
    }
    Ok(())
}

/// Appends the declaration of a word of the register file.
fn declare_word(alloc: Global, text: &mut Vec<u8>, r: u8) -> Result<(), Memory>
    ensures { OnOk result (text.new.items ≡ text.old.items ++ word_declared r) }
{
    let line = format!(in alloc; "reg [31:0] file_{r};\n")?;
    Ok(text.extend_from_slice(line.as_bytes())?)
}

/// Appends what each word of the register file begins with.
fn begin_words(alloc: Global, text: &mut Vec<u8>) -> Result<(), Memory>
    ensures { OnOk result (text.new.items ≡ text.old.items ++ below word_begun 16) }
{
    for r in 0..16u8 {
        begin_word(alloc, text, r)?;
    }
    Ok(())
}

/// Appends what a word of the register file begins with.
fn begin_word(alloc: Global, text: &mut Vec<u8>, r: u8) -> Result<(), Memory>
    ensures { OnOk result (text.new.items ≡ text.old.items ++ word_begun r) }
{
    let line = format!(in alloc; "  file_{r} = start[{r}];\n")?;
    Ok(text.extend_from_slice(line.as_bytes())?)
}

/// Appends what each word of the array is.
fn show_words(alloc: Global, text: &mut Vec<u8>) -> Result<(), Memory>
    ensures { OnOk result (text.new.items ≡ text.old.items ++ below word_shown 16) }
{
    for r in 0..16u8 {
        show_word(alloc, text, r)?;
    }
    Ok(())
}

/// How the line of a word of the array begins.
#[tactic(auto, unfolding(crate::specs::NetlistText::element_text))]
fn element() -> &'static str
    ensures { result.now ≡ element_text }
{
    "assign file["
}

/// Appends what a word of the array is.
fn show_word(alloc: Global, text: &mut Vec<u8>, r: u8) -> Result<(), Memory>
    ensures { OnOk result (text.new.items ≡ text.old.items ++ word_shown r) }
{
    push(text, element())?;
    let line = format!(in alloc; "{r}] = file_{r};\n")?;
    Ok(text.extend_from_slice(line.as_bytes())?)
}

/// Appends the declarations of each wire.
fn push_declarations(alloc: Global, text: &mut Vec<u8>, wires: &[Wire]) -> Result<(), Memory>
    ensures { OnOk result (text.new.items ≡ text.old.items ++ flat_map declared_text wires.now) }
{
    for wire in wires {
        push_declared(alloc, text, *wire)?;
    }
    Ok(())
}

/// Appends the lines of each wire.
fn push_wires(alloc: Global, text: &mut Vec<u8>, wires: &[Wire]) -> Result<(), Memory>
    ensures { OnOk result (text.new.items ≡ text.old.items ++ flat_map wire_lines wires.now) }
{
    for wire in wires {
        push_wire(alloc, text, *wire)?;
    }
    Ok(())
}

/// Appends the lines of each word of the register file.
fn push_words(alloc: Global, text: &mut Vec<u8>) -> Result<(), Memory>
    ensures { OnOk result (text.new.items ≡ text.old.items ++ below word_lines 16) }
{
    for r in 0..16u8 {
        push_word(alloc, text, r)?;
    }
    Ok(())
}

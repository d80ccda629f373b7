//! The text of the circuit.

ghost use Rattle.std.specs.{Prelude.{◌≡◌, ◌++◌, IfOk, OnOk, Some}, List.{flat_map}};
ghost use Rattle.fm_circuit.specs.Widths.{width_of};
ghost use Rattle.fm_verilog.specs.VerilogText.{constant_text, pin_text, widened_text, between, row_text, rows_text, choice_text, expression_text, clocked_text};
ghost use Rattle.fm_verilog.specs.VerilogText.{assigned_text, target_text, kind_text, declaration_text, driving_text, at_reset_text, clock_text, head_text};
ghost use Rattle.fm_verilog.specs.VerilogText.{tail_text, verilog_text};

use crate::wire_name::name;
use fm_circuit::{Driver, Pin, Wire, driver, pin_width, width, wires};
use stack_text::Memory;
use std::alloc::Global;
use std::fmt;

/// The processor as a module `fm9001` of Verilog: a declaration and an `assign` for each wire, and
/// an `always @(posedge clk)` for each register and for the register file, each on a line.
///
/// The only error is out of memory.
#[tactic(auto, unfolding(crate::specs::VerilogText::verilog_text))]
pub fn verilog(alloc: Global) -> Result<Vec<u8>, Memory>
    ensures { IfOk result (λ text. text.items ≡ verilog_text) }
{
    let wires = wires();
    let mut text = Vec::new(alloc);
    text.extend_from_slice(head().as_bytes())?;
    push_declarations(alloc, &mut text, &wires)?;
    push_drivings(alloc, &mut text, &wires)?;
    text.extend_from_slice(tail().as_bytes())?;
    Ok(text)
}

/// The ports and the register file.
#[tactic(auto, unfolding(crate::specs::VerilogText::head_text))]
fn head() -> &'static str
    ensures { result.now ≡ head_text }
{
    "module fm9001 #(parameter REGISTERS = \"registers.hex\") (\n  input clk, input reset, input [31:0] bus_read, input bus_outside,\n  output [31:0] bus_address, output [31:0] bus_data, output bus_write);\nreg [31:0] file [0:15];\ninitial $readmemh(REGISTERS, file);\n"
}

/// What is written to the register file, and what goes out. At a reset nothing is written.
#[tactic(auto, unfolding(crate::specs::VerilogText::tail_text))]
fn tail() -> &'static str
    ensures { result.now ≡ tail_text }
{
    "always @(posedge clk) if (file_write && !reset) file[number] <= file_data;\nassign bus_address = address;\nassign bus_data = out;\nassign bus_write = memory_write && !reset;\nendmodule\n"
}

/// At each rising edge of the clock.
#[tactic(auto, unfolding(crate::specs::VerilogText::clock_text))]
pub fn clock() -> &'static str
    ensures { result.now ≡ clock_text }
{
    "always @(posedge clk) "
}

/// Takes a value at a reset.
#[tactic(auto, unfolding(crate::specs::VerilogText::at_reset_text))]
fn at_reset() -> &'static str
    ensures { result.now ≡ at_reset_text }
{
    " <= reset ? "
}

/// A pin as text.
#[derive(Clone, Copy)]
struct PinText(Pin);

impl fmt::Display for PinText {
    ghost output = { λ pin. Some (pin_text pin.0) };

    fn fmt<W: fmt::Write>(&self, f: &mut fmt::Formatter<W>) -> fmt::Result {
        match self.0 {
            Pin::Whole(wire) => {
                let name = name(wire);
                write!(f, "{name}")
            }
            Pin::Bits(wire, high, low) => {
                let name = name(wire);
                write!(f, "{name}[{high}:{low}]")
            }
            Pin::Constant(width, value) => write!(f, "{width}'d{value}"),
        }
    }
}

/// A value of a wire as text.
#[derive(Clone, Copy)]
struct Value(Wire, u32);

impl fmt::Display for Value {
    ghost output = { λ value. Some (constant_text (width_of value.0) value.1) };

    fn fmt<W: fmt::Write>(&self, f: &mut fmt::Formatter<W>) -> fmt::Result {
        let Value(wire, value) = *self;
        let width = width(wire);
        write!(f, "{width}'d{value}")
    }
}

/// A pin with zeros above it.
#[derive(Clone, Copy)]
struct Widened(u32, Pin);

impl fmt::Display for Widened {
    ghost output = { λ pin. Some (widened_text pin.0 pin.1) };

    fn fmt<W: fmt::Write>(&self, f: &mut fmt::Formatter<W>) -> fmt::Result {
        let Widened(width, pin) = *self;
        let pin = PinText(pin);
        write!(f, "{{{width}'d0, {pin}}}")
    }
}

/// Appends a line for each wire that declares it.
fn push_declarations(alloc: Global, text: &mut Vec<u8>, wires: &[Wire]) -> Result<(), Memory>
    ensures { OnOk result (text.new.items ≡ text.old.items ++ flat_map declaration_text wires.now) }
{
    for wire in wires {
        push_declaration(alloc, text, *wire)?;
    }
    Ok(())
}

/// Appends the line that declares a wire.
///
/// The only error is out of memory.
pub fn push_declaration(alloc: Global, text: &mut Vec<u8>, wire: Wire) -> Result<(), Memory>
    ensures { OnOk result (text.new.items ≡ text.old.items ++ declaration_text wire) }
{
    let kind = kind(driver(wire));
    let high = width(wire).saturating_sub(1);
    let name = name(wire);
    let line = format!(in alloc; "{kind} [{high}:0] {name};\n")?;
    Ok(text.extend_from_slice(line.as_bytes())?)
}

/// Whether a wire comes out of a register.
fn kind(driver: Driver) -> &'static str
    ensures { result.now ≡ kind_text driver }
{
    match driver {
        Driver::Register(_, _, _) => "reg",
        _ => "wire",
    }
}

/// Appends a line for each wire that drives it.
fn push_drivings(alloc: Global, text: &mut Vec<u8>, wires: &[Wire]) -> Result<(), Memory>
    ensures { OnOk result (text.new.items ≡ text.old.items ++ flat_map driving_text wires.now) }
{
    for wire in wires {
        push_driving(alloc, text, *wire)?;
    }
    Ok(())
}

/// Appends the line that drives a wire.
fn push_driving(alloc: Global, text: &mut Vec<u8>, wire: Wire) -> Result<(), Memory>
    ensures { OnOk result (text.new.items ≡ text.old.items ++ driving_text wire) }
{
    let driver = driver(wire);
    push_target(alloc, text, wire, driver)?;
    push_expression(alloc, text, driver)?;
    Ok(text.extend_from_slice(b";\n")?)
}

/// Appends the beginning of the line that drives a wire.
fn push_target(alloc: Global, text: &mut Vec<u8>, wire: Wire, driver: Driver) -> Result<(), Memory>
    ensures { OnOk result (text.new.items ≡ text.old.items ++ target_text wire driver) }
{
    match driver {
        Driver::Register(_, reset, _) => push_clocked(alloc, text, wire, reset),
        _ => push_assigned(alloc, text, wire),
    }
}

/// Appends the beginning of the line of a register.
fn push_clocked(alloc: Global, text: &mut Vec<u8>, wire: Wire, reset: u32) -> Result<(), Memory>
    ensures { OnOk result (text.new.items ≡ text.old.items ++ clocked_text wire reset) }
{
    let name = name(wire);
    let reset = Value(wire, reset);
    let clock = clock();
    let at_reset = at_reset();
    let line = format!(in alloc; "{clock}{name}{at_reset}{reset} : ")?;
    Ok(text.extend_from_slice(line.as_bytes())?)
}

/// Appends the beginning of the line of another wire.
fn push_assigned(alloc: Global, text: &mut Vec<u8>, wire: Wire) -> Result<(), Memory>
    ensures { OnOk result (text.new.items ≡ text.old.items ++ assigned_text wire) }
{
    let name = name(wire);
    let line = format!(in alloc; "assign {name} = ")?;
    Ok(text.extend_from_slice(line.as_bytes())?)
}

/// Appends what drives a wire.
#[tactic(auto, unfolding(crate::specs::VerilogText::expression_text))]
fn push_expression(alloc: Global, text: &mut Vec<u8>, driver: Driver) -> Result<(), Memory>
    ensures { OnOk result (text.new.items ≡ text.old.items ++ expression_text driver) }
{
    match driver {
        Driver::Register(_, _, next) => push_around(alloc, text, "", next, ""),
        Driver::Input(0) => Ok(text.extend_from_slice(b"bus_read")?),
        Driver::Input(_) => Ok(text.extend_from_slice(b"bus_outside")?),
        Driver::FileRead(number) => push_around(alloc, text, "file[", number, "]"),
        Driver::Not(p) => push_around(alloc, text, "~", p, ""),
        Driver::And(p, q) => push_between(alloc, text, " & ", p, q),
        Driver::Or(p, q) => push_between(alloc, text, " | ", p, q),
        Driver::Xor(p, q) => push_between(alloc, text, " ^ ", p, q),
        Driver::Equal(p, q) => push_between(alloc, text, " == ", p, q),
        Driver::Join(p, q) => push_join(alloc, text, p, q),
        Driver::Add(p, q, carry) => push_sum(alloc, text, p, q, carry),
        Driver::Two(by, among) => push_choice(alloc, text, by, &among),
        Driver::Four(by, among) => push_choice(alloc, text, by, &among),
        Driver::Eight(by, among) => push_choice(alloc, text, by, &among),
        Driver::Sixteen(by, among) => push_choice(alloc, text, by, &among),
    }
}

/// Appends a pin between two texts.
fn push_around(
    alloc: Global,
    text: &mut Vec<u8>,
    before: &str,
    pin: Pin,
    after: &str,
) -> Result<(), Memory>
    ensures { OnOk result (text.new.items ≡ text.old.items ++ (before.now ++ pin_text pin ++ after.now)) }
{
    let pin = PinText(pin);
    let line = format!(in alloc; "{before}{pin}{after}")?;
    Ok(text.extend_from_slice(line.as_bytes())?)
}

/// Appends two pins with an operator between them.
fn push_between(
    alloc: Global,
    text: &mut Vec<u8>,
    operator: &str,
    p: Pin,
    q: Pin,
) -> Result<(), Memory>
    ensures { OnOk result (text.new.items ≡ text.old.items ++ between operator.now p q) }
{
    let p = PinText(p);
    let q = PinText(q);
    let line = format!(in alloc; "{p}{operator}{q}")?;
    Ok(text.extend_from_slice(line.as_bytes())?)
}

/// Appends one pin above another.
#[tactic(auto, unfolding(crate::specs::VerilogText::expression_text))]
fn push_join(alloc: Global, text: &mut Vec<u8>, p: Pin, q: Pin) -> Result<(), Memory>
    ensures { OnOk result (text.new.items ≡ text.old.items ++ expression_text (Driver.Join p q)) }
{
    let p = PinText(p);
    let q = PinText(q);
    let line = format!(in alloc; "{{{p}, {q}}}")?;
    Ok(text.extend_from_slice(line.as_bytes())?)
}

/// Appends a sum of two pins and a carry.
#[tactic(auto, unfolding(crate::specs::VerilogText::expression_text))]
fn push_sum(alloc: Global, text: &mut Vec<u8>, p: Pin, q: Pin, carry: Pin) -> Result<(), Memory>
    ensures { OnOk result (text.new.items ≡ text.old.items ++ expression_text (Driver.Add p q carry)) }
{
    let carry = Widened(pin_width(p), carry);
    let p = Widened(1, p);
    let q = Widened(1, q);
    let line = format!(in alloc; "{p} + {q} + {carry}")?;
    Ok(text.extend_from_slice(line.as_bytes())?)
}

/// Appends one of several pins by a number.
fn push_choice(alloc: Global, text: &mut Vec<u8>, by: Pin, among: &[Pin]) -> Result<(), Memory>
    ensures { OnOk result (text.new.items ≡ text.old.items ++ choice_text by among.now) }
{
    push_rows(alloc, text, by, among)?;
    Ok(text.extend_from_slice(b"0")?)
}

/// Appends a row for each of several pins.
fn push_rows(alloc: Global, text: &mut Vec<u8>, by: Pin, among: &[Pin]) -> Result<(), Memory>
    ensures { OnOk result (text.new.items ≡ text.old.items ++ rows_text by 0 among.now) }
{
    for (number, pin) in among.iter().enumerate() {
        push_row(alloc, text, by, number, *pin)?;
    }
    Ok(())
}

/// Appends the row of one pin.
fn push_row(
    alloc: Global,
    text: &mut Vec<u8>,
    by: Pin,
    number: usize,
    pin: Pin,
) -> Result<(), Memory>
    ensures { OnOk result (text.new.items ≡ text.old.items ++ row_text by number pin) }
{
    let width = pin_width(by);
    let by = PinText(by);
    let pin = PinText(pin);
    let line = format!(in alloc; "{by} == {width}'d{number} ? {pin} : ")?;
    Ok(text.extend_from_slice(line.as_bytes())?)
}

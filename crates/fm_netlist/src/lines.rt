//! The lines of the netlist.

ghost use Rattle.std.specs.{Prelude.{◌≡◌, ◌++◌, ◌-◌, codes, OnOk}, Fmt.{decimal}, Int.{bit_at}};
ghost use Rattle.fm_circuit.specs.Widths.{width_of};
ghost use Rattle.fm_verilog.specs.WireNames.{name_of};
ghost use Rattle.fm_gates.specs.Gates.{carry_gate, file_gate};
ghost use Rattle.fm_netlist.specs.NetlistText.{below, gate_text, line_gate, input_text, target_text, gets_text, bit_line, carry_line, bit_lines, wire_lines};
ghost use Rattle.fm_netlist.specs.{NetlistText.{file_line, word_lines, carries_declared, declared_text}, Pieces.{agreeing_text, opening_text, equal_text}};
ghost use Rattle.fm_netlist.specs.Pieces.{sum_text, join_text, bit_text, carried_text, kept_text, constant_text, pin_text, written_text, taken_text};

use crate::bits::{Carry, Differ, FileBit, PinBit, push, push_between, push_bit};
use crate::choices::{choose_1, choose_2, choose_3, choose_4, word_4};
use fm_circuit::{Driver, Pin, Wire, driver, pin_width, width};
use fm_verilog::{clock, name, push_declaration};
use stack_text::Memory;
use std::alloc::Global;

/// Appends an opening parenthesis for each of so many bits.
fn push_opening(text: &mut Vec<u8>, n: u32) -> Result<(), Memory>
    ensures { OnOk result (text.new.items ≡ text.old.items ++ below opening_text n) }
{
    for _ in 0..n {
        push(text, "(")?;
    }
    Ok(())
}

/// Appends that two pins' bits agree.
fn push_agreeing(alloc: Global, text: &mut Vec<u8>, p: Pin, q: Pin, i: u32) -> Result<(), Memory>
    ensures { OnOk result (text.new.items ≡ text.old.items ++ agreeing_text p q i) }
{
    let differ = Differ(p, q, i);
    let line = format!(in alloc; " & ~{differ})")?;
    Ok(text.extend_from_slice(line.as_bytes())?)
}

/// Appends what agrees in each of so many bits.
fn push_agreements(alloc: Global, text: &mut Vec<u8>, p: Pin, q: Pin, n: u32) -> Result<(), Memory>
    ensures { OnOk result (text.new.items ≡ text.old.items ++ below (agreeing_text p q) n) }
{
    for i in 0..n {
        push_agreeing(alloc, text, p, q, i)?;
    }
    Ok(())
}

/// Appends whether two pins are equal in so many bits.
fn push_equal(alloc: Global, text: &mut Vec<u8>, p: Pin, q: Pin, n: u32) -> Result<(), Memory>
    ensures { OnOk result (text.new.items ≡ text.old.items ++ equal_text p q n) }
{
    push_opening(text, n)?;
    push(text, "1'd1")?;
    push_agreements(alloc, text, p, q, n)
}

/// Appends a bit of a sum.
fn push_sum(
    alloc: Global,
    text: &mut Vec<u8>,
    wire: Wire,
    p: Pin,
    q: Pin,
    i: u32,
) -> Result<(), Memory>
    ensures { OnOk result (text.new.items ≡ text.old.items ++ sum_text wire p q i) }
{
    let carry = Carry(wire, i);
    if i < pin_width(p) {
        let differ = Differ(p, q, i);
        let line = format!(in alloc; "({differ} ^ {carry})")?;
        Ok(text.extend_from_slice(line.as_bytes())?)
    } else {
        let line = format!(in alloc; "{carry}")?;
        Ok(text.extend_from_slice(line.as_bytes())?)
    }
}

/// Appends a bit of two pins, one above the other.
fn push_join(alloc: Global, text: &mut Vec<u8>, p: Pin, q: Pin, i: u32) -> Result<(), Memory>
    ensures { OnOk result (text.new.items ≡ text.old.items ++ join_text p q i) }
{
    let below = pin_width(q);
    if i < below {
        push_bit(alloc, text, q, i)
    } else {
        push_bit(alloc, text, p, i - below)
    }
}

/// Appends a bit of an input.
fn push_input(alloc: Global, text: &mut Vec<u8>, number: u8, i: u32) -> Result<(), Memory>
    ensures { OnOk result (text.new.items ≡ text.old.items ++ input_text number i) }
{
    match number {
        0 => {
            let line = format!(in alloc; "bus_read[{i}]")?;
            Ok(text.extend_from_slice(line.as_bytes())?)
        }
        _ => push(text, "bus_outside"),
    }
}

/// Appends what a bit of a register takes.
fn push_taken(
    alloc: Global,
    text: &mut Vec<u8>,
    reset: u32,
    next: Pin,
    i: u32,
) -> Result<(), Memory>
    ensures { OnOk result (text.new.items ≡ text.old.items
        ++ (codes "(reset ? " ++ constant_text (bit_at reset i) ++ codes " : " ++ pin_text next i ++ codes ")")) }
{
    push(text, "(reset ? ")?;
    push_bit(alloc, text, Pin::Constant(32, reset), i)?;
    push(text, " : ")?;
    push_bit(alloc, text, next, i)?;
    push(text, ")")
}

/// Appends a bit of a pin, inverted.
fn push_inverse(alloc: Global, text: &mut Vec<u8>, pin: Pin, i: u32) -> Result<(), Memory>
    ensures { OnOk result (text.new.items ≡ text.old.items ++ (codes "~" ++ pin_text pin i)) }
{
    let bit = PinBit(pin, i);
    let line = format!(in alloc; "~{bit}")?;
    Ok(text.extend_from_slice(line.as_bytes())?)
}

/// Appends what gives a bit of a wire, or what it takes where it is a register's.
#[tactic(auto, unfolding(crate::specs::Pieces::bit_text))]
fn push_driven(
    alloc: Global,
    text: &mut Vec<u8>,
    wire: Wire,
    driver: Driver,
    i: u32,
) -> Result<(), Memory>
    ensures { OnOk result (text.new.items ≡ text.old.items ++ bit_text wire driver i) }
{
    match driver {
        Driver::Register(_, reset, next) => push_taken(alloc, text, reset, next, i),
        Driver::Input(number) => push_input(alloc, text, number, i),
        Driver::FileRead(number) => word_4(alloc, text, number, i),
        Driver::Not(p) => push_inverse(alloc, text, p, i),
        Driver::And(p, q) => push_between(alloc, text, " & ", p, q, i),
        Driver::Or(p, q) => push_between(alloc, text, " | ", p, q, i),
        Driver::Xor(p, q) => push_between(alloc, text, " ^ ", p, q, i),
        Driver::Join(p, q) => push_join(alloc, text, p, q, i),
        Driver::Add(p, q, _) => push_sum(alloc, text, wire, p, q, i),
        Driver::Equal(p, q) => push_equal(alloc, text, p, q, pin_width(p)),
        Driver::Two(by, among) => choose_1(alloc, text, by, &among, i),
        Driver::Four(by, among) => choose_2(alloc, text, by, &among, i),
        Driver::Eight(by, among) => choose_3(alloc, text, by, &among, i),
        Driver::Sixteen(by, among) => choose_4(alloc, text, by, &among, i),
    }
}

/// How the line of a wire's bit begins.
fn target(driver: Driver) -> &'static str
    ensures { result.now ≡ target_text driver }
{
    match driver {
        Driver::Register(_, _, _) => clock(),
        _ => "assign ",
    }
}

/// What stands between the bit and what gives it.
fn gets(driver: Driver) -> &'static str
    ensures { result.now ≡ gets_text driver }
{
    match driver {
        Driver::Register(_, _, _) => " <= ",
        _ => " = ",
    }
}

/// Appends the gate of a bit of a wire, or of what it takes where it is a register's.
fn push_gate(
    alloc: Global,
    text: &mut Vec<u8>,
    wire: Wire,
    driver: Driver,
    i: u32,
) -> Result<(), Memory>
    ensures { OnOk result (text.new.items ≡ text.old.items ++ gate_text (line_gate wire driver i)) }
{
    push_driven(alloc, text, wire, driver, i)?;
    Ok(())
}

/// Appends the line of a bit of a wire.
fn push_bit_line(alloc: Global, text: &mut Vec<u8>, wire: Wire, i: u32) -> Result<(), Memory>
    ensures { OnOk result (text.new.items ≡ text.old.items ++ bit_line wire i) }
{
    let driver = driver(wire);
    push(text, target(driver))?;
    push_bit(alloc, text, Pin::Whole(wire), i)?;
    push(text, gets(driver))?;
    push_gate(alloc, text, wire, driver, i)?;
    push(text, ";\n")
}

/// Appends the carry into a bit of a sum.
fn push_carried(
    alloc: Global,
    text: &mut Vec<u8>,
    wire: Wire,
    p: Pin,
    q: Pin,
    carry: Pin,
    i: u32,
) -> Result<(), Memory>
    ensures { OnOk result (text.new.items ≡ text.old.items ++ carried_text wire p q carry i) }
{
    if i == 0 {
        push_bit(alloc, text, carry, 0)
    } else {
        let j = i - 1;
        let differ = Differ(p, q, j);
        let carry = Carry(wire, j);
        let p = PinBit(p, j);
        let line = format!(in alloc; "({differ} ? {carry} : {p})")?;
        Ok(text.extend_from_slice(line.as_bytes())?)
    }
}

/// Appends the gate of a carry.
fn push_carry_gate(
    alloc: Global,
    text: &mut Vec<u8>,
    wire: Wire,
    p: Pin,
    q: Pin,
    carry: Pin,
    i: u32,
) -> Result<(), Memory>
    ensures { OnOk result (text.new.items ≡ text.old.items ++ gate_text (carry_gate wire (Driver.Add p q carry) i)) }
{
    push_carried(alloc, text, wire, p, q, carry, i)?;
    Ok(())
}

/// Appends the line of a carry, where the wire is a sum.
#[tactic(auto, unfolding(crate::specs::NetlistText::carry_line))]
fn push_carry_line(
    alloc: Global,
    text: &mut Vec<u8>,
    wire: Wire,
    driver: Driver,
    i: u32,
) -> Result<(), Memory>
    ensures { OnOk result (text.new.items ≡ text.old.items ++ carry_line wire driver i) }
{
    match driver {
        Driver::Add(p, q, carry) => {
            let bit = Carry(wire, i);
            let line = format!(in alloc; "assign {bit} = ")?;
            text.extend_from_slice(line.as_bytes())?;
            push_carry_gate(alloc, text, wire, p, q, carry, i)?;
            push(text, ";\n")
        }
        _ => Ok(()),
    }
}

/// Appends the lines of a bit.
fn push_bit_lines(alloc: Global, text: &mut Vec<u8>, wire: Wire, i: u32) -> Result<(), Memory>
    ensures { OnOk result (text.new.items ≡ text.old.items ++ bit_lines wire i) }
{
    push_bit_line(alloc, text, wire, i)?;
    push_carry_line(alloc, text, wire, driver(wire), i)
}

/// Appends the lines of a wire.
pub(crate) fn push_wire(alloc: Global, text: &mut Vec<u8>, wire: Wire) -> Result<(), Memory>
    ensures { OnOk result (text.new.items ≡ text.old.items ++ wire_lines wire) }
{
    let bits = u32::from(width(wire));
    for i in 0..bits {
        push_bit_lines(alloc, text, wire, i)?;
    }
    Ok(())
}

/// Appends what a bit of a word of the register file takes.
fn push_kept(alloc: Global, text: &mut Vec<u8>, r: u8, i: u32) -> Result<(), Memory>
    ensures { OnOk result (text.new.items ≡ text.old.items ++ kept_text r i) }
{
    push_written(alloc, text, Pin::Whole(Wire::FileWrite))?;
    push_is_word(alloc, text, r)?;
    push_word_bit(alloc, text, Pin::Whole(Wire::FileData), r, i)
}

/// Appends that there is no reset and a pin's bit is on.
#[tactic(auto, unfolding(crate::specs::Pieces::written_text))]
fn push_written(alloc: Global, text: &mut Vec<u8>, write: Pin) -> Result<(), Memory>
    ensures { OnOk result (text.new.items ≡ text.old.items ++ written_text write) }
{
    push(text, "((~reset & (")?;
    push_bit(alloc, text, write, 0)?;
    push(text, " & ")
}

/// Appends whether the number of the register that is written is this one.
fn push_is_word(alloc: Global, text: &mut Vec<u8>, r: u8) -> Result<(), Memory>
    ensures { OnOk result (text.new.items ≡ text.old.items ++ equal_text (Pin.Whole Wire.Number) (Pin.Constant 4 r) 4) }
{
    let number = Pin::Constant(4, u32::from(r));
    push_equal(alloc, text, Pin::Whole(Wire::Number), number, 4)
}

/// Appends a pin's bit where the word is written, and else the word's own.
#[tactic(auto, unfolding(crate::specs::Pieces::taken_text))]
fn push_word_bit(alloc: Global, text: &mut Vec<u8>, next: Pin, r: u8, i: u32) -> Result<(), Memory>
    ensures { OnOk result (text.new.items ≡ text.old.items ++ taken_text next r i) }
{
    let own = FileBit(r, i);
    push(text, ")) ? ")?;
    push_bit(alloc, text, next, i)?;
    let line = format!(in alloc; " : {own})")?;
    Ok(text.extend_from_slice(line.as_bytes())?)
}

/// Appends the gate of what a bit of a word of the register file takes.
fn push_file_gate(alloc: Global, text: &mut Vec<u8>, r: u8, i: u32) -> Result<(), Memory>
    ensures { OnOk result (text.new.items ≡ text.old.items ++ gate_text (file_gate r i)) }
{
    push_kept(alloc, text, r, i)?;
    Ok(())
}

/// Appends the line of a bit of the register file.
fn push_file_line(alloc: Global, text: &mut Vec<u8>, r: u8, i: u32) -> Result<(), Memory>
    ensures { OnOk result (text.new.items ≡ text.old.items ++ file_line r i) }
{
    let bit = FileBit(r, i);
    let clock = clock();
    let line = format!(in alloc; "{clock}{bit} <= ")?;
    text.extend_from_slice(line.as_bytes())?;
    push_file_gate(alloc, text, r, i)?;
    push(text, ";\n")
}

/// Appends the lines of a word of the register file.
pub(crate) fn push_word(alloc: Global, text: &mut Vec<u8>, r: u8) -> Result<(), Memory>
    ensures { OnOk result (text.new.items ≡ text.old.items ++ word_lines r) }
{
    for i in 0..32 {
        push_file_line(alloc, text, r, i)?;
    }
    Ok(())
}

/// Appends the line that declares the carries of a wire, where it is a sum.
#[tactic(auto, unfolding(crate::specs::NetlistText::carries_declared))]
fn push_carries(alloc: Global, text: &mut Vec<u8>, wire: Wire, driver: Driver) -> Result<(), Memory>
    ensures { OnOk result (text.new.items ≡ text.old.items ++ carries_declared wire driver) }
{
    match driver {
        Driver::Add(_, _, _) => push_carries_line(alloc, text, wire),
        _ => Ok(()),
    }
}

/// Appends that line.
fn push_carries_line(alloc: Global, text: &mut Vec<u8>, wire: Wire) -> Result<(), Memory>
    ensures { OnOk result (text.new.items ≡ text.old.items
        ++ (codes "wire [" ++ decimal (width_of wire - 1) ++ codes ":0] " ++ name_of wire ++ codes "_carries;\n")) }
{
    let high = width(wire).saturating_sub(1);
    let name = name(wire);
    let line = format!(in alloc; "wire [{high}:0] {name}")?;
    text.extend_from_slice(line.as_bytes())?;
    push(text, "_carries;\n")
}

/// Appends the lines that declare a wire.
pub(crate) fn push_declared(alloc: Global, text: &mut Vec<u8>, wire: Wire) -> Result<(), Memory>
    ensures { OnOk result (text.new.items ≡ text.old.items ++ declared_text wire) }
{
    push_declaration(alloc, text, wire)?;
    push_carries(alloc, text, wire, driver(wire))
}

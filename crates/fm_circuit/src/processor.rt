//! The processor, as a circuit.

ghost use Rattle.std.specs.Prelude.{◌≡◌};
ghost use Rattle.fm_circuit.specs.Processor.{driver_of};

use crate::circuit::Driver;
use crate::circuit::Pin::{Bits, Constant, Whole};
use crate::rows::{
    ByCondition, ByMask, ByMode, ByOperation, ByPhase, BySum, by_condition, by_mask, by_mode,
    by_operation, by_phase, by_sum, for_each_operation, for_each_sum, in_each_phase, in_each_sum,
};
use crate::wire::Wire;

// The numbers of the phases.
const FETCH: u32 = 0;

const FETCHED: u32 = 1;

const READ_A: u32 = 2;

const GOT_A: u32 = 3;

const READ_B: u32 = 4;

const GOT_B: u32 = 5;

const EXECUTE: u32 = 6;

const STORED: u32 = 7;

const FAULT: u32 = 8;

/// What drives a wire.
#[tactic(auto, unfolding(crate::specs::Processor::driver_of))]
pub fn driver(wire: Wire) -> Driver
    ensures { result ≡ driver_of wire }
{
    match wire {
        Wire::Phase => Driver::Register(0, 0, Whole(Wire::NextPhase)),
        Wire::Ir => Driver::Register(1, 0, Whole(Wire::NextIr)),
        Wire::A => Driver::Register(2, 0, Whole(Wire::NextA)),
        Wire::B => Driver::Register(3, 0, Whole(Wire::NextB)),
        Wire::At => Driver::Register(4, 0, Whole(Wire::NextAt)),
        Wire::C => Driver::Register(5, 0, Whole(Wire::NextC)),
        Wire::V => Driver::Register(6, 0, Whole(Wire::NextV)),
        Wire::N => Driver::Register(7, 0, Whole(Wire::NextN)),
        Wire::Z => Driver::Register(8, 0, Whole(Wire::NextZ)),
        Wire::Read => Driver::Input(0),
        Wire::Outside => Driver::Input(1),
        Wire::ModeA => Driver::Two(Bits(Wire::Ir, 9, 9), [Bits(Wire::Ir, 5, 4), Constant(2, 0)]),
        Wire::Mode => by_phase(ByPhase {
            fetch: Constant(2, 3),
            read_a: Whole(Wire::ModeA),
            ..in_each_phase(Bits(Wire::Ir, 15, 14))
        }),
        Wire::Number => by_phase(ByPhase {
            fetch: Constant(4, 15),
            read_a: Bits(Wire::Ir, 3, 0),
            ..in_each_phase(Bits(Wire::Ir, 13, 10))
        }),
        Wire::Own => Driver::FileRead(Whole(Wire::Number)),
        Wire::Delta => Driver::Two(
            Bits(Wire::Mode, 0, 0),
            [Constant(32, 0xffffffff), Constant(32, 1)],
        ),
        Wire::Moved => Driver::Add(Whole(Wire::Own), Whole(Wire::Delta), Constant(1, 0)),
        Wire::Address => by_mode(ByMode {
            register: Whole(Wire::Own),
            indirect: Whole(Wire::Own),
            pre_decrement: Bits(Wire::Moved, 31, 0),
            post_increment: Whole(Wire::Own),
        }),
        Wire::InMemory => Driver::Or(Bits(Wire::Mode, 1, 1), Bits(Wire::Mode, 0, 0)),
        Wire::Sign => Driver::Two(
            Bits(Wire::Ir, 8, 8),
            [Constant(23, 0), Constant(23, 0x7fffff)],
        ),
        Wire::Immediate => Driver::Join(Whole(Wire::Sign), Bits(Wire::Ir, 8, 0)),
        Wire::First => Driver::Two(
            Bits(Wire::Ir, 9, 9),
            [Whole(Wire::Own), Whole(Wire::Immediate)],
        ),
        Wire::ReadsB => by_operation(ByOperation {
            addc: Constant(1, 1),
            add: Constant(1, 1),
            subb: Constant(1, 1),
            sub: Constant(1, 1),
            xor: Constant(1, 1),
            or: Constant(1, 1),
            and: Constant(1, 1),
            ..for_each_operation(Constant(1, 0))
        }),
        Wire::LoadsB => Driver::And(Whole(Wire::ReadsB), Whole(Wire::InMemory)),
        Wire::NotA => Driver::Not(Whole(Wire::A)),
        Wire::NotC => Driver::Not(Whole(Wire::C)),
        Wire::Left => by_sum(BySum {
            neg: Whole(Wire::NotA),
            subb: Whole(Wire::NotA),
            sub: Whole(Wire::NotA),
            ..in_each_sum(Whole(Wire::A))
        }),
        Wire::Right => by_sum(BySum {
            inc: Constant(32, 0),
            neg: Constant(32, 0),
            dec: Constant(32, 0xffffffff),
            ..in_each_sum(Whole(Wire::B))
        }),
        Wire::CarryIn => by_sum(BySum {
            inc: Constant(1, 1),
            addc: Whole(Wire::C),
            neg: Constant(1, 1),
            subb: Whole(Wire::NotC),
            sub: Constant(1, 1),
            ..in_each_sum(Constant(1, 0))
        }),
        Wire::Sum => Driver::Add(Whole(Wire::Left), Whole(Wire::Right), Whole(Wire::CarryIn)),
        Wire::SumCarry => Driver::Xor(Bits(Wire::Sum, 32, 32), Bits(Wire::Ir, 26, 26)),
        Wire::LeftTurns => Driver::Xor(Bits(Wire::Left, 31, 31), Bits(Wire::Sum, 31, 31)),
        Wire::RightTurns => Driver::Xor(Bits(Wire::Right, 31, 31), Bits(Wire::Sum, 31, 31)),
        Wire::Overflow => Driver::And(Whole(Wire::LeftTurns), Whole(Wire::RightTurns)),
        Wire::Ror => Driver::Join(Whole(Wire::C), Bits(Wire::A, 31, 1)),
        Wire::Asr => Driver::Join(Bits(Wire::A, 31, 31), Bits(Wire::A, 31, 1)),
        Wire::Lsr => Driver::Join(Constant(1, 0), Bits(Wire::A, 31, 1)),
        Wire::AXorB => Driver::Xor(Whole(Wire::A), Whole(Wire::B)),
        Wire::AOrB => Driver::Or(Whole(Wire::A), Whole(Wire::B)),
        Wire::AAndB => Driver::And(Whole(Wire::A), Whole(Wire::B)),
        Wire::Out => by_operation(ByOperation {
            ror: Whole(Wire::Ror),
            asr: Whole(Wire::Asr),
            lsr: Whole(Wire::Lsr),
            xor: Whole(Wire::AXorB),
            or: Whole(Wire::AOrB),
            and: Whole(Wire::AAndB),
            not: Whole(Wire::NotA),
            ..for_each_sum(Bits(Wire::Sum, 31, 0), Whole(Wire::A))
        }),
        Wire::OutC => by_operation(ByOperation {
            ror: Bits(Wire::A, 0, 0),
            asr: Bits(Wire::A, 0, 0),
            lsr: Bits(Wire::A, 0, 0),
            ..for_each_sum(Whole(Wire::SumCarry), Constant(1, 0))
        }),
        Wire::OutV => by_operation(for_each_sum(Whole(Wire::Overflow), Constant(1, 0))),
        Wire::OutZ => Driver::Equal(Whole(Wire::Out), Constant(32, 0)),
        Wire::NotV => Driver::Not(Whole(Wire::V)),
        Wire::NotN => Driver::Not(Whole(Wire::N)),
        Wire::NotZ => Driver::Not(Whole(Wire::Z)),
        Wire::Hi => Driver::And(Whole(Wire::NotC), Whole(Wire::NotZ)),
        Wire::Ls => Driver::Or(Whole(Wire::C), Whole(Wire::Z)),
        Wire::Lt => Driver::Xor(Whole(Wire::N), Whole(Wire::V)),
        Wire::Ge => Driver::Not(Whole(Wire::Lt)),
        Wire::Gt => Driver::And(Whole(Wire::Ge), Whole(Wire::NotZ)),
        Wire::Le => Driver::Or(Whole(Wire::Lt), Whole(Wire::Z)),
        Wire::Holds => by_condition(ByCondition {
            cc: Whole(Wire::NotC),
            cs: Whole(Wire::C),
            vc: Whole(Wire::NotV),
            vs: Whole(Wire::V),
            nc: Whole(Wire::NotN),
            ns: Whole(Wire::N),
            zc: Whole(Wire::NotZ),
            zs: Whole(Wire::Z),
            hi: Whole(Wire::Hi),
            ls: Whole(Wire::Ls),
            ge: Whole(Wire::Ge),
            lt: Whole(Wire::Lt),
            gt: Whole(Wire::Gt),
            le: Whole(Wire::Le),
            al: Constant(1, 1),
            nv: Constant(1, 0),
        }),
        Wire::Stores => Driver::And(Whole(Wire::Holds), Whole(Wire::InMemory)),
        Wire::Keeps => by_mode(ByMode {
            register: Whole(Wire::Holds),
            indirect: Constant(1, 0),
            pre_decrement: Constant(1, 1),
            post_increment: Constant(1, 1),
        }),
        Wire::FileWrite => by_phase(ByPhase {
            fetch: Constant(1, 1),
            read_a: Bits(Wire::Mode, 1, 1),
            execute: Whole(Wire::Keeps),
            ..in_each_phase(Constant(1, 0))
        }),
        Wire::FileData => Driver::Two(
            Bits(Wire::Mode, 1, 1),
            [Whole(Wire::Out), Bits(Wire::Moved, 31, 0)],
        ),
        Wire::MemoryWrite => by_phase(ByPhase {
            execute: Whole(Wire::Stores),
            ..in_each_phase(Constant(1, 0))
        }),
        Wire::AfterFetched => Driver::Two(
            Whole(Wire::Outside),
            [Constant(4, READ_A), Constant(4, FAULT)],
        ),
        Wire::AfterReadA => Driver::Two(
            Whole(Wire::InMemory),
            [Constant(4, READ_B), Constant(4, GOT_A)],
        ),
        Wire::AfterGotA => Driver::Two(
            Whole(Wire::Outside),
            [Constant(4, READ_B), Constant(4, FAULT)],
        ),
        Wire::AfterReadB => Driver::Two(
            Whole(Wire::LoadsB),
            [Constant(4, EXECUTE), Constant(4, GOT_B)],
        ),
        Wire::AfterGotB => Driver::Two(
            Whole(Wire::Outside),
            [Constant(4, EXECUTE), Constant(4, FAULT)],
        ),
        Wire::AfterExecute => Driver::Two(
            Whole(Wire::Stores),
            [Constant(4, FETCH), Constant(4, STORED)],
        ),
        Wire::AfterStored => Driver::Two(
            Whole(Wire::Outside),
            [Constant(4, FETCH), Constant(4, FAULT)],
        ),
        Wire::NextPhase => by_phase(ByPhase {
            fetch: Constant(4, FETCHED),
            fetched: Whole(Wire::AfterFetched),
            read_a: Whole(Wire::AfterReadA),
            got_a: Whole(Wire::AfterGotA),
            read_b: Whole(Wire::AfterReadB),
            got_b: Whole(Wire::AfterGotB),
            execute: Whole(Wire::AfterExecute),
            stored: Whole(Wire::AfterStored),
            ..in_each_phase(Constant(4, FAULT))
        }),
        Wire::NextIr => by_phase(ByPhase {
            fetched: Whole(Wire::Read),
            ..in_each_phase(Whole(Wire::Ir))
        }),
        Wire::NextA => by_phase(ByPhase {
            read_a: Whole(Wire::First),
            got_a: Whole(Wire::Read),
            ..in_each_phase(Whole(Wire::A))
        }),
        Wire::NextB => by_phase(ByPhase {
            read_b: Whole(Wire::Own),
            got_b: Whole(Wire::Read),
            ..in_each_phase(Whole(Wire::B))
        }),
        Wire::NextAt => by_phase(ByPhase {
            fetch: Whole(Wire::Address),
            read_a: Whole(Wire::Address),
            read_b: Whole(Wire::Address),
            execute: Whole(Wire::Address),
            ..in_each_phase(Whole(Wire::At))
        }),
        Wire::SetC => by_mask(ByMask {
            bit: 19,
            unasked: Whole(Wire::C),
            asked: Whole(Wire::OutC),
        }),
        Wire::NextC => by_phase(ByPhase {
            execute: Whole(Wire::SetC),
            ..in_each_phase(Whole(Wire::C))
        }),
        Wire::SetV => by_mask(ByMask {
            bit: 18,
            unasked: Whole(Wire::V),
            asked: Whole(Wire::OutV),
        }),
        Wire::NextV => by_phase(ByPhase {
            execute: Whole(Wire::SetV),
            ..in_each_phase(Whole(Wire::V))
        }),
        Wire::SetN => by_mask(ByMask {
            bit: 17,
            unasked: Whole(Wire::N),
            asked: Bits(Wire::Out, 31, 31),
        }),
        Wire::NextN => by_phase(ByPhase {
            execute: Whole(Wire::SetN),
            ..in_each_phase(Whole(Wire::N))
        }),
        Wire::SetZ => by_mask(ByMask {
            bit: 16,
            unasked: Whole(Wire::Z),
            asked: Whole(Wire::OutZ),
        }),
        Wire::NextZ => by_phase(ByPhase {
            execute: Whole(Wire::SetZ),
            ..in_each_phase(Whole(Wire::Z))
        }),
    }
}

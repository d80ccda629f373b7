//! The laws. The functions do nothing: their clauses hold of all boards.

ghost use Rattle.fm_gates.specs.Netlist.{Lowered, GoesOn, Runs};

/// Each cycle of the netlist, with a reset or without, is a cycle of the circuit: each bit of each wire, where it is what its gates give, is
/// that of the wire's word, and each bit that is kept takes that of the word which is kept.
pub fn lowered()
    ensures { Lowered }
{}

/// On each board of bits the netlist has a cycle.
pub fn goes_on()
    ensures { GoesOn }
{}

/// A number of cycles of the netlist is that number of cycles of the circuit. So what the circuit's laws say of a board that stands for a
/// machine holds of a board of bits whose words do.
pub fn runs()
    ensures { Runs }
{}

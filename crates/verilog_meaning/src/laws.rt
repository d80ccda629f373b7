//! The laws. The functions do nothing: their clauses hold of all boards.

ghost use Rattle.verilog_meaning.specs.Laws.{Names, Written, Means, GoesOn, Runs};

/// Each wire has a name in Verilog, and no two have the same.
pub fn names()
    ensures { Names }
{}

/// The printed text is that of the module `processor`.
pub fn written()
    ensures { Written }
{}

/// Each cycle of that module, with a reset or without, is a cycle of the circuit.
pub fn means()
    ensures { Means }
{}

/// From each snapshot of a board there is a cycle of the module, to one of the next board.
pub fn goes_on()
    ensures { GoesOn }
{}

/// A number of cycles of the module, with the memory beside it, is that number of cycles of the circuit's board.
pub fn runs()
    ensures { Runs }
{}

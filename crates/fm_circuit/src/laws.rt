//! The laws of the processor. These functions do nothing: their clauses hold of all boards.

ghost use Rattle.fm_circuit.specs.{Sizes.{Sized, Fitting}, Laws.{Settles, Begins, Steps, Faults, Runs, Ends, Ceases}};

/// Each wire of the processor has its value once nine levels of logic have settled, and no other values agree with all drivers.
pub fn settles()
    ensures { Settles }
{}

/// The widths of what drives a wire go with the wire's own.
pub fn sized()
    ensures { Sized }
{}

/// Where all that a board keeps fits its places, each value fits its wire, and all fits after the cycle too, with a
/// reset or without.
pub fn fitting()
    ensures { Fitting }
{}

/// From whatever a board holds, after a cycle with a reset it stands for the machine of its register file and its window.
pub fn begins()
    ensures { Begins }
{}

/// Where a board stands for a machine, it makes the machine's step in exactly the step's cycles.
pub fn steps()
    ensures { Steps }
{}

/// Where the machine's step needs an address outside its window, the board stops with that address.
pub fn faults()
    ensures { Faults }
{}

/// Where the machine comes to a state in some steps, the board stands for it after these steps' cycles.
pub fn runs()
    ensures { Runs }
{}

/// Where the machine first comes to an address in some steps, so does the board in these steps' cycles.
pub fn ends()
    ensures { Ends }
{}

/// Where the machine needs an address outside its window after some steps, the board stops with that address.
pub fn ceases()
    ensures { Ceases }
{}

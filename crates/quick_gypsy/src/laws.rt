//! The laws of quick code. The functions do nothing: their clauses hold of all statements and machines.

ghost use Rattle.quick_gypsy.specs.InLineRuns.{CallsAreLined, LinedCallsGoOn, LinedLocalsFit, LinedMainsArePlain, QuickIsNoSlower};
ghost use Rattle.quick_gypsy.specs.QuickRuns.{StatementsGoOn, StatementsRun};

/// Quick code does what the statement means, in exactly the counted instructions.
pub fn statements_run()
    ensures { StatementsRun }
{}

/// Where the meaning isn't done at a bound, it isn't done within so many instructions.
pub fn statements_go_on()
    ensures { StatementsGoOn }
{}

/// Main with its calls in line does what main does, and calls nothing.
pub fn calls_are_lined()
    ensures done { CallsAreLined }
    ensures goes_on { LinedCallsGoOn }
    ensures plain { LinedMainsArePlain }
    ensures locals { LinedLocalsFit }
{}

/// Its quick code takes no more instructions than the plain code of the program.
pub fn quick_is_no_slower()
    ensures { QuickIsNoSlower }
{}

//! A law: what a session of a source's run says at each moment of the source's step machine. The function does nothing: its
//! clauses hold of all sources, sizes and values.

ghost use Rattle.cli_stack.specs.SessionMoments.{BuiltSaysEnds, BuiltSaysMoments, MachineSaysMoments, SystemSaysMoments};

/// Where the step machine of a source has come to a state, so has the run of a session of its Piton system, after exactly the
/// counted steps, and that of the processor, after exactly the counted instructions: and what `up` says there is that state, the
/// active procedure, the place of what comes next, the condition, and each variable. Where it has come to its end, the run of the
/// Piton system says what the report has.
pub fn moments_are_said()
    ensures machine { MachineSaysMoments }
    ensures system { SystemSaysMoments }
    ensures built { BuiltSaysMoments }
    ensures ends { BuiltSaysEnds }
{
    gypsy_codegen::generated_is_acceptable();
    gypsy_codegen::moments_are_reached();
    stack_build::moments_are_read();
    level_debuggers::runs_walk();
}

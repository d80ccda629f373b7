//! The law. The function does nothing: its clauses hold of all texts, values, and runs of the module.

ghost use Rattle.verilog_meaning.specs.Laws.{Written};
ghost use Rattle.source_to_verilog.specs.SourceToVerilog.{ImageRunsInVerilog, TextRunsInVerilog};

/// The printed text is that of a module of Verilog. Whatever bits its registers hold: after a cycle with a reset, and exactly the
/// cycles of the instructions that the meaning of the source in a text counts, it fetches at the end of the image that is built of the
/// text, not before, and the memory beside it shows the meaning.
pub fn runs_in_verilog()
    ensures text { Written }
    ensures image { ImageRunsInVerilog }
    ensures built { TextRunsInVerilog }
{
    stack_build::builds_implement();
}

//! The form of a source, in plain words and by its tree.

ghost use Rattle.std.specs.Prelude.{◌≤◌, ◌^◌};
ghost use Rattle.stack_text.specs.Trees.{node_count};
ghost use Rattle.gypsy_syntax.specs.{GypsyReading.{KeepsForm}, Fits.{FitsForm}, Printed.{tree_of}, Sizes.{text_size}, Sources.{SourceOf}};

/// Keeping the form is fitting it in plain words, and having a tree of at most 2^31 atoms and lists, which plain counts
/// bound. It does nothing: its clauses hold of all sources.
pub fn plain_form()
    // What is known of a source that keeps the form.
    ensures fits { (s : SourceOf) → KeepsForm s → FitsForm s }
    // How a source that was made is shown to keep the form.
    ensures keeps { (s : SourceOf) → FitsForm s → node_count (tree_of s) ≤ 2 ^ 31 → KeepsForm s }
    // How few atoms and lists a text has.
    ensures counted { (s : SourceOf) → node_count (tree_of s) ≤ text_size s }
{}

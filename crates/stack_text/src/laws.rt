//! Laws of texts and trees.

ghost use Rattle.std.specs.Prelude.{◌≡◌, ◌↔◌, ℕ, List, None};
ghost use Rattle.stack_text.specs.{TextFaults.{text_fault}, Trees.{Node, TreeOf}};

/// A text is one tree, or has a fault. It does nothing: its clauses hold of all texts and all trees.
pub fn tree_or_fault()
    // A text has a tree exactly where it has no fault.
    ensures some { (text : List ℕ) → ((t : Node) × TreeOf text t) ↔ (text_fault text ≡ None) }
    // It has at most one.
    ensures one { (text : List ℕ) (t u : Node) → TreeOf text t → TreeOf text u → t ≡ u }
{}

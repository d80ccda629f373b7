//! Laws of the text. The functions do nothing: their clauses hold of all texts.

ghost use Rattle.std.specs.Prelude.{◌≡◌, ℕ, List, None, Some, true};
ghost use Rattle.mini_syntax.specs.{MiniReading.{IsFault, IsFaultless, TextReading}, declared.expected.Expected.{Expected}, Examples.{TextsAre}};
ghost use Rattle.mini_syntax.specs.{Expected.{at_start, is_over, taken}, Grammar.{GoesOn, IsProgram, InfixProgram, program_tokens}, Tokens.{Token}};

/// What is expected token by token decides what no program goes on with, and what is a program: tokens that are all taken
/// go on to a program, others don't; and they are one exactly where nothing more is expected.
pub fn expected_decides()
    ensures goes_on { (ts : List Token) (st : List Expected) → taken (Some at_start) ts ≡ Some st → GoesOn ts }
    ensures ends { (ts : List Token) → taken (Some at_start) ts ≡ None → GoesOn ts → ⊥ }
    ensures whole { (ts : List Token) (st : List Expected) → taken (Some at_start) ts ≡ Some st → is_over st ≡ true →
        (p : InfixProgram) × (program_tokens p ≡ ts) }
    ensures program { (p : InfixProgram) →
        (st : List Expected) × (taken (Some at_start) (program_tokens p) ≡ Some st) × (is_over st ≡ true) }
{}

/// A text is one program at most; and it has one fault at most, and none where it is a program that breaks no rule.
pub fn texts_have_one_answer()
    ensures program { (text : List ℕ) (p q : InfixProgram) → IsProgram text p → IsProgram text q → p ≡ q }
    ensures fault { (text : List ℕ) (rule place other there : ℕ) → IsFault text rule place → IsFault text other there →
        (rule ≡ other) × (place ≡ there) }
    ensures either { (text : List ℕ) (rule place : ℕ) (p : InfixProgram) → IsFault text rule place →
        IsFaultless text p → ⊥ }
{}

/// Each text has an answer: it is a program that breaks no rule, or it has a fault.
pub fn texts_have_an_answer()
    ensures { (text : List ℕ) → TextReading text }
{}

/// Worked texts, computed: their tokens, and what is wrong with them.
pub fn examples_compute()
    ensures { TextsAre }
{}

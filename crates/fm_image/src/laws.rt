//! Laws of image files.

ghost use Rattle.std.specs.Prelude.{◌≡◌, ℕ, List, IsTrue, Ok};
ghost use Rattle.fm_image.specs.{Image.{ImageOf}, Limits.{is_image}, Spelling.{are_words, spelling, Spelled}, Reading.{read_of}};

/// Image files and images correspond one to one. It does nothing: its clauses hold of all bytes and all images.
pub fn one_spelling()
    // Each image has one spelling.
    ensures spelling { (a b : List ℕ) (image : ImageOf) → Spelled a image → Spelled b image → a ≡ b }
    // Each file spells at most one image.
    ensures image { (bytes : List ℕ) (i j : ImageOf) → Spelled bytes i → Spelled bytes j → i ≡ j }
    // What is written is read again.
    ensures again { (image : ImageOf) → IsTrue (is_image image) → IsTrue (are_words image.registers)
        → IsTrue (are_words image.words) → read_of (spelling image) ≡ Ok image }
{}

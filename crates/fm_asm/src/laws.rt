//! Laws of assembly texts: a text is assembled to the image that it spells, and what is printed is assembled to the same image.

ghost use Rattle.std.specs.Prelude.{◌≡◌, ◌↔◌, ℕ, ◌<◌, ◌≤◌, ◌^◌, List, length, IsTrue, Ok, Err};
ghost use Rattle.stack_text.specs.{Breaches.{least}, declared.breach.Breach.{Breach}};
ghost use Rattle.fm_image.specs.{Image.{ImageOf}, Limits.{is_image}, Spelling.{are_words, spelling, Spelled}};
ghost use Rattle.fm_asm.specs.{Sources.{source_in}, FormBreaches.{text_breaches, fault_in}, Printing.{is_plain, start_of, assembly_text}};
ghost use Rattle.fm_asm.specs.{Assembly.{IsAssembly}, Assembling.{assembly_of}};

/// The grammar and the assembler agree. This function does nothing: its clauses hold of all texts and all images.
pub fn assembled_as_spelled()
    // A text is assembled to an image exactly where it spells the image.
    ensures related { (text : List ℕ) (image : ImageOf) → (assembly_of text ≡ Ok image) ↔ IsAssembly text image }
    // It spells at most one.
    ensures one { (text : List ℕ) (image other : ImageOf)
        → IsAssembly text image → IsAssembly text other → image ≡ other }
    // The image keeps the limits of images and its numbers have 32 bits, so it has a file.
    ensures limits { (text : List ℕ) (image : ImageOf) → IsAssembly text image → Spelled (spelling image) image }
    // A text has a fault exactly where it spells no image.
    ensures fault { (text : List ℕ)
        → ((breach : Breach) × (assembly_of text ≡ Err breach)) ↔ ((image : ImageOf) → IsAssembly text image → ⊥) }
    // The first fault of its form is the least of all its breaches of rules 1 to 3.
    ensures form { (text : List ℕ) → least (text_breaches text) ≡ fault_in (source_in text) }
{}

/// The text of a plain image that keeps the limits of images spells it, and is assembled to it. This function does nothing:
/// its clauses hold of all images.
pub fn printed_again()
    ensures spells { (image : ImageOf) → IsTrue (is_plain image) → IsTrue (is_image image) → start_of image < 2 ^ 32
        → IsTrue (are_words image.words) → IsAssembly (assembly_text image) image }
    ensures back { (image : ImageOf) → IsTrue (is_plain image) → IsTrue (is_image image) → start_of image < 2 ^ 32
        → IsTrue (are_words image.words) → assembly_of (assembly_text image) ≡ Ok image }
    // It has at most 2^25 bytes.
    ensures short { (image : ImageOf) → IsTrue (is_image image) → start_of image < 2 ^ 32
        → length (assembly_text image) ≤ 2 ^ 25 }
{}

//! The laws of quick images. The functions do nothing: their clauses hold of all sources and values.

ghost use Rattle.quick_build.specs.{QuickExamples.{ProductIsQuick, SwapIsQuick, UptoIsQuick}, QuickImplements.{QuickImagesImplement, QuickImagesEndAsMeant}};
ghost use Rattle.quick_build.specs.QuickImplements.{QuickImagesGoOn, QuickProgramsAreNoSlower};

/// Quick images do what sources mean, in exactly the instructions that are counted for them.
pub fn quick_images_implement()
    ensures { QuickImagesImplement }
{}

/// That is no more than the counted instructions of the plain image.
pub fn quick_programs_are_no_slower()
    ensures { QuickProgramsAreNoSlower }
{}

/// The other way round: wherever a quick image's machine first comes to its end, the meaning is done with this count, and memory shows it;
/// and where the meaning isn't done at a bound, the machine isn't there within so many instructions.
pub fn quick_images_end_as_meant()
    ensures ends { QuickImagesEndAsMeant }
    ensures goes_on { QuickImagesGoOn }
{}

/// The code of an example, and what it takes.
pub fn upto_is_quick()
    ensures { UptoIsQuick }
{}

/// The code of a product, and what it takes.
pub fn product_is_quick()
    ensures { ProductIsQuick }
{}

/// The code of a call in line, and what it takes.
pub fn swap_is_quick()
    ensures { SwapIsQuick }
{}

//! The laws of the moments of quick code. The functions do nothing: their clauses hold of all programs and machines.

ghost use Rattle.quick_moments.specs.{ImageMoments.{QuickImagesFollow, QuickImagesShow, QuickRunsEnd, QuickSumsAreCosts}, QuickSteps.{QuickMomentsShow}};
ghost use Rattle.quick_moments.specs.{QuickSteps.{QuickStepsShow}, StepExample.{StepsAreShown}};

/// Each step of the step machine is made by exactly the counted instructions.
pub fn quick_steps_show()
    ensures { QuickStepsShow }
{}

/// So each moment of its run is shown, after the sum of what the steps up to it take.
pub fn quick_moments_show()
    ensures { QuickMomentsShow }
{}

/// So it is with each quick image of an accepted source. Once the run has ended, the sum over its steps is the cost of the program.
pub fn quick_images_show()
    ensures moments { QuickImagesShow }
    ensures source { QuickImagesFollow }
    ensures ends { QuickRunsEnd }
    ensures sum { QuickSumsAreCosts }
{}

/// The moments of two examples, computed.
pub fn steps_are_shown()
    ensures { StepsAreShown }
{}

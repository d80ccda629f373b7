//! The laws of what is stored. The function does nothing: its clauses hold of all sources and texts.

ghost use Rattle.quick_generate.specs.{DoesQuickly.{SourcesAreQuickened, TextsAreQuickened}, Example.{SwapIsQuickened, UptoIsQuickened}};

/// What is stored of each accepted source does what the source means, for all values: in exactly the counted instructions, which are
/// never more than the plain image takes, and the other way round. A file spells it.
///
/// The plain image would do so too, but for the exact count: `quickened` says which image it is. Two examples have a quick image.
pub fn quickened_images_mean()
    ensures sources { SourcesAreQuickened }
    ensures texts { TextsAreQuickened }
    ensures example { UptoIsQuickened }
    ensures call { SwapIsQuickened }
{
    stack_build::builds_implement();
    stack_build::builds_stay_inside();
    stack_build::runs_are_meant();
    quick_build::quick_images_implement();
    quick_build::quick_programs_are_no_slower();
    quick_build::quick_images_end_as_meant();
}

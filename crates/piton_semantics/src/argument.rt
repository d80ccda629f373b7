//! The one argument that an operation wants.

ghost use Rattle.std.specs.Prelude.{◌≡◌};
ghost use Rattle.piton_check.specs.Instruction.{place_of};
ghost use Rattle.piton_semantics.specs.Arguments.{word_argument, number_argument, local_argument, place_argument, area_argument, program_argument};
ghost use Rattle.piton_semantics.specs.Arguments.{test_argument};

use piton_check::ResolvedArg;
use piton_syntax::TestKind;
use piton_words::Word;

/// The word that an operation wants, if that is its one argument.
pub(crate) fn word_argument(args: &[ResolvedArg]) -> Option<Word>
    ensures { result ≡ word_argument args.now }
{
    match args {
        [ResolvedArg::Word(word)] => Some(*word),
        _ => None,
    }
}

/// The same of a number.
pub(crate) fn number_argument(args: &[ResolvedArg]) -> Option<u32>
    ensures { result ≡ number_argument args.now }
{
    match args {
        [ResolvedArg::Number(number)] => Some(*number),
        _ => None,
    }
}

/// The same of a local.
pub(crate) fn local_argument(args: &[ResolvedArg]) -> Option<u32>
    ensures { result ≡ local_argument args.now }
{
    match args {
        [ResolvedArg::Local(local)] => Some(*local),
        _ => None,
    }
}

/// The same of a label.
pub(crate) fn place_argument(args: &[ResolvedArg]) -> Option<u32>
    ensures { result ≡ place_argument args.now }
{
    match args {
        [ResolvedArg::Place(place)] => Some(*place),
        _ => None,
    }
}

/// The same of an area.
pub(crate) fn area_argument(args: &[ResolvedArg]) -> Option<u32>
    ensures { result ≡ area_argument args.now }
{
    match args {
        [ResolvedArg::Area(area)] => Some(*area),
        _ => None,
    }
}

/// The same of a program.
pub(crate) fn program_argument(args: &[ResolvedArg]) -> Option<u32>
    ensures { result ≡ program_argument args.now }
{
    match args {
        [ResolvedArg::Program(program)] => Some(*program),
        _ => None,
    }
}

/// A test, and a place.
pub(crate) fn test_argument(args: &[ResolvedArg]) -> Option<(TestKind, u32)>
    ensures { result ≡ test_argument args.now }
{
    match args {
        [ResolvedArg::Test(kind), ResolvedArg::Place(place)] => Some((*kind, *place)),
        _ => None,
    }
}

/// The place of a label; 0 for anything else.
pub fn place_of(arg: ResolvedArg) -> u32
    ensures { result ≡ place_of arg }
{
    match arg {
        ResolvedArg::Place(place) => place,
        _ => 0,
    }
}

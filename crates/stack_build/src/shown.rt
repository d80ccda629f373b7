//! What an image shows of a source: the formals of its main procedure, spaceerror, and its formal conditions.
ghost use Rattle.std.specs.{Prelude.{◌≡◌, map}, List.{find}, Option.{option_map}, Str.{bytes_eq}};
ghost use Rattle.gypsy_syntax.specs.Views.SourceView.{proc_of, source_of};
ghost use Rattle.stack_build.specs.Formals.{formal_conditions, main_of, shown_formals};

use gypsy_syntax::{Decl, Proc, Source};
use stack_text::{Name, Named};

/// The first procedure of a name.
fn first_named<'a>(procs: &'a [Proc], name: &Name) -> Option<&'a Proc>
    ensures { option_map (λ p. p.now) result ≡ find (λ p. bytes_eq name.now p.name.name) procs.now }
{
    procs.iter().find(|proc| *name == proc.name.name)
}

/// The main procedure, where the source has it.
fn main_of(source: &Source) -> Option<&Proc>
    ensures { option_map (λ p. proc_of p.now) result ≡ main_of (source_of source.now) }
{
    first_named(source.procs.as_slice(), &source.main.name)
}

/// The formals of the main procedure.
pub fn shown_formals(source: &Source) -> &[Decl]
    ensures { result.now ≡ shown_formals (source_of source.now) }
{
    match main_of(source) {
        Some(main) => main.formals.as_slice(),
        None => &[],
    }
}

/// The formal conditions of the main procedure.
pub fn formal_conditions(source: &Source) -> &[Named]
    ensures { map (λ n. n.name) result.now ≡ formal_conditions (source_of source.now) }
{
    match main_of(source) {
        Some(main) => main.conds.as_slice(),
        None => &[],
    }
}

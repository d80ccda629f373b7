//! The words of both stacks that main itself needs.

ghost use Rattle.std.specs.Prelude.{◌≡◌, ◌≤◌};
ghost use Rattle.gypsy_syntax.specs.{ProgramFits.{ProgramFits}, Programs.{proc_at, words_of}};
ghost use Rattle.gypsy_space.specs.{Events.{AreNeeds, AreSmall}, Needs.{main_need}, Nodes.{held_shapes, seen_program}};

use gypsy_space::{Needs, Program};
use stack_text::{Name, Shape};

/// Main's formals.
pub fn main_formals(program: &Program) -> &[(Name, Shape)]
    ensures { let q = seen_program program.now in held_shapes result.now ≡ (proc_at q q.main).formals }
{
    match program.procedures.get(program.main as usize) {
        Some(main) => main.formals.as_slice(),
        None => &[],
    }
}

/// The words that formals take.
fn formal_words(formals: &[(Name, Shape)]) -> u64
    requires { words_of (held_shapes formals.now) ≤ 65536 }
    ensures { result ≡ words_of (held_shapes formals.now) }
{
    let mut words = 0;
    for (_, shape) in formals {
        words += shape.item_count() as u64;
    }
    words
}

/// The words of the temporary stack that main itself needs.
pub fn temporary_need(program: &Program, needs: &Needs) -> u64
    requires needs { AreNeeds (seen_program program.now) needs.now.procedures.items }
    requires small { AreSmall needs.now.procedures.items }
    requires fits { ProgramFits (seen_program program.now) }
    ensures { result ≡ (main_need (seen_program program.now)).temp }
{
    let words = formal_words(main_formals(program));
    let need = needs.need_of(program.main);
    words + need.locals_words + need.temp
}

/// The words of the control stack that main itself needs.
pub fn control_need(program: &Program, needs: &Needs) -> u64
    requires needs { AreNeeds (seen_program program.now) needs.now.procedures.items }
    requires small { AreSmall needs.now.procedures.items }
    requires fits { ProgramFits (seen_program program.now) }
    ensures { result ≡ (main_need (seen_program program.now)).ctrl }
{
    let need = needs.need_of(program.main);
    2 + need.vars + need.ctrl
}

//! Variables that are used.

ghost use Rattle.std.specs.{Prelude.{◌≡◌, length, map}, List.{flat_map}};
ghost use Rattle.stack_text.specs.Breaches.{Notes};
ghost use Rattle.gypsy_syntax.specs.Views.SourceView.{proc_of};
ghost use Rattle.gypsy_check.specs.Rules.{actuals_breaches, test_breaches, undeclared};

use crate::scope::Scope;
use crate::types::{is_boolean_if_any, is_same_if_any};
use gypsy_syntax::Decl;
use stack_text::{Breach, Named, note_if};

/// Notes a variable that isn't declared.
pub(crate) fn check_declared(best: &mut Option<Breach>, scope: &Scope, name: &Named)
    ensures { Notes best.old (undeclared (proc_of scope.now) name.now) best.new }
{
    let shape = scope.type_of(&name.name);
    note_if(best, shape.is_none(), name.place, 14);
}

/// The same of each.
pub(crate) fn check_all_declared(best: &mut Option<Breach>, scope: &Scope, names: &[Named])
    ensures { Notes best.old (flat_map (undeclared (proc_of scope.now)) names.now) best.new }
{
    for name in names {
        check_declared(best, scope, name);
    }
}

/// Notes the variable of an `if` that isn't declared, or is no simple Boolean.
pub(crate) fn check_test(best: &mut Option<Breach>, scope: &Scope, name: &Named)
    ensures { Notes best.old (test_breaches (proc_of scope.now) name.now) best.new }
{
    let shape = scope.type_of(&name.name);
    note_if(best, shape.is_none(), name.place, 14);
    note_if(best, !is_boolean_if_any(shape), name.place, 15);
}

/// Notes each data actual that is declared and has another type than its formal.
pub(crate) fn check_actuals(
    best: &mut Option<Breach>,
    scope: &Scope,
    formals: &[Decl],
    actuals: &[Named],
)
    requires { length actuals.now ≡ length formals.now }
    ensures { let shapes = map (λ d. d.shape) formals.now in
        Notes best.old (actuals_breaches (proc_of scope.now) shapes actuals.now) best.new }
{
    for (index, actual) in actuals.iter().enumerate() {
        let formal = &formals[index];
        let shape = scope.type_of(&actual.name);
        let is_same = is_same_if_any(&formal.shape, shape);
        note_if(best, !is_same, actual.place, 21);
    }
}

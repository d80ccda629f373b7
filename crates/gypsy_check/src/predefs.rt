//! Calls of predefined procedures.

ghost use Rattle.std.specs.{Prelude.{◌≡◌, ◌<◌, ◌++◌, true, get_or, length, map}, List.{flat_map}};
ghost use Rattle.stack_text.specs.Breaches.{Notes, lesser_of, when};
ghost use Rattle.gypsy_syntax.specs.{Predefined.{slots_of}, Sources.{arg_place}, Views.SourceView.{arg_of, literal_of, proc_of}};
ghost use Rattle.gypsy_check.specs.{Arguments.{is_undeclared, is_wanted, kind_of, kind_of_literal, kind_of_type, settled_by}, Rules.{argument_breaches}};
ghost use Rattle.gypsy_check.specs.Rules.{declared_breaches, predef_breaches};

use crate::literals::{check_literal, literal_kind, literal_place};
use crate::scope::Scope;
use crate::variables::check_declared;
use gypsy_syntax::{Arg, Form, Literal, Predef, Slot, TypeText, slots_of};
use stack_text::{Breach, Kind, note_if};

/// The kind of a variable of the type, where it has the form.
fn kind_of_type(form: Form, shape: Option<TypeText>) -> Option<Kind>
    ensures { result ≡ kind_of_type form shape }
{
    let shape = shape?;
    match form {
        Form::Simple => {
            if shape.length.is_none() {
                Some(shape.kind)
            } else {
                None
            }
        }
        Form::Array => {
            if shape.length.is_none() {
                None
            } else {
                Some(shape.kind)
            }
        }
        Form::Literal => None,
    }
}

/// The kind of a literal, where it has the form.
fn kind_of_literal(form: Form, literal: &Literal) -> Option<Kind>
    ensures { result ≡ kind_of_literal form (literal_of literal.now) }
{
    match form {
        Form::Simple => None,
        Form::Array => None,
        Form::Literal => literal_kind(literal),
    }
}

/// Whether an argument of this kind is what the slot wants.
fn is_wanted(settled: Option<Kind>, slot: Option<Kind>, kind: Option<Kind>) -> bool
    ensures { result ≡ is_wanted settled slot kind }
{
    match kind {
        None => false,
        Some(kind) => match slot {
            Some(wanted) => kind.is(wanted),
            None => match settled {
                Some(wanted) => kind.is(wanted),
                None => true,
            },
        },
    }
}

/// The kind that the arguments share, once it is settled.
fn settled_by(settled: Option<Kind>, slot: Option<Kind>, kind: Option<Kind>) -> Option<Kind>
    ensures { result ≡ settled_by settled slot kind }
{
    match settled {
        Some(kind) => Some(kind),
        None => match slot {
            Some(_) => None,
            None => kind,
        },
    }
}

/// The place of an argument.
fn arg_place(arg: &Arg) -> u32
    ensures { result ≡ arg_place (arg_of arg.now) }
{
    match arg {
        Arg::Variable(name) => name.place,
        Arg::Constant(literal) => literal_place(literal),
    }
}

/// Notes a variable that isn't declared, or a number that is out of range.
fn check_argument(best: &mut Option<Breach>, scope: &Scope, arg: &Arg)
    ensures { Notes best.old (argument_breaches (proc_of scope.now) (arg_of arg.now)) best.new }
{
    match arg {
        Arg::Variable(name) => check_declared(best, scope, name),
        Arg::Constant(literal) => check_literal(best, literal),
    }
}

/// The same of each argument.
fn check_arguments(best: &mut Option<Breach>, scope: &Scope, args: &[Arg])
    ensures { Notes best.old (flat_map (λ a. argument_breaches (proc_of scope.now) (arg_of a)) args.now) best.new }
{
    for arg in args {
        check_argument(best, scope, arg);
    }
}

/// Notes the same of one argument, and tells its kind, where it has the form, and whether it is a variable that isn't
/// declared.
fn judge_argument(
    best: &mut Option<Breach>,
    scope: &Scope,
    form: Form,
    arg: &Arg,
) -> (Option<Kind>, bool)
    ensures kind { result.0 ≡ kind_of (proc_of scope.now) form (arg_of arg.now) }
    ensures undeclared { result.1 ≡ is_undeclared (proc_of scope.now) (arg_of arg.now) }
    ensures noted { Notes best.old (argument_breaches (proc_of scope.now) (arg_of arg.now)) best.new }
{
    match arg {
        Arg::Variable(name) => {
            let shape = scope.type_of(&name.name);
            note_if(best, shape.is_none(), name.place, 14);
            (kind_of_type(form, shape), shape.is_none())
        }
        Arg::Constant(literal) => {
            check_literal(best, literal);
            (kind_of_literal(form, literal), false)
        }
    }
}

/// The slot at an index.
#[tactic(auto, using(crate::proofs::NoteLaws::get_or_self))]
fn slot_at(slots: &[Slot], index: usize) -> Slot
    requires { index < length slots.now }
    ensures { result ≡ get_or slots.now index result }
{
    slots[index]
}

/// Notes the breach, if there is one.
fn note_found(best: &mut Option<Breach>, found: Option<Breach>)
    ensures { best.new ≡ lesser_of best.old found }
{
    if let Some(breach) = found {
        note_if(best, true, breach.place, breach.rule);
    }
}

/// Notes the breaches of each argument by itself, and where each name among them is declared, each argument that isn't what
/// its slot wants. A name is sought once.
fn check_slots(best: &mut Option<Breach>, scope: &Scope, slots: &[Slot], args: &[Arg])
    requires { length args.now ≡ length slots.now }
    ensures { let p = proc_of scope.now in
        let alone = flat_map (λ a. argument_breaches p (arg_of a)) args.now in
        Notes best.old (alone ++ declared_breaches p slots.now (map arg_of args.now)) best.new }
{
    let mut unwanted = None;
    let mut settled = None;
    let mut lacks_declaration = false;
    for (index, arg) in args.iter().enumerate() {
        let slot = slot_at(slots, index);
        let (kind, is_undeclared) = judge_argument(best, scope, slot.form, arg);
        lacks_declaration |= is_undeclared;
        let wanted = is_wanted(settled, slot.kind, kind);
        let place = arg_place(arg);
        note_if(&mut unwanted, !wanted, place, 23);
        settled = settled_by(settled, slot.kind, kind);
    }
    if !lacks_declaration {
        note_found(best, unwanted);
    }
}

/// Notes the breaches of each argument by itself, and that their number is wrong.
fn check_wrong_number(best: &mut Option<Breach>, scope: &Scope, place: u32, args: &[Arg])
    ensures { let alone = flat_map (λ a. argument_breaches (proc_of scope.now) (arg_of a)) args.now in
        Notes best.old (alone ++ when true place 22) best.new }
{
    check_arguments(best, scope, args);
    note_if(best, true, place, 22);
}

/// Notes the breaches of a predefined call.
pub(crate) fn check_predef(
    best: &mut Option<Breach>,
    scope: &Scope,
    place: u32,
    which: Predef,
    args: &[Arg],
)
    ensures { let breaches = predef_breaches (proc_of scope.now) place (slots_of which) (map arg_of args.now) in
        Notes best.old breaches best.new }
{
    let slots = slots_of(which);
    if args.len() == slots.len() {
        check_slots(best, scope, slots, args);
    } else {
        check_wrong_number(best, scope, place, args);
    }
}

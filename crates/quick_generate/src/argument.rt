//! The arguments of predefined calls.

ghost use Rattle.std.specs.Prelude.{◌≡◌, ◌<◌, map};
ghost use Rattle.gypsy_syntax.specs.Effects.{item_of_value};
ghost use Rattle.gypsy_space.specs.Nodes.{seen_arg};
ghost use Rattle.quick_code.specs.Access.{register_of};
ghost use Rattle.quick_gypsy.specs.RowCode.{arg_access, arg_number, arg_var};
ghost use Rattle.quick_generate.specs.{Rows.{literal_number, var_of}, Views.{frame_layout, seen_access}};

use crate::access::Access;
use crate::frame::Frame;
use fm_words::word_of_int;
use gypsy_space::Argument;
use stack_text::Value;

/// The variable that an argument is.
fn variable_of(arg: &Argument) -> u32
    ensures { result ≡ var_of (seen_arg arg.now) }
{
    match arg {
        Argument::Variable(variable) => *variable,
        Argument::Constant(_) => 0,
    }
}

/// The variable that the argument with this number is.
#[tactic(auto, using(crate::proofs::ArgumentLaws::var_there, crate::proofs::ArgumentLaws::var_none))]
pub(crate) fn variable(args: &[Argument], index: usize) -> u32
    ensures { result ≡ arg_var (map seen_arg args.now) index }
{
    match args.get(index) {
        Some(arg) => variable_of(arg),
        None => 0,
    }
}

/// The first item of a value.
fn item(value: &Value) -> i32
    ensures { result ≡ item_of_value value.now }
{
    match value.items.first() {
        Some(item) => *item,
        None => 0,
    }
}

/// The number of a literal.
fn number_of(arg: &Argument) -> u32
    ensures { result ≡ literal_number (seen_arg arg.now) }
{
    match arg {
        Argument::Variable(_) => 0,
        Argument::Constant(value) => word_of_int(item(value)),
    }
}

/// The number of the literal argument with this number.
#[tactic(auto, using(crate::proofs::ArgumentLaws::number_there, crate::proofs::ArgumentLaws::number_none))]
pub(crate) fn number(args: &[Argument], index: usize) -> u32
    ensures { result ≡ arg_number (map seen_arg args.now) index }
{
    match args.get(index) {
        Some(arg) => number_of(arg),
        None => 0,
    }
}

/// How the variable that an argument is is reached.
pub(crate) fn reach(frame: &Frame, args: &[Argument], index: usize) -> Access
    ensures value { seen_access result ≡ arg_access (frame_layout frame.now) (map seen_arg args.now) index }
    ensures register { register_of (seen_access result) < 16 }
{
    frame.reach(variable(args, index))
}

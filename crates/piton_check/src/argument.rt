//! Arguments and instructions.

ghost use Rattle.std.specs.{Prelude.{◌≡◌, map, OnOk}, List.{flat_map}};
ghost use Rattle.stack_heap.specs.Heaps.{IfOkUnless};
ghost use Rattle.stack_text.specs.Breaches.{Notes};
ghost use Rattle.piton_check.specs.{Declarations.{label_names, local_names, first_of}, Meaning.{count_of, name_kind, name_of}, Resolved.{resolved_argument}};
ghost use Rattle.piton_check.specs.{Resolved.{resolved_instruction}, Tables.{KnowsProgram}, Violations.{name_rule, argument_breaches, instruction_breaches}};

use crate::names::Scope;
use crate::resolved::{ResolvedArg, ResolvedInstr};
use crate::word::{area_position, natural, program_position, word};
use piton_syntax::{ArgKind, ArgText, Arguments, InstrText};
use stack_heap::Heap;
use stack_text::{Breach, MOST_STACK, Memory, Name, note_if};

/// The number, where an instruction may have it as its count.
fn count(number: i128) -> Option<u32>
    ensures { result ≡ count_of number }
{
    let count = natural(number)?;
    if count <= MOST_STACK {
        Some(count)
    } else {
        None
    }
}

/// The kind of the names that an operation takes.
fn name_kind(arguments: Arguments) -> ArgKind
    ensures { result ≡ name_kind arguments }
{
    match arguments {
        Arguments::Zero => ArgKind::Word,
        Arguments::One(kind) => kind,
        Arguments::TestAndLabel(_) => ArgKind::Label,
        Arguments::OneOrMore(kind) => kind,
    }
}

/// The rule that a name of the kind breaks where it means nothing.
fn name_rule(kind: ArgKind) -> u8
    ensures { result ≡ name_rule kind }
{
    match kind {
        ArgKind::Label => 7,
        ArgKind::Program => 8,
        ArgKind::Area => 10,
        _ => 9,
    }
}

/// The offset of a formal or a temporary in the frame.
fn local_offset(scope: &Scope, name: &Name) -> Option<u32>
    requires { KnowsProgram scope.now }
    ensures { result ≡ first_of (local_names scope.now.program.now) name.now }
{
    scope.locals.get(name.bytes())
}

/// The position of the instruction that has a label.
fn label_place(scope: &Scope, name: &Name) -> Option<u32>
    requires { KnowsProgram scope.now }
    ensures { result ≡ first_of (label_names scope.now.program.now) name.now }
{
    scope.labels.get(name.bytes())
}

/// What a name of the kind means, if it means anything.
fn name_meaning(scope: &Scope, kind: ArgKind, name: &Name) -> Option<ResolvedArg>
    requires { KnowsProgram scope.now }
    ensures { result ≡ name_of scope.now.names.now.system.now scope.now.program.now kind name.now }
{
    match kind {
        ArgKind::Local => Some(ResolvedArg::Local(local_offset(scope, name)?)),
        ArgKind::Area => Some(ResolvedArg::Area(area_position(scope.names, name)?)),
        ArgKind::Label => Some(ResolvedArg::Place(label_place(scope, name)?)),
        ArgKind::Program => Some(ResolvedArg::Program(program_position(scope.names, name)?)),
        _ => None,
    }
}

/// An argument; one that means nothing is noted.
fn argument(best: &mut Option<Breach>, scope: &Scope, kind: ArgKind, arg: &ArgText) -> ResolvedArg
    requires { KnowsProgram scope.now }
    ensures value { result ≡ resolved_argument scope.now.names.now.system.now scope.now.program.now kind arg.now }
    ensures noted { let system = scope.now.names.now.system.now in
        Notes best.old (argument_breaches system scope.now.program.now kind arg.now) best.new }
{
    match arg {
        ArgText::Name(name) => {
            let meant = name_meaning(scope, kind, &name.name);
            note_if(best, meant.is_none(), name.place, name_rule(kind));
            meant.unwrap_or(ResolvedArg::Number(0))
        }
        ArgText::Number(number) => {
            let meant = count(number.number);
            note_if(best, meant.is_none(), number.place, 13);
            ResolvedArg::Number(meant.unwrap_or(0))
        }
        ArgText::Word(text) => ResolvedArg::Word(word(best, scope.names, text)),
        ArgText::Test(test) => ResolvedArg::Test(*test),
    }
}

/// Arguments, one after the other.
fn arguments<H: Heap>(
    heap: H,
    best: &mut Option<Breach>,
    scope: &Scope,
    kind: ArgKind,
    texts: &[ArgText],
) -> Result<Vec<ResolvedArg>, Memory>
    requires { KnowsProgram scope.now }
    ensures value { let system = scope.now.names.now.system.now in
        IfOkUnless (H.may_refuse heap) result
        (λ args. args.items ≡ map (resolved_argument system scope.now.program.now kind) texts.now) }
    ensures noted { let system = scope.now.names.now.system.now in
        let breaches = flat_map (argument_breaches system scope.now.program.now kind) texts.now in
        OnOk result (Notes best.old breaches best.new) }
{
    let mut args = heap.with_room_for(texts)?;
    for text in texts {
        heap.push(&mut args, argument(best, scope, kind, text))?;
    }
    Ok(args)
}

/// An instruction.
fn instruction<H: Heap>(
    heap: H,
    best: &mut Option<Breach>,
    scope: &Scope,
    instr: &InstrText,
) -> Result<ResolvedInstr, Memory>
    requires { KnowsProgram scope.now }
    ensures value { let system = scope.now.names.now.system.now in
        IfOkUnless (H.may_refuse heap) result
        (λ resolved. resolved ≡ resolved_instruction system scope.now.program.now instr.now) }
    ensures noted { let system = scope.now.names.now.system.now in
        OnOk result (Notes best.old (instruction_breaches system scope.now.program.now instr.now) best.new) }
{
    let op = instr.op;
    let args = arguments(heap, best, scope, name_kind(op.arguments()), &instr.args)?;
    Ok(ResolvedInstr { op, args })
}

/// Instructions, one after the other.
pub(crate) fn instructions<H: Heap>(
    heap: H,
    best: &mut Option<Breach>,
    scope: &Scope,
    texts: &[InstrText],
) -> Result<Vec<ResolvedInstr>, Memory>
    requires { KnowsProgram scope.now }
    ensures value { let system = scope.now.names.now.system.now in
        IfOkUnless (H.may_refuse heap) result
        (λ instrs. instrs.items ≡ map (resolved_instruction system scope.now.program.now) texts.now) }
    ensures noted { let system = scope.now.names.now.system.now in
        let breaches = flat_map (instruction_breaches system scope.now.program.now) texts.now in
        OnOk result (Notes best.old breaches best.new) }
{
    let mut instrs = heap.with_room_for(texts)?;
    for text in texts {
        heap.push(&mut instrs, instruction(heap, best, scope, text)?)?;
    }
    Ok(instrs)
}

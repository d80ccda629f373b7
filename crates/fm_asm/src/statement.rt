//! Statements.

ghost use Rattle.std.specs.Prelude.{◌≡◌, option_map};
ghost use Rattle.fm_asm.specs.Statements.{statement_of, directive_named, directed, by_directive, statement_in};

use crate::cuts::split_once;
use crate::instruction::instruction_in;
use crate::value::{Value, decimal_in, value_in};

/// A statement; an instruction is its word. What is out of its range is `None`: a number, or an instruction by its immediate.
#[derive(Clone, Copy, Debug)]
pub(crate) enum Statement<'a> {
    Base(Option<u32>),
    Size(Option<u32>),
    Final(Value<'a>),
    Start(Value<'a>),
    Word(Value<'a>),
    Instruction(Option<u32>),
}

/// What the first word of a statement names, unless it begins an instruction.
#[derive(Clone, Copy, Debug)]
enum Directive {
    Base,
    Size,
    Final,
    Start,
    Word,
}

/// The directive that a first word names.
#[tactic(auto, unfolding(crate::specs::Statements::directive_named))]
fn directive_named(name: &[u8]) -> Option<Directive>
    ensures { result ≡ directive_named name.now }
{
    if name == b".base".as_slice() {
        Some(Directive::Base)
    } else if name == b".size".as_slice() {
        Some(Directive::Size)
    } else if name == b".final".as_slice() {
        Some(Directive::Final)
    } else if name == b".start".as_slice() {
        Some(Directive::Start)
    } else if name == b".word".as_slice() {
        Some(Directive::Word)
    } else {
        None
    }
}

/// The statement of a directive and the word after it.
#[tactic(auto, unfolding(crate::specs::Statements::directed))]
fn directed(directive: Directive, argument: &[u8]) -> Option<Statement<'_>>
    ensures { option_map statement_of result ≡ directed directive argument.now }
{
    match directive {
        Directive::Base => Some(Statement::Base(decimal_in(argument)?)),
        Directive::Size => Some(Statement::Size(decimal_in(argument)?)),
        Directive::Final => Some(Statement::Final(value_in(argument)?)),
        Directive::Start => Some(Statement::Start(value_in(argument)?)),
        Directive::Word => Some(Statement::Word(value_in(argument)?)),
    }
}

/// The statement of a first word, which names a directive or begins an instruction, and of what stands after the space.
#[tactic(auto, unfolding(crate::specs::Statements::by_directive))]
fn by_directive<'a>(
    directive: Option<Directive>,
    head: &[u8],
    rest: &'a [u8],
) -> Option<Statement<'a>>
    ensures { option_map statement_of result ≡ by_directive directive head.now rest.now }
{
    match directive {
        Some(directive) => directed(directive, rest),
        None => Some(Statement::Instruction(instruction_in(head, rest)?)),
    }
}

/// The statement of a text.
#[tactic(auto, unfolding(crate::specs::Statements::statement_in))]
pub(crate) fn statement_in(text: &[u8]) -> Option<Statement<'_>>
    ensures { option_map statement_of result ≡ statement_in text.now }
{
    let (head, rest) = split_once(b' ', text)?;
    by_directive(directive_named(head), head, rest)
}

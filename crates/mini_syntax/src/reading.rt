//! Programs, read from the tokens of a judged text.

ghost use Rattle.std.specs.Prelude.{◌≡◌, ◌<◌, ◌≤◌, ◌^◌, [], ◌∷◌, length, map, IfOk, OnOk, Some, true};
ghost use Rattle.stack_heap.specs.Heaps.{IfOkUnless, OnOkUnless};
ghost use Rattle.mini_syntax.specs.{MiniReading.{ReadsText, RefusesTextUnless}, Internal.Declaring.{are_proper, ReadsDecl, ReadsDecls, ReadsProgram}};
ghost use Rattle.mini_syntax.specs.{Internal.Lexemes.{left_of, next_kind, token_seen}, Internal.Phrases.{Awaits, sort_declared}, Internal.Scopes.{IsScope}};
ghost use Rattle.mini_syntax.specs.declared.expected.Expected.TheVariants as wants;
ghost use Rattle.mini_syntax.specs.Grammar as grammar;

use crate::blocks::statements;
use crate::fault::MiniFault;
use crate::judging::judge_text;
use crate::lexeme::{Cursor, Lexeme};
use crate::lexer::TokenKind;
use crate::mark::Mark;
use crate::program::InfixProgram;
use crate::scope::{Scope, enter};
use crate::sort::Sort;
use crate::word::Word;
use name_tables::{NameKeys, NameTable};
use stack_heap::Heap;
use stack_text::{Breach, Memory, note_if, read_name};

/// The most variables of a program.
const MAX_VARIABLES: usize = 100;

/// A program that was read, and the least breach of the rules in it.
#[derive(Debug, Drop)]
pub struct Reading {
    /// What was read, which counts where there is no breach.
    pub program: InfixProgram,
    /// The least breach of the rules Y5 to Y9, if there is one.
    pub breach: Option<Breach>,
}

/// The sort with which a declaration begins, if one does.
fn sort_declared(kind: TokenKind) -> Option<Sort>
    ensures { result ≡ sort_declared kind }
{
    match kind {
        TokenKind::Word(Word::Sort(sort)) => Some(sort),
        _ => None,
    }
}

/// Reads a declaration of a variable of the sort, and enters it.
fn declaration<'a, H: Heap>(
    heap: H,
    cursor: &mut Cursor<'_, 'a>,
    scope: &mut Scope<'a>,
    best: &mut Option<Breach>,
    sort: Sort,
) -> Result<(), Memory>
    requires scope { IsScope scope.old }
    requires few { length scope.old.declared.items < 2 ^ 32 }
    requires awaits { Awaits (wants.MoreDeclarations ∷ []) (left_of cursor.old) }
    requires begun { Some sort ≡ sort_declared (next_kind (left_of cursor.old)) }
    requires named { are_proper (left_of cursor.old) ≡ true }
    ensures scope { OnOkUnless (H.may_refuse heap) result (IsScope scope.new) }
    ensures read { OnOk result (ReadsDecl scope.old.declared.items scope.new.declared.items
        (left_of cursor.old) (left_of cursor.new) best.old best.new) }
{
    cursor.next();
    let variable = cursor.next();
    cursor.mark(Mark::Semicolon);
    note_if(
        best,
        scope.named(variable.bytes).is_some(),
        variable.place,
        5,
    );
    note_if(
        best,
        scope.declared.len() == MAX_VARIABLES,
        variable.place,
        9,
    );
    match read_name(heap, variable.bytes)? {
        Some(name) => enter(heap, scope, name, variable.bytes, sort),
        None => unreachable!(),
    }
}

/// The key of the table of variables: all tokens that are left are taken in.
fn keys_of(left: &[Lexeme<'_>]) -> NameKeys {
    let mut keys = NameKeys::new();
    for lexeme in left {
        keys.take_in(lexeme.bytes);
    }
    keys
}

/// Reads all declarations.
fn declarations<'a, H: Heap>(
    heap: H,
    cursor: &mut Cursor<'_, 'a>,
    best: &mut Option<Breach>,
) -> Result<Scope<'a>, Memory>
    requires awaits { Awaits (wants.MoreDeclarations ∷ []) (left_of cursor.old) }
    requires named { are_proper (left_of cursor.old) ≡ true }
    requires few { length (left_of cursor.old) < 2 ^ 32 }
    ensures scope { IfOkUnless (H.may_refuse heap) result IsScope }
    ensures read { IfOk result (λ scope. ReadsDecls scope.declared.items
        (left_of cursor.old) (left_of cursor.new) best.old best.new) }
{
    let mut scope = Scope {
        declared: Vec::new(heap.handle()),
        variables: NameTable::keyed(heap.handle(), keys_of(cursor.left)),
    };
    while let Some(sort) = sort_declared(cursor.kind()) {
        declaration(heap, cursor, &mut scope, best, sort)?;
    }
    Ok(scope)
}

/// The program that the tokens of a judged text are.
fn read_program<H: Heap>(heap: H, lexemes: &[Lexeme<'_>]) -> Result<Reading, Memory>
    requires program { (p : grammar.InfixProgram) × (map token_seen lexemes.now ≡ grammar.program_tokens p) }
    requires named { are_proper (map token_seen lexemes.now) ≡ true }
    requires few { length lexemes.now < 2 ^ 32 }
    ensures { IfOkUnless (H.may_refuse heap) result (ReadsProgram (map token_seen lexemes.now)) }
{
    let mut cursor = Cursor { left: lexemes };
    let mut breach = None;
    let scope = declarations(heap, &mut cursor, &mut breach)?;
    let body = statements(heap, &mut cursor, &scope, &mut breach)?;
    let Scope {
        declared,
        variables: _,
    } = scope;
    Ok(Reading {
        program: InfixProgram { declared, body },
        breach,
    })
}

/// Reads a program from a text of at most 2^20 bytes.
///
/// The time is linear in the text, but for names that were picked so that they meet in a hash table, whose seed is fixed.
///
/// # Errors
///
/// The first token that breaks one of the rules 1 to 4, with the least rule that it breaks; or else the least place and
/// then the least rule of 5 to 9; or out of memory.
pub fn read_mini<H: Heap>(heap: H, text: &[u8]) -> Result<InfixProgram, MiniFault>
    requires { length text.now ≤ 2 ^ 20 }
    ensures read { IfOk result (ReadsText text.now) }
    ensures fault { RefusesTextUnless (H.may_refuse heap) text.now result }
{
    let lexemes = judge_text(heap, text)?;
    let read = read_program(heap, lexemes.as_slice())?;
    let Reading { program, breach } = read;
    match breach {
        None => Ok(program),
        Some(Breach { rule, place }) => Err(MiniFault::Refused { rule, place }),
    }
}

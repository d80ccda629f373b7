//! Whether a certificate covers a source.

ghost use Rattle.std.specs.{Prelude.{◌≡◌, ◌↔◌, ◌<◌, ◌≤◌, ◌^◌, ◌==◌, List, IfSome, IsTrue, None, get_or, length, map}, List.{position}, Option.{option_map}};
ghost use Rattle.std.specs.Str.{bytes_eq};
ghost use Rattle.gypsy_syntax.specs.{Programs.{proc_at, words_of}, Resolved.{position_of, procedure_names, program_of, shape_of}};
ghost use Rattle.gypsy_syntax.specs.Views.SourceView.{parts_of_list, proc_of, source_of, stmt_of};
ghost use Rattle.gypsy_space.specs.{Events.{AreNeeds, AreSmall, IsSmall, need_at}, Needs.{main_used, stack_sizes}};
ghost use Rattle.stack_text.specs.Values.{ValueOf, item_count};
ghost use Rattle.gypsy_check.specs.Accepted.{IsAccepted};
ghost use Rattle.space_cert.specs.{Covers.{Covers, as_words, bound_at, sizes_for}, Never.{NeverSpaceError}, Accepting.{covers, covers_call, covers_calls}};
ghost use Rattle.space_cert.specs.Accepting.{covers_from, covers_main, covers_run, is_covered, parts_callees, source_callees, source_calls};
ghost use Rattle.gypsy_semantics.specs.Views.Fitting.{suffice};

use crate::certificate::Certificate;
use crate::certifying::{bound_of, call_bound};
use gypsy_check::Accepted;
use gypsy_space::{Need, Needs};
use gypsy_syntax::{Decl, Proc, Source, Stmt, TypeText};
use stack_text::Name;

/// Whether these words of both stacks are at most those.
fn is_at_most(words: (u64, u64), most: (u64, u64)) -> bool
    ensures { result ≡ suffice (as_words words) (as_words most) }
{
    words.0 <= most.0 && words.1 <= most.1
}

/// The position of the first procedure with a name.
pub(crate) fn place_of(source: &Source, name: &Name) -> Option<usize>
    ensures exact { result ≡ position (λ p. bytes_eq name.now p.name.name) source.now.procs.items }
    ensures there { IfSome result (λ p. p < length source.now.procs.items) }
{
    source.procs.iter().position(|proc| *name == proc.name.name)
}

/// The position of the first procedure with a name, or 0 where none has it.
fn position_of(source: &Source, name: &Name) -> usize
    ensures { result ≡ position_of name.now (procedure_names (source_of source.now)) }
{
    place_of(source, name).unwrap_or(0)
}

/// What a procedure needs, or nothing where there is no such procedure.
fn need_of(needs: &Needs, procedure: usize) -> Need
    requires { AreSmall needs.now.procedures.items }
    ensures need { result ≡ need_at needs.now.procedures.items procedure }
    ensures small { IsSmall result }
{
    match needs.procedures.get(procedure) {
        Some(need) => *need,
        None => Need {
            temp: 0,
            ctrl: 0,
            locals_words: 0,
            vars: 0,
            code_words: 0,
        },
    }
}

/// A procedure's bounds.
fn bound_in(cert: &Certificate, procedure: usize) -> Option<(u64, u64)>
    ensures bound { result ≡ get_or cert.now.bounds.items procedure None }
    ensures small { IfSome result (λ b. (b.0 ≤ 2 ^ 40) × (b.1 ≤ 2 ^ 40)) }
{
    bound_of(cert.bounds.as_slice(), procedure)
}

/// Whether a call of a procedure takes at most these words.
fn covers_call(needs: &Needs, cert: &Certificate, bound: (u64, u64), callee: usize) -> bool
    requires { AreSmall needs.now.procedures.items }
    ensures { result ≡ covers_call needs.now.procedures.items cert.now.bounds.items (as_words bound) callee }
{
    match bound_in(cert, callee) {
        None => false,
        Some(own) => is_at_most(call_bound(need_of(needs, callee), own), bound),
    }
}

/// Whether each call in a statement takes at most these words.
#[cycle(statements)]
fn covers_statement(
    source: &Source,
    needs: &Needs,
    cert: &Certificate,
    bound: (u64, u64),
    stmt: &Stmt,
) -> bool
    requires { AreSmall needs.now.procedures.items }
    ensures { result ≡ covers_calls needs.now.procedures.items cert.now.bounds.items (as_words bound)
        (source_callees (source_of source.now) (stmt_of stmt.now)) }
{
    match stmt {
        Stmt::NoOp { .. } | Stmt::Signal { .. } | Stmt::Predef { .. } => true,
        Stmt::Seq { parts, .. } => covers_parts(source, needs, cert, bound, parts.as_slice()),
        Stmt::Loop { body, .. } => covers_statement(source, needs, cert, bound, body),
        Stmt::If { yes, no, .. } => {
            covers_statement(source, needs, cert, bound, yes)
                && covers_statement(source, needs, cert, bound, no)
        }
        Stmt::Begin { body, arm, .. } => {
            covers_statement(source, needs, cert, bound, body)
                && covers_statement(source, needs, cert, bound, arm)
        }
        Stmt::Call { callee, .. } => {
            covers_call(needs, cert, bound, position_of(source, &callee.name))
        }
    }
}

/// Whether each call in the parts of a sequence takes at most these words.
#[cycle(statements)]
fn covers_parts(
    source: &Source,
    needs: &Needs,
    cert: &Certificate,
    bound: (u64, u64),
    parts: &[Stmt],
) -> bool
    requires { AreSmall needs.now.procedures.items }
    ensures { result ≡ covers_calls needs.now.procedures.items cert.now.bounds.items (as_words bound)
        (parts_callees (source_of source.now) (parts_of_list parts.now)) }
{
    for part in parts {
        if !covers_statement(source, needs, cert, bound, part) {
            return false;
        }
    }
    true
}

/// Whether a procedure's bounds, if it has some, are enough.
fn covers_run(source: &Source, needs: &Needs, cert: &Certificate, index: usize, proc: &Proc) -> bool
    requires { AreSmall needs.now.procedures.items }
    ensures { result ≡ covers_run needs.now.procedures.items cert.now.bounds.items
        (need_at needs.now.procedures.items index) (source_callees (source_of source.now) (proc_of proc.now).body)
        (bound_at cert.now.bounds.items index) }
{
    match bound_in(cert, index) {
        None => true,
        Some(bound) => {
            let need = need_of(needs, index);
            is_at_most((need.temp, need.ctrl), bound)
                && covers_statement(source, needs, cert, bound, &proc.body)
        }
    }
}

/// Whether the bounds of each procedure are enough.
fn covers_all(source: &Source, needs: &Needs, cert: &Certificate, procs: &[Proc]) -> bool
    requires { AreSmall needs.now.procedures.items }
    ensures { result ≡ covers_from needs.now.procedures.items cert.now.bounds.items 0
        (map (λ p. source_callees (source_of source.now) p.body) (map proc_of procs.now)) }
{
    for (index, proc) in procs.iter().enumerate() {
        if !covers_run(source, needs, cert, index, proc) {
            return false;
        }
    }
    true
}

/// How many items a variable of a type has.
fn item_count(text: TypeText) -> u64
    requires { item_count (shape_of text) ≤ 65536 }
    ensures { result ≡ item_count (shape_of text) }
{
    match text.length {
        None => 1,
        Some(length) => { if length <= 0 { 1 } else { length as u64 } }
    }
}

/// The words that formals take.
fn formal_words(formals: &[Decl]) -> u64
    requires { words_of (map (λ d. shape_of d.shape) formals.now) ≤ 65536 }
    ensures { result ≡ words_of (map (λ d. shape_of d.shape) formals.now) }
{
    let mut words = 0;
    for decl in formals {
        words += item_count(decl.shape);
    }
    words
}

/// The words that main's formals take.
fn main_formal_words(source: &Source, main: usize) -> u64
    requires accepted { IsAccepted (source_of source.now) }
    requires main { main ≡ (program_of (source_of source.now)).main }
    ensures exact { let program = program_of (source_of source.now) in
        result ≡ words_of (proc_at program program.main).formals }
    ensures small { result ≤ 65536 }
{
    match source.procs.get(main) {
        Some(proc) => formal_words(proc.formals.as_slice()),
        None => 0,
    }
}

/// Main's words, and its frame.
fn main_used(source: &Source, needs: &Needs, main: usize) -> (u64, u64)
    requires accepted { IsAccepted (source_of source.now) }
    requires main { main ≡ (program_of (source_of source.now)).main }
    requires needs { AreNeeds (program_of (source_of source.now)) needs.now.procedures.items }
    requires small { AreSmall needs.now.procedures.items }
    ensures used { as_words result ≡ main_used (program_of (source_of source.now)) }
    ensures small_temp { result.0 ≤ 2 ^ 62 }
    ensures small_ctrl { result.1 ≤ 2 ^ 62 }
{
    let need = need_of(needs, main);
    let words = main_formal_words(source, main);
    (words + need.locals_words, 2 + need.vars)
}

/// Whether a certificate covers an accepted source at the sizes of the control stack and of the temporary stack. Where it does,
/// no run of the source ever raises `spaceerror` at these sizes, whatever the values are.
///
/// It takes no memory. So each callee is looked for among the procedures, and the time goes by the calls times the
/// procedures.
pub fn accepts(accepted: &Accepted, needs: &Needs, cert: &Certificate, ctrl: u32, temp: u32) -> bool
    requires needs { AreNeeds (program_of (source_of accepted.now)) needs.now.procedures.items }
    requires small { AreSmall needs.now.procedures.items }
    ensures covers { IsTrue result ↔
        Covers (program_of (source_of accepted.now)) cert.now.bounds.items (stack_sizes ctrl temp) }
    ensures exact { result ≡
        is_covered (program_of (source_of accepted.now)) cert.now.bounds.items (stack_sizes ctrl temp) }
    ensures never { IsTrue result → (v : List ValueOf) →
        NeverSpaceError (program_of (source_of accepted.now)) (stack_sizes ctrl temp) v }
{
    let source = accepted.source();
    covers(source, needs, cert, (temp as u64, ctrl as u64))
}

/// The sizes of the temporary stack and of the control stack for which a certificate is just large enough: main's words and
/// frame, and what its bounds of main give beside them. Where it has none of main, they are nothing.
pub fn sizes_for(accepted: &Accepted, needs: &Needs, cert: &Certificate) -> (u64, u64)
    requires needs { AreNeeds (program_of (source_of accepted.now)) needs.now.procedures.items }
    requires small { AreSmall needs.now.procedures.items }
    ensures { as_words result ≡ sizes_for (program_of (source_of accepted.now)) cert.now.bounds.items }
{
    let source = accepted.source();
    let main = position_of(source, &source.main.name);
    let used = main_used(source, needs, main);
    let bound = bound_in(cert, main).unwrap_or((0, 0));
    (used.0 + bound.0, used.1 + bound.1)
}

/// Whether a certificate has an entry for each procedure.
fn has_each(source: &Source, cert: &Certificate) -> bool
    ensures { result ≡ (length cert.now.bounds.items == length (source_calls (source_of source.now))) }
{
    cert.bounds.len() == source.procs.len()
}

/// The same, of a source that is known to be accepted.
fn covers(source: &Source, needs: &Needs, cert: &Certificate, sizes: (u64, u64)) -> bool
    requires accepted { IsAccepted (source_of source.now) }
    requires needs { AreNeeds (program_of (source_of source.now)) needs.now.procedures.items }
    requires small { AreSmall needs.now.procedures.items }
    ensures { let program = program_of (source_of source.now) in
        result ≡ covers needs.now.procedures.items cert.now.bounds.items (main_used program) (as_words sizes)
        program.main (source_calls (source_of source.now)) }
{
    let main = position_of(source, &source.main.name);
    if !has_each(source, cert) {
        return false;
    }
    if !covers_main(main_used(source, needs, main), sizes, bound_in(cert, main)) {
        return false;
    }
    covers_all(source, needs, cert, source.procs.as_slice())
}

/// Whether main's words with its bounds are within the sizes.
fn covers_main(used: (u64, u64), sizes: (u64, u64), bound: Option<(u64, u64)>) -> bool
    requires temp { used.0 ≤ 2 ^ 62 }
    requires ctrl { used.1 ≤ 2 ^ 62 }
    requires bound { IfSome bound (λ b. (b.0 ≤ 2 ^ 40) × (b.1 ≤ 2 ^ 40)) }
    ensures { result ≡ covers_main (as_words used) (as_words sizes) (option_map as_words bound) }
{
    match bound {
        None => false,
        Some(bound) => is_at_most((used.0 + bound.0, used.1 + bound.1), sizes),
    }
}

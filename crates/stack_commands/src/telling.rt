//! Prints what a session says to a script, while it follows it.
ghost use Rattle.std.specs.Prelude.{◌≡◌, ◌≤◌, ◌⊎◌, [], IfOk, OnOk, OnErr, IsErrOf, map};
ghost use Rattle.stack_shelf.specs.{Causes.{Rose}, Shelf.{appended, PrefixAppended}};
ghost use Rattle.command_line.specs.Devices.{lines_of, took_each};
ghost use Rattle.level_debuggers.specs.{Levels.{IsRunner}, Views.Sessions.{IsSession, session_of}, Transcripts.{followed}};
ghost use Rattle.stack_commands.specs.{Commands.Debug.{end_verdict, followed_reply}, Works.{script_run_reply}, Internal.Transcript.{AllPrinted}};
ghost use Rattle.command_replies.specs.Replies.{reply_text, status_of, verdict_line};

use crate::debug::end_verdict;
use crate::script_run::ScriptRun;
use command_line::{Status, print};
use command_replies::Verdict;
use debug_script::Line;
use level_debuggers::{ScriptEnd, Session, Watch, answers_are_lines, push_answer};
use stack_heap::Heap;
use stack_shelf::{PutFault, Sink};
use stack_text::Memory;

/// Follows a script in a session: what is said to a line is printed before the next one is carried out.
pub(crate) fn print_answers<H: Heap, K: Sink>(
    heap: H,
    session: &mut Session,
    lines: &[Line],
    out: &mut K,
) -> Result<ScriptEnd, PutFault>
    requires { IsSession session.old }
    ensures all { IfOk result (λ end. AllPrinted K.took out.old out.new (K.taken out.old) (K.taken out.new)
        (followed [] lines.now (session_of (λ w. watching (w.vtable, w.value)) session.old)) end
        (session_of (λ w. watching (w.vtable, w.value)) session.new)) }
    ensures prefix { OnErr result (PrefixAppended (K.taken out.old) (K.taken out.new)
        (followed [] lines.now (session_of (λ w. watching (w.vtable, w.value)) session.old)).text) }
    ensures failed { IsErrOf result PutFault.Failed → Rose (K.faults out.old) (K.faults out.new) }
    ensures refused { IsErrOf result PutFault.Memory → H.may_refuse heap ⊎ K.may_refuse }
    ensures faults { K.faults out.old ≤ K.faults out.new }
    ensures is { IsSession session.new }
{
    answers_are_lines();
    let mut text = Vec::new(heap.handle());
    for line in lines {
        text.clear();
        let Ok(end) = push_answer(heap, session, line, &mut text) else {
            return Err(PutFault::Memory);
        };
        print(out, text.as_slice())?;
        if let Some(end) = end {
            return Ok(end);
        }
    }
    Ok(ScriptEnd::Done)
}

/// Prints the last line of a verdict, and ends with its status.
pub(crate) fn print_verdict<H: Heap, K: Sink>(
    heap: H,
    verdict: &Verdict,
    out: &mut K,
) -> Result<Status, PutFault>
    ensures ends { IfOk result (λ status. status ≡ status_of verdict.now) }
    ensures ok { OnOk result (K.taken out.new ≡ appended (K.taken out.old) (verdict_line verdict.now)) }
    ensures lines { OnOk result (out.new ≡ took_each K.took out.old (lines_of (verdict_line verdict.now))) }
    ensures prefix { OnErr result (PrefixAppended (K.taken out.old) (K.taken out.new) (verdict_line verdict.now)) }
    ensures failed { IsErrOf result PutFault.Failed → Rose (K.faults out.old) (K.faults out.new) }
    ensures refused { IsErrOf result PutFault.Memory → H.may_refuse heap ⊎ K.may_refuse }
    ensures faults { K.faults out.old ≤ K.faults out.new }
{
    let Ok(line) = verdict.line(heap) else {
        return Err(PutFault::Memory);
    };
    print(out, line.as_slice())?;
    Ok(verdict.status())
}

/// Prints the last line of a session whose script came to an end, and ends with its status.
pub(crate) fn print_end<H: Heap, K: Sink>(
    heap: H,
    session: &Session,
    end: ScriptEnd,
    out: &mut K,
) -> Result<Status, PutFault>
    ensures ends { let session = session_of (λ w. watching (w.vtable, w.value)) session.now in
        IfOk result (λ status. status ≡ status_of (end_verdict session.level end)) }
    ensures ok { let session = session_of (λ w. watching (w.vtable, w.value)) session.now in
        OnOk result (K.taken out.new ≡ appended (K.taken out.old) (verdict_line (end_verdict session.level end))) }
    ensures lines { let session = session_of (λ w. watching (w.vtable, w.value)) session.now in
        OnOk result (out.new ≡ took_each K.took out.old (lines_of (verdict_line (end_verdict session.level end)))) }
    ensures prefix { let session = session_of (λ w. watching (w.vtable, w.value)) session.now in
        OnErr result (PrefixAppended (K.taken out.old) (K.taken out.new)
        (verdict_line (end_verdict session.level end))) }
    ensures failed { IsErrOf result PutFault.Failed → Rose (K.faults out.old) (K.faults out.new) }
    ensures refused { IsErrOf result PutFault.Memory → H.may_refuse heap ⊎ K.may_refuse }
    ensures faults { K.faults out.old ≤ K.faults out.new }
{
    let Ok(verdict) = end_verdict(heap, session, end) else {
        return Err(PutFault::Memory);
    };
    print_verdict(heap, &verdict, out)
}

/// Follows a script in a session, and prints all that it replies.
fn print_reply<H: Heap, K: Sink>(
    heap: H,
    session: &mut Session,
    lines: &[Line],
    out: &mut K,
) -> Result<Status, PutFault>
    requires { IsSession session.old }
    ensures ends { let reply = followed_reply
        (followed [] lines.now (session_of (λ w. watching (w.vtable, w.value)) session.old)) in
        IfOk result (λ status. status ≡ status_of reply.verdict) }
    ensures ok { let reply = followed_reply
        (followed [] lines.now (session_of (λ w. watching (w.vtable, w.value)) session.old)) in
        OnOk result (K.taken out.new ≡ appended (K.taken out.old) (reply_text reply)) }
    ensures lines { let reply = followed_reply
        (followed [] lines.now (session_of (λ w. watching (w.vtable, w.value)) session.old)) in
        OnOk result (out.new ≡ took_each K.took out.old (lines_of (reply_text reply))) }
    ensures prefix { let reply = followed_reply
        (followed [] lines.now (session_of (λ w. watching (w.vtable, w.value)) session.old)) in
        OnErr result (PrefixAppended (K.taken out.old) (K.taken out.new) (reply_text reply)) }
    ensures failed { IsErrOf result PutFault.Failed → Rose (K.faults out.old) (K.faults out.new) }
    ensures refused { IsErrOf result PutFault.Memory → H.may_refuse heap ⊎ K.may_refuse }
    ensures faults { K.faults out.old ≤ K.faults out.new }
{
    answers_are_lines();
    let end = print_answers(heap, session, lines, out)?;
    Ok(print_end(heap, session, end, out)?)
}

/// Follows a script in a session with these watches, and prints all that it replies: what is said to a line before the next
/// one is carried out, so that no more of it is held at a time. It ends with the status of the reply.
///
/// # Errors
///
/// The sink failed, or memory ran out, in the session or in the sink: a prefix of the reply was printed.
pub fn tell_session<H: Heap, K: Sink>(
    heap: H,
    run: ScriptRun,
    watches: Vec<Box<dyn Watch>>,
    out: &mut K,
) -> Result<Status, PutFault>
    requires { IsRunner run.runner }
    ensures ends { IfOk result (λ status. status ≡ status_of
        (script_run_reply (map watching watches.items) run).verdict) }
    ensures ok { OnOk result (K.taken out.new ≡ appended (K.taken out.old)
        (reply_text (script_run_reply (map watching watches.items) run))) }
    ensures lines { OnOk result (out.new ≡ took_each K.took out.old (lines_of
        (reply_text (script_run_reply (map watching watches.items) run)))) }
    ensures prefix { OnErr result (PrefixAppended (K.taken out.old) (K.taken out.new)
        (reply_text (script_run_reply (map watching watches.items) run))) }
    ensures failed { IsErrOf result PutFault.Failed → Rose (K.faults out.old) (K.faults out.new) }
    ensures refused { IsErrOf result PutFault.Memory → H.may_refuse heap ⊎ K.may_refuse }
    ensures faults { K.faults out.old ≤ K.faults out.new }
{
    let ScriptRun { runner, lines } = run;
    let mut session = match Session::new(heap, runner, watches) {
        Ok(session) => session,
        Err(Memory) => return Err(PutFault::Memory),
    };
    let status = print_reply(heap, &mut session, &lines, out);
    drop(session);
    status
}

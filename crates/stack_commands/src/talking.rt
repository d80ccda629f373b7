//! A session that is asked line by line: what it says to a line is printed before the next one is asked for.
ghost use Rattle.std.specs.Prelude.{◌≡◌, ◌≤◌, ◌⊎◌, ◌^◌, IfErr, IfOk, OnOk, OnErr, IsErrOf, length, map};
ghost use Rattle.stack_shelf.specs.{Causes.{Rose}, Shelf.{appended, PrefixAppended}};
ghost use Rattle.command_line.specs.Devices.{lines_of, took_each};
ghost use Rattle.command_replies.specs.Replies.{status_of, verdict_line};
ghost use Rattle.stack_commands.specs.{Commands.Debug.{session_on}, Conversed.{Conversed, PartlyConversed, line_acts}, TalkScripts.{LinesStay, TalksFollow}};
ghost use Rattle.stack_commands.specs.{TalkScripts.{TalksRefuse}, Commands.Talk.{line_said, end_at, line_number, talk_verdict}, Internal.Talking.{AllTalked}};
ghost use Rattle.stack_commands.specs.Internal.Talking.{Answered, PartlyTalked};
ghost use Rattle.level_debuggers.specs.{Levels.{IsRunner, level_of}, Views.Sessions.{IsSession, session_of}};

use crate::telling::{print_answers, print_end, print_verdict};
use command_line::Status;
use command_replies::Verdict;
use debug_script::{ScriptFault, read_script};
use level_debuggers::{Runner, ScriptEnd, Session, Watch, answers_are_lines};
use stack_heap::Heap;
use stack_shelf::{LineFault, Lines, PutFault, Sink};
use stack_text::Memory;

/// The most bytes of a line that is read, with its end. A longer one breaks the rule of lines with too many bytes.
const LONGEST_LINE: u64 = 258;

/// The rule of lines with too many bytes.
const TOO_LONG: u8 = 6;

/// How a session ends that is asked line by line.
#[derive(Clone, Copy, Debug, PartialEq, Eq)]
pub enum TalkEnd {
    /// As a script ends; with the last line, if it is `Done`.
    Script(ScriptEnd),
    /// By a rule of scripts that a line breaks.
    Refused {
        /// The number of the rule.
        rule: u8,
        /// The number of the line, from 1.
        line: u32,
    },
}

/// Why a session that is asked line by line could not go on.
#[derive(Clone, Copy, Debug, PartialEq, Eq)]
pub enum TalkFault {
    /// The next line could not be read.
    Lines,
    /// The sink failed.
    Sink,
    /// There was no memory.
    Memory,
}

impl From<PutFault> for TalkFault {
    ghost use Rattle.std.specs.Prelude.{◌≡◌};
    ghost use Rattle.stack_commands.specs.Internal.Talking.{put_fault};

    ghost from_gives = { λ fault e. e ≡ put_fault fault };

    fn from(fault: PutFault) -> TalkFault {
        match fault {
            PutFault::Failed => TalkFault::Sink,
            PutFault::Memory => TalkFault::Memory,
        }
    }
}

/// The number of a line behind so many; numbers stop at the last of 32 bits.
fn line_number(before: u64) -> u32
    ensures { result ≡ line_number before }
{
    before.saturating_add(1).min(u64::from(u32::MAX)) as u32
}

/// How a session ends with a line that was followed as a script of its own.
fn end_at(number: u32, end: ScriptEnd) -> Option<TalkEnd>
    ensures { result ≡ end_at number end }
{
    let line = number;
    let end = match end {
        ScriptEnd::Done => return None,
        ScriptEnd::NoneWaits { .. } => ScriptEnd::NoneWaits { line },
        ScriptEnd::NoneAttached { .. } => ScriptEnd::NoneAttached { line },
        ScriptEnd::OtherLevel { .. } => ScriptEnd::OtherLevel { line },
        ScriptEnd::Error { .. } | ScriptEnd::Outside { .. } => end,
    };
    Some(TalkEnd::Script(end))
}

/// Follows a line with this number in a session, and prints what is said to it. It answers how the session ends, if it ends with this line.
fn answer_line<H: Heap, K: Sink>(
    heap: H,
    session: &mut Session,
    number: u32,
    line: &[u8],
    out: &mut K,
) -> Result<Option<TalkEnd>, PutFault>
    requires session { IsSession session.old }
    requires line { length line.now ≤ 2 ^ 31 }
    ensures all { IfOk result (λ end. Answered K.took out.old out.new (K.taken out.old) (K.taken out.new)
        (line_said number line.now (session_of (λ w. watching (w.vtable, w.value)) session.old)) end
        (session_of (λ w. watching (w.vtable, w.value)) session.new)) }
    ensures prefix { OnErr result (PrefixAppended (K.taken out.old) (K.taken out.new)
        (line_said number line.now (session_of (λ w. watching (w.vtable, w.value)) session.old)).text) }
    ensures failed { IsErrOf result PutFault.Failed → Rose (K.faults out.old) (K.faults out.new) }
    ensures refused { IsErrOf result PutFault.Memory → H.may_refuse heap ⊎ K.may_refuse }
    ensures faults { K.faults out.old ≤ K.faults out.new }
    ensures is { IsSession session.new }
{
    answers_are_lines();
    let asked = match read_script(heap, line) {
        Ok(asked) => asked,
        Err(ScriptFault::Refused { rule, .. }) => {
            return Ok(Some(TalkEnd::Refused { rule, line: number }));
        }
        Err(ScriptFault::Memory) => return Err(PutFault::Memory),
    };
    let end = print_answers(heap, session, &asked, out)?;
    Ok(end_at(number, end))
}

/// Asks for one line after the other, follows it in a session, and prints what is said to it before it asks for the next one, until a line ends
/// the session, is too long, or none is left.
///
/// # Errors
///
/// The lines or the sink failed, or memory ran out: a prefix of what is said to the lines was printed.
pub(crate) fn talk<H: Heap, K: Sink, L: Lines<K>>(
    heap: H,
    session: &mut Session,
    lines: &mut L,
    out: &mut K,
) -> Result<TalkEnd, TalkFault>
    requires { IsSession session.old }
    ensures all { IfOk result (AllTalked (line_acts L.came L.ended L.overran L.broke) lines.old lines.new
        (L.overruns lines.old) (L.overruns lines.new)
        K.took out.old out.new (K.taken out.old) (K.taken out.new)
        (session_of (λ w. watching (w.vtable, w.value)) session.old)
        (session_of (λ w. watching (w.vtable, w.value)) session.new)) }
    ensures partly { IfErr result (λ fault. PartlyTalked (line_acts L.came L.ended L.overran L.broke)
        lines.old lines.new
        (fault ≡ TalkFault.Sink) (fault ≡ TalkFault.Lines)
        K.took out.old (K.taken out.old) (K.taken out.new)
        (session_of (λ w. watching (w.vtable, w.value)) session.old)) }
    ensures failed { IsErrOf result TalkFault.Sink → Rose (K.faults out.old) (K.faults out.new) }
    ensures unread { IsErrOf result TalkFault.Lines → Rose (L.faults lines.old) (L.faults lines.new) }
    ensures refused { IsErrOf result TalkFault.Memory → H.may_refuse heap ⊎ (L.may_refuse ⊎ K.may_refuse) }
    ensures faults { K.faults out.old ≤ K.faults out.new }
    ensures counts { L.faults lines.old ≤ L.faults lines.new }
{
    for before in 0..u64::MAX {
        let number = line_number(before);
        let line = match lines.next_line(out, heap.handle(), LONGEST_LINE) {
            Ok(Some(line)) => line,
            Ok(None) => return Ok(TalkEnd::Script(ScriptEnd::Done)),
            Err(LineFault::TooLong) => return Ok(TalkEnd::Refused {
                rule: TOO_LONG,
                line: number,
            }),
            Err(LineFault::Failed) => return Err(TalkFault::Lines),
            Err(LineFault::Memory) => return Err(TalkFault::Memory),
        };
        if let Some(end) = answer_line(heap, session, number, line.as_slice(), out)? {
            return Ok(end);
        }
    }
    Ok(TalkEnd::Script(ScriptEnd::Done))
}

/// Prints the last line of a session that was asked line by line, and ends with its status.
fn print_talk_end<H: Heap, K: Sink>(
    heap: H,
    session: &Session,
    end: TalkEnd,
    out: &mut K,
) -> Result<Status, PutFault>
    ensures ends { let session = session_of (λ w. watching (w.vtable, w.value)) session.now in
        IfOk result (λ status. status ≡ status_of (talk_verdict session.level end)) }
    ensures ok { let session = session_of (λ w. watching (w.vtable, w.value)) session.now in
        OnOk result (K.taken out.new ≡ appended (K.taken out.old) (verdict_line (talk_verdict session.level end))) }
    ensures lines { let session = session_of (λ w. watching (w.vtable, w.value)) session.now in
        OnOk result (out.new ≡ took_each K.took out.old (lines_of (verdict_line (talk_verdict session.level end)))) }
    ensures prefix { let session = session_of (λ w. watching (w.vtable, w.value)) session.now in
        OnErr result (PrefixAppended (K.taken out.old) (K.taken out.new)
        (verdict_line (talk_verdict session.level end))) }
    ensures failed { IsErrOf result PutFault.Failed → Rose (K.faults out.old) (K.faults out.new) }
    ensures refused { IsErrOf result PutFault.Memory → H.may_refuse heap ⊎ K.may_refuse }
    ensures faults { K.faults out.old ≤ K.faults out.new }
{
    match end {
        TalkEnd::Script(end) => print_end(heap, session, end, out),
        TalkEnd::Refused { rule, line } => {
            print_verdict(heap, &Verdict::Script { rule, line }, out)
        }
    }
}

/// Follows lines as they come in a session, and prints all that is said, with the last line.
fn print_talk<H: Heap, K: Sink, L: Lines<K>>(
    heap: H,
    session: &mut Session,
    lines: &mut L,
    out: &mut K,
) -> Result<Status, TalkFault>
    requires { IsSession session.old }
    ensures all { IfOk result (Conversed (line_acts L.came L.ended L.overran L.broke) lines.old lines.new
        (L.overruns lines.old) (L.overruns lines.new)
        K.took out.old out.new (K.taken out.old) (K.taken out.new)
        (session_of (λ w. watching (w.vtable, w.value)) session.old)) }
    ensures partly { IfErr result (λ fault. PartlyConversed (line_acts L.came L.ended L.overran L.broke)
        lines.old lines.new
        (L.overruns lines.old) (L.overruns lines.new)
        (fault ≡ TalkFault.Sink) (fault ≡ TalkFault.Lines)
        K.took out.old (K.taken out.old) (K.taken out.new)
        (session_of (λ w. watching (w.vtable, w.value)) session.old)) }
    ensures failed { IsErrOf result TalkFault.Sink → Rose (K.faults out.old) (K.faults out.new) }
    ensures unread { IsErrOf result TalkFault.Lines → Rose (L.faults lines.old) (L.faults lines.new) }
    ensures refused { IsErrOf result TalkFault.Memory → H.may_refuse heap ⊎ (L.may_refuse ⊎ K.may_refuse) }
    ensures faults { K.faults out.old ≤ K.faults out.new }
    ensures counts { L.faults lines.old ≤ L.faults lines.new }
{
    let end = talk(heap, session, lines, out)?;
    Ok(print_talk_end(heap, session, end, out)?)
}

/// Opens a session of a run with these watches, and asks for one line after the other: it follows a line, and prints what is said to it before
/// it asks for the next one. It prints the last line, and ends with the status of how the session ended.
///
/// # Errors
///
/// The lines or the sink failed, or memory ran out: a prefix of what is said was printed.
pub fn talk_session<H: Heap, K: Sink, L: Lines<K>>(
    heap: H,
    runner: Runner,
    watches: Vec<Box<dyn Watch>>,
    lines: &mut L,
    out: &mut K,
) -> Result<Status, TalkFault>
    requires { IsRunner runner }
    ensures all { IfOk result (Conversed (line_acts L.came L.ended L.overran L.broke) lines.old lines.new
        (L.overruns lines.old) (L.overruns lines.new)
        K.took out.old out.new (K.taken out.old) (K.taken out.new)
        (session_on (level_of runner) (map watching watches.items))) }
    ensures partly { IfErr result (λ fault. PartlyConversed (line_acts L.came L.ended L.overran L.broke)
        lines.old lines.new
        (L.overruns lines.old) (L.overruns lines.new)
        (fault ≡ TalkFault.Sink) (fault ≡ TalkFault.Lines)
        K.took out.old (K.taken out.old) (K.taken out.new)
        (session_on (level_of runner) (map watching watches.items))) }
    ensures failed { IsErrOf result TalkFault.Sink → Rose (K.faults out.old) (K.faults out.new) }
    ensures unread { IsErrOf result TalkFault.Lines → Rose (L.faults lines.old) (L.faults lines.new) }
    ensures refused { IsErrOf result TalkFault.Memory → H.may_refuse heap ⊎ (L.may_refuse ⊎ K.may_refuse) }
    ensures faults { K.faults out.old ≤ K.faults out.new }
    ensures counts { L.faults lines.old ≤ L.faults lines.new }
{
    let mut session = match Session::new(heap, runner, watches) {
        Ok(session) => session,
        Err(Memory) => return Err(TalkFault::Memory),
    };
    let status = print_talk(heap, &mut session, lines, out);
    drop(session);
    status
}

/// A law: lines that come one by one say what the script of the text says that they are together, and end as it does. A line that breaks
/// a rule of scripts ends the session by the same rule at the same line. The function does nothing: its clauses hold of all texts.
pub fn talks_are_scripts()
    ensures follow { TalksFollow }
    ensures refuse { TalksRefuse }
    ensures together { LinesStay }
{}

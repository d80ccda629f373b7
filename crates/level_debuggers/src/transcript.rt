//! Scripts, line by line.

ghost use Rattle.std.specs.Prelude.{◌≡◌, ◌++◌, IfOk, None, OnErr};
ghost use Rattle.stack_heap.specs.Heaps.{IfOkUnless};
ghost use Rattle.level_debuggers.specs.{Views.Sessions.{IsSession, session_of}, Transcripts.{IsLeftBy, IsLeftIn, IsSaid, arrival_end, arrival_text}};
ghost use Rattle.level_debuggers.specs.Transcripts.{attach_said, attached_word, detach_said, followed, rule_of_word, run_end, run_text, said_to, step_said};
ghost use Rattle.level_debuggers.specs.{Transcripts.{tally_asked, until_any_said, until_said, text_said}, Levels.{all_text, words_text}, Walks.{HasMadeSome}};
ghost use Rattle.level_debuggers.specs.Walks.{stepped};

use crate::arrival::Arrival;
use crate::script_end::ScriptEnd;
use crate::session::{Session, SessionRun};
use crate::tally_lines::push_tally;
use crate::watch::Rule;
use debug_script::{Command, Line, Place, WatchWord};
use fm_show::push_counted;
use stack_heap::Heap;
use stack_text::Memory;

/// The rule of a watch that a script names.
fn rule_of_word(watch: WatchWord) -> Rule
    ensures { result ≡ rule_of_word watch }
{
    match watch {
        WatchWord::Count => Rule::Count,
        WatchWord::Cost => Rule::Cost,
        WatchWord::Last => Rule::Last,
        WatchWord::Peak => Rule::Peak,
    }
}

/// Appends what the end of a call of `step` says; and how the script ends where a step was refused.
fn push_run<H: Heap>(
    heap: H,
    text: &mut Vec<u8>,
    run: SessionRun,
) -> Result<Option<ScriptEnd>, Memory>
    ensures text { IfOkUnless (H.may_refuse heap) result (λ end. text.new.items ≡ text.old.items ++ run_text run) }
    ensures end { IfOk result (λ end. end ≡ run_end run) }
{
    match run {
        SessionRun::Moved { count } => {
            push_counted(heap, text, b"stepped ", count, b"\n")?;
            Ok(None)
        }
        SessionRun::Ended { count } => {
            push_counted(heap, text, b"stepped ", count, b" ended\n")?;
            Ok(None)
        }
        SessionRun::Error {
            kind,
            program,
            place,
            after,
        } => Ok(Some(ScriptEnd::Error {
            kind,
            program,
            place,
            after,
        })),
        SessionRun::Outside { address, after } => Ok(Some(ScriptEnd::Outside { address, after })),
    }
}

/// Makes steps, by the command of a line.
fn push_step<H: Heap>(
    heap: H,
    session: &mut Session,
    count: u64,
    text: &mut Vec<u8>,
) -> Result<Option<ScriptEnd>, Memory>
    requires { IsSession session.old }
    ensures said { IfOkUnless (H.may_refuse heap) result (λ end.
        IsSaid (step_said (stepped count (session_of (λ w. watching w) session.old)))
        text.old.items text.new.items end (session_of (λ w. watching w) session.new)) }
    ensures memory { OnErr result (HasMadeSome count
        (session_of (λ w. watching w) session.old) (session_of (λ w. watching w) session.new)) }
    ensures is { IsSession session.new }
{
    let run = session.step(heap, count)?;
    push_run(heap, text, run)
}

/// Appends what the run says, and goes on.
fn push_said<H: Heap>(
    heap: H,
    text: &mut Vec<u8>,
    said: Vec<u8>,
) -> Result<Option<ScriptEnd>, Memory>
    ensures { IfOkUnless (H.may_refuse heap) result
        (λ end. (text.new.items ≡ text.old.items ++ said.items) × (end ≡ None)) }
{
    heap.extend_from_slice(text, &said)?;
    Ok(None)
}

/// The line that says that a watch was attached.
fn attached_line(watch: WatchWord) -> &'static [u8]
    ensures { result.now ≡ attached_word watch }
{
    match watch {
        WatchWord::Count => b"attached count\n",
        WatchWord::Cost => b"attached cost\n",
        WatchWord::Last => b"attached last\n",
        WatchWord::Peak => b"attached peak\n",
    }
}

/// Attaches a watch, by the command of a line.
fn push_attach<H: Heap>(
    heap: H,
    session: &mut Session,
    line: u32,
    watch: WatchWord,
    text: &mut Vec<u8>,
) -> Result<Option<ScriptEnd>, Memory>
    requires { IsSession session.old }
    ensures said { IfOkUnless (H.may_refuse heap) result (λ end.
        IsSaid (attach_said line watch (session_of (λ w. watching w) session.old))
        text.old.items text.new.items end (session_of (λ w. watching w) session.new)) }
    ensures memory { OnErr result (session_of (λ w. watching w) session.new
        ≡ (attach_said line watch (session_of (λ w. watching w) session.old)).session) }
    ensures is { IsSession session.new }
{
    match session.attach(rule_of_word(watch)) {
        Ok(()) => {
            heap.extend_from_slice(text, attached_line(watch))?;
            Ok(None)
        }
        Err(_absent) => Ok(Some(ScriptEnd::NoneWaits { line })),
    }
}

/// Detaches a watch, by the command of a line.
fn push_detach<H: Heap>(
    heap: H,
    session: &mut Session,
    line: u32,
    watch: WatchWord,
    text: &mut Vec<u8>,
) -> Result<Option<ScriptEnd>, Memory>
    requires { IsSession session.old }
    ensures said { IfOkUnless (H.may_refuse heap) result (λ end.
        IsSaid (detach_said line watch (session_of (λ w. watching w) session.old))
        text.old.items text.new.items end (session_of (λ w. watching w) session.new)) }
    ensures memory { OnErr result (session_of (λ w. watching w) session.new
        ≡ (detach_said line watch (session_of (λ w. watching w) session.old)).session) }
    ensures is { IsSession session.new }
{
    let rule = rule_of_word(watch);
    match session.detach(rule) {
        Ok(tally) => {
            push_tally(heap, text, rule, &tally)?;
            Ok(None)
        }
        Err(_absent) => Ok(Some(ScriptEnd::NoneAttached { line })),
    }
}

/// Appends what a watch has kept so far, by the command of a line.
fn push_kept<H: Heap>(
    heap: H,
    session: &Session,
    line: u32,
    watch: WatchWord,
    text: &mut Vec<u8>,
) -> Result<Option<ScriptEnd>, Memory>
    ensures { let session = session_of (λ w. watching w) session.now in
        IfOkUnless (H.may_refuse heap) result
        (λ end. IsSaid (tally_asked line watch session) text.old.items text.new.items end session) }
{
    let rule = rule_of_word(watch);
    match session.tally(rule) {
        Some(tally) => {
            push_tally(heap, text, rule, &tally)?;
            Ok(None)
        }
        None => Ok(Some(ScriptEnd::NoneAttached { line })),
    }
}

/// Appends what the run shows of all that wait for a call too, by the command of a line.
fn push_all<H: Heap>(
    heap: H,
    session: &Session,
    line: u32,
    text: &mut Vec<u8>,
) -> Result<Option<ScriptEnd>, Memory>
    requires { IsSession session.now }
    ensures { let session = session_of (λ w. watching w) session.now in
        IfOkUnless (H.may_refuse heap) result
        (λ end. IsSaid (text_said line session (all_text session.level)) text.old.items text.new.items end session) }
{
    match session.show_all(heap)? {
        Some(shown) => push_said(heap, text, shown),
        None => Ok(Some(ScriptEnd::OtherLevel { line })),
    }
}

/// Appends words of memory, by the command of a line.
fn push_words<H: Heap>(
    heap: H,
    session: &Session,
    line: u32,
    address: u32,
    count: u32,
    text: &mut Vec<u8>,
) -> Result<Option<ScriptEnd>, Memory>
    ensures { let session = session_of (λ w. watching w) session.now in
        IfOkUnless (H.may_refuse heap) result
        (λ end. IsSaid (text_said line session (words_text session.level address count))
        text.old.items text.new.items end session) }
{
    match session.words(heap, address, count)? {
        Some(words) => push_said(heap, text, words),
        None => Ok(Some(ScriptEnd::OtherLevel { line })),
    }
}

/// Appends what the end of a call of `until` says; and how the script ends where a step was refused.
fn push_arrival<H: Heap>(
    heap: H,
    text: &mut Vec<u8>,
    arrival: Arrival,
) -> Result<Option<ScriptEnd>, Memory>
    ensures text { IfOkUnless (H.may_refuse heap) result
        (λ end. text.new.items ≡ text.old.items ++ arrival_text arrival) }
    ensures end { IfOk result (λ end. end ≡ arrival_end arrival) }
{
    match arrival {
        Arrival::There { count } => {
            push_counted(heap, text, b"arrived ", count, b"\n")?;
            Ok(None)
        }
        Arrival::Elsewhere(run) => push_run(heap, text, run),
    }
}

/// Goes on to a place, by the command of a line.
fn push_until<H: Heap>(
    heap: H,
    session: &mut Session,
    line: u32,
    place: &Place,
    limit: u64,
    text: &mut Vec<u8>,
) -> Result<Option<ScriptEnd>, Memory>
    requires { IsSession session.old }
    ensures said { IfOkUnless (H.may_refuse heap) result (λ end.
        IsSaid (until_said line place.now limit (session_of (λ w. watching w) session.old))
        text.old.items text.new.items end (session_of (λ w. watching w) session.new)) }
    ensures memory { OnErr result (HasMadeSome limit
        (session_of (λ w. watching w) session.old) (session_of (λ w. watching w) session.new)) }
    ensures is { IsSession session.new }
{
    if !session.has_places(place) {
        return Ok(Some(ScriptEnd::OtherLevel { line }));
    }
    let arrival = session.until(heap, place, limit)?;
    push_arrival(heap, text, arrival)
}

/// Goes on to one of several places, by the command of a line.
fn push_until_any<H: Heap>(
    heap: H,
    session: &mut Session,
    line: u32,
    places: &[Place],
    limit: u64,
    text: &mut Vec<u8>,
) -> Result<Option<ScriptEnd>, Memory>
    requires { IsSession session.old }
    ensures said { IfOkUnless (H.may_refuse heap) result (λ end.
        IsSaid (until_any_said line places.now limit (session_of (λ w. watching w) session.old))
        text.old.items text.new.items end (session_of (λ w. watching w) session.new)) }
    ensures memory { OnErr result (HasMadeSome limit
        (session_of (λ w. watching w) session.old) (session_of (λ w. watching w) session.new)) }
    ensures is { IsSession session.new }
{
    if !session.has_all(places) {
        return Ok(Some(ScriptEnd::OtherLevel { line }));
    }
    let arrival = session.until_any(heap, places, limit)?;
    push_arrival(heap, text, arrival)
}

/// Carries out the command of a line, and appends what the session says; and how the script ends, where it ends here.
pub fn push_answer<H: Heap>(
    heap: H,
    session: &mut Session,
    line: &Line,
    text: &mut Vec<u8>,
) -> Result<Option<ScriptEnd>, Memory>
    requires { IsSession session.old }
    ensures said { IfOkUnless (H.may_refuse heap) result (λ end.
        IsSaid (said_to line.now (session_of (λ w. watching w) session.old))
        text.old.items text.new.items end (session_of (λ w. watching w) session.new)) }
    ensures memory { OnErr result (IsLeftBy line.now.line line.now.command
        (session_of (λ w. watching w) session.old) (session_of (λ w. watching w) session.new)) }
    ensures is { IsSession session.new }
{
    match &line.command {
        Command::Step { count } => push_step(heap, session, *count, text),
        Command::Show => push_said(heap, text, session.show(heap)?),
        Command::ShowAll => push_all(heap, session, line.line, text),
        Command::Up => push_said(heap, text, session.up(heap)?),
        Command::Attach { watch } => push_attach(heap, session, line.line, *watch, text),
        Command::Detach { watch } => push_detach(heap, session, line.line, *watch, text),
        Command::Tally { watch } => push_kept(heap, session, line.line, *watch, text),
        Command::Words { address, count } => {
            push_words(heap, session, line.line, *address, *count, text)
        }
        Command::Until { place, limit } => {
            push_until(heap, session, line.line, place, *limit, text)
        }
        Command::UntilAny { places, limit } => {
            push_until_any(heap, session, line.line, places.as_slice(), *limit, text)
        }
    }
}

/// Carries out a script in a session, line by line, and appends what the session says. A step that is refused ends the
/// script, and so does a watch that isn't there.
///
/// # Errors
///
/// Out of memory: the commands and the steps that were carried out stand; no clause says what the text holds then.
pub fn follow<H: Heap>(
    heap: H,
    session: &mut Session,
    lines: &[Line],
    text: &mut Vec<u8>,
) -> Result<ScriptEnd, Memory>
    requires { IsSession session.old }
    ensures followed { IfOkUnless (H.may_refuse heap) result (λ end.
        followed text.old.items lines.now (session_of (λ w. watching w) session.old)
        ≡ record {
          text = text.new.items;
          end = end;
          session = session_of (λ w. watching w) session.new;
        }) }
    ensures memory { OnErr result (IsLeftIn lines.now
        (session_of (λ w. watching w) session.old) (session_of (λ w. watching w) session.new)) }
    ensures is { IsSession session.new }
{
    for line in lines {
        if let Some(end) = push_answer(heap, session, line, text)? {
            return Ok(end);
        }
    }
    Ok(ScriptEnd::Done)
}

//! Laws. The functions do nothing: their clauses hold of all sessions and runs.

ghost use Rattle.level_debuggers.specs.{RunWalks.{MachinesArrive, MachinesWalk, SystemsWalk}, ScriptSteps.{ArrivalsAreSaid, ArrivalsAtAnyAreSaid, ScriptsWalk}};
ghost use Rattle.level_debuggers.specs.{ScriptSteps.{ShowIsSaid, StepsAreSaid, TextStays, UpIsSaid, UpSaysMoment, WordsAreSaid}, Walks.{SessionsGoOn}};
ghost use Rattle.level_debuggers.specs.WholeLines.{AnswersAreLines, TranscriptsAreLines};

/// Where memory ran out in a call of `step`, a further call goes on from the steps that were made: it leaves the session that one
/// call for all these steps leaves.
pub fn sessions_go_on()
    ensures { SessionsGoOn }
{}

/// A script that is carried out leads the run of its session as far as all its steps in one go. At a line of `up`, the lines before
/// which were carried out, the text is said that the run has there, and so at a line of `show`; at a line of `words` it is the
/// memory of the processor that it has there. A line of `until` leads to the first arrival at its place, or at one of its places,
/// where that is not too far. Lines that ask for steps alone, which can be made and don't come to the end, are carried out, and to
/// each is said how many it has made; and then `up` is said what the run says there. What was said stays.
pub fn scripts_walk()
    ensures walk { ScriptsWalk }
    ensures show { ShowIsSaid }
    ensures up { UpIsSaid }
    ensures words { WordsAreSaid }
    ensures arrivals { ArrivalsAreSaid }
    ensures any { ArrivalsAtAnyAreSaid }
    ensures steps { StepsAreSaid }
    ensures moment { UpSaysMoment }
    ensures text { TextStays }
{}

/// The steps of a session's run are those of what it runs: of the processor, and of Piton's machine. It first stands at an address
/// where the processor's r15 is the address first.
pub fn runs_walk()
    ensures machines { MachinesWalk }
    ensures systems { SystemsWalk }
    ensures arrivals { MachinesArrive }
{}

/// What a session says to a line of a script are whole lines, each with its line feed, and so what it says to a script.
pub fn answers_are_lines()
    ensures answers { AnswersAreLines }
    ensures transcripts { TranscriptsAreLines }
{}

//! Sessions.

ghost use Rattle.std.specs.Prelude.{◌+◌, ◌^◌, ◌<◌, ◌≤◌, vec_len, vec_capacity};

use crate::advance::Advance;
use crate::arrival::Arrival;
use crate::level::Level;
use crate::runner::Runner;
use crate::seats::{first_tally, note_all, take_first};
use crate::watch::{Event, Rule, Tally, Watch};
use debug_script::Place;
use piton_semantics::ErrorKind;
use stack_heap::Heap;
use stack_text::{Memory, Name};
use std::slice::from_ref;
use thiserror::Error;

/// How a call of `step` ended.
#[derive(Clone, Copy, Debug, PartialEq, Eq)]
pub enum SessionRun {
    /// All `count` steps that were asked for were made, and the end is not reached.
    Moved {
        count: u64,
    },
    /// The end is reached. The count is that of this call's steps.
    Ended {
        count: u64,
    },
    /// The next step is an error of Piton's machine.
    Error {
        /// Why the step is refused.
        kind: ErrorKind,
        /// The position of its program in the system.
        program: u32,
        /// The position of the instruction in the program, from 0.
        place: u32,
        /// How many steps the session has made.
        after: u64,
    },
    /// The next step needs an address outside the window. `after` is the session's number of steps.
    Outside {
        address: u32,
        after: u64,
    },
}

/// No watch of the rule is there.
#[derive(Clone, Copy, Debug, PartialEq, Eq, Error)]
#[error("no watch of the rule is there")]
pub struct Absent;

/// A run with watches, of which some wait and some are attached. The attached ones are told each step.
#[derive(Drop)]
pub struct Session {
    level: Level,
    steps: u64,
    waiting: Vec<Box<dyn Watch>>,
    attached: Vec<Box<dyn Watch>>,
    ghost in_range: { steps < 2 ^ 64 },
    ghost room: { vec_len waiting + vec_len attached ≤ vec_capacity attached },
}

impl Session {
    ghost use Rattle.std.specs.{Prelude.{◌≡◌, [], map, IfOk, OnOk, OnErr, Some, None}, Option.{option_map}};
    ghost use Rattle.stack_heap.specs.Heaps.{IfOkUnless};
    ghost use Rattle.level_debuggers.specs.Levels.{IsRunner, all_text, has_all, has_places, level_of, program_named, show_text, up_text, words_text};
    ghost use Rattle.level_debuggers.specs.{Arrivals.{arrived, arrived_at_one}, Tallies.{noted}, Walks.{after_event, stepped, HasMadeSome}};
    ghost use Rattle.level_debuggers.specs.{Taken.{attached_by, detached_by, tally_by}, Views.Sessions.{IsSession, session_of}};

    /// A session of a runner that has made no step, with these watches waiting. Room for all of them to be attached is
    /// taken here, and that of the addresses of a system of Piton.
    pub fn new<H: Heap>(
        heap: H,
        runner: Runner,
        watches: Vec<Box<dyn Watch>>,
    ) -> Result<Session, Memory>
        requires { IsRunner runner }
        ensures session { IfOkUnless (H.may_refuse heap) result (λ session. session_of (λ w. watching w) session
            ≡ record {
              level = level_of runner;
              steps = 0;
              waiting = map watching watches.items;
              attached = [];
            }) }
        ensures is { IfOk result IsSession }
    {
        // The runner is dropped by a call: a `?` would drop it part by part, in steps that are longer to prove.
        let Ok(attached) = heap.with_room_for(watches.as_slice()) else {
            drop(runner);
            return Err(Memory);
        };
        Ok(Session {
            level: Level::new(heap, runner)?,
            steps: 0,
            waiting: watches,
            attached,
        })
    }

    /// Attaches the first waiting watch of a rule, behind those that are attached. It takes no memory.
    ///
    /// # Errors
    ///
    /// No watch of the rule waits; nothing has changed.
    pub fn attach(&mut self, rule: Rule) -> Result<(), Absent>
        ensures attached { OnOk result (attached_by rule (session_of (λ w. watching w) self.old)
            ≡ Some (session_of (λ w. watching w) self.new)) }
        ensures absent { OnErr result (attached_by rule (session_of (λ w. watching w) self.old) ≡ None) }
        ensures unchanged { OnErr result (session_of (λ w. watching w) self.new
            ≡ session_of (λ w. watching w) self.old) }
        ensures is { IsSession self.old → IsSession self.new }
    {
        let Some(watch) = take_first(&mut self.waiting, rule) else {
            return Err(Absent);
        };
        match self.attached.push(watch) {
            Ok(()) => Ok(()),
            Err(_) => unreachable!(),
        }
    }

    /// Takes the first attached watch of a rule out of the session, and gives its tally. It takes no memory.
    ///
    /// # Errors
    ///
    /// No watch of the rule is attached; nothing has changed.
    pub fn detach(&mut self, rule: Rule) -> Result<Tally, Absent>
        ensures detached { IfOk result (λ tally.
            detached_by rule (session_of (λ w. watching w) self.old)
            ≡ Some (tally, session_of (λ w. watching w) self.new)) }
        ensures absent { OnErr result (detached_by rule (session_of (λ w. watching w) self.old) ≡ None) }
        ensures unchanged { OnErr result (session_of (λ w. watching w) self.new
            ≡ session_of (λ w. watching w) self.old) }
        ensures is { IsSession self.old → IsSession self.new }
    {
        match take_first(&mut self.attached, rule) {
            Some(watch) => Ok(watch.tally()),
            None => Err(Absent),
        }
    }

    /// The tally of the first attached watch of a rule, which stays attached; `None` if none is. It takes no memory.
    pub fn tally(&self, rule: Rule) -> Option<Tally>
        ensures { result ≡ tally_by rule (session_of (λ w. watching w) self.now) }
    {
        first_tally(&self.attached, rule)
    }

    /// Notes a step that the run has made.
    fn note(&mut self, event: &Event)
        ensures noted { session_of (λ w. watching w) self.new
            ≡ after_event event.now (session_of (λ w. watching w) self.old) }
        ensures is { IsSession self.old → IsSession self.new }
    {
        self.steps = self.steps.saturating_add(1);
        note_all(self.attached.as_mut_slice(), event);
    }

    /// Makes at most `n` steps: fewer only where the end is reached or the next step is refused. Each attached watch is told
    /// each step; which of them first, no clause says.
    ///
    /// # Errors
    ///
    /// Out of memory: the steps that were made stand, and a further call goes on from them (`sessions_go_on`).
    pub fn step<H: Heap>(&mut self, heap: H, n: u64) -> Result<SessionRun, Memory>
        requires { IsSession self.old }
        ensures ran { IfOkUnless (H.may_refuse heap) result (λ run. stepped n (session_of (λ w. watching w) self.old)
            ≡ record { run = run; session = session_of (λ w. watching w) self.new }) }
        ensures memory { OnErr result (HasMadeSome n (session_of (λ w. watching w) self.old)
            (session_of (λ w. watching w) self.new)) }
        ensures is { IsSession self.new }
    {
        for made in 0..n {
            match self.level.advance(heap)? {
                Advance::Over => return Ok(SessionRun::Ended { count: made }),
                Advance::Stops(stop) => return Ok(stop.after(self.steps)),
                Advance::Makes(event) => self.note(&event),
            }
        }
        if self.level.is_over() {
            Ok(SessionRun::Ended { count: n })
        } else {
            Ok(SessionRun::Moved { count: n })
        }
    }

    /// Whether runs of the session's level stand at such places: those of Piton at instructions of programs, the others at
    /// numbers, and both Micro-Gypsy's and Piton's at depths.
    pub fn has_places(&self, place: &Place) -> bool
        ensures { let session = session_of (λ w. watching w) self.now in
            result ≡ has_places session.level place.now }
    {
        self.level.has_places(place)
    }

    /// Whether runs of the session's level stand at such places, all of them.
    pub fn has_all(&self, places: &[Place]) -> bool
        ensures { let session = session_of (λ w. watching w) self.now in
            result ≡ has_all session.level places.now }
    {
        self.level.has_all(places)
    }

    /// Makes as many steps as lead the run to a place for the first time, none where it stands there already. Where it does
    /// not come there in `limit` steps, it makes those, as `step` does.
    ///
    /// # Errors
    ///
    /// Out of memory: the steps that were made stand.
    pub fn until<H: Heap>(&mut self, heap: H, place: &Place, limit: u64) -> Result<Arrival, Memory>
        requires { IsSession self.old }
        ensures ran { IfOkUnless (H.may_refuse heap) result (λ arrival.
            arrived place.now limit (session_of (λ w. watching w) self.old)
            ≡ record { arrival = arrival; session = session_of (λ w. watching w) self.new }) }
        ensures memory { OnErr result (HasMadeSome limit (session_of (λ w. watching w) self.old)
            (session_of (λ w. watching w) self.new)) }
        ensures is { IsSession self.new }
    {
        self.until_any(heap, from_ref(place), limit)
    }

    /// Makes as many steps as lead the run to one of several places for the first time, none where it stands at one already.
    /// Where it does not come to one in `limit` steps, it makes those, as `step` does.
    ///
    /// # Errors
    ///
    /// Out of memory: the steps that were made stand.
    pub fn until_any<H: Heap>(
        &mut self,
        heap: H,
        places: &[Place],
        limit: u64,
    ) -> Result<Arrival, Memory>
        requires { IsSession self.old }
        ensures ran { IfOkUnless (H.may_refuse heap) result (λ arrival.
            arrived_at_one places.now limit (session_of (λ w. watching w) self.old)
            ≡ record { arrival = arrival; session = session_of (λ w. watching w) self.new }) }
        ensures memory { OnErr result (HasMadeSome limit (session_of (λ w. watching w) self.old)
            (session_of (λ w. watching w) self.new)) }
        ensures is { IsSession self.new }
    {
        for made in 0..limit {
            if self.level.stands_at_one(places) {
                return Ok(Arrival::There { count: made });
            }
            match self.level.advance(heap)? {
                Advance::Over => return Ok(Arrival::Elsewhere(SessionRun::Ended { count: made })),
                Advance::Stops(stop) => return Ok(Arrival::Elsewhere(stop.after(self.steps))),
                Advance::Makes(event) => self.note(&event),
            }
        }
        if self.level.stands_at_one(places) {
            Ok(Arrival::There { count: limit })
        } else if self.level.is_over() {
            Ok(Arrival::Elsewhere(SessionRun::Ended { count: limit }))
        } else {
            Ok(Arrival::Elsewhere(SessionRun::Moved { count: limit }))
        }
    }

    /// So many words of the processor's memory from an address on, each on its line: behind the last address of 32 bits
    /// comes 0. `None` exactly at the other levels, where runs have no such memory.
    ///
    /// The only error is out of memory.
    pub fn words<H: Heap>(
        &self,
        heap: H,
        address: u32,
        count: u32,
    ) -> Result<Option<Vec<u8>>, Memory>
        ensures { let session = session_of (λ w. watching w) self.now in
            IfOkUnless (H.may_refuse heap) result
            (λ text. option_map (λ t. t.items) text ≡ words_text session.level address count) }
    {
        self.level.words(heap, address, count)
    }

    /// The name of the program at a position, in a run of Piton's machine; where there is none there, that of the main program.
    /// `None` exactly at the other levels, where runs have no programs.
    pub fn program_name(&self, program: u32) -> Option<&Name>
        ensures { let session = session_of (λ w. watching w) self.now in
            option_map (λ name. name.now) result ≡ program_named session.level program }
    {
        self.level.program_name(program)
    }

    /// What the run shows, as lines. At the level of Micro-Gypsy: the place and the number of activations, or `ended`; the
    /// condition; and each variable of the active procedure. At the level of Piton: the place in its program and the number
    /// of frames, or `halted`; each formal and temporary of the newest frame with its word; and the stack from the bottom
    /// up. At the level of the FM9001: the session's number of steps, the registers and the flags.
    ///
    /// The only error is out of memory.
    pub fn show<H: Heap>(&self, heap: H) -> Result<Vec<u8>, Memory>
        requires { IsSession self.now }
        ensures { let session = session_of (λ w. watching w) self.now in
            IfOkUnless (H.may_refuse heap) result (λ text. text.items ≡ show_text session.level session.steps) }
    {
        self.level.show(heap, self.steps)
    }

    /// What `show` has, and then what the run shows of all that wait for a call, the one that goes on first at the front. At
    /// the level of Micro-Gypsy: the procedure and the variables of each activation that waits; an actual of its call has the
    /// value that would come back now. At the level of Piton: the place at which each frame goes on, and its formals and
    /// temporaries. `None` exactly at the level of the FM9001, which keeps no frames.
    ///
    /// The only error is out of memory.
    pub fn show_all<H: Heap>(&self, heap: H) -> Result<Option<Vec<u8>>, Memory>
        requires { IsSession self.now }
        ensures { let session = session_of (λ w. watching w) self.now in
            IfOkUnless (H.may_refuse heap) result (λ text. option_map (λ t. t.items) text ≡ all_text session.level) }
    {
        self.level.show_all(heap)
    }

    /// What the run says of the variables of its source, as lines. At the level of Micro-Gypsy: `top`. At the end of a run
    /// of the FM9001, and at that of a run of Piton whose stack has an element for each item of the image's slots: the
    /// condition and the variables, as a report has them. In a run of Piton the condition's word is then the one that the
    /// areas have at the image's condition address, and 0 where they have none there.
    ///
    /// Where a run of the FM9001 or of Piton stands at a mark of the image before its end: the procedure and the place, the
    /// condition and the procedure's variables, as `report_at` of `display_maps` has them. Elsewhere, and where a word that
    /// this needs is not there: `no mark`.
    ///
    /// The only error is out of memory.
    pub fn up<H: Heap>(&self, heap: H) -> Result<Vec<u8>, Memory>
        ensures { let session = session_of (λ w. watching w) self.now in
            IfOkUnless (H.may_refuse heap) result (λ text. text.items ≡ up_text session.level) }
    {
        self.level.up(heap)
    }

    /// Hands the run back as it stands: a session can begin with it again. Each watch, waiting or attached, is dropped. It
    /// takes no memory.
    pub fn finish(self) -> Runner
        ensures level { level_of result ≡ (session_of (λ w. watching w) self).level }
        ensures is { IsSession self → IsRunner result }
    {
        self.level.into_runner()
    }
}

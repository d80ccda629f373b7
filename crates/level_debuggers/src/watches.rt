//! A watch of each rule.

ghost use Rattle.std.specs.Prelude.{◌≡◌, drop, ◌++◌, ◌∷◌, []};

use crate::watch::{Event, Rule, Tally, Watch};
use std::marker::{Model, PhantomData};

/// A rule, as a type: the one that a watch keeps its tally by.
pub trait TallyRule {
    ghost use Rattle.std.specs.Prelude.{◌≡◌};
    ghost use Rattle.level_debuggers.specs.{declared.watch.Rule.{Rule}, Tallies.{tally_step}};

    /// The rule.
    ghost rule: { Rule };

    /// The rule.
    fn rule() -> Rule
        ensures { result ≡ rule };

    /// Adds an event to a tally.
    fn add(tally: &mut Tally, event: &Event)
        ensures { tally.new ≡ tally_step rule tally.old event.now };
}

/// A watch of one rule.
#[derive(Drop)]
pub struct RuleWatch<R> {
    tally: Tally,
    rule: PhantomData<R>,
}

impl<R> Model for RuleWatch<R> {
    ghost use Rattle.level_debuggers.specs.declared.watch.Tally.{Tally};

    ghost Value = { Tally };

    ghost view = { λ watch. watch.tally };
}

impl<R> RuleWatch<R> {
    ghost use Rattle.std.specs.Prelude.{◌≡◌};
    ghost use Rattle.level_debuggers.specs.Tallies.{no_events};

    /// One that was told nothing.
    pub fn new() -> RuleWatch<R>
        ensures { result ≡ no_events }
    {
        RuleWatch {
            tally: Tally {
                count: 0,
                peak: 0,
                last: [0; 8],
            },
            rule: PhantomData,
        }
    }
}

impl<R: TallyRule> Watch for RuleWatch<R> {
    ghost watching = { λ tally. record { rule = R.rule; tally = tally } };

    fn rule(&self) -> Rule {
        R::rule()
    }

    fn note(&mut self, event: &Event) {
        R::add(&mut self.tally, event);
    }

    fn tally(&self) -> Tally {
        self.tally
    }
}

/// The rule of `CountWatch`.
pub struct CountRule;

impl TallyRule for CountRule {
    ghost use Rattle.level_debuggers.specs.declared.watch.Rule.TheVariants.{Count};

    ghost rule = { Count };

    fn rule() -> Rule {
        Rule::Count
    }

    fn add(tally: &mut Tally, _event: &Event) {
        tally.count = tally.count.saturating_add(1);
    }
}

/// The rule of `CostWatch`.
pub struct CostRule;

impl TallyRule for CostRule {
    ghost use Rattle.level_debuggers.specs.declared.watch.Rule.TheVariants.{Cost};

    ghost rule = { Cost };

    fn rule() -> Rule {
        Rule::Cost
    }

    fn add(tally: &mut Tally, event: &Event) {
        tally.count = tally.count.saturating_add(event.cost);
    }
}

/// The rule of `PeakWatch`.
pub struct PeakRule;

impl TallyRule for PeakRule {
    ghost use Rattle.level_debuggers.specs.declared.watch.Rule.TheVariants.{Peak};

    ghost rule = { Peak };

    fn rule() -> Rule {
        Rule::Peak
    }

    fn add(tally: &mut Tally, event: &Event) {
        tally.count = tally.count.saturating_add(1);
        tally.peak = tally.peak.max(event.depth);
    }
}

/// The rule of `LastWatch`.
pub struct LastRule;

impl TallyRule for LastRule {
    ghost use Rattle.level_debuggers.specs.declared.watch.Rule.TheVariants.{Last};

    ghost rule = { Last };

    fn rule() -> Rule {
        Rule::Last
    }

    fn add(tally: &mut Tally, event: &Event) {
        *tally = Tally {
            count: tally.count.saturating_add(1),
            peak: tally.peak,
            last: with_last(&tally.last, event.place),
        };
    }
}

/// Counts the events.
pub type CountWatch = RuleWatch<CountRule>;

/// Adds up what the events cost.
pub type CostWatch = RuleWatch<CostRule>;

/// Keeps the greatest depth.
pub type PeakWatch = RuleWatch<PeakRule>;

/// Keeps the places of the latest eight events.
pub type LastWatch = RuleWatch<LastRule>;

/// The places without the first, and a place behind them.
fn with_last(places: &[u32; 8], place: u32) -> [u32; 8]
    ensures { result ≡ drop 1 places.now ++ place ∷ [] }
{
    let [_, b, c, d, e, f, g, h] = *places;
    [b, c, d, e, f, g, h, place]
}

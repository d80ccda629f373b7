//! Watches.

/// What a watch keeps of the events that it is told.
#[derive(Clone, Copy, Debug, PartialEq, Eq)]
pub enum Rule {
    /// Their number.
    Count,
    /// What they cost together.
    Cost,
    /// The places of the latest eight.
    Last,
    /// The greatest depth.
    Peak,
}

/// A step, as a watch is told it.
#[derive(Clone, Copy, Debug, PartialEq, Eq)]
pub struct Event {
    /// The place before the step.
    pub place: u32,
    /// The depth before the step.
    pub depth: u32,
    /// What the step costs, in instructions of the processor.
    pub cost: u64,
}

/// What a watch has kept.
#[derive(Clone, Copy, Debug, PartialEq, Eq)]
pub struct Tally {
    /// How many events there were; of a watch of `Rule::Cost`, what they cost together. It stays at 2^64 - 1.
    pub count: u64,
    /// The greatest depth, of a watch of `Rule::Peak`.
    pub peak: u32,
    /// The places of the latest events, the latest last, of a watch of `Rule::Last`. Where there were fewer than eight, the
    /// first places are 0.
    pub last: [u32; 8],
}

/// Is told each step of a run, and keeps a tally by its rule.
pub trait Watch: Drop {
    ghost use Rattle.std.specs.Prelude.{◌≡◌};
    ghost use Rattle.level_debuggers.specs.Tallies.{Watching, noted};

    /// What clauses see of it: its rule, and what it has kept so far.
    ghost watching: { Self → Watching };

    /// The rule by which it keeps its tally.
    fn rule(&self) -> Rule
        ensures { result ≡ (watching self.now).rule };

    /// Tells it a step. It takes no memory.
    fn note(&mut self, event: &Event)
        ensures { watching self.new ≡ noted event.now (watching self.old) };

    /// What it has kept.
    fn tally(&self) -> Tally
        ensures { result ≡ (watching self.now).tally };
}

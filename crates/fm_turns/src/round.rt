//! How a round goes.

/// How a round goes: its number, and how many instructions it gives to a task at most.
#[derive(Clone, Copy)]
pub struct Round {
    /// The number of the round, counted from 1.
    pub number: u64,
    /// The most instructions of a turn.
    pub turn: u64,
    /// The most instructions that a task makes in all its turns.
    pub budget: u64,
}

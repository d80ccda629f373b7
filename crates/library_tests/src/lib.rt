//! Tests of what no command of the program shows, once each: calls that only another program makes, and devices in memory.
//!
//! They have a crate of their own, since a crate with tests is proved twice, and one alone, since each costs a minute to link. What a command
//! can run is a row of the folder conformance.
#![tactic(auto)]

#[cfg(test)]
mod calls;
#[cfg(test)]
mod devices;
#[cfg(test)]
mod generated;
#[cfg(test)]
mod messages;
#[cfg(test)]
mod pieces;
#[cfg(test)]
mod piton_runs;
#[cfg(test)]
mod sessions;
#[cfg(test)]
mod trees;

//! Devices that keep a log of what they were handed.
//!
//! Of a folder's files and of standard input and output nothing is known, so clauses over these alone can't tell what was read, stored and
//! printed. A [`LoggedShelf`] is a shelf with a log of the files that it gave and of those that it got, a [`LoggedSink`] a sink
//! with a log of the bytes that it took, and [`LoggedLines`] are lines with a log of those that came, and of how much was in the log of the sink
//! when each was asked for. The logs are lists in memory, which only a call of the device that went well makes longer: what a clause says of
//! them is said of what really came, and was fetched, stored and printed, and in which order.
#![tactic(auto)]

mod logged_lines;
mod logged_shelf;
mod logged_sink;
mod printed;

pub use logged_lines::LoggedLines;
pub use logged_shelf::LoggedShelf;
pub use logged_sink::LoggedSink;

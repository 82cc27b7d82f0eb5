//! The outside as traits: where bytes come from, where a report goes, and a log file with a packet outlet.
//!
//! A trait's ghost members say what its object holds, and its flag `tells` whether contracts may speak of that: it holds
//! for objects in memory, and not for adapters over files and sockets. Counts of faults stand outside the flag. They
//! never fall, and a count at 2^64 - 1 stays there.
#![tactic(auto)]

mod plant;
mod sink;
mod source;

pub use plant::Plant;
pub use sink::Sink;
pub use source::Source;

/// A call on an object of the outside failed, and the object's count of faults has risen.
#[derive(Clone, Copy, Debug, PartialEq, Eq)]
pub struct Failed;

//! Frames: the records of an input, and records that are written.
#![tactic(auto)]

use aftr_base::Event;

mod front;
mod reader;
mod window;
mod write;

pub use reader::FrameReader;
pub use write::write_record;

/// What stands next in an input.
#[derive(Debug, Drop)]
pub enum Next {
    /// A record.
    Got(Event),
    /// The input's end.
    End,
    /// At this offset, in bytes, no record stands.
    Bad(u64),
    /// The input could not be read.
    Failed,
    /// Memory ran out.
    NoMemory,
}

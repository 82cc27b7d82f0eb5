//! Log messages in IPFIX (RFC 7011): address translation's events (RFC 8158), a log's horizon, and plans.
#![tactic(auto)]

mod bad;
mod message;
mod plan_reader;
mod plan_writer;
mod read;
mod write;

pub use bad::{EventBad, EventsBad};
pub use message::{messages_are_spelled, messages_read_back, read_events};
pub use plan_writer::plan_text;
pub use read::read_event;
pub use write::{put_event, template_set};

/// The set of blocks that open and close.
pub const BLOCK_SET: u16 = 256;
/// The set of horizons.
pub const HORIZON_SET: u16 = 257;
/// The set of plans that open and close.
pub const PLAN_SET: u16 = 258;

/// natEvent of a block that opens (RFC 8158 4.3).
const OPENS: u8 = 16;
/// natEvent of a block that closes.
const CLOSES: u8 = 17;

#[cfg(test)]
mod tests;

//! A log file whose frames count once their gate is open.
//!
//! The file begins with the letters AFTRLOG, the format's number 1 and eight zero bytes. Frames follow from offset 16: a
//! gate byte, a length in 32 bits from 16 to 65,535, a message of that length, and the next frame's gate. A gate of 1 is
//! open, every other value is closed, and at a closed gate the log ends. A frame is written behind its closed gate and
//! synced before the gate is opened, so that a stop leaves the log with the message or without it.
#![tactic(auto)]

mod creation;
mod format;
mod laws;
mod position;

pub use creation::{MakeBad, make};
pub use format::{Commit, Frame};
pub use laws::{a_spelled_log_is_read, what_is_read_is_spelled};
pub use position::{AttachBad, Journal, attach};

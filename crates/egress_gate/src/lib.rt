//! What lets packets out: the log takes what records say before their packets are sent.
#![tactic(auto)]

mod batch;
mod gate;
mod outside;
mod refusal;
mod tally;

pub use gate::{Gate, Room};
pub use refusal::{Lack, PassFailed};
pub use tally::Tally;

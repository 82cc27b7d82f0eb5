//! IPFIX messages, put together set by set (RFC 7011 3).
#![tactic(auto)]

mod message;
mod set_id;

pub use message::{Message, PutBad};
pub use set_id::is_set_id;

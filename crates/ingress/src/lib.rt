//! From a record's bytes to a whole IPv4 packet: decapsulation (RFC 2473 section 3.3, RFC 6333 section 5), reassembly before
//! it (RFC 6333 section 5.3), and what is refused on the way.
#![tactic(auto)]

mod gather;
mod laws;
mod packet;
mod plain;
mod public_side;
mod received;
mod refusal;
mod softwire_side;
#[cfg(test)]
mod tests;

pub use laws::arrivals_are_whole;
pub use packet::Packet;
pub use public_side::{from_public, is_ours};
pub use received::{Received, Sender};
pub use refusal::Refusal;
pub use softwire_side::from_softwire;

//! ICMP messages (RFC 792), read in place, and the packet that an error quotes (RFC 5508 section 4).
#![tactic(auto)]

mod quoted;
mod view;

pub use quoted::Embedded;
pub use view::{IcmpBad, IcmpKind, IcmpView};

#[cfg(test)]
mod tests;

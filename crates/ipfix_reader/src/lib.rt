//! IPFIX messages, read in place (RFC 7011 3).
#![tactic(auto)]

mod fault;
mod view;

pub use fault::BadIpfix;
pub use view::{MessageView, read_message};

#[cfg(test)]
mod tests;

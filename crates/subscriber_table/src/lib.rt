//! The subscriber that a softwire is of (RFC 6333 section 6): a prefix under one of the configured aggregates.
#![tactic(auto)]

mod under;

pub use under::of;

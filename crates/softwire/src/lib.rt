//! The softwire: IPv4 packets carried in IPv6 packets (RFC 2473 3, RFC 6333 5).
#![tactic(auto)]

mod cut;
mod fragments;
mod from_tunnel;
mod into_tunnel;

pub use cut::{cut_with, cut4};
pub use fragments::encap_cut;
pub use from_tunnel::{DecapBad, Tunnel, decap};
pub use into_tunnel::encap;

#[cfg(test)]
mod tests;

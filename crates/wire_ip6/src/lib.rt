//! IPv6 headers and the chain of extension headers behind them (RFC 8200 3, 4; RFC 2473).
#![tactic(auto)]

mod chain;
mod fields;
mod view;
mod write;

pub use chain::{Chain, walk};
pub use fields::{FragHead, Ip6Bad, Ip6Fields};
pub use view::Ip6View;
pub use write::{write_frag_header, write_header};

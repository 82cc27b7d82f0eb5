//! IPv4 headers (RFC 791 section 3.1): read in place, and written.
#![tactic(auto)]

mod fields;
mod view;
mod write;

pub use fields::{Ip4Bad, Ip4Fields};
pub use view::Ip4View;
pub use write::write_header;

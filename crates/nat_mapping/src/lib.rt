//! Mapping rows and their peers (RFC 4787 section 4).
#![tactic(auto)]

mod ports;
mod row;
mod search;
mod table;
mod taken_ports;
#[cfg(test)]
mod tests;

pub use row::{Peer, Row};
pub use search::{Holding, Search};
pub use table::{RowId, Table};
pub use taken_ports::TakenPorts;

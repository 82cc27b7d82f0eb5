//! The log of leases and plans: what its messages tell, one after another (RFC 6888 section 4, RFC 8158 section 4.3).
#![tactic(auto)]

mod applying;
mod batch;
mod place;
mod reading;
mod telling;

pub use aftr_base::Told;
pub use batch::{LogBatch, append};
pub use disk_journal::{Commit, Journal};
pub use reading::{ToldBad, read_told};

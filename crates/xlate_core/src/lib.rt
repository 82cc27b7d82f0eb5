//! The translator: events to packets.
#![tactic(auto)]

mod arrival;
mod endpoints;
mod errors;
mod expiry;
mod grant;
mod hairpin;
mod horizon;
mod inbound;
mod laws;
mod outbound;
mod packet;
mod send;
mod start;
mod step_out;
mod translator;

pub use grant::Grant;
pub use laws::{log_is_believed, quotas_refuse, runs_are_valid};
pub use step_out::{Item, StepOut};
pub use translator::Core;

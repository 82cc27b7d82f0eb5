//! The program's one call: words, a configuration, inputs, a log with an outlet, and a report.
#![tactic(auto)]

mod engine;
mod report;
mod session;
mod words;

pub use engine::{aftr, run_config};
pub use words::{LogUse, Paths, log_use_of, paths_of};

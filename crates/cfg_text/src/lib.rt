//! The configuration: its values, its defaults, and which values are accepted.
#![tactic(auto)]

mod accepted;
#[cfg(test)]
mod bounds;
mod config;

pub use accepted::accepts_plan;
pub use config::{Config, Filter};

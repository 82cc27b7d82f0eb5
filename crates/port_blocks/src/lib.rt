//! Blocks of public ports, and which subscriber leases them since and until when (RFC 6431 section 2,
//! RFC 6888 section 3).
#![tactic(auto)]

mod blocks;
mod choice;
#[cfg(test)]
mod tests;

pub use blocks::Blocks;
pub use choice::{Block, Choice, is_open_of, opened};

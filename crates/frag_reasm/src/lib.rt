//! Reassembly of fragments (RFC 791 section 3.2, RFC 8200 section 4.5), where no two may overlap (RFC 5722 section 4).
#![tactic(auto)]

mod gather;
mod key;
mod piece;
mod pieces;
#[cfg(test)]
mod tests;

pub use key::PieceKey;
pub use piece::Piece;
pub use pieces::{Offer, Pieces};

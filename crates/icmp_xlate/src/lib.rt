//! ICMP errors under address translation: the packet that an error quotes is translated with it
//! (RFC 5508 section 4), and the errors that a translator makes itself (RFC 792, RFC 1191, RFC 6888).
#![tactic(auto)]

mod error;
mod made;
mod octets;
mod quote;
mod translate;

pub use error::IcmpError;
pub use made::{MadeError, is_error, make_error};
pub use translate::{error_in, error_out, set_quoted_place};

#[cfg(test)]
mod tests;

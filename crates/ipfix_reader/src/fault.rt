//! Where bytes stop being an IPFIX message.

/// The bytes are no IPFIX message.
#[derive(Clone, Copy, Debug, PartialEq, Eq)]
pub struct BadIpfix {
    /// Where the header, 0, or the first set begins that isn't by RFC 7011 3.
    pub offset: usize,
}

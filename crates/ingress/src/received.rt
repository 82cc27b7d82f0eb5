//! What a softwire brings.
use crate::packet::Packet;
use aftr_base::{Ip6, Subscriber};

/// A subscriber, and the softwire that it speaks through (RFC 6333).
#[derive(Clone, Copy, Debug, PartialEq, Eq)]
pub struct Sender {
    /// The source of the IPv6 packets.
    pub softwire: Ip6,
    pub owner: Subscriber,
}

/// A whole packet from a subscriber.
#[derive(Debug, Drop)]
pub struct Received<'a> {
    pub who: Sender,
    pub packet: Packet<'a>,
}

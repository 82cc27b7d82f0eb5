//! UDP (RFC 768) and TCP (RFC 9293 section 3.1) as far as a translator reads and changes them, and
//! the identifier of an echo message (RFC 5508 section 3.1).
#![tactic(auto)]

mod place;
mod tcp;
mod udp;

pub use place::set_place;
pub use tcp::TcpView;
pub use udp::UdpView;

/// Why bytes are no UDP datagram or no TCP segment: the first that applies.
#[derive(Clone, Copy, Debug, PartialEq, Eq)]
pub enum L4Bad {
    /// There are fewer bytes than the header has: 8 of UDP, 20 of TCP.
    Short,
    /// UDP's length field is under 8 or past the bytes.
    Len,
    /// TCP's data offset is under 5 words of four bytes or past the bytes.
    Offset,
}

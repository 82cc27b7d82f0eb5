//! What an IPv6 header and a Fragment header say (RFC 8200 3, 4.5).
use aftr_base::Ip6;

/// The fields of an IPv6 header, but for the flow label.
#[derive(Clone, Copy, Debug, PartialEq, Eq)]
pub struct Ip6Fields {
    /// The traffic class.
    pub class: u8,
    /// How many bytes follow the header, extension headers among them.
    pub payload: u16,
    /// The number of the header that follows.
    pub next: u8,
    /// The hop limit.
    pub hops: u8,
    /// The source.
    pub src: Ip6,
    /// The destination.
    pub dst: Ip6,
}

/// The fields of a Fragment header.
#[derive(Clone, Copy, Debug, PartialEq, Eq)]
pub struct FragHead {
    /// The number of the header that the whole packet's pieces begin with.
    pub next: u8,
    /// Where the piece stands in the whole, in units of 8 bytes: under 8,192.
    pub offset: u16,
    /// Whether pieces follow this one.
    pub more: bool,
    /// The identification that all pieces of one packet share.
    pub id: u32,
}

/// Why bytes are no IPv6 packet: the first that applies.
#[derive(Clone, Copy, Debug, PartialEq, Eq)]
pub enum Ip6Bad {
    /// There are fewer than 40 bytes.
    Short,
    /// The version is not 6.
    Version,
    /// The payload length is past the bytes.
    PayloadLen,
}

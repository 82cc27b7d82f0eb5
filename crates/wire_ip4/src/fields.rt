//! What an IPv4 header says, and why bytes are no packet.
ghost use Rattle.std.specs.Prelude.{◌≡◌};
ghost use Rattle.wire_ip4.specs.Grammar.{is_piece_of};

use aftr_base::Ip4;

/// The fields of an IPv4 header, but for the reserved flag bit and the checksum.
#[derive(Clone, Copy, Debug, PartialEq, Eq)]
pub struct Ip4Fields {
    /// The type of service: the traffic class and the two bits of congestion (RFC 2474, RFC 3168).
    pub tos: u8,
    /// The length of the header and its payload, in bytes.
    pub total: u16,
    /// What the pieces of one datagram have in common.
    pub id: u16,
    /// The flag that forbids to cut the datagram.
    pub dont_cut: bool,
    /// The flag that more pieces follow.
    pub more: bool,
    /// Where a piece stands in its datagram, in units of 8 bytes, 0 to 8191.
    pub offset: u16,
    /// How many more hops the packet may take.
    pub ttl: u8,
    /// The number of the protocol that the payload is of.
    pub proto: u8,
    /// Where the packet comes from.
    pub src: Ip4,
    /// Where the packet goes.
    pub dst: Ip4,
}

impl Ip4Fields {
    /// Whether the packet is a piece of a datagram, and not a whole one.
    pub fn is_piece(&self) -> bool
        ensures { result ≡ is_piece_of self.now }
    {
        self.more || 0 < self.offset
    }
}

/// Why bytes are no IPv4 packet: the first that applies.
#[derive(Clone, Copy, Debug, PartialEq, Eq)]
pub enum Ip4Bad {
    /// There are fewer than 20 bytes.
    Short,
    /// The version is not 4.
    Version,
    /// The header's length is under 20 bytes or past the bytes.
    HeaderLen,
    /// The total length is under the header's or past the bytes.
    TotalLen,
    /// The header's checksum is wrong.
    Sum,
}

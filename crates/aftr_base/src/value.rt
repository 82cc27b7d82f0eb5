//! Addresses, places and moments.
ghost use Rattle.std.specs.Prelude.{◌≡◌, ◌-◌};
ghost use Rattle.aftr_base.specs.Checksum.{address_words};
ghost use Rattle.aftr_base.specs.Value.{front_bits, is_under4, is_under6, prefix_of, subscriber_eq};

/// Milliseconds since 1970-01-01 00:00 UTC, as the records bear them: IPFIX's observationTimeMilliseconds, which is a
/// dateTimeMilliseconds (RFC 7011 section 6.1.8).
#[derive(Clone, Copy, Debug, PartialEq, Eq, PartialOrd, Ord)]
pub struct Moment(pub u64);

/// The greatest moment that a record of an input may bear, in milliseconds: the last second of a 32-bit clock, less an
/// hour, so that what is added to it in a log still fits.
pub const MOMENT_LIMIT: u64 = 4_294_963_695_999;

/// The greatest moment of a log, in milliseconds: the last second of a 32-bit clock.
pub const LOG_MOMENT_LIMIT: u64 = 4_294_967_295_999;

/// An IPv4 address, as the number whose high byte is its first octet.
#[derive(Clone, Copy, Debug, PartialEq, Eq, Hash)]
pub struct Ip4(pub u32);

impl Ip4 {
    /// The address as two 16-bit words, the high one first, as a checksum sums it up (RFC 1071 section 1).
    pub fn words(self) -> [u16; 2]
        ensures { result ≡ address_words self.0 }
    {
        [(self.0 / 65536) as u16, (self.0 % 65536) as u16]
    }

    // the first `len` bits, as a number
    fn front(self, len: u8) -> u32
        ensures { result ≡ front_bits 32 len self.0 }
    {
        let past = 32u32.saturating_sub(u32::from(len));
        self.0.checked_shr(past).unwrap_or(0)
    }
}

/// An IPv6 address, as the number whose high byte is its first octet.
#[derive(Clone, Copy, Debug, PartialEq, Eq, Hash)]
pub struct Ip6(pub u128);

impl Ip6 {
    /// The prefix of this length in bits that the address lies under (RFC 4291 section 2.3). A length over 128 leaves
    /// all bits as they are.
    pub fn prefix(self, len: u8) -> Prefix6
        ensures { result ≡ prefix_of len self }
    {
        let bits = self.front(len).checked_shl(bits_past(len)).unwrap_or(0);
        Prefix6 {
            bits: Ip6(bits),
            len,
        }
    }

    // the first `len` bits, as a number
    fn front(self, len: u8) -> u128
        ensures { result ≡ front_bits 128 len self.0 }
    {
        self.0.checked_shr(bits_past(len)).unwrap_or(0)
    }
}

// how many bits of an IPv6 address stand behind the first `len`
fn bits_past(len: u8) -> u32
    ensures { result ≡ 128 - len }
{
    128u32.saturating_sub(u32::from(len))
}

/// An IPv4 prefix: an address whose bits past the length are zero, and the length.
#[derive(Clone, Copy, Debug, PartialEq, Eq)]
pub struct Prefix4 {
    /// The first address under the prefix.
    pub bits: Ip4,
    /// How many leading bits the prefix fixes, 0 to 32.
    pub len: u8,
}

impl Prefix4 {
    /// Whether an address lies under the prefix.
    pub fn covers(self, addr: Ip4) -> bool
        ensures { result ≡ is_under4 self addr }
    {
        addr.front(self.len) == self.bits.front(self.len)
    }
}

/// An IPv6 prefix: an address whose bits past the length are zero, and the length.
#[derive(Clone, Copy, Debug, PartialEq, Eq)]
pub struct Prefix6 {
    /// The first address under the prefix.
    pub bits: Ip6,
    /// How many leading bits the prefix fixes, 0 to 128.
    pub len: u8,
}

impl Prefix6 {
    /// Whether an address lies under the prefix.
    pub fn covers(self, addr: Ip6) -> bool
        ensures { result ≡ is_under6 self addr }
    {
        addr.front(self.len) == self.bits.front(self.len)
    }
}

/// A subscriber: the IPv6 prefix that its softwires come from.
#[derive(Clone, Copy, Debug, PartialEq, Eq)]
pub struct Subscriber(pub Prefix6);

impl Subscriber {
    /// Whether the other is the same one: the same bits and the same length.
    pub fn is(self, other: Subscriber) -> bool
        ensures { result ≡ subscriber_eq self other }
    {
        self.0.bits.0 == other.0.bits.0 && self.0.len == other.0.len
    }
}

/// A transport protocol: number 6, 17 or 1 in an IPv4 header (RFC 791 section 3.1).
#[derive(Clone, Copy, Debug, PartialEq, Eq, Hash)]
pub enum Proto {
    Tcp,
    Udp,
    Icmp,
}

/// Where a packet comes from or goes to.
#[derive(Clone, Copy, Debug, PartialEq, Eq)]
pub enum Side {
    /// The subscribers' side: IPv4 packets in IPv6 ones (RFC 6333).
    Softwire,
    /// The side of the public IPv4 addresses.
    Public,
}

/// How a stream of records is spelled.
#[derive(Clone, Copy, Debug, PartialEq, Eq)]
pub enum Form {
    /// Each record behind its length, kind and moment.
    Frames,
    /// A file of captured packets, which no reader takes.
    Capture,
}

/// An address with a port, or with the identifier of an ICMP query.
#[derive(Clone, Copy, Debug, PartialEq, Eq, Hash)]
pub struct Ext {
    pub addr: Ip4,
    /// The port or identifier, 0 to 65535.
    pub port: u16,
}

/// What a mapping is found by: the softwire's source with the transport and the inner place.
#[derive(Clone, Copy, Debug, PartialEq, Eq, Hash)]
pub struct InnerKey {
    /// The source of the IPv6 packets.
    pub softwire: Ip6,
    pub proto: Proto,
    /// The source of the IPv4 packets inside.
    pub addr: Ip4,
    /// The source port of the datagrams inside.
    pub port: u16,
}

//! What the pieces of a datagram have in common.
ghost use Rattle.std.specs.Prelude.{◌≡◌};
ghost use Rattle.frag_reasm.specs.Keys.{key_eq, is_six, holder_of, same_holder, key_limit, end_limit};

use aftr_base::{Ip4, Ip6, Subscriber};

/// What the pieces of one datagram have in common, and no piece of another has.
#[derive(Clone, Copy, Debug, PartialEq, Eq)]
pub enum PieceKey {
    /// Fragments of a softwire's IPv6 packet (RFC 8200 section 4.5).
    Six {
        owner: Subscriber,
        src: Ip6,
        dst: Ip6,
        id: u32,
    },
    /// Fragments of an IPv4 packet of a softwire (RFC 791 section 3.2).
    Inner {
        owner: Subscriber,
        /// The softwire's source.
        softwire: Ip6,
        src: Ip4,
        dst: Ip4,
        id: u16,
        proto: u8,
    },
    /// Fragments of an IPv4 packet of the public side (RFC 791 section 3.2).
    Public {
        src: Ip4,
        dst: Ip4,
        id: u16,
        proto: u8,
    },
}

impl PieceKey {
    /// Whether the other is the key of the same datagram.
    pub(crate) fn is(&self, other: &PieceKey) -> bool
        ensures { result ≡ key_eq self.now other.now }
    {
        match *self {
            PieceKey::Six {
                owner,
                src,
                dst,
                id,
            } => match *other {
                PieceKey::Six {
                    owner: owner2,
                    src: src2,
                    dst: dst2,
                    id: id2,
                } => owner.is(owner2) && src.0 == src2.0 && dst.0 == dst2.0 && id == id2,
                _ => false,
            },
            PieceKey::Inner {
                owner,
                softwire,
                src,
                dst,
                id,
                proto,
            } => match *other {
                PieceKey::Inner {
                    owner: owner2,
                    softwire: softwire2,
                    src: src2,
                    dst: dst2,
                    id: id2,
                    proto: proto2,
                } => {
                    owner.is(owner2)
                        && softwire.0 == softwire2.0
                        && src.0 == src2.0
                        && dst.0 == dst2.0
                        && id == id2
                        && proto == proto2
                }
                _ => false,
            },
            PieceKey::Public {
                src,
                dst,
                id,
                proto,
            } => match *other {
                PieceKey::Public {
                    src: src2,
                    dst: dst2,
                    id: id2,
                    proto: proto2,
                } => src.0 == src2.0 && dst.0 == dst2.0 && id == id2 && proto == proto2,
                _ => false,
            },
        }
    }

    /// Whether the pieces are of an IPv6 packet.
    pub(crate) fn is_six(&self) -> bool
        ensures { result ≡ is_six self.now }
    {
        matches!(self, PieceKey::Six { .. })
    }

    // Whose limit the datagram counts against: a subscriber's, or that of the public side.
    fn holder(&self) -> Option<Subscriber>
        ensures { result ≡ holder_of self.now }
    {
        match *self {
            PieceKey::Six { owner, .. } => Some(owner),
            PieceKey::Inner { owner, .. } => Some(owner),
            PieceKey::Public { .. } => None,
        }
    }

    /// Whether both count against the limit of one subscriber, or of the public side.
    pub(crate) fn has_same_holder(&self, other: &PieceKey) -> bool
        ensures { result ≡ same_holder self.now other.now }
    {
        match (self.holder(), other.holder()) {
            (Some(owner), Some(other_owner)) => owner.is(other_owner),
            (None, None) => true,
            _ => false,
        }
    }

    /// How many datagrams in pieces that holder may have.
    pub(crate) fn limit(&self) -> usize
        ensures { result ≡ key_limit self.now }
    {
        match self.holder() {
            Some(_) => 8,
            None => 1024,
        }
    }

    /// Where the bytes of the longest datagram end: with its header of 20 bytes an IPv4 one has 65,535.
    pub(crate) fn end_limit(&self) -> u64
        ensures { result ≡ end_limit self.now }
    {
        if self.is_six() { 65_535 } else { 65_515 }
    }
}

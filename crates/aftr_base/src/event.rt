//! What comes in, what is logged, and why a packet is dropped.
ghost use Rattle.std.specs.Prelude.{◌≡◌, ◌≤◌, length};
ghost use Rattle.aftr_base.specs.Drops.{name_of};

use crate::list::List;
use crate::row::PlanSpec;
use crate::value::{Ip4, Moment, Subscriber};

/// What a record of the input is. A frame is of one of the first four kinds.
#[derive(Clone, Copy, Debug, PartialEq, Eq)]
pub enum EventKind {
    /// An IPv6 packet from the softwire side (RFC 8200).
    Softwire,
    /// An IPv4 packet from the public side (RFC 791).
    Public,
    /// A moment alone.
    Tick,
    /// The text of a configuration.
    Change,
    /// A record that was captured in part.
    Snapped,
    /// A record of another ethertype.
    Foreign,
    /// A record whose link header is cut.
    Stray,
}

/// One record of the input.
#[derive(Debug, Drop)]
pub struct Event {
    pub kind: EventKind,
    /// The record's own moment, which may lie before those of earlier records.
    pub at: Moment,
    /// The record's body: the bytes of the packet or of the text, and none of a tick.
    pub bytes: List<u8>,
}

/// What a log is told.
#[derive(Debug, Drop)]
pub enum LogEvent {
    /// A block opens or closes (RFC 8158 section 4.3).
    Block {
        /// Whether it opens.
        opens: bool,
        owner: Subscriber,
        addr: Ip4,
        /// The first port of the block, included.
        first: u16,
        /// The last port of the block, included.
        last: u16,
        at: Moment,
    },
    /// The log has the names up to a moment.
    Horizon {
        at: Moment,
        /// That moment, included.
        reach: Moment,
    },
    /// A plan opens; none closes the open one. No run opens one yet.
    Plan {
        at: Moment,
        spec: Option<PlanSpec>,
    },
}

/// Why a record was dropped, in the order in which the causes are reported. A cause that says so isn't given yet.
#[derive(Clone, Copy, Debug, PartialEq, Eq)]
pub enum DropCause {
    /// A packet while the clock, the greatest moment so far, isn't past the floor: the end of what the log told before the run.
    Settling,
    /// A record that was captured in part.
    Snapped,
    /// Bytes that are no packet: of IPv6 (RFC 8200 section 3), with a chain of headers past the payload, of IPv4 (RFC 791
    /// section 3.1), of UDP (RFC 768), TCP (RFC 9293 section 3.1) or ICMP (RFC 792). A piece without a byte, or one before
    /// others whose length isn't a multiple of 8. An ICMP error about what can't be translated.
    BadPacket,
    /// A packet from the softwire side that isn't for this end, or one from the public side that isn't for the pool.
    NotUs,
    /// A packet from the softwire side that carries neither IPv4 nor a piece of it (RFC 2473 section 3.3).
    NotTunnel,
    /// A packet whose softwire lies under no aggregate.
    UnknownSubscriber,
    /// A piece over the limit of pieces of a datagram, or of datagrams in pieces of a subscriber or the public side.
    PieceTooMany,
    /// A piece that ends past the greatest length of a datagram.
    PieceTooLong,
    /// A piece that shares a byte with another, or says another end of the datagram: its pieces are given up (RFC 5722
    /// section 4).
    PieceOverlap,
    /// An IPv4 header with options.
    Options,
    /// A packet from or to an address that isn't routed, or from the public side with a source in the pool.
    NoRoute,
    /// A packet that isn't translated: of another protocol than UDP, TCP and ICMP, or an ICMP message that is neither echo
    /// nor an error of the types 3, 11 and 12. A record of another ethertype.
    NoProtocol,
    /// A packet whose TTL is 0 or 1.
    TtlSpent,
    /// A packet for the public side that is longer than its MTU and may not be cut.
    TooBig,
    /// A packet that needs a mapping, of a subscriber that has its quota of mappings (RFC 6888 section 3).
    QuotaMappings,
    /// A packet to a further remote endpoint, of a subscriber that has its quota of peers (RFC 6888 section 3).
    QuotaPeers,
    /// A packet that needs a mapping, of a subscriber that has its quota of blocks, and no free port in them (RFC 6888
    /// section 3).
    QuotaBlocks,
    /// A packet that needs a further block, where the subscriber's address has none that is free.
    AddressFull,
    /// A packet that needs a mapping, of a subscriber without an open block, where no block is free.
    PoolEmpty,
    /// A packet to a place of the pool that no mapping has, an ICMP error about a packet of no mapping, or an echo reply of
    /// a subscriber that has no mapping.
    NoMapping,
    /// A packet from a remote address that the mapping doesn't admit (RFC 4787 section 5).
    Filtered,
    /// The text of a configuration: none is accepted.
    BadChange,
    /// A packet of a batch that a failing log lost. It isn't given yet.
    Lost,
}

impl DropCause {
    /// All causes, in the order in which they are reported and counted.
    pub const ALL: [DropCause; 23] = [
        DropCause::Settling,
        DropCause::Snapped,
        DropCause::BadPacket,
        DropCause::NotUs,
        DropCause::NotTunnel,
        DropCause::UnknownSubscriber,
        DropCause::PieceTooMany,
        DropCause::PieceTooLong,
        DropCause::PieceOverlap,
        DropCause::Options,
        DropCause::NoRoute,
        DropCause::NoProtocol,
        DropCause::TtlSpent,
        DropCause::TooBig,
        DropCause::QuotaMappings,
        DropCause::QuotaPeers,
        DropCause::QuotaBlocks,
        DropCause::AddressFull,
        DropCause::PoolEmpty,
        DropCause::NoMapping,
        DropCause::Filtered,
        DropCause::BadChange,
        DropCause::Lost,
    ];

    /// The name that a report prints, of at most 17 bytes.
    pub fn name(self) -> &'static str
        ensures text { result.now ≡ name_of self }
        ensures short { length result.now ≤ 17 }
    {
        match self {
            DropCause::Settling => "Settling",
            DropCause::Snapped => "Snapped",
            DropCause::BadPacket => "BadPacket",
            DropCause::NotUs => "NotUs",
            DropCause::NotTunnel => "NotTunnel",
            DropCause::UnknownSubscriber => "UnknownSubscriber",
            DropCause::PieceTooMany => "PieceTooMany",
            DropCause::PieceTooLong => "PieceTooLong",
            DropCause::PieceOverlap => "PieceOverlap",
            DropCause::Options => "Options",
            DropCause::NoRoute => "NoRoute",
            DropCause::NoProtocol => "NoProtocol",
            DropCause::TtlSpent => "TtlSpent",
            DropCause::TooBig => "TooBig",
            DropCause::QuotaMappings => "QuotaMappings",
            DropCause::QuotaPeers => "QuotaPeers",
            DropCause::QuotaBlocks => "QuotaBlocks",
            DropCause::AddressFull => "AddressFull",
            DropCause::PoolEmpty => "PoolEmpty",
            DropCause::NoMapping => "NoMapping",
            DropCause::Filtered => "Filtered",
            DropCause::BadChange => "BadChange",
            DropCause::Lost => "Lost",
        }
    }
}

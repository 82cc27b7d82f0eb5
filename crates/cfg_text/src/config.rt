//! What an operator sets.
ghost use Rattle.std.specs.Prelude.{◌≡◌, true, IfOk};
ghost use Rattle.cfg_text.specs.Accepted.{is_accepted};
ghost use Rattle.cfg_text.specs.Defaults.{defaults};

use aftr_base::{Ip4, Ip6, List, NoMemory, Prefix4, Prefix6};
use std::alloc::Global;

/// Which remote endpoints a mapping admits (RFC 4787 section 5).
#[derive(Clone, Copy, Debug, PartialEq, Eq)]
pub enum Filter {
    /// Every remote endpoint (endpoint-independent filtering).
    Independent,
    /// Those whose address the subscriber has sent to from that mapping (address-dependent filtering).
    Address,
}

/// What an operator sets. The ranges are those that `accepted` asks for.
#[derive(Debug, Drop)]
pub struct Config {
    /// The address that softwires end at (RFC 6333 section 6.2).
    pub aftr: Ip6,
    /// The length in bits of the prefix that tells one subscriber from another: 16 to 128.
    pub subscriber_len: u8,
    /// The prefixes that subscribers come from: 1 to 64, rising and apart, bits past the length zero. A length is at
    /// most `subscriber_len`, and at least that less 24, so that one has at most 2^24 subscribers.
    pub aggregates: List<Prefix6>,
    /// The public addresses: 1 to 64 prefixes of a length from 16 to 32, rising and apart, bits past the length zero,
    /// with at most 65,536 addresses together. Their first octets are 1 to 223 without 127, and none of them is in
    /// 192.0.0.0/29, the softwire's own (RFC 6333 section 5.7).
    pub pool: List<Prefix4>,
    /// How many ports a block has: a power of two, 16 to 16384 (RFC 6888 section 5, REQ-14).
    pub block_size: u16,
    /// How many subscribers share an address by a plan (RFC 7422 section 2): 0, for no plan, to the blocks of an
    /// address. Above 0 there are at most addresses times ratio subscribers.
    pub ratio: u16,
    /// How many blocks a subscriber may hold: 1 to 64 (RFC 6888 section 3, REQ-4).
    pub max_blocks: u32,
    /// How many mappings a subscriber may have: 1 to 65535 (RFC 6888 section 3, REQ-4).
    pub max_mappings: u32,
    /// How many remote endpoints the mappings of a subscriber may have together: 1 to 65535 (RFC 6888 section 3,
    /// REQ-4 and REQ-5).
    pub max_peers: u32,
    /// How long a block that was given back stays with nobody else, in milliseconds: 1 to 3600000 (RFC 6888 section 3,
    /// REQ-8).
    pub hold_ms: u64,
    /// How far ahead the log vouches for the blocks that it shows, in milliseconds: 1 to 3600000.
    pub horizon_ms: u64,
    /// Which remote endpoints a mapping admits (RFC 4787 section 5, REQ-8).
    pub filter: Filter,
    /// How long a UDP mapping lasts unused, in milliseconds: 120000 to 3600000 (RFC 4787 section 4.3, REQ-5).
    pub udp_ms: u64,
    /// How long an established TCP connection lasts unused, in milliseconds: 7440000 to 86400000 (RFC 5382 section 5,
    /// REQ-5).
    pub tcp_ms: u64,
    /// How long one that is opening or closing lasts unused, in milliseconds: 240000 to 3600000 (RFC 5382 section 5,
    /// REQ-5).
    pub tcp_short_ms: u64,
    /// How long the mapping of an ICMP query lasts unused, in milliseconds: 60000 to 3600000 (RFC 5508 section 3.2,
    /// REQ-2).
    pub icmp_ms: u64,
    /// The longest IPv6 packet to the softwire side, in bytes: 1280 to 65535 (RFC 6333 section 6.3, RFC 8200
    /// section 5).
    pub softwire_mtu: u16,
    /// The longest IPv4 packet to the public side, in bytes: 576 to 65535 (RFC 791 section 3.1).
    pub public_mtu: u16,
    /// The most bytes that the log's file may have: 17 to 2^40.
    pub log_limit: u64,
}

impl Config {
    /// What a configuration of no keys says. `NoMemory` comes where its two lists get no room.
    pub fn defaults(alloc: Global) -> Result<Config, NoMemory>
        ensures same { IfOk result (λ c. c ≡ defaults) }
        ensures accepted { is_accepted defaults ≡ true }
    {
        let mut aggregates = List::new(alloc);
        aggregates.push(Prefix6 {
            bits: Ip6(0x2001_0db8_0100_0000_0000_0000_0000_0000),
            len: 40,
        })?;
        let mut pool = List::new(alloc);
        pool.push(Prefix4 {
            bits: Ip4(0xc000_0208),
            len: 30,
        })?;
        Ok(Config {
            aftr: Ip6(0x2001_0db8_0000_0000_0000_0000_0000_0001),
            subscriber_len: 56,
            aggregates,
            pool,
            block_size: 512,
            ratio: 0,
            max_blocks: 8,
            max_mappings: 4096,
            max_peers: 16384,
            hold_ms: 120_000,
            horizon_ms: 2000,
            filter: Filter::Independent,
            udp_ms: 300_000,
            tcp_ms: 7_440_000,
            tcp_short_ms: 240_000,
            icmp_ms: 60_000,
            softwire_mtu: 1500,
            public_mtu: 1500,
            log_limit: 1_073_741_824,
        })
    }
}

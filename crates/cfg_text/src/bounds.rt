//! Configurations at the bounds of what is accepted, each the defaults with a few values changed.
use crate::config::Config;
use aftr_base::{Ip4, Ip6, List, Prefix4, Prefix6};
use std::process::Abort;

// A value in place of a default. A prefix is its bits with its length.
#[derive(Clone, Copy, Debug)]
enum Change<'a> {
    SubscriberLen(u8),
    Aggregates(&'a [(u128, u8)]),
    Pool(&'a [(u32, u8)]),
    BlockSize(u16),
    Ratio(u16),
    MaxBlocks(u32),
    MaxMappings(u32),
    MaxPeers(u32),
    Hold(u64),
    Horizon(u64),
    Udp(u64),
    Tcp(u64),
    TcpShort(u64),
    Icmp(u64),
    SoftwireMtu(u16),
    PublicMtu(u16),
    LogLimit(u64),
}

fn aggregates_of<R: Abort + AllocGlobal>(rt: &R, prefixes: &[(u128, u8)]) -> List<Prefix6> {
    let mut list = List::new(rt.alloc());
    for (bits, len) in prefixes {
        let prefix = Prefix6 {
            bits: Ip6(*bits),
            len: *len,
        };
        list.push(prefix).expect(rt, "memory for an aggregate");
    }
    list
}

fn pool_of<R: Abort + AllocGlobal>(rt: &R, prefixes: &[(u32, u8)]) -> List<Prefix4> {
    let mut list = List::new(rt.alloc());
    for (bits, len) in prefixes {
        let prefix = Prefix4 {
            bits: Ip4(*bits),
            len: *len,
        };
        list.push(prefix).expect(rt, "memory for a prefix");
    }
    list
}

fn apply<R: Abort + AllocGlobal>(rt: &R, config: &mut Config, change: Change<'_>) {
    match change {
        Change::SubscriberLen(n) => config.subscriber_len = n,
        Change::Aggregates(prefixes) => config.aggregates = aggregates_of(rt, prefixes),
        Change::Pool(prefixes) => config.pool = pool_of(rt, prefixes),
        Change::BlockSize(n) => config.block_size = n,
        Change::Ratio(n) => config.ratio = n,
        Change::MaxBlocks(n) => config.max_blocks = n,
        Change::MaxMappings(n) => config.max_mappings = n,
        Change::MaxPeers(n) => config.max_peers = n,
        Change::Hold(n) => config.hold_ms = n,
        Change::Horizon(n) => config.horizon_ms = n,
        Change::Udp(n) => config.udp_ms = n,
        Change::Tcp(n) => config.tcp_ms = n,
        Change::TcpShort(n) => config.tcp_short_ms = n,
        Change::Icmp(n) => config.icmp_ms = n,
        Change::SoftwireMtu(n) => config.softwire_mtu = n,
        Change::PublicMtu(n) => config.public_mtu = n,
        Change::LogLimit(n) => config.log_limit = n,
    }
}

fn check<R: Abort + AllocGlobal>(rt: &R, rows: &[&[Change<'_>]], wanted: bool) {
    for row in rows {
        let mut config = Config::defaults(rt.alloc()).expect(rt, "memory for the defaults");
        for change in *row {
            apply(rt, &mut config, *change);
        }
        let got = config.accepted();
        assert_eq!(rt; got, wanted, "{row:?}");
    }
}

// 2001:db8:100::
const NET: u128 = 0x2001_0db8_0100_0000_0000_0000_0000_0000;
// 192.0.2.0
const DOC: u32 = 0xc000_0200;

#[test]
fn accepts_what_is_in_bounds(rt: HostRuntime) {
    check(
        &rt,
        &[
            &[],
            &[Change::SubscriberLen(40)],
            &[Change::SubscriberLen(64)],
            &[Change::SubscriberLen(16), Change::Aggregates(&[(0, 0)])],
            &[
                Change::SubscriberLen(128),
                Change::Aggregates(&[(NET, 128)]),
            ],
            &[Change::Aggregates(&[(NET, 48), (NET + (1 << 80), 48), (0xff << 120, 40)])],
            &[Change::Pool(&[(DOC, 32)])],
            &[Change::Pool(&[(DOC, 31), (DOC + 2, 32), (DOC + 4, 30)])],
            &[Change::Pool(&[(0x0100_0000, 16)])],
            &[Change::Pool(&[(0x7eff_0000, 17), (0x8000_0000, 17)])],
            &[Change::Pool(&[(0xbfff_fffe, 31), (0xc000_0008, 29), (0xdfff_ffff, 32)])],
            &[Change::BlockSize(16)],
            &[Change::BlockSize(16_384)],
            &[
                Change::Aggregates(&[(NET, 54)]),
                Change::Pool(&[(DOC + 8, 32)]),
                Change::BlockSize(2048),
                Change::Ratio(4),
            ],
            &[Change::Aggregates(&[(NET, 56)]), Change::Ratio(126)],
            &[
                Change::MaxBlocks(1),
                Change::MaxMappings(1),
                Change::MaxPeers(1),
            ],
            &[
                Change::MaxBlocks(64),
                Change::MaxMappings(65_535),
                Change::MaxPeers(65_535),
            ],
            &[Change::Hold(1), Change::Horizon(1)],
            &[Change::Hold(3_600_000), Change::Horizon(3_600_000)],
            &[Change::Udp(120_000), Change::Tcp(7_440_000)],
            &[Change::Udp(3_600_000), Change::Tcp(86_400_000)],
            &[Change::TcpShort(240_000), Change::Icmp(60_000)],
            &[Change::TcpShort(3_600_000), Change::Icmp(3_600_000)],
            &[
                Change::SoftwireMtu(1280),
                Change::PublicMtu(576),
                Change::LogLimit(17),
            ],
            &[
                Change::SoftwireMtu(65_535),
                Change::PublicMtu(65_535),
                Change::LogLimit(1 << 40),
            ],
        ],
        true,
    );
}

#[test]
fn refuses_what_is_out_of_bounds(rt: HostRuntime) {
    check(
        &rt,
        &[
            &[Change::SubscriberLen(39)],
            &[Change::SubscriberLen(65)],
            &[Change::SubscriberLen(15), Change::Aggregates(&[(0, 0)])],
            &[
                Change::SubscriberLen(129),
                Change::Aggregates(&[(NET, 128)]),
            ],
            &[Change::Aggregates(&[])],
            &[Change::Aggregates(&[(NET + 1, 40)])],
            &[Change::Aggregates(&[(NET, 48), (NET, 48)])],
            &[Change::Aggregates(&[(NET + (1 << 80), 48), (NET, 48)])],
            &[Change::Aggregates(&[(NET, 40), (NET + (1 << 80), 48)])],
            &[Change::Pool(&[])],
            &[Change::Pool(&[(DOC + 1, 31)])],
            &[Change::Pool(&[(DOC, 33)])],
            &[Change::Pool(&[(0x0100_0000, 15)])],
            &[Change::Pool(&[(0x0100_0000, 16), (0x0101_0000, 32)])],
            &[Change::Pool(&[(DOC, 30), (DOC + 3, 32)])],
            &[Change::Pool(&[(DOC + 4, 32), (DOC, 32)])],
            &[Change::Pool(&[(0, 32)])],
            &[Change::Pool(&[(0x7f00_0001, 32)])],
            &[Change::Pool(&[(0xe000_0000, 32)])],
            &[Change::Pool(&[(0xc000_0007, 32)])],
            &[Change::Pool(&[(0xc000_0000, 28)])],
            &[Change::BlockSize(0)],
            &[Change::BlockSize(8)],
            &[Change::BlockSize(500)],
            &[Change::BlockSize(32_768)],
            &[Change::Aggregates(&[(NET, 56)]), Change::Ratio(127)],
            &[
                Change::Aggregates(&[(NET, 53)]),
                Change::Pool(&[(DOC + 8, 32)]),
                Change::BlockSize(2048),
                Change::Ratio(4),
            ],
            &[Change::MaxBlocks(0)],
            &[Change::MaxBlocks(65)],
            &[Change::MaxMappings(0)],
            &[Change::MaxMappings(65_536)],
            &[Change::MaxPeers(0)],
            &[Change::MaxPeers(65_536)],
            &[Change::Hold(0)],
            &[Change::Hold(3_600_001)],
            &[Change::Horizon(0)],
            &[Change::Horizon(3_600_001)],
            &[Change::Udp(119_999)],
            &[Change::Udp(3_600_001)],
            &[Change::Tcp(7_439_999)],
            &[Change::Tcp(86_400_001)],
            &[Change::TcpShort(239_999)],
            &[Change::TcpShort(3_600_001)],
            &[Change::Icmp(59_999)],
            &[Change::Icmp(3_600_001)],
            &[Change::SoftwireMtu(1279)],
            &[Change::PublicMtu(575)],
            &[Change::LogLimit(16)],
            &[Change::LogLimit((1 << 40) + 1)],
        ],
        false,
    );
}

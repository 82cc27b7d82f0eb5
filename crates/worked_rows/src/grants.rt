//! Which places packets leave from under small quotas and blocks, which are refused, also by a filter, and what senders
//! are told then.

use crate::configs::{Left, defaults, run_with};
use crate::octets::octets;
use aftr_base::{Ip4, Prefix4};
use cfg_text::{Config, Filter};
use plant_mem::MemPlant;
use std::process::Abort;

// The bytes of a frame with a sent packet of 32 bytes, and where its source stands in it.
const SENT: usize = 45;

const SOURCE: usize = 25;

const PORT: usize = 33;

// The bytes of a frame with an error to a sender, and where the packet stands in it.
const TOLD: usize = 109;

const PACKET: usize = 13;

// What comes of a packet.
#[derive(Clone, Copy)]
enum Fate {
    // It leaves from this port of 192.0.2.(0 + the number).
    From(u8, u16),
    // Host Unreachable about this port goes to the subscriber whose prefix has this number.
    Told(u16, u16),
}

// A run of packets without UDP checksums.
#[derive(Drop)]
struct Packets {
    input: String,
}

impl Packets {
    fn new<R: Abort + AllocGlobal>(rt: &R) -> Self {
        Packets {
            input: String::new(rt.alloc()),
        }
    }

    // From this inner port of a subscriber to 203.0.113.(5 + remote), at a moment.
    fn add<R: Abort + AllocGlobal>(
        &mut self,
        rt: &R,
        at: u64,
        subscriber: u16,
        port: u16,
        remote: u8,
    ) {
        let low = remote.saturating_add(5);
        let checksum = 0x7ec4 - u16::from(remote);
        let record = format!(in rt.alloc();
            "00000051 01 {at:016x} 60000000 0020 04 40
            20010db801{subscriber:04x}000000000000000002 20010db8000000000000000000000001
            4500 0020 0001 0000 40 11 {checksum:04x} c0000002 cb0071{low:02x} {port:04x} 0035 000c 0000 61626364\n"
        );
        self.push(rt, record.expect(rt, "memory for a packet").as_str());
    }

    // From this port of 203.0.113.(5 + remote) to a port of 192.0.2.8.
    fn add_reply<R: Abort + AllocGlobal>(&mut self, rt: &R, remote: u8, from: u16, port: u16) {
        let low = remote.saturating_add(5);
        let checksum = 0x7cb8 - u16::from(remote);
        let record = format!(in rt.alloc();
            "00000029 02 00000000000f4240
            4500 0020 0007 0000 40 11 {checksum:04x} cb0071{low:02x} c0000208 {from:04x} {port:04x} 000c 0000 61626364\n"
        );
        self.push(rt, record.expect(rt, "memory for a packet").as_str());
    }

    // A record that only tells the time.
    fn add_tick<R: Abort + AllocGlobal>(&mut self, rt: &R, at: u64) {
        let record = format!(in rt.alloc(); "00000009 03 {at:016x}\n");
        self.push(rt, record.expect(rt, "memory for a tick").as_str());
    }

    fn push<R: Abort>(&mut self, rt: &R, text: &str) {
        self.input.push_str(text).expect(rt, "memory for a text");
    }
}

// Runs over packets, compares the report, and gives what it left.
fn run_packets<R: Abort + AllocGlobal>(
    rt: &R,
    config: Config,
    packets: &Packets,
    report: &str,
) -> MemPlant {
    let Left {
        plant,
        report: printed,
    } = run_with(rt, config, &[packets.input.as_str()]);
    assert_eq!(rt; str::from_utf8(printed.written()), Ok(report));
    plant
}

// The same, where what came of the packets is compared.
fn check_fates<R: Abort + AllocGlobal>(
    rt: &R,
    config: Config,
    packets: &Packets,
    report: &str,
    fates: &[Fate],
) {
    let plant = run_packets(rt, config, packets, report);
    compare_fates(rt, plant.sent(), fates);
}

fn compare_fates<R: Abort + AllocGlobal>(rt: &R, sent: &[u8], fates: &[Fate]) {
    let mut rest = sent;
    for fate in fates {
        rest = match fate {
            Fate::From(addr, port) => behind_packet(rt, rest, *addr, *port),
            Fate::Told(subscriber, port) => behind_error(rt, rest, *subscriber, *port),
        };
    }
    assert!(rt; rest.is_empty(), "no further packet");
}

// What stands behind a packet from this place.
fn behind_packet<'a, R: Abort>(rt: &R, sent: &'a [u8], addr: u8, port: u16) -> &'a [u8] {
    assert!(rt; sent.len() >= SENT, "a further packet");
    let (packet, after) = sent.split_at(SENT);
    assert_eq!(rt; packet[SOURCE + 3], addr);
    assert_eq!(rt; u16::from_be_bytes([packet[PORT], packet[PORT + 1]]), port);
    after
}

// What stands behind an error about a packet to 203.0.113.5.
fn behind_error<'a, R: Abort + AllocGlobal>(
    rt: &R,
    sent: &'a [u8],
    subscriber: u16,
    port: u16,
) -> &'a [u8] {
    assert!(rt; sent.len() >= TOLD, "a further error");
    let (error, after) = sent.split_at(TOLD);
    let checksum = 0xfcbd_u16.wrapping_sub(port);
    let packet = format!(in rt.alloc();
        "60000000 0038 04 40
        20010db8000000000000000000000001 20010db801{subscriber:04x}000000000000000002
        4500 0038 0000 4000 40 01 bac1 c0000001 c0000002 03 01 {checksum:04x} 00000000
        4500 0020 0001 0000 40 11 7ec4 c0000002 cb007105 {port:04x} 0035 000c 0000"
    );
    let packet = packet.expect(rt, "memory for an error");
    assert_eq!(rt; &error[PACKET..], octets(rt, &[packet.as_str()]).as_slice());
    after
}

fn add_fate<R: Abort>(rt: &R, fates: &mut Vec<Fate>, fate: Fate) {
    fates.push(fate).expect(rt, "memory for a fate");
}

// The addresses from 192.0.2.8 on, as many as a prefix of this length has.
fn pool<R: Abort + AllocGlobal>(rt: &R, len: u8) -> Config {
    let mut config = defaults(rt);
    config.pool.clear();
    let bits = Ip4(0xc000_0208);
    config
        .pool
        .push(Prefix4 { bits, len })
        .expect(rt, "memory for a prefix");
    config
}

#[test]
fn a_full_block_and_a_further_one(rt: HostRuntime) {
    let mut config = defaults(&rt);
    config.block_size = 16;
    let mut packets = Packets::new(&rt);
    for port in 5000..5017 {
        packets.add(&rt, 1_000_000, 0, port, 0);
    }
    let mut fates = Vec::new(rt.alloc());
    for port in 1024..1041 {
        add_fate(&rt, &mut fates, Fate::From(8, port));
    }
    let report = "records 17\nsent 17\nmarks 0\n";
    check_fates(&rt, config, &packets, report, &fates);
}

#[test]
fn one_block_at_the_most(rt: HostRuntime) {
    let mut config = defaults(&rt);
    config.block_size = 16;
    config.max_blocks = 1;
    let mut packets = Packets::new(&rt);
    for port in 5000..5017 {
        packets.add(&rt, 1_000_000, 0, port, 0);
    }
    // The last mapping that there is still leaves.
    packets.add(&rt, 1_000_000, 0, 5015, 0);
    let mut fates = Vec::new(rt.alloc());
    for port in 1024..1040 {
        add_fate(&rt, &mut fates, Fate::From(8, port));
    }
    add_fate(&rt, &mut fates, Fate::Told(0, 5016));
    add_fate(&rt, &mut fates, Fate::From(8, 1039));
    let report = "records 18\nsent 18\nmarks 0\ndrop QuotaBlocks 1\n";
    check_fates(&rt, config, &packets, report, &fates);
}

#[test]
fn two_mappings_at_the_most(rt: HostRuntime) {
    let mut config = defaults(&rt);
    config.max_mappings = 2;
    let mut packets = Packets::new(&rt);
    for port in [5000, 5001, 5002, 5000] {
        packets.add(&rt, 1_000_000, 0, port, 0);
    }
    let report = "records 4\nsent 4\nmarks 0\ndrop QuotaMappings 1\n";
    let fates = [
        Fate::From(8, 1024),
        Fate::From(8, 1025),
        Fate::Told(0, 5002),
        Fate::From(8, 1024),
    ];
    check_fates(&rt, config, &packets, report, &fates);
}

#[test]
fn two_peers_at_the_most(rt: HostRuntime) {
    let mut config = defaults(&rt);
    config.max_peers = 2;
    let mut packets = Packets::new(&rt);
    for remote in [1, 2, 0, 1] {
        packets.add(&rt, 1_000_000, 0, 5000, remote);
    }
    // A new mapping would have a peer as well.
    packets.add(&rt, 1_000_000, 0, 5001, 0);
    let report = "records 5\nsent 5\nmarks 0\ndrop QuotaPeers 2\n";
    let fates = [
        Fate::From(8, 1024),
        Fate::From(8, 1024),
        Fate::Told(0, 5000),
        Fate::From(8, 1024),
        Fate::Told(0, 5001),
    ];
    check_fates(&rt, config, &packets, report, &fates);
}

// Each of an address's 126 blocks has a subscriber, of whom the first fills its own.
#[test]
fn an_address_without_a_free_block(rt: HostRuntime) {
    let mut packets = Packets::new(&rt);
    let mut fates = Vec::new(rt.alloc());
    for block in 0..126 {
        packets.add(&rt, 1_000_000, block, 5000, 0);
        add_fate(&rt, &mut fates, Fate::From(8, 1024 + 512 * block));
    }
    for port in 1..512 {
        packets.add(&rt, 1_000_000, 0, 5000 + port, 0);
        add_fate(&rt, &mut fates, Fate::From(8, 1024 + port));
    }
    packets.add(&rt, 1_000_000, 0, 5512, 0);
    add_fate(&rt, &mut fates, Fate::Told(0, 5512));
    // Another one has a block on the next address.
    packets.add(&rt, 1_000_000, 126, 5000, 0);
    add_fate(&rt, &mut fates, Fate::From(9, 1024));
    let report = "records 639\nsent 639\nmarks 0\ndrop AddressFull 1\n";
    check_fates(&rt, pool(&rt, 31), &packets, report, &fates);
}

// The three blocks of 192.0.2.8 have a subscriber each, of whom the first fills its own: no block of 192.0.2.9 is for it.
#[test]
fn a_full_block_on_a_full_address(rt: HostRuntime) {
    let mut config = pool(&rt, 31);
    config.block_size = 16384;
    config.max_mappings = 20_000;
    config.max_peers = 20_000;
    let mut packets = Packets::new(&rt);
    let mut fates = Vec::new(rt.alloc());
    for block in 0..3 {
        packets.add(&rt, 1_000_000, block, 5000, 0);
        add_fate(&rt, &mut fates, Fate::From(8, 1024 + 16384 * block));
    }
    for port in 1..16384 {
        packets.add(&rt, 1_000_000, 0, 5000 + port, 0);
        add_fate(&rt, &mut fates, Fate::From(8, 1024 + port));
    }
    packets.add(&rt, 1_000_000, 0, 21384, 0);
    add_fate(&rt, &mut fates, Fate::Told(0, 21384));
    // The last mapping that there is still leaves.
    packets.add(&rt, 1_000_000, 0, 21383, 0);
    add_fate(&rt, &mut fates, Fate::From(8, 17407));
    let report = "records 16388\nsent 16388\nmarks 0\ndrop AddressFull 1\n";
    let plant = run_packets(&rt, config, &packets, report);
    compare_fates(&rt, plant.sent(), &fates);
    let leases = crate::driver::ask(&rt, &["leases", "log"], plant.content());
    assert_eq!(rt; str::from_utf8(leases.written()), Ok(THREE_LEASES));
}

const THREE_LEASES: &str =
    "lease 192.0.2.8 1024 17407 1000000 open 2001:0db8:0100:0000:0000:0000:0000:0000/56
lease 192.0.2.8 17408 33791 1000000 open 2001:0db8:0100:0100:0000:0000:0000:0000/56
lease 192.0.2.8 33792 50175 1000000 open 2001:0db8:0100:0200:0000:0000:0000:0000/56
horizon 1002000\n";

// Three subscribers have the three blocks, of whom the first falls silent.
fn three_blocks<R: Abort + AllocGlobal>(rt: &R) -> (Config, Packets) {
    let mut config = pool(rt, 32);
    config.block_size = 16384;
    let mut packets = Packets::new(rt);
    packets.add(rt, 1_000_000, 0, 5000, 0);
    packets.add(rt, 1_000_001, 1, 5000, 0);
    packets.add(rt, 1_000_002, 2, 5000, 0);
    packets.add(rt, 1_290_000, 1, 5000, 0);
    packets.add(rt, 1_290_000, 2, 5000, 0);
    packets.add_tick(rt, 1_300_000);
    (config, packets)
}

const THREE: [Fate; 5] = [
    Fate::From(8, 1024),
    Fate::From(8, 17408),
    Fate::From(8, 33792),
    Fate::From(8, 17408),
    Fate::From(8, 33792),
];

#[test]
fn a_closed_block_is_held_from_others(rt: HostRuntime) {
    let (config, mut packets) = three_blocks(&rt);
    packets.add(&rt, 1_419_999, 3, 5000, 0);
    packets.add(&rt, 1_420_000, 3, 5000, 0);
    let mut fates = THREE.to_vec(rt.alloc()).expect(&rt, "memory for fates");
    add_fate(&rt, &mut fates, Fate::Told(3, 5000));
    add_fate(&rt, &mut fates, Fate::From(8, 1024));
    let report = "records 8\nsent 7\nmarks 0\ndrop PoolEmpty 1\n";
    check_fates(&rt, config, &packets, report, &fates);
}

#[test]
fn its_last_holder_has_it_back(rt: HostRuntime) {
    let (config, mut packets) = three_blocks(&rt);
    packets.add(&rt, 1_300_001, 0, 5000, 0);
    let mut fates = THREE.to_vec(rt.alloc()).expect(&rt, "memory for fates");
    add_fate(&rt, &mut fates, Fate::From(8, 1024));
    let report = "records 7\nsent 6\nmarks 0\n";
    check_fates(&rt, config, &packets, report, &fates);
}

#[test]
fn a_filter_by_address(rt: HostRuntime) {
    let mut config = defaults(&rt);
    config.filter = Filter::Address;
    let mut packets = Packets::new(&rt);
    packets.add(&rt, 1_000_000, 0, 5000, 0);
    packets.add_reply(&rt, 4, 53, 1024);
    packets.add_reply(&rt, 0, 99, 1024);
    packets.add_reply(&rt, 0, 53, 1025);
    let report = "records 4\nsent 2\nmarks 0\ndrop NoMapping 1\ndrop Filtered 1\n";
    let plant = run_packets(&rt, config, &packets, report);
    assert_eq!(rt; plant.sent().len(), SENT + 85);
}

// Packets to two remotes, and replies from both and from a third one, up to the end of each peer and at it.
fn two_peers<R: Abort + AllocGlobal>(rt: &R) -> Packets {
    let mut packets = Packets::new(rt);
    packets.add(rt, 1_000_000, 0, 5000, 0);
    packets.add(rt, 1_100_000, 0, 5000, 1);
    packets.add_tick(rt, 1_299_999);
    packets.add_reply(rt, 0, 53, 1024);
    packets.add_tick(rt, 1_300_000);
    packets.add_reply(rt, 0, 53, 1024);
    packets.add_reply(rt, 4, 53, 1024);
    packets.add_reply(rt, 1, 53, 1024);
    packets.add_tick(rt, 1_400_000);
    packets.add_reply(rt, 1, 53, 1024);
    packets
}

#[test]
fn a_filter_by_address_admits_live_peers_alone(rt: HostRuntime) {
    let mut config = defaults(&rt);
    config.filter = Filter::Address;
    let report = "records 10\nsent 4\nmarks 0\ndrop NoMapping 1\ndrop Filtered 2\n";
    let _plant = run_packets(&rt, config, &two_peers(&rt), report);
}

#[test]
fn no_filter_asks_for_peers(rt: HostRuntime) {
    let report = "records 10\nsent 6\nmarks 0\ndrop NoMapping 1\n";
    let _plant = run_packets(&rt, defaults(&rt), &two_peers(&rt), report);
}

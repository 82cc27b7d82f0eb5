//! What one subscriber gets, and what all of them get together.
ghost use Rattle.std.specs.Prelude.{◌<◌};

use crate::case::{Case, RUN};
use crate::driver::check_leaving;
use crate::logs::{Frame, LogBytes};
use crate::octets::octets;
use aftr_base::DropCause;
use std::process::Abort;

// A run of many packets without UDP checksums, so that none changes with a port: what it is handed, and what it leaves.
#[derive(Drop)]
struct Many {
    input: String,
    sent: String,
    log: LogBytes,
}

impl Many {
    fn new<R: Abort + AllocGlobal>(rt: &R) -> Self {
        Many {
            input: String::new(rt.alloc()),
            sent: String::new(rt.alloc()),
            log: LogBytes::new(rt),
        }
    }

    // A packet from this port of the subscriber whose prefix has this number.
    fn add_packet<R: Abort + AllocGlobal>(&mut self, rt: &R, subscriber: u16, port: u16) {
        let record = format!(in rt.alloc();
            "00000051 01 00000000000f4240 60000000 0020 04 40
            20010db801{subscriber:04x}000000000000000002 20010db8000000000000000000000001
            4500 0020 0001 0000 40 11 7ec4 c0000002 cb007105 {port:04x} 0035 000c 0000 61626364\n"
        );
        add(
            rt,
            &mut self.input,
            record.expect(rt, "memory for a packet").as_str(),
        );
    }

    // The packet as it goes out from this port of this one of the pool's four addresses.
    fn add_sent<R: Abort + AllocGlobal>(&mut self, rt: &R, addr: u16, port: u16)
        requires { addr < 4 }
    {
        let low = 0x0208 + addr;
        let checksum = 0x7dbe - addr;
        let record = format!(in rt.alloc();
            "00000029 02 00000000000f4240
            4500 0020 0001 0000 3f 11 {checksum:04x} c000{low:04x} cb007105
            {port:04x} 0035 000c 0000 61626364\n"
        );
        add(
            rt,
            &mut self.sent,
            record.expect(rt, "memory for a packet").as_str(),
        );
    }

    // The opening of the block that begins at this port, which is a multiple of the block's size. The first one of a run comes with
    // the horizon.
    fn add_block<R: Abort + AllocGlobal>(&mut self, rt: &R, subscriber: u16, addr: u16, first: u16)
        requires { addr < 4 }
    {
        let low = 0x0208 + addr;
        let last = first | 511;
        let record = format!(in rt.alloc();
            "00000000000f4240 10
            20010db801{subscriber:04x}000000000000000000 38 c000{low:04x} {first:04x} {last:04x}"
        );
        let record = record.expect(rt, "memory for a record");
        let horizon = match (subscriber, first) {
            (0, 1024) => Some("00000000000f4240 00000000000f4a10"),
            _ => None,
        };
        self.log.add(
            rt,
            &Frame {
                horizon,
                blocks: &[record.as_str()],
            },
        );
    }
}

fn add<R: Abort>(rt: &R, text: &mut String, more: &str) {
    text.push_str(more).expect(rt, "memory for a text");
}

// Compares what a run of many packets leaves with this case, but for the packets and the log.
fn check_many<R: Abort + AllocGlobal>(rt: &R, case: &Case<'_>, many: Many) {
    let Many { input, sent, log } = many;
    let input = octets(rt, &[input.as_str()]);
    let sent = octets(rt, &[sent.as_str()]);
    let log = log.finish(rt);
    check_leaving(rt, case, &input, &sent, &log);
}

// A packet of a subscriber for each of the 126 blocks of an address.
fn add_blocks<R: Abort + AllocGlobal>(rt: &R, many: &mut Many, addr: u16)
    requires { addr < 4 }
{
    for block in 0..126 {
        let subscriber = 126 * addr + block;
        let first = 1024 + 512 * block;
        many.add_packet(rt, subscriber, 5000);
        many.add_sent(rt, addr, first);
        many.add_block(rt, subscriber, addr, first);
    }
}

static PORTS: Case<'static> = Case {
    name: "one port more than a block has",
    report: "records 514\nsent 514\nmarks 0\n",
    ..RUN
};

// Host Unreachable about a packet from port 5000 of the subscriber whose prefix has the number 504.
const TOO_MANY_TOLD: &str = "00000069 01 00000000000f4240 60000000 0038 04 40
    20010db8000000000000000000000001 20010db80101f8000000000000000002
    4500 0038 0000 4000 40 01 bac1 c0000001 c0000002 03 01 e935 00000000
    4500 0020 0001 0000 40 11 7ec4 c0000002 cb007105 1388 0035 000c 0000";

static BLOCKS: Case<'static> = Case {
    name: "one subscriber too many",
    report: "records 505\nsent 505\nmarks 0\ndrop PoolEmpty 1\n",
    drops: &[(DropCause::PoolEmpty, 1)],
    ..RUN
};

#[test]
fn a_block_has_512_ports(rt: HostRuntime) {
    let mut many = Many::new(&rt);
    many.add_block(&rt, 0, 0, 1024);
    for port in 5000..5512 {
        many.add_packet(&rt, 0, port);
    }
    for port in 1024..1536 {
        many.add_sent(&rt, 0, port);
    }
    // One port more opens a further block, and then the last one again keeps its place.
    many.add_packet(&rt, 0, 5512);
    many.add_block(&rt, 0, 0, 1536);
    many.add_sent(&rt, 0, 1536);
    many.add_packet(&rt, 0, 5511);
    many.add_sent(&rt, 0, 1535);
    check_many(&rt, &PORTS, many);
}

#[test]
fn the_pool_has_504_blocks(rt: HostRuntime) {
    let mut many = Many::new(&rt);
    for addr in 0..4 {
        add_blocks(&rt, &mut many, addr);
    }
    many.add_packet(&rt, 504, 5000);
    add(&rt, &mut many.sent, TOO_MANY_TOLD);
    check_many(&rt, &BLOCKS, many);
}

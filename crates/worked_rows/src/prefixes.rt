//! Packets that are cut short at each byte: no beginning of one is taken for a packet.

use crate::case::{Case, RUN};
use crate::driver::check_input;
use crate::fragments::{FIRST_HALF, SECOND_HALF};
use crate::logs::LogFile;
use crate::octets::octets;
use crate::packets::{FIRST_FRAME, FIRST_SENT, PACKET};
use aftr_base::DropCause;
use std::process::Abort;

// A packet behind other records, and what a run leaves over its beginnings and then over itself.
#[derive(Clone, Copy)]
struct Row<'a> {
    before: &'a [&'a str],
    kind: u8,
    packet: &'a [&'a str],
    ending: Case<'a>,
}

const FRAGMENT: &str =
    "60000000 0018 2c 40 20010db8010000000000000000000002 20010db8000000000000000000000001";

// From the first packet's sender to port 80, and as it leaves.
const SYN: &str =
    "60000000 0028 04 40 20010db8010000000000000000000002 20010db8000000000000000000000001
    4500 0028 0002 0000 40 06 7ec6 c0000002 cb007105 1388 0050 00000001 00000000 5002 ffff a001 0000";

const SYN_SENT: &str = "00000031 02 00000000000f4240
    4500 0028 0002 0000 3f 06 7dc0 c0000208 cb007105
    0400 0050 00000001 00000000 5002 ffff ad83 0000";

// Each beginning is a packet that ends too early.
static ROWS: [Row<'static>; 5] = [
    Row {
        before: &[],
        kind: 1,
        packet: &[PACKET],
        ending: Case {
            name: "a datagram",
            report: "records 73\nsent 1\nmarks 0\ndrop BadPacket 72\n",
            sent: &[FIRST_SENT],
            log_after: LogFile::Frames(&[FIRST_FRAME]),
            drops: &[(DropCause::BadPacket, 72)],
            ..RUN
        },
    },
    Row {
        before: &[],
        kind: 1,
        packet: &[FRAGMENT, FIRST_HALF],
        ending: Case {
            name: "the first of two fragments",
            report: "records 65\nsent 0\nmarks 0\ndrop BadPacket 64\n",
            sent: &[],
            log_after: LogFile::Frames(&[]),
            drops: &[(DropCause::BadPacket, 64)],
            ..RUN
        },
    },
    Row {
        before: &[],
        kind: 1,
        packet: &[FRAGMENT, SECOND_HALF],
        ending: Case {
            name: "the last of two fragments",
            report: "records 65\nsent 0\nmarks 0\ndrop BadPacket 64\n",
            sent: &[],
            log_after: LogFile::Frames(&[]),
            drops: &[(DropCause::BadPacket, 64)],
            ..RUN
        },
    },
    Row {
        before: &[],
        kind: 1,
        packet: &[SYN],
        ending: Case {
            name: "a segment of TCP",
            report: "records 81\nsent 1\nmarks 0\ndrop BadPacket 80\n",
            sent: &[SYN_SENT],
            log_after: LogFile::Frames(&[FIRST_FRAME]),
            drops: &[(DropCause::BadPacket, 80)],
            ..RUN
        },
    },
    Row {
        before: &["00000059 01 00000000000f4240", SYN],
        kind: 2,
        packet: &[
            "4500 0038 0003 0000 3a 01 9485 c6336401 c0000208
            0b 00 f0ae 00000000
            4500 0028 0002 4000 01 06 7bc0 c0000208 cb007105
            0400 0050 00000001",
        ],
        ending: Case {
            name: "an ICMP error behind it",
            report: "records 58\nsent 2\nmarks 0\ndrop BadPacket 56\n",
            sent: &[
                SYN_SENT,
                "00000069 01 00000000000f4240
                60000000 0038 04 40 20010db8000000000000000000000001 20010db8010000000000000000000002
                4500 0038 0003 0000 39 01 978b c6336401 c0000002
                0b 00 e126 00000000
                4500 0028 0002 4000 01 06 7dc6 c0000002 cb007105
                1388 0050 00000001",
            ],
            log_after: LogFile::Frames(&[FIRST_FRAME]),
            drops: &[(DropCause::BadPacket, 56)],
            ..RUN
        },
    },
];

// Checks a run over each beginning of a packet, from none of its bytes on, and then over the packet.
fn check_beginnings<R: Abort + AllocGlobal>(rt: &R, row: &Row<'_>) {
    let packet = octets(rt, row.packet);
    let mut input = octets(rt, row.before);
    for len in 0..=packet.len() {
        add_record(rt, &mut input, row.kind, &packet[..len]);
    }
    check_input(rt, &row.ending, &input);
}

// Adds a record at 1,000,000 with these bytes.
fn add_record<R: Abort + AllocGlobal>(rt: &R, input: &mut Vec<u8>, kind: u8, bytes: &[u8]) {
    let length = bytes.len().saturating_add(9);
    let head = format!(in rt.alloc(); "{length:08x} {kind:02x} 00000000000f4240");
    let head = octets(rt, &[head.expect(rt, "memory for a head").as_str()]);
    add_bytes(rt, input, &head);
    add_bytes(rt, input, bytes);
}

fn add_bytes<R: Abort>(rt: &R, input: &mut Vec<u8>, bytes: &[u8]) {
    input
        .extend_from_slice(bytes)
        .expect(rt, "memory for an input");
}

#[test]
fn beginnings_of_packets(rt: HostRuntime) {
    for row in &ROWS {
        check_beginnings(&rt, row);
    }
}

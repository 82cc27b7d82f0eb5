//! Records that are dropped, and why.

use crate::case::{Case, RUN};
use crate::driver::{check, check_all};
use crate::logs::LogFile;
use crate::made_errors::TIME_EXCEEDED;
use crate::packets::{DATAGRAM, FIRST_FRAME, FIRST_SENT, HEAD, INNER, PACKET, TUNNEL};
use aftr_base::DropCause;
use std::process::Abort;

// A run of one record, which is dropped for a cause.

const BAD_PACKET: Case<'static> = Case {
    report: "records 1\nsent 0\nmarks 0\ndrop BadPacket 1\n",
    drops: &[(DropCause::BadPacket, 1)],
    ..RUN
};

const NOT_US: Case<'static> = Case {
    report: "records 1\nsent 0\nmarks 0\ndrop NotUs 1\n",
    drops: &[(DropCause::NotUs, 1)],
    ..RUN
};

const NOT_TUNNEL: Case<'static> = Case {
    report: "records 1\nsent 0\nmarks 0\ndrop NotTunnel 1\n",
    drops: &[(DropCause::NotTunnel, 1)],
    ..RUN
};

const UNKNOWN_SUBSCRIBER: Case<'static> = Case {
    report: "records 1\nsent 0\nmarks 0\ndrop UnknownSubscriber 1\n",
    drops: &[(DropCause::UnknownSubscriber, 1)],
    ..RUN
};

const OPTIONS: Case<'static> = Case {
    report: "records 1\nsent 0\nmarks 0\ndrop Options 1\n",
    drops: &[(DropCause::Options, 1)],
    ..RUN
};

const NO_ROUTE: Case<'static> = Case {
    report: "records 1\nsent 0\nmarks 0\ndrop NoRoute 1\n",
    drops: &[(DropCause::NoRoute, 1)],
    ..RUN
};

const NO_PROTOCOL: Case<'static> = Case {
    report: "records 1\nsent 0\nmarks 0\ndrop NoProtocol 1\n",
    drops: &[(DropCause::NoProtocol, 1)],
    ..RUN
};

// A name, the text of a layer or of a record, and how the run ends.
type Row = (&'static str, &'static str, Case<'static>);

static RECORDS: [Row; 3] = [
    ("no packet", "00000009 01 00000000000f4240", BAD_PACKET),
    (
        "an IPv4 packet from the public side that isn't to the pool",
        "00000029 02 00000000000f4240
        4500 0020 0001 0000 40 11 7ec4 c0000002 cb007105 1388 0035 000c 2b4a 61626364",
        NOT_US,
    ),
    (
        "options",
        "00000055 01 00000000000f4240
        60000000 0024 04 40 20010db8010000000000000000000002 20010db8000000000000000000000001
        4600 0024 0001 0000 40 11 7bbe c0000002 cb007105 01010101 1388 0035 000c 2b4a 61626364",
        OPTIONS,
    ),
];

// What stands in the place of one layer of the first packet. The IPv4 header's checksum is right but where it is what
// is wrong.

static TUNNELS: [Row; 7] = [
    (
        "version 5",
        "50000000 0020 04 40 20010db8010000000000000000000002 20010db8000000000000000000000001",
        BAD_PACKET,
    ),
    (
        "a payload past the record",
        "60000000 0021 04 40 20010db8010000000000000000000002 20010db8000000000000000000000001",
        BAD_PACKET,
    ),
    (
        "a payload without its last byte",
        "60000000 001f 04 40 20010db8010000000000000000000002 20010db8000000000000000000000001",
        BAD_PACKET,
    ),
    (
        "IPv6 inside",
        "60000000 0020 29 40 20010db8010000000000000000000002 20010db8000000000000000000000001",
        NOT_TUNNEL,
    ),
    (
        "no next header",
        "60000000 0020 3b 40 20010db8010000000000000000000002 20010db8000000000000000000000001",
        NOT_TUNNEL,
    ),
    (
        "to another host",
        "60000000 0020 04 40 20010db8010000000000000000000002 20010db8000000000000000000000002",
        NOT_US,
    ),
    (
        "from no subscriber",
        "60000000 0020 04 40 20010db8020000000000000000000002 20010db8000000000000000000000001",
        UNKNOWN_SUBSCRIBER,
    ),
];

static INNERS: [Row; 10] = [
    (
        "version 6",
        "6500 0020 0001 0000 40 11 5ec4 c0000002 cb007105",
        BAD_PACKET,
    ),
    (
        "a wrong checksum",
        "4500 0020 0001 0000 40 11 7ec5 c0000002 cb007105",
        BAD_PACKET,
    ),
    (
        "a total past the payload",
        "4500 0021 0001 0000 40 11 7ec3 c0000002 cb007105",
        BAD_PACKET,
    ),
    (
        "a first fragment of twelve bytes",
        "4500 0020 0001 2000 40 11 5ec4 c0000002 cb007105",
        BAD_PACKET,
    ),
    (
        "TCP without a whole header",
        "4500 0020 0001 0000 40 06 7ecf c0000002 cb007105",
        BAD_PACKET,
    ),
    (
        "GRE",
        "4500 0020 0001 0000 40 2f 7ea6 c0000002 cb007105",
        NO_PROTOCOL,
    ),
    (
        "to a softwire's end",
        "4500 0020 0001 0000 40 11 fac8 c0000002 c0000001",
        NO_ROUTE,
    ),
    (
        "to a loopback address",
        "4500 0020 0001 0000 40 11 3bc9 c0000002 7f000001",
        NO_ROUTE,
    ),
    (
        "to a group",
        "4500 0020 0001 0000 40 11 dac8 c0000002 e0000001",
        NO_ROUTE,
    ),
    (
        "from this network",
        "4500 0020 0001 0000 40 11 3ec5 00000002 cb007105",
        NO_ROUTE,
    ),
];

static DATAGRAMS: [Row; 2] = [
    ("a length of 7", "1388 0035 0007 2b4a 61626364", BAD_PACKET),
    (
        "a length past the packet",
        "1388 0035 000d 2b4a 61626364",
        BAD_PACKET,
    ),
];

static RUNS: [Case<'static>; 2] = [
    Case {
        name: "drops of four causes",
        input: &[
            // At moment 0 the clock is where it began, so both packets settle.
            "00000009 01 0000000000000000",
            "00000009 02 0000000000000000",
            "00000009 04 0000000000000000",
            "00000009 01 0000000000000001",
            HEAD,
            PACKET,
            // The clock doesn't go back, so this packet doesn't settle.
            "00000009 02 0000000000000000",
            "00000009 03 0000000000000000",
            "0000000a 04 00000000000f4241 20",
        ],
        report: "records 8\nsent 1\nmarks 0\ndrop Settling 2\ndrop BadPacket 2\ndrop BadChange 2\n",
        sent: &[FIRST_SENT],
        log_after: LogFile::Frames(&[FIRST_FRAME]),
        drops: &[
            (DropCause::Settling, 2),
            (DropCause::BadPacket, 2),
            (DropCause::BadChange, 2),
        ],
        ..RUN
    },
    Case {
        name: "seven packets in turn, each with another fault",
        input: &[
            HEAD,
            TUNNEL,
            "4500 0020 0001 0000 40 11 7ec5 c0000002 cb007105",
            DATAGRAM,
            HEAD,
            "60000000 0020 04 40 20010db8010000000000000000000002 20010db8000000000000000000000002",
            INNER,
            DATAGRAM,
            HEAD,
            "60000000 0020 04 40 20010db9000000000000000000000002 20010db8000000000000000000000001",
            INNER,
            DATAGRAM,
            HEAD,
            "60000000 0020 3b 40 20010db8010000000000000000000002 20010db8000000000000000000000001",
            INNER,
            DATAGRAM,
            HEAD,
            TUNNEL,
            "4500 0020 0001 0000 01 11 bdc4 c0000002 cb007105",
            DATAGRAM,
            HEAD,
            TUNNEL,
            "4500 0020 0001 0000 40 11 fac8 c0000002 c0000001",
            "1388 0035 000c a74e 61626364",
            HEAD,
            TUNNEL,
            "4500 0020 0001 0000 40 2f 7ea6 c0000002 cb007105",
            "0000 0000 0000 0000 00000000",
        ],
        report: "records 7\nsent 1\nmarks 0\ndrop BadPacket 1\ndrop NotUs 1\ndrop NotTunnel 1\ndrop UnknownSubscriber 1\ndrop NoRoute 1\ndrop NoProtocol 1\ndrop TtlSpent 1\n",
        sent: &[TIME_EXCEEDED],
        drops: &[
            (DropCause::BadPacket, 1),
            (DropCause::NotUs, 1),
            (DropCause::NotTunnel, 1),
            (DropCause::UnknownSubscriber, 1),
            (DropCause::NoRoute, 1),
            (DropCause::NoProtocol, 1),
            (DropCause::TtlSpent, 1),
        ],
        ..RUN
    },
];

// The first packet's layers, and where they stand.
const LAYERS: [&str; 4] = [HEAD, TUNNEL, INNER, DATAGRAM];

const TUNNEL_AT: usize = 1;

const INNER_AT: usize = 2;

const DATAGRAM_AT: usize = 3;

// Checks that the first packet is dropped with each of these in the place of a layer.
fn check_layer<R: Abort + AllocGlobal>(rt: &R, layer: usize, rows: &[Row]) {
    assert!(rt; layer < LAYERS.len());
    for (name, text, ending) in rows {
        let mut input = LAYERS;
        input[layer] = text;
        check_dropped(rt, name, &input, ending);
    }
}

fn check_dropped<'a, R: Abort + AllocGlobal>(
    rt: &R,
    name: &'a str,
    input: &'a [&'a str],
    ending: &Case<'a>,
) {
    check(
        rt,
        &Case {
            name,
            input,
            ..*ending
        },
    );
}

#[test]
fn records_that_hold_no_packet(rt: HostRuntime) {
    for (name, record, ending) in RECORDS {
        check_dropped(&rt, name, &[record], &ending);
    }
}

#[test]
fn softwire_headers_that_are_refused(rt: HostRuntime) {
    check_layer(&rt, TUNNEL_AT, &TUNNELS);
}

#[test]
fn inner_headers_that_are_refused(rt: HostRuntime) {
    check_layer(&rt, INNER_AT, &INNERS);
}

#[test]
fn datagrams_that_are_refused(rt: HostRuntime) {
    check_layer(&rt, DATAGRAM_AT, &DATAGRAMS);
}

#[test]
fn each_drop_is_counted_under_its_cause(rt: HostRuntime) {
    check_all(&rt, &RUNS);
}

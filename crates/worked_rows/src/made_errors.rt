//! ICMP errors that the program makes of what it drops, and of what it makes none (RFC 792, RFC 1122 section 3.2.2).

use crate::case::{Case, RUN};
use crate::configs::{Ending, check_run, defaults};
use crate::driver::check_all;
use crate::hairpins::ZEROS;
use crate::logs::LogFile;
use crate::packets::{FIRST_FRAME, FIRST_SENT, HEAD, PACKET};
use aftr_base::DropCause;

// The first packet with a TTL of 1, and below of 0, and what its sender is told.
const SPENT: &str = "00000051 01 00000000000f4240
    60000000 0020 04 40
    20010db8010000000000000000000002 20010db8000000000000000000000001
    4500 0020 0001 0000 01 11 bdc4 c0000002 cb007105
    1388 0035 000c 2b4a 61626364";

/// From 192.0.0.1: Time Exceeded about the first packet with a TTL of 1.
pub const TIME_EXCEEDED: &str = "00000069 01 00000000000f4240
    60000000 0038 04 40
    20010db8000000000000000000000001 20010db8010000000000000000000002
    4500 0038 0000 4000 40 01 bac1 c0000001 c0000002
    0b 00 b5ec 00000000
    4500 0020 0001 0000 01 11 bdc4 c0000002 cb007105
    1388 0035 000c 2b4a";

const OVERSPENT: &str = "00000051 01 00000000000f4240
    60000000 0020 04 40
    20010db8010000000000000000000002 20010db8000000000000000000000001
    4500 0020 0001 0000 00 11 bec4 c0000002 cb007105
    1388 0035 000c 2b4a 61626364";

const OVERSPENT_TOLD: &str = "00000069 01 00000000000f4240
    60000000 0038 04 40
    20010db8000000000000000000000001 20010db8010000000000000000000002
    4500 0038 0000 4000 40 01 bac1 c0000001 c0000002
    0b 00 b5ec 00000000
    4500 0020 0001 0000 00 11 bec4 c0000002 cb007105
    1388 0035 000c 2b4a";

/// The same 100 s behind the first packet.
pub const SPENT_LATER: &str = "00000051 01 000000000010c8e0
    60000000 0020 04 40
    20010db8010000000000000000000002 20010db8000000000000000000000001
    4500 0020 0001 0000 01 11 bdc4 c0000002 cb007105
    1388 0035 000c 2b4a 61626364";

const SPENT_LATER_TOLD: &str = "00000069 01 000000000010c8e0
    60000000 0038 04 40
    20010db8000000000000000000000001 20010db8010000000000000000000002
    4500 0038 0000 4000 40 01 bac1 c0000001 c0000002
    0b 00 b5ec 00000000
    4500 0020 0001 0000 01 11 bdc4 c0000002 cb007105
    1388 0035 000c 2b4a";

// To a port of the pool, an echo request, an ICMP packet of no bytes, and from 192.168.1.1 one of 3 bytes with all flags but that
// of more pieces.
const TO_POOL: &str = "00000051 01 00000000000f4240
    60000000 0020 04 40
    20010db8010000000000000000000002 20010db8000000000000000000000001
    4500 0020 0001 0000 01 11 37c2 c0000002 c0000208
    1388 0800 000c 9d7c 61626364";

const TO_POOL_TOLD: &str = "00000069 01 00000000000f4240
    60000000 0038 04 40
    20010db8000000000000000000000001 20010db8010000000000000000000002
    4500 0038 0000 4000 40 01 bac1 c0000001 c0000002
    0b 00 3bef 00000000
    4500 0020 0001 0000 01 11 37c2 c0000002 c0000208
    1388 0800 000c 9d7c";

const REQUEST: &str = "00000051 01 00000000000f4240
    60000000 0020 04 40
    20010db8010000000000000000000002 20010db8000000000000000000000001
    4500 0020 0001 0000 01 01 bdd4 c0000002 cb007105
    08 00 1927 0007 0001 70696e67";

const REQUEST_TOLD: &str = "00000069 01 00000000000f4240
    60000000 0038 04 40
    20010db8000000000000000000000001 20010db8010000000000000000000002
    4500 0038 0000 4000 40 01 bac1 c0000001 c0000002
    0b 00 d3d0 00000000
    4500 0020 0001 0000 01 01 bdd4 c0000002 cb007105
    08 00 1927 0007 0001 ";

const EMPTY: &str = "00000045 01 00000000000f4240
    60000000 0014 04 40
    20010db8010000000000000000000002 20010db8000000000000000000000001
    4500 0014 0001 0000 01 01 bde0 c0000002 cb007105";

const EMPTY_TOLD: &str = "00000061 01 00000000000f4240
    60000000 0030 04 40
    20010db8000000000000000000000001 20010db8010000000000000000000002
    4500 0030 0000 4000 40 01 bac9 c0000001 c0000002
    0b 00 f4ff 00000000
    4500 0014 0001 0000 01 01 bde0 c0000002 cb007105";

const SHORT: &str = "00000048 01 00000000000f4240
    60000000 0017 04 40
    20010db8010001000000000000000002 20010db8000000000000000000000001
    4528 0017 0001 c000 01 06 fc08 c0a80101 cb007105
    138800";

const SHORT_TOLD: &str = "00000064 01 00000000000f4240
    60000000 0033 04 40
    20010db8000000000000000000000001 20010db8010001000000000000000002
    4500 0033 0000 4000 40 01 b91f c0000001 c0a80101
    0b 00 e177 00000000
    4528 0017 0001 c000 01 06 fc08 c0a80101 cb007105
    138800";

// One record, whose packet's TTL is spent.
const ONE_SPENT: Case<'static> = Case {
    name: "a spent TTL",
    report: "records 1\nsent 1\nmarks 0\ndrop TtlSpent 1\n",
    drops: &[(DropCause::TtlSpent, 1)],
    ..RUN
};

static TIMES: [Case<'static>; 7] = [
    Case {
        input: &[SPENT],
        sent: &[TIME_EXCEEDED],
        ..ONE_SPENT
    },
    Case {
        input: &[OVERSPENT],
        sent: &[OVERSPENT_TOLD],
        ..ONE_SPENT
    },
    Case {
        input: &[TO_POOL],
        sent: &[TO_POOL_TOLD],
        ..ONE_SPENT
    },
    Case {
        input: &[REQUEST],
        sent: &[REQUEST_TOLD],
        ..ONE_SPENT
    },
    Case {
        input: &[EMPTY],
        sent: &[EMPTY_TOLD],
        ..ONE_SPENT
    },
    Case {
        input: &[SHORT],
        sent: &[SHORT_TOLD],
        ..ONE_SPENT
    },
    Case {
        name: "nothing is logged for it, the horizon neither",
        input: &[HEAD, PACKET, SPENT_LATER],
        report: "records 2\nsent 2\nmarks 0\ndrop TtlSpent 1\n",
        sent: &[FIRST_SENT, SPENT_LATER_TOLD],
        log_after: LogFile::Frames(&[FIRST_FRAME]),
        ..ONE_SPENT
    },
];

const UNTOLD: Case<'static> = Case {
    report: "records 1\nsent 0\nmarks 0\ndrop TtlSpent 1\n",
    ..ONE_SPENT
};

// ICMP errors and redirects with a TTL of 1, the last one of a single byte. And nobody outside is told of anything.
static NONE: [Case<'static>; 7] = [
    Case {
        input: &[
            "00000069 01 00000000000f4240
            60000000 0038 04 40
            20010db8010000000000000000000002 20010db8000000000000000000000001
            4500 0038 0001 0000 01 01 bdbc c0000002 cb007105
            03 00 bdec 00000000
            4500 0020 0007 0000 3f 11 7fbe cb007105 c0000002
            0035 1388 000c 2b4a",
        ],
        ..UNTOLD
    },
    Case {
        input: &[
            "00000069 01 00000000000f4240
            60000000 0038 04 40
            20010db8010000000000000000000002 20010db8000000000000000000000001
            4500 0038 0001 0000 01 01 bdbc c0000002 cb007105
            04 00 bcec 00000000
            4500 0020 0007 0000 3f 11 7fbe cb007105 c0000002
            0035 1388 000c 2b4a",
        ],
        ..UNTOLD
    },
    Case {
        input: &[
            "00000069 01 00000000000f4240
            60000000 0038 04 40
            20010db8010000000000000000000002 20010db8000000000000000000000001
            4500 0038 0001 0000 01 01 bdbc c0000002 cb007105
            05 01 bbeb 00000000
            4500 0020 0007 0000 3f 11 7fbe cb007105 c0000002
            0035 1388 000c 2b4a",
        ],
        ..UNTOLD
    },
    Case {
        input: &[
            "00000069 01 00000000000f4240
            60000000 0038 04 40
            20010db8010000000000000000000002 20010db8000000000000000000000001
            4500 0038 0001 0000 01 01 bdbc c0000002 cb007105
            0b 00 b5ec 00000000
            4500 0020 0007 0000 3f 11 7fbe cb007105 c0000002
            0035 1388 000c 2b4a",
        ],
        ..UNTOLD
    },
    Case {
        input: &[
            "00000069 01 00000000000f4240
            60000000 0038 04 40
            20010db8010000000000000000000002 20010db8000000000000000000000001
            4500 0038 0001 0000 01 01 bdbc c0000002 cb007105
            0c 00 b4ec 00000000
            4500 0020 0007 0000 3f 11 7fbe cb007105 c0000002
            0035 1388 000c 2b4a",
        ],
        ..UNTOLD
    },
    Case {
        input: &[
            "00000046 01 00000000000f4240
            60000000 0015 04 40
            20010db8010000000000000000000002 20010db8000000000000000000000001
            4500 0015 0001 0000 01 01 bddf c0000002 cb007105
            03",
        ],
        ..UNTOLD
    },
    Case {
        name: "a spent TTL from the public side",
        input: &[
            "00000029 02 00000000000f4240
            4500 0020 0007 0000 01 11 bbb8 cb007105 c0000208
            0035 0400 000c 38cc 61626364",
        ],
        ..UNTOLD
    },
];

// Host Unreachable about the first packet from port 5002, and about the one to 203.0.113.7.
const PORT_TOLD: &str = "00000069 01 00000000000f4240
    60000000 0038 04 40
    20010db8000000000000000000000001 20010db8010000000000000000000002
    4500 0038 0000 4000 40 01 bac1 c0000001 c0000002
    03 01 bdeb 00000000
    4500 0020 0001 0000 40 11 7ec4 c0000002 cb007105
    138a 0035 000c 2b48";

const REMOTE_TOLD: &str = "00000069 01 00000000000f4240
    60000000 0038 04 40
    20010db8000000000000000000000001 20010db8010000000000000000000002
    4500 0038 0000 4000 40 01 bac1 c0000001 c0000002
    03 01 bded 00000000
    4500 0020 0001 0000 40 11 7ec2 c0000002 cb007107
    1388 0035 000c 2b48";

// A packet of 577 bytes that may not be cut, and what its sender is told where the MTU is 576.
const LONG: &str = "00000272 01 00000000000f4240
    60000000 0241 04 40
    20010db8010000000000000000000002 20010db8000000000000000000000001
    4500 0241 0001 4000 40 11 3ca3 c0000002 cb007105
    1388 0035 022d 0000";

const LONG_TOLD: &str = "00000069 01 00000000000f4240
    60000000 0038 04 40
    20010db8000000000000000000000001 20010db8010000000000000000000002
    4500 0038 0000 4000 40 01 bac1 c0000001 c0000002
    03 04 e4d1 00000240
    4500 0241 0001 4000 40 11 3ca3 c0000002 cb007105
    1388 0035 022d 0000";

// Such an error, about which nothing is told.
const LONG_ERROR: &str = "00000272 01 00000000000f4240
    60000000 0241 04 40
    20010db8010000000000000000000002 20010db8000000000000000000000001
    4500 0241 0001 4000 40 01 3cb3 c0000002 cb007105
    03 03 e72e 00000000
    4500 0225 0007 0000 3f 11 7db9 cb007105 c0000002
    0035 1388 0211 0000";

#[test]
fn spent_times_are_told(rt: HostRuntime) {
    check_all(&rt, &TIMES);
}

#[test]
fn no_error_is_made_about_an_error(rt: HostRuntime) {
    check_all(&rt, &NONE);
}

#[test]
fn a_third_mapping_of_two(rt: HostRuntime) {
    let mut config = defaults(&rt);
    config.max_mappings = 2;
    let input = [
        HEAD,
        PACKET,
        "00000051 01 00000000000f4240
            60000000 0020 04 40
            20010db8010000000000000000000002 20010db8000000000000000000000001
            4500 0020 0001 0000 40 11 7ec4 c0000002 cb007105
            1389 0035 000c 2b49 61626364",
        "00000051 01 00000000000f4240
            60000000 0020 04 40
            20010db8010000000000000000000002 20010db8000000000000000000000001
            4500 0020 0001 0000 40 11 7ec4 c0000002 cb007105
            138a 0035 000c 2b48 61626364",
    ];
    let ending = Ending {
        report: "records 3\nsent 3\nmarks 0\ndrop QuotaMappings 1\n",
        sent: &[
            FIRST_SENT,
            "00000029 02 00000000000f4240
            4500 0020 0001 0000 3f 11 7dbe c0000208 cb007105
            0401 0035 000c 38cb 61626364",
            PORT_TOLD,
        ],
        log: LogFile::Frames(&[FIRST_FRAME]),
    };
    check_run(&rt, config, &input, &ending);
}

#[test]
fn a_third_peer_of_two(rt: HostRuntime) {
    let mut config = defaults(&rt);
    config.max_peers = 2;
    let input = [
        HEAD,
        PACKET,
        "00000051 01 00000000000f4240
            60000000 0020 04 40
            20010db8010000000000000000000002 20010db8000000000000000000000001
            4500 0020 0001 0000 40 11 7ec3 c0000002 cb007106
            1388 0035 000c 2b49 61626364",
        "00000051 01 00000000000f4240
            60000000 0020 04 40
            20010db8010000000000000000000002 20010db8000000000000000000000001
            4500 0020 0001 0000 40 11 7ec2 c0000002 cb007107
            1388 0035 000c 2b48 61626364",
    ];
    let ending = Ending {
        report: "records 3\nsent 3\nmarks 0\ndrop QuotaPeers 1\n",
        sent: &[
            FIRST_SENT,
            "00000029 02 00000000000f4240
            4500 0020 0001 0000 3f 11 7dbd c0000208 cb007106
            0400 0035 000c 38cb 61626364",
            REMOTE_TOLD,
        ],
        log: LogFile::Frames(&[FIRST_FRAME]),
    };
    check_run(&rt, config, &input, &ending);
}

#[test]
fn the_mtu_is_told(rt: HostRuntime) {
    let mut config = defaults(&rt);
    config.public_mtu = 576;
    let input = [
        LONG,
        ZEROS,
        ZEROS,
        ZEROS,
        ZEROS,
        ZEROS,
        "00000000000000000000000000000000000000000000000000",
        "000000000000000000000000000000000000000000000000",
        LONG_ERROR,
        ZEROS,
        ZEROS,
        ZEROS,
        ZEROS,
        ZEROS,
        "000000000000000000000000000000000000000000",
    ];
    let ending = Ending {
        report: "records 2\nsent 1\nmarks 0\ndrop TooBig 2\n",
        sent: &[LONG_TOLD],
        log: LogFile::Frames(&[]),
    };
    check_run(&rt, config, &input, &ending);
}

//! TCP connections, whose mappings last by their states.

use crate::case::{Case, RUN};
use crate::driver::check_all;
use crate::logs::{Frame, LogFile};
use crate::packets::FIRST_FRAME;
use aftr_base::DropCause;

// A SYN from port 5000 of 192.0.0.2 in a softwire to port 80 of 203.0.113.5, and as it goes out.
const SYN: &str = "00000059 01 00000000000f4240
    60000000 0028 04 40 20010db8010000000000000000000002 20010db8000000000000000000000001
    4500 0028 0001 0000 40 06 7ec7 c0000002 cb007105
    1388 0050 00000001 00000000 5002 ffff a001 0000";

const SYN_SENT: &str = "00000031 02 00000000000f4240
    4500 0028 0001 0000 3f 06 7dc1 c0000208 cb007105
    0400 0050 00000001 00000000 5002 ffff ad83 0000";

// Its answer 100 ms behind it, and as that goes in.
const SYN_ACK: &str = "00000031 02 00000000000f42a4
    4500 0028 0007 0000 40 06 7cbb cb007105 c0000208
    0050 0400 00000009 00000002 5012 ffff ad69 0000";

const SYN_ACK_SENT: &str = "00000059 01 00000000000f42a4
    60000000 0028 04 40 20010db8000000000000000000000001 20010db8010000000000000000000002
    4500 0028 0007 0000 3f 06 7fc1 cb007105 c0000002
    0050 1388 00000009 00000002 5012 ffff 9fe7 0000";

// A reset at the same moment, and as that goes in.
const RST: &str = "00000031 02 00000000000f42a4
    4500 0028 0008 0000 40 06 7cba cb007105 c0000208
    0050 0400 0000000a 00000002 5014 ffff ad66 0000";

const RST_SENT: &str = "00000059 01 00000000000f42a4
    60000000 0028 04 40 20010db8000000000000000000000001 20010db8010000000000000000000002
    4500 0028 0008 0000 3f 06 7fc0 cb007105 c0000002
    0050 1388 0000000a 00000002 5014 ffff 9fe4 0000";

// A later segment from outside, and as it goes in.
const ACK: &str = "4500 0028 0009 0000 40 06 7cb9 cb007105 c0000208
    0050 0400 0000000a 00000002 5010 ffff ad6a 0000";

const ACK_SENT: &str = "60000000 0028 04 40
    20010db8000000000000000000000001 20010db8010000000000000000000002
    4500 0028 0009 0000 3f 06 7fbf cb007105 c0000002
    0050 1388 0000000a 00000002 5010 ffff 9fe8 0000";

static CONNECTIONS: [Case<'static>; 3] = [
    // At 1,240,000 the first 240 s are over.
    Case {
        name: "an answered connection lasts",
        input: &[SYN, SYN_ACK, "00000031 02 000000000012ebc0", ACK],
        report: "records 3\nsent 3\nmarks 0\n",
        sent: &[
            SYN_SENT,
            SYN_ACK_SENT,
            "00000059 01 000000000012ebc0",
            ACK_SENT,
        ],
        log_after: LogFile::Frames(&[FIRST_FRAME]),
        ..RUN
    },
    Case {
        name: "an unanswered one is forgotten after 240 s",
        input: &[SYN, "00000031 02 000000000012ebc0", ACK],
        report: "records 2\nsent 1\nmarks 0\ndrop NoMapping 1\n",
        sent: &[SYN_SENT],
        log_after: LogFile::Frames(&[
            FIRST_FRAME,
            Frame {
                horizon: None,
                blocks: &[
                    "000000000012ebc0 11 20010db8010000000000000000000000 38 c0000208 0400 05ff",
                ],
            },
        ]),
        drops: &[(DropCause::NoMapping, 1)],
        ..RUN
    },
    // The reset came 100 ms behind the first segment, and no later one moves its deadline.
    Case {
        name: "a reset one is forgotten 240 s behind the reset",
        input: &[
            SYN,
            SYN_ACK,
            RST,
            "00000031 02 000000000012ec23",
            ACK,
            "00000031 02 000000000012ec24",
            ACK,
        ],
        report: "records 5\nsent 4\nmarks 0\ndrop NoMapping 1\n",
        sent: &[
            SYN_SENT,
            SYN_ACK_SENT,
            RST_SENT,
            "00000059 01 000000000012ec23",
            ACK_SENT,
        ],
        log_after: LogFile::Frames(&[
            FIRST_FRAME,
            Frame {
                horizon: None,
                blocks: &[
                    "000000000012ec24 11 20010db8010000000000000000000000 38 c0000208 0400 05ff",
                ],
            },
        ]),
        drops: &[(DropCause::NoMapping, 1)],
        ..RUN
    },
];

#[test]
fn connections_last_by_their_states(rt: HostRuntime) {
    check_all(&rt, &CONNECTIONS);
}

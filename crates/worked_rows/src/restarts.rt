//! Runs onto a log that tells something: what is open there is closed at its horizon, up to which packets settle.

use crate::case::{Case, QUERY, RUN};
use crate::driver::{check_all, check_behind};
use crate::logs::{Frame, LogFile};
use crate::packets::{FIRST_FRAME, OTHER, PACKET};
use aftr_base::DropCause;

/// The closing of the first packet's lease at the log's horizon, 1,002,000.
pub const RECOVERED: Frame<'static> = Frame {
    horizon: None,
    blocks: &["00000000000f4a10 11 20010db8010000000000000000000000 38 c0000208 0400 05ff"],
};

/// Records of 81 bytes at 1,001,000, at the horizon and a millisecond behind it.
const SETTLING: &str = "00000051 01 00000000000f4628";

const AT_HORIZON: &str = "00000051 01 00000000000f4a10";

const BEHIND_HORIZON: &str = "00000051 01 00000000000f4a11";

const RESTART: Case<'static> = Case {
    name: "a run of no records closes what the log left open",
    log: LogFile::Frames(&[FIRST_FRAME]),
    log_after: LogFile::Frames(&[FIRST_FRAME, RECOVERED]),
    ..RUN
};

static RESTARTS: [Case<'static>; 5] = [
    RESTART,
    Case {
        name: "what was closed already is left",
        log: LogFile::Frames(&[FIRST_FRAME, RECOVERED]),
        ..RESTART
    },
    Case {
        name: "packets up to the horizon settle, and the first one behind it leaves by the same block",
        input: &[SETTLING, PACKET, AT_HORIZON, PACKET, BEHIND_HORIZON, PACKET],
        report: "records 3\nsent 1\nmarks 0\ndrop Settling 2\n",
        sent: &[
            "00000029 02 00000000000f4a11
            4500 0020 0001 0000 3f 11 7dbe c0000208 cb007105 0400 0035 000c 38cc 61626364",
        ],
        log_after: LogFile::Frames(&[
            FIRST_FRAME,
            RECOVERED,
            Frame {
                horizon: Some("00000000000f4a11 00000000000f51e1"),
                blocks: &[
                    "00000000000f4a11 10 20010db8010000000000000000000000 38 c0000208 0400 05ff",
                ],
            },
        ]),
        drops: &[(DropCause::Settling, 2)],
        ..RESTART
    },
    Case {
        name: "another subscriber behind it gets the next block, as the first one's is held",
        input: &[BEHIND_HORIZON, OTHER],
        report: "records 1\nsent 1\nmarks 0\n",
        sent: &[
            "00000029 02 00000000000f4a11
            4500 0020 0001 0000 3f 11 7dbe c0000208 cb007105 0600 0035 000c 36cc 61626364",
        ],
        log_after: LogFile::Frames(&[
            FIRST_FRAME,
            RECOVERED,
            Frame {
                horizon: Some("00000000000f4a11 00000000000f51e1"),
                blocks: &[
                    "00000000000f4a11 10 20010db8010001000000000000000000 38 c0000208 0600 07ff",
                ],
            },
        ]),
        ..RESTART
    },
    Case {
        name: "a frame whose gate is closed tells nothing, and is written over",
        log: LogFile::Unopened(FIRST_FRAME, 164),
        log_after: LogFile::Unopened(FIRST_FRAME, 164),
        ..RESTART
    },
];

#[test]
fn a_run_closes_what_the_log_left_open(rt: HostRuntime) {
    check_all(&rt, &RESTARTS);
}

static ANSWERS: [Case<'static>; 3] = [
    Case {
        name: "the lease's port before the stop",
        words: &["trace", "log", "192.0.2.8", "1024", "1000000"],
        report: "named 2001:0db8:0100:0000:0000:0000:0000:0000/56\n",
        ..ANSWER
    },
    Case {
        name: "a port beside it",
        words: &["trace", "log", "192.0.2.8", "1536", "1000000"],
        report: "unheld\n",
        ..ANSWER
    },
    Case {
        name: "past the horizon",
        words: &["trace", "log", "192.0.2.8", "1024", "1002001"],
        report: "beyond 1002000\n",
        ..ANSWER
    },
];

const ANSWER: Case<'static> = Case {
    log_after: LogFile::Frames(&[FIRST_FRAME, RECOVERED]),
    ..QUERY
};

#[test]
fn what_a_restart_leaves_is_named_as_before(rt: HostRuntime) {
    check_behind(&rt, &RESTART, &ANSWERS);
}

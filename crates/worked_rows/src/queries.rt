//! What a log tells of the runs behind it.

use crate::case::{Case, ONE_PACKET, QUERY};
use crate::driver::{check_all, check_behind};
use crate::logs::LogFile;
use crate::packets::{CLOSED_FRAME, FIRST_FRAME, OTHER_FRAME};
use crate::replies::REPLY_AT_DEADLINE;

// A trace that names the subscriber of the first packet, one that names nobody, and one past what the log promises to name: its
// horizon stands two seconds behind the last packet that needed one.
const NAMED: Case<'static> = Case {
    name: "a trace in a lease",
    report: "named 2001:0db8:0100:0000:0000:0000:0000:0000/56\n",
    log_after: LogFile::Frames(&[FIRST_FRAME, CLOSED_FRAME]),
    ..QUERY
};

const UNHELD: Case<'static> = Case {
    name: "a trace beside a lease",
    report: "unheld\n",
    ..NAMED
};

const BEYOND: Case<'static> = Case {
    name: "a trace past the horizon",
    report: "beyond 1002000\n",
    ..NAMED
};

static OPEN: Case<'static> = ONE_PACKET;

static OF_AN_OPEN_LEASE: [Case<'static>; 5] = [
    Case {
        words: &["trace", "log", "192.0.2.8", "1024", "1000000"],
        log_after: LogFile::Frames(&[FIRST_FRAME]),
        ..NAMED
    },
    Case {
        words: &["trace", "log", "192.0.2.8", "1024", "1002000"],
        log_after: LogFile::Frames(&[FIRST_FRAME]),
        ..NAMED
    },
    Case {
        words: &["trace", "log", "192.0.2.8", "1024", "1002001"],
        log_after: LogFile::Frames(&[FIRST_FRAME]),
        ..BEYOND
    },
    Case {
        words: &["trace", "log", "192.0.2.8", "1024", "4294967295999"],
        log_after: LogFile::Frames(&[FIRST_FRAME]),
        ..BEYOND
    },
    Case {
        name: "the leases of one packet",
        report: "lease 192.0.2.8 1024 1535 1000000 open 2001:0db8:0100:0000:0000:0000:0000:0000/56
horizon 1002000\n",
        log_after: LogFile::Frames(&[FIRST_FRAME]),
        ..QUERY
    },
];

static CLOSED: Case<'static> = REPLY_AT_DEADLINE;

static OF_A_CLOSED_LEASE: [Case<'static>; 8] = [
    Case {
        words: &["trace", "log", "192.0.2.8", "1024", "1000000"],
        ..NAMED
    },
    Case {
        words: &["trace", "log", "192.0.2.8", "1535", "1002000"],
        ..NAMED
    },
    Case {
        words: &["trace", "log", "192.0.2.8", "1535", "1100000"],
        ..BEYOND
    },
    Case {
        words: &["trace", "log", "192.0.2.8", "1024", "1300000"],
        ..BEYOND
    },
    Case {
        words: &["trace", "log", "192.0.2.8", "1024", "999999"],
        ..UNHELD
    },
    Case {
        words: &["trace", "log", "192.0.2.8", "1023", "1000000"],
        ..UNHELD
    },
    Case {
        words: &["trace", "log", "192.0.2.8", "1536", "1000000"],
        ..UNHELD
    },
    Case {
        words: &["trace", "log", "192.0.2.9", "1024", "1000000"],
        ..UNHELD
    },
];

// A log whose second gate is open, with no whole frame behind it.
const CUT: [&str; 4] = [
    "41465452 4c4f4701 00000000 00000000",
    "01 00000054 000a 0054 000003e8 00000000 00000001
    0002 0044
    0100 0007 0143 0008 00e6 0001 001b 0010 001d 0001 00e1 0004 0169 0002 016a 0002
    0101 0002 0143 0008 8001 0008 00007ed9
    0102 0002 0143 0008 8002 ffff 00007ed9",
    "01 00000054 000a 0054",
    "000003e8 00",
];

const DAMAGED: Case<'static> = Case {
    name: "a log with a cut frame",
    log: LogFile::Digits(&CUT),
    status: "LogDamaged(105)",
    report: "fault LogDamaged 105\n",
    log_after: LogFile::Digits(&CUT),
    ..QUERY
};

static OF_A_GIVEN_LOG: [Case<'static>; 4] = [
    Case {
        name: "the leases of a closed and an open block",
        log: LogFile::Frames(&[FIRST_FRAME, OTHER_FRAME, CLOSED_FRAME]),
        report: "lease 192.0.2.8 1024 1535 1000000 1300000 2001:0db8:0100:0000:0000:0000:0000:0000/56
lease 192.0.2.8 1536 2047 1000001 open 2001:0db8:0100:0100:0000:0000:0000:0000/56
horizon 1002000\n",
        log_after: LogFile::Frames(&[FIRST_FRAME, OTHER_FRAME, CLOSED_FRAME]),
        ..QUERY
    },
    DAMAGED,
    Case {
        words: &["trace", "log", "192.0.2.8", "1024", "1000000"],
        ..DAMAGED
    },
    Case {
        name: "a log of 16 bytes",
        log: LogFile::Digits(&["41465452 4c4f4701 00000000 00000000"]),
        status: "LogDamaged(0)",
        report: "fault LogDamaged 0\n",
        log_after: LogFile::Digits(&["41465452 4c4f4701 00000000 00000000"]),
        ..QUERY
    },
];

#[test]
fn behind_a_lease_that_is_open(rt: HostRuntime) {
    check_behind(&rt, &OPEN, &OF_AN_OPEN_LEASE);
}

#[test]
fn behind_a_lease_that_closed(rt: HostRuntime) {
    check_behind(&rt, &CLOSED, &OF_A_CLOSED_LEASE);
}

#[test]
fn over_a_given_log(rt: HostRuntime) {
    check_all(&rt, &OF_A_GIVEN_LOG);
}

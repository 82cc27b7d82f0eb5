//! Words that are no command.

use crate::case::{Case, QUERY};
use crate::driver::check_all;
use crate::logs::LogFile;

// They leave all as it is, and make no call on the log and the outlet.
const REFUSED: Case<'static> = Case {
    name: "no command",
    log: LogFile::Digits(&["08"]),
    status: "BadWords",
    report: "fault BadWords\n",
    log_after: LogFile::Digits(&["08"]),
    calls: Some(&[]),
    ..QUERY
};

static RUNS: [Case<'static>; 8] = [
    Case {
        words: &[],
        ..REFUSED
    },
    Case {
        words: &["--help"],
        ..REFUSED
    },
    Case {
        words: &["run", "a", "b", "c"],
        ..REFUSED
    },
    Case {
        words: &["run", "a", "b", "c", "d", "e"],
        ..REFUSED
    },
    Case {
        words: &["run", "a", "b", "c", ""],
        ..REFUSED
    },
    Case {
        words: &["run", "-a", "b", "c", "d"],
        ..REFUSED
    },
    Case {
        words: &["Run", "a", "b", "c", "d"],
        ..REFUSED
    },
    Case {
        words: &["", "a", "b", "c", "d"],
        ..REFUSED
    },
];

static QUERIES: [Case<'static>; 8] = [
    Case {
        words: &["trace", "log", "192.0.2.8", "65536", "0"],
        ..REFUSED
    },
    Case {
        words: &["trace", "log", "192.0.2.8", "1024"],
        ..REFUSED
    },
    Case {
        words: &["trace", "log", "192.0.2", "1024", "0"],
        ..REFUSED
    },
    Case {
        words: &["trace", "log", "192.0.2.08", "1024", "0"],
        ..REFUSED
    },
    Case {
        words: &["trace", "log", "192.0.2.8", "1024", "4294967296000"],
        ..REFUSED
    },
    Case {
        words: &["leases"],
        ..REFUSED
    },
    Case {
        words: &["leases", "log", "log"],
        ..REFUSED
    },
    Case {
        words: &["leases", "-log"],
        ..REFUSED
    },
];

#[test]
fn words_that_are_no_run(rt: HostRuntime) {
    check_all(&rt, &RUNS);
}

#[test]
fn words_that_are_no_query(rt: HostRuntime) {
    check_all(&rt, &QUERIES);
}

//! Making a log.

use crate::case::{Case, QUERY};
use crate::driver::check_all;
use crate::logs::LogFile;
use crate::packets::FIRST_FRAME;
use plant_mem::PlantCall;

const INIT: Case<'static> = Case {
    name: "a log is made",
    words: &["init", "log"],
    log: LogFile::Digits(&[]),
    report: "",
    log_after: LogFile::Digits(&["41465452 4c4f4701 00000000 00000000 00"]),
    ..QUERY
};

const FAILS: Case<'static> = Case {
    status: "LogFault",
    report: "fault LogFault\n",
    ..INIT
};

static MADE: [Case<'static>; 6] = [
    Case {
        calls: Some(&[PlantCall::Size, PlantCall::WriteAt, PlantCall::Sync]),
        ..INIT
    },
    Case {
        name: "a log is there already",
        log: LogFile::Frames(&[]),
        status: "AlreadyThere(17)",
        report: "fault AlreadyThere 17\n",
        calls: Some(&[PlantCall::Size]),
        ..INIT
    },
    Case {
        name: "another file is there already",
        log: LogFile::Digits(&["08"]),
        status: "AlreadyThere(1)",
        report: "fault AlreadyThere 1\n",
        log_after: LogFile::Digits(&["08"]),
        ..INIT
    },
    Case {
        name: "the size fails",
        plant_fails_at: &[0],
        log_after: LogFile::Digits(&[]),
        ..FAILS
    },
    Case {
        name: "the write fails, and leaves the first half",
        plant_fails_at: &[1],
        log_after: LogFile::Digits(&["41465452 4c4f4701"]),
        ..FAILS
    },
    Case {
        name: "the sync fails",
        plant_fails_at: &[2],
        ..FAILS
    },
];

// The first packet's log byte for byte.
const FIRST_LOG: [&str; 5] = [
    "41465452 4c4f4701 00000000 00000000",
    "01 0000008e 000a 008e 000003e8 00000000 00000001",
    "0002 0044 0100 0007 0143 0008 00e6 0001 001b 0010 001d 0001 00e1 0004 0169 0002 016a 0002
    0101 0002 0143 0008 8001 0008 00007ed9 0102 0002 0143 0008 8002 ffff 00007ed9",
    "0101 0014 00000000000f4240 00000000000f4a10",
    "0100 0026 00000000000f4240 10 20010db8010000000000000000000000 38 c0000208 0400 05ff 00",
];

static FIRST_LEASES: [Case<'static>; 1] = [Case {
    name: "the first packet's log, as bytes and as frames",
    log: LogFile::Digits(&FIRST_LOG),
    report: "lease 192.0.2.8 1024 1535 1000000 open 2001:0db8:0100:0000:0000:0000:0000:0000/56
horizon 1002000\n",
    log_after: LogFile::Frames(&[FIRST_FRAME]),
    ..QUERY
}];

#[test]
fn a_log_is_made_where_no_byte_is(rt: HostRuntime) {
    check_all(&rt, &MADE);
}

#[test]
fn the_first_log_byte_for_byte(rt: HostRuntime) {
    check_all(&rt, &FIRST_LEASES);
}

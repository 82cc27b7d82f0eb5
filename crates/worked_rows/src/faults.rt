//! Objects that fail, and objects that are refused.

use crate::case::{Case, ONE_PACKET, QUERY, RUN};
use crate::driver::check_all;
use crate::logs::LogFile;
use crate::packets::{FIRST, FIRST_FRAME, FIRST_SENT, HEAD, OTHER_FRAME, PACKET};
use aftr_base::DropCause;
use plant_mem::PlantCall;

// The bytes of the log of the first packet, and of one in which the first half of the frame's body stands.
const WHOLE: usize = 164;

const HALF: usize = 17 + (WHOLE - 17) / 2;

// A run whose log fails, over the first packet.
const LOG_FAILS: Case<'static> = Case {
    input: &FIRST,
    status: "LogFault",
    report: "fault LogFault\n",
    ..RUN
};

// The calls of a run that reads its log: the sync, the header, and the closed gate behind it; then those of a record: the frame's
// body, its sync, the gate, its sync, and the packet.
const CALLS: [PlantCall; 8] = [
    PlantCall::Sync,
    PlantCall::ReadAt,
    PlantCall::ReadAt,
    PlantCall::WriteAt,
    PlantCall::Sync,
    PlantCall::WriteAt,
    PlantCall::Sync,
    PlantCall::Emit,
];

// The call that fails is the last.
static PLANT: [Case<'static>; 9] = [
    Case {
        name: "no call fails",
        calls: Some(&CALLS),
        ..ONE_PACKET
    },
    Case {
        name: "the sync of the log that was there fails",
        plant_fails_at: &[0],
        calls: Some(&[PlantCall::Sync]),
        ..LOG_FAILS
    },
    Case {
        name: "the read of the header fails",
        plant_fails_at: &[1],
        calls: Some(&[PlantCall::Sync, PlantCall::ReadAt]),
        ..LOG_FAILS
    },
    Case {
        name: "the read of a frame fails",
        plant_fails_at: &[2],
        calls: Some(&[PlantCall::Sync, PlantCall::ReadAt, PlantCall::ReadAt]),
        ..LOG_FAILS
    },
    Case {
        name: "the write of the body fails, and leaves its first half behind the closed gate",
        plant_fails_at: &[3],
        log_after: LogFile::Unopened(FIRST_FRAME, HALF),
        calls: Some(&[
            PlantCall::Sync,
            PlantCall::ReadAt,
            PlantCall::ReadAt,
            PlantCall::WriteAt,
        ]),
        ..LOG_FAILS
    },
    Case {
        name: "the sync of the body fails",
        plant_fails_at: &[4],
        log_after: LogFile::Unopened(FIRST_FRAME, WHOLE),
        calls: Some(&[
            PlantCall::Sync,
            PlantCall::ReadAt,
            PlantCall::ReadAt,
            PlantCall::WriteAt,
            PlantCall::Sync,
        ]),
        ..LOG_FAILS
    },
    Case {
        name: "the write of the gate fails",
        plant_fails_at: &[5],
        log_after: LogFile::Unopened(FIRST_FRAME, WHOLE),
        calls: Some(&[
            PlantCall::Sync,
            PlantCall::ReadAt,
            PlantCall::ReadAt,
            PlantCall::WriteAt,
            PlantCall::Sync,
            PlantCall::WriteAt,
        ]),
        ..LOG_FAILS
    },
    Case {
        name: "the sync of the gate fails",
        plant_fails_at: &[6],
        log_after: LogFile::Frames(&[FIRST_FRAME]),
        calls: Some(&[
            PlantCall::Sync,
            PlantCall::ReadAt,
            PlantCall::ReadAt,
            PlantCall::WriteAt,
            PlantCall::Sync,
            PlantCall::WriteAt,
            PlantCall::Sync,
        ]),
        ..LOG_FAILS
    },
    Case {
        name: "the outlet fails",
        input: &FIRST,
        plant_fails_at: &[7],
        status: "OutFault",
        report: "",
        log_after: LogFile::Frames(&[FIRST_FRAME]),
        calls: Some(&CALLS),
        ..RUN
    },
];

// A run of which a read fails, over the first packet.
const READ_FAILS: Case<'static> = Case {
    input: &FIRST,
    status: "ReadFault",
    report: "fault ReadFault\n",
    ..RUN
};

static READS: [Case<'static>; 3] = [
    Case {
        name: "the configuration's read fails",
        config_fails_at: &[0],
        ..READ_FAILS
    },
    Case {
        name: "the input's first read fails",
        input_fails_at: &[0],
        ..READ_FAILS
    },
    // The record is at hand, and its packet leaves before the input is read for more.
    Case {
        name: "the input's second read fails",
        input_fails_at: &[1],
        sent: &[FIRST_SENT],
        log_after: LogFile::Frames(&[FIRST_FRAME]),
        ..READ_FAILS
    },
];

// The whole summary is one write of the report; a list of leases is one for each line.
static REPORTS: [Case<'static>; 3] = [
    Case {
        name: "the report of a run fails",
        input: &[HEAD, PACKET, "00000009 02 00000000000f4240"],
        report_fails_at: &[0],
        status: "OutFault",
        report: "",
        sent: &[FIRST_SENT],
        log_after: LogFile::Frames(&[FIRST_FRAME]),
        drops: &[(DropCause::BadPacket, 1)],
        ..RUN
    },
    Case {
        name: "the report of the first lease fails",
        report_fails_at: &[0],
        ..LIST_FAILS
    },
    Case {
        name: "the report of the second lease fails",
        report_fails_at: &[1],
        report: "lease 192.0.2.8 1024 1535 1000000 open 2001:0db8:0100:0000:0000:0000:0000:0000/56\n",
        ..LIST_FAILS
    },
];

// A list of two leases whose report fails.
const LIST_FAILS: Case<'static> = Case {
    log: LogFile::Frames(&[FIRST_FRAME, OTHER_FRAME]),
    status: "OutFault",
    report: "",
    log_after: LogFile::Frames(&[FIRST_FRAME, OTHER_FRAME]),
    ..QUERY
};

// A run that refuses its configuration, and whose report of that fails.
const FAULT_REPORT_FAILS: Case<'static> = Case {
    config: b" ",
    input: &FIRST,
    status: "OutFault",
    report: "",
    ..RUN
};

static FAULT_REPORTS: [Case<'static>; 3] = [
    Case {
        name: "the fault's name fails",
        report_fails_at: &[0],
        ..FAULT_REPORT_FAILS
    },
    Case {
        name: "the fault's key fails",
        report_fails_at: &[1],
        report: "fault BadConfig ",
        ..FAULT_REPORT_FAILS
    },
    Case {
        name: "the end of the fault's line fails",
        report_fails_at: &[2],
        report: "fault BadConfig text",
        ..FAULT_REPORT_FAILS
    },
];

static REFUSED: [Case<'static>; 3] = [
    Case {
        name: "a configuration with a byte, which is refused before the log",
        config: b"\n",
        input: &FIRST,
        log: LogFile::Digits(&["08"]),
        status: "BadConfig(Key { text: \"text\" })",
        report: "fault BadConfig text\n",
        log_after: LogFile::Digits(&["08"]),
        calls: Some(&[]),
        ..RUN
    },
    Case {
        name: "a log that is damaged",
        input: &FIRST,
        log: LogFile::Digits(&["08"]),
        status: "LogDamaged(0)",
        report: "fault LogDamaged 0\n",
        log_after: LogFile::Digits(&["08"]),
        ..RUN
    },
    Case {
        name: "a file without a byte, which no log was made in",
        input: &FIRST,
        log: LogFile::Digits(&[]),
        status: "LogDamaged(0)",
        report: "fault LogDamaged 0\n",
        log_after: LogFile::Digits(&[]),
        ..RUN
    },
];

#[test]
fn a_call_on_the_log_or_the_outlet_fails(rt: HostRuntime) {
    check_all(&rt, &PLANT);
}

#[test]
fn a_read_fails(rt: HostRuntime) {
    check_all(&rt, &READS);
}

#[test]
fn the_report_fails(rt: HostRuntime) {
    check_all(&rt, &REPORTS);
}

#[test]
fn the_report_of_a_fault_fails(rt: HostRuntime) {
    check_all(&rt, &FAULT_REPORTS);
}

#[test]
fn a_configuration_or_a_log_that_is_refused(rt: HostRuntime) {
    check_all(&rt, &REFUSED);
}

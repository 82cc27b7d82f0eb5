//! TCP connections by the control bits of their segments: how long each lasts, to the millisecond.

use crate::configs::{defaults, run_with};
use std::process::Abort;

const FIN: u8 = 1;

const SYN: u8 = 2;

const RST: u8 = 4;

const ACK: u8 = 16;

const SYN_ACK: u8 = 18;

const OUT: bool = true;

const IN: bool = false;

// A segment: how many milliseconds it comes behind 1,000,000, which way, and its control bits.
type Segment = (u64, bool, u8);

// A name, segments between 192.0.0.2 port 5000 and 203.0.113.5 port 80, and the last millisecond of their mapping.
type Row = (&'static str, &'static [Segment], u64);

// The last segment would open a connection that the RST didn't end.
static RESETS: [Row; 11] = [
    (
        "an RST out as it opens",
        &[(0, OUT, SYN), (10, OUT, RST), (20, IN, ACK)],
        240_009,
    ),
    (
        "an RST in as it opens",
        &[(0, OUT, SYN), (10, IN, RST), (20, IN, ACK)],
        240_009,
    ),
    (
        "an RST out when it is open",
        &[(0, OUT, SYN), (5, IN, ACK), (10, OUT, RST), (20, IN, ACK)],
        240_009,
    ),
    (
        "an RST in when it is open",
        &[(0, OUT, SYN), (5, IN, ACK), (10, IN, RST), (20, IN, ACK)],
        240_009,
    ),
    (
        "an RST out behind a FIN out",
        &[(0, OUT, SYN), (5, IN, ACK), (6, OUT, FIN), (10, OUT, RST)],
        240_009,
    ),
    (
        "an RST in behind a FIN out",
        &[(0, OUT, SYN), (5, IN, ACK), (6, OUT, FIN), (10, IN, RST)],
        240_009,
    ),
    (
        "an RST out behind a FIN in",
        &[(0, OUT, SYN), (5, IN, ACK), (6, IN, FIN), (10, OUT, RST)],
        240_009,
    ),
    (
        "an RST in behind a FIN in",
        &[(0, OUT, SYN), (5, IN, ACK), (6, IN, FIN), (10, IN, RST)],
        240_009,
    ),
    (
        "an RST out behind an RST",
        &[(0, OUT, SYN), (5, IN, RST), (10, OUT, RST), (20, IN, ACK)],
        240_009,
    ),
    (
        "an RST in behind an RST",
        &[(0, OUT, SYN), (5, IN, RST), (10, IN, RST), (20, IN, ACK)],
        240_004,
    ),
    (
        "an RST first of all",
        &[(0, OUT, RST), (20, IN, ACK)],
        239_999,
    ),
];

static ENDS: [Row; 7] = [
    (
        "a FIN out, and all that comes in behind it",
        &[(0, OUT, SYN), (5, IN, ACK), (10, OUT, FIN), (20, IN, ACK)],
        7_440_009,
    ),
    (
        "a FIN in twice",
        &[(0, OUT, SYN), (5, IN, ACK), (10, IN, FIN), (20, IN, FIN)],
        7_440_009,
    ),
    (
        "a FIN out twice",
        &[(0, OUT, SYN), (5, IN, ACK), (10, OUT, FIN), (20, OUT, FIN)],
        7_440_019,
    ),
    (
        "a FIN in and then one out",
        &[(0, OUT, SYN), (5, IN, ACK), (10, IN, FIN), (20, OUT, FIN)],
        240_019,
    ),
    (
        "a FIN out and then one in",
        &[(0, OUT, SYN), (5, IN, ACK), (10, OUT, FIN), (20, IN, FIN)],
        240_019,
    ),
    (
        "a FIN out as it opens, which ends nothing",
        &[(0, OUT, SYN), (10, OUT, FIN), (20, IN, ACK)],
        7_440_019,
    ),
    (
        "a FIN in as it opens, and one out",
        &[(0, OUT, SYN), (10, IN, FIN), (20, OUT, FIN)],
        240_019,
    ),
];

static OPENINGS: [Row; 7] = [
    (
        "SYNs both ways at once",
        &[
            (0, OUT, SYN),
            (10, IN, SYN),
            (20, OUT, SYN_ACK),
            (30, IN, SYN_ACK),
        ],
        7_440_019,
    ),
    (
        "a SYN behind an RST opens again",
        &[
            (0, OUT, SYN),
            (5, IN, RST),
            (10, OUT, SYN),
            (20, IN, SYN_ACK),
        ],
        7_440_019,
    ),
    (
        "a SYN behind an RST, which isn't answered",
        &[(0, OUT, SYN), (5, IN, RST), (10, OUT, SYN)],
        240_009,
    ),
    (
        "a SYN behind two FINs opens again",
        &[
            (0, OUT, SYN),
            (5, IN, FIN),
            (10, OUT, FIN),
            (20, OUT, SYN),
            (30, IN, SYN_ACK),
        ],
        7_440_029,
    ),
    (
        "a SYN that comes in behind an RST doesn't",
        &[(0, OUT, SYN), (5, IN, RST), (10, IN, SYN)],
        240_004,
    ),
    (
        "nor does one with ACK that goes out",
        &[
            (0, OUT, SYN),
            (5, IN, RST),
            (10, OUT, SYN_ACK),
            (20, IN, ACK),
        ],
        240_009,
    ),
    (
        "nor does a segment that goes out without SYN",
        &[(0, OUT, SYN), (5, IN, RST), (10, OUT, ACK), (20, IN, ACK)],
        240_009,
    ),
];

static IDLE: [Row; 5] = [
    ("a SYN alone", &[(0, OUT, SYN)], 239_999),
    ("a SYN twice", &[(0, OUT, SYN), (500, OUT, SYN)], 240_499),
    (
        "a SYN and its answer",
        &[(0, OUT, SYN), (10, IN, SYN_ACK)],
        7_440_009,
    ),
    (
        "an open connection, by what goes out",
        &[(0, OUT, SYN), (10, IN, SYN_ACK), (20, OUT, ACK)],
        7_440_019,
    ),
    (
        "but not by what comes in",
        &[
            (0, OUT, SYN),
            (10, IN, SYN_ACK),
            (20, OUT, ACK),
            (500, IN, ACK),
        ],
        7_440_019,
    ),
];

// Checks that a segment from another remote, which moves no state, comes through in the last millisecond alone.
fn check_rows<R: Abort + AllocGlobal>(rt: &R, rows: &[Row]) {
    for (name, segments, last) in rows {
        let mut input = String::new(rt.alloc());
        for (at, is_out, flags) in *segments {
            add_segment(rt, &mut input, *at, *is_out, *flags);
        }
        add_other(rt, &mut input, *last);
        add_other(rt, &mut input, last.saturating_add(1));
        check_report(rt, name, segments.len(), input.as_str());
    }
}

fn add_segment<R: Abort + AllocGlobal>(
    rt: &R,
    input: &mut String,
    at: u64,
    is_out: bool,
    flags: u8,
) {
    let at = at.saturating_add(1_000_000);
    let record = if is_out {
        format!(in rt.alloc();
            "00000059 01 {at:016x} 60000000 0028 04 40
            20010db8010000000000000000000002 20010db8000000000000000000000001
            4500 0028 0001 0000 40 06 7ec7 c0000002 cb007105
            1388 0050 00000001 00000001 50{flags:02x} 2000 0000 0000\n"
        )
    } else {
        format!(in rt.alloc();
            "00000031 02 {at:016x} 4500 0028 0001 0000 40 06 7cc1 cb007105 c0000208
            0050 0400 00000001 00000001 50{flags:02x} 2000 0000 0000\n"
        )
    };
    add(
        rt,
        input,
        record.expect(rt, "memory for a segment").as_str(),
    );
}

// From 203.0.113.9 to the mapping.
fn add_other<R: Abort + AllocGlobal>(rt: &R, input: &mut String, at: u64) {
    let at = at.saturating_add(1_000_000);
    let record = format!(in rt.alloc();
        "00000031 02 {at:016x} 4500 0028 0001 0000 40 06 7cbd cb007109 c0000208
        0050 0400 00000001 00000001 5010 2000 0000 0000\n"
    );
    add(
        rt,
        input,
        record.expect(rt, "memory for a segment").as_str(),
    );
}

fn add<R: Abort>(rt: &R, input: &mut String, text: &str) {
    input.push_str(text).expect(rt, "memory for a text");
}

// All segments come through but for the last of the other remote.
fn check_report<R: Abort + AllocGlobal>(rt: &R, name: &str, segments: usize, input: &str) {
    let sent = segments.saturating_add(1);
    let records = segments.saturating_add(2);
    let report = format!(in rt.alloc();
        "records {records}\nsent {sent}\nmarks 0\ndrop NoMapping 1\n"
    );
    let report = report.expect(rt, "memory for a report");
    let left = run_with(rt, defaults(rt), &[input]);
    assert_eq!(rt;
        str::from_utf8(left.report.written()),
        Ok(report.as_str()),
        "{name}"
    );
}

#[test]
fn an_rst_ends_a_connection_in_each_state(rt: HostRuntime) {
    check_rows(&rt, &RESETS);
}

#[test]
fn fins_end_it_both_ways(rt: HostRuntime) {
    check_rows(&rt, &ENDS);
}

#[test]
fn what_opens_it(rt: HostRuntime) {
    check_rows(&rt, &OPENINGS);
}

#[test]
fn how_long_it_lasts_unused(rt: HostRuntime) {
    check_rows(&rt, &IDLE);
}

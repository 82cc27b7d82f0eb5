//! Stops at each moment of a run, and whom the log names once a run has started again from what the stop left.
//!
//! A run is stopped after each number of calls on the log and the outlet. From each of the files that the stop may leave, a
//! run over no record starts again, and of two runs is stopped in the same way, until one ends. Each log that is left has to name the
//! sender of each packet that stood whole in the outlet at the first stop: that one, and nobody else. A packet that shows no place of
//! a subscriber isn't asked for.

use crate::driver::ask;
use crate::errors::{BETWEEN, ECHO_BACK, ECHO_OUT, REQUEST, UDP_IN, UDP_OUT};
use crate::logs::LogFile;
use crate::made_errors::SPENT_LATER;
use crate::octets::{list_of, octets};
use crate::packets::{ELSEWHERE, HEAD, NEXT_HEAD, OTHER, PACKET};
use aftr_base::Status;
use aftr_engine::run_config;
use cfg_text::Config;
use plant_io::Plant;
use plant_mem::{MemPlant, MemSink, NoFaultSource, Pick, StopPlant};
use std::process::Abort;

/// More calls than any of these runs makes.
const MOST_CALLS: u64 = 100;

const PICKS: [Pick; 4] = [Pick::Kept, Pick::Dropped, Pick::Zeros, Pick::Ones];

const FIRST_NAMED: &str = "named 2001:0db8:0100:0000:0000:0000:0000:0000/56\n";

const OTHER_NAMED: &str = "named 2001:0db8:0100:0100:0000:0000:0000:0000/56\n";

// A tick at the first packet's deadline, 1,300,000, closes its block; the hold of 120 s behind it ends at 1,420,000.
const TICK: &str = "00000009 03 000000000013d620";

// A record half a second behind the first.
const LATER: &str = "00000051 01 00000000000f4434";

const FREE: &str = "00000051 01 000000000015aae0";

/// A run onto a log that was just made.
#[derive(Clone, Copy)]
struct StoppedRun<'a> {
    name: &'a str,
    input: &'a [&'a str],
    /// What a query says of each packet that goes out, in order, where it shows a subscriber's place.
    named: &'a [Option<&'a str>],
    /// Whether the runs that start again are stopped too.
    twice: bool,
}

static RUNS: [StoppedRun<'static>; 5] = [
    StoppedRun {
        name: "no packet",
        input: &[],
        named: &[],
        twice: false,
    },
    StoppedRun {
        name: "one packet",
        input: &[HEAD, PACKET],
        named: &[Some(FIRST_NAMED)],
        twice: false,
    },
    StoppedRun {
        name: "two remote hosts by one mapping",
        input: &[HEAD, PACKET, LATER, ELSEWHERE],
        named: &[Some(FIRST_NAMED), Some(FIRST_NAMED)],
        twice: true,
    },
    StoppedRun {
        name: "packets of two subscribers",
        input: &[HEAD, PACKET, NEXT_HEAD, OTHER],
        named: &[Some(FIRST_NAMED), Some(OTHER_NAMED)],
        twice: false,
    },
    StoppedRun {
        name: "one block of two subscribers, the second at the hold's end",
        input: &[HEAD, PACKET, TICK, FREE, OTHER],
        named: &[Some(FIRST_NAMED), Some(OTHER_NAMED)],
        twice: true,
    },
];

// An error shows its sender's place in the packet that it quotes. One that a remote host made shows no subscriber's, nor does
// one that is about an echo message between subscribers, nor one that the program made.
static ERRORS: [StoppedRun<'static>; 3] = [
    StoppedRun {
        name: "errors from the public side and to it",
        input: &[HEAD, PACKET, UDP_IN, UDP_OUT],
        named: &[Some(FIRST_NAMED), None, Some(FIRST_NAMED)],
        twice: false,
    },
    StoppedRun {
        name: "an error between subscribers",
        input: &[HEAD, PACKET, NEXT_HEAD, OTHER, BETWEEN],
        named: &[Some(FIRST_NAMED), Some(OTHER_NAMED), Some(OTHER_NAMED)],
        twice: false,
    },
    StoppedRun {
        name: "errors about echo messages, and one that is made",
        input: &[REQUEST, ECHO_OUT, ECHO_BACK, SPENT_LATER],
        named: &[Some(FIRST_NAMED), Some(FIRST_NAMED), None, None],
        twice: false,
    },
];

// Stops a run after no call, one, two and so on, until it ends by itself, and starts it again from what each stop leaves.
fn check_stops<R: Abort + AllocGlobal>(rt: &R, run: &StoppedRun<'_>) {
    let input = octets(rt, run.input);
    let log = LogFile::Frames(&[]).bytes(rt);
    for after in 0..MOST_CALLS {
        let mut plant = StopPlant::new(rt.alloc(), list_of(rt, &log), after);
        let ended = run_records(rt, &input, &mut plant);
        for pick in PICKS {
            let name = format!(in rt.alloc();
                "{}, stopped after {after} calls, {pick:?}",
                run.name
            );
            let name = name.expect(rt, "memory for a name");
            let left = plant.left(pick).expect(rt, "memory for a file");
            check_left(rt, run, &name, plant.sent(), left.as_slice());
            if run.twice {
                check_restarts(rt, run, &name, plant.sent(), left.as_slice());
            }
        }
        if ended {
            let sent = count_whole(plant.sent());
            assert_eq!(rt; sent, run.named.len(), "packets that go out: {}", run.name);
            return;
        }
    }
    assert!(rt; false, "{} doesn't end", run.name);
}

// Runs with the default configuration over these records, and answers whether the run ended well.
fn run_records<R: Abort + AllocGlobal, P: Plant>(rt: &R, input: &[u8], plant: &mut P) -> bool {
    let config = Config::defaults(rt.alloc()).expect(rt, "memory for a configuration");
    assert!(rt; config.accepted(), "an accepted configuration");
    assert_eq!(rt; config.ratio, 0);
    let mut inputs = [NoFaultSource::new(list_of(rt, input))];
    let mut report = MemSink::new(rt.alloc(), list_of(rt, &[]));
    let outcome = run_config(rt.alloc(), config, &mut inputs, plant, &mut report);
    matches!(outcome.status, Status::Ok)
}

// Starts again from a file that a stop may leave, stops that too after each number of calls, and asks each log that this leaves.
fn check_restarts<R: Abort + AllocGlobal>(
    rt: &R,
    run: &StoppedRun<'_>,
    name: &str,
    sent: &[u8],
    file: &[u8],
) {
    for after in 0..MOST_CALLS {
        let mut plant = StopPlant::new(rt.alloc(), list_of(rt, file), after);
        let ended = run_records(rt, &[], &mut plant);
        assert!(rt; plant.sent().is_empty(), "sent without a record: {name}");
        for pick in PICKS {
            let left = plant.left(pick).expect(rt, "memory for a file");
            check_left(rt, run, name, sent, left.as_slice());
        }
        if ended {
            return;
        }
    }
    assert!(rt; false, "the restart doesn't end: {name}");
}

// Starts again from a file that a stop may leave, and asks for each packet that went out whole before the first stop.
fn check_left<R: Abort + AllocGlobal>(
    rt: &R,
    run: &StoppedRun<'_>,
    name: &str,
    sent: &[u8],
    file: &[u8],
) {
    let mut plant = MemPlant::new(rt.alloc(), list_of(rt, file), list_of(rt, &[]));
    assert!(rt;
        run_records(rt, &[], &mut plant),
        "the run that starts again: {name}"
    );
    let mut rest = sent;
    for named in run.named {
        let Some((record, behind)) = next_record(rest) else {
            return;
        };
        if let Some(named) = named {
            check_named(rt, name, record, named, plant.content());
        }
        rest = behind;
    }
}

// Asks a log who sent a packet.
fn check_named<R: Abort + AllocGlobal>(rt: &R, name: &str, record: &[u8], named: &str, log: &[u8]) {
    assert!(rt; record.len() > 8, "a record: {name}");
    let moment = u64::from_be_bytes([
        record[1], record[2], record[3], record[4], record[5], record[6], record[7], record[8],
    ]);
    let packet = inner_of(record).expect(rt, "a packet");
    assert!(rt; packet.len() > 15, "a source: {name}");
    let port = number_at(packet, port_offset(packet)).expect(rt, "a port");
    let addr = format!(in rt.alloc();
        "{}.{}.{}.{}",
        packet[12], packet[13], packet[14], packet[15]
    );
    let addr = addr.expect(rt, "memory for an address");
    let port = format!(in rt.alloc(); "{port}").expect(rt, "memory for a port");
    let moment = format!(in rt.alloc(); "{moment}").expect(rt, "memory for a moment");
    let words = [
        "trace",
        "log",
        addr.as_str(),
        port.as_str(),
        moment.as_str(),
    ];
    let report = ask(rt, &words, log);
    assert_eq!(rt; str::from_utf8(report.written()), Ok(named), "{name}");
}

// The IPv4 packet of a record, behind the kind and the moment, and in a softwire behind the IPv6 header.
fn inner_of(record: &[u8]) -> Option<&[u8]> {
    match record.first() {
        Some(1) => bytes_from(record, 49),
        _ => bytes_from(record, 9),
    }
}

// Where the port of a packet's source stands. Of an error that is the destination's of the packet that it quotes, and of an
// echo message the identifier (RFC 792).
fn port_offset(packet: &[u8]) -> usize {
    let is_icmp = matches!(packet.get(9), Some(1));
    let is_error = matches!(packet.get(20), Some(3 | 11 | 12));
    let is_about_icmp = matches!(packet.get(37), Some(1));
    match (is_icmp, is_error, is_about_icmp) {
        (false, _, _) => 20,
        (true, false, _) => 24,
        (true, true, false) => 50,
        (true, true, true) => 52,
    }
}

fn number_at(bytes: &[u8], at: usize) -> Option<u16> {
    match bytes_from(bytes, at) {
        Some([high, low, ..]) => Some(u16::from_be_bytes([*high, *low])),
        _ => None,
    }
}

fn bytes_from(bytes: &[u8], at: usize) -> Option<&[u8]> {
    if bytes.len() < at {
        return None;
    }
    Some(&bytes[at..])
}

// The first record of these bytes without its length, and what stands behind it, where it stands there whole.
fn next_record(bytes: &[u8]) -> Option<(&[u8], &[u8])> {
    let [a, b, c, d, behind @ ..] = bytes else {
        return None;
    };
    let length = u32::from_be_bytes([*a, *b, *c, *d]) as usize;
    if length > behind.len() {
        return None;
    }
    Some((&behind[..length], &behind[length..]))
}

// How many records stand whole in these bytes.
fn count_whole(bytes: &[u8]) -> usize {
    let mut count = 0;
    let mut rest = bytes;
    for _ in 0..bytes.len() {
        let Some((_, behind)) = next_record(rest) else {
            return count;
        };
        count = count.saturating_add(1);
        rest = behind;
    }
    count
}

#[test]
fn a_run_that_starts_again_names_each_sender(rt: HostRuntime) {
    for run in &RUNS {
        check_stops(&rt, run);
    }
}

#[test]
fn it_names_each_sender_of_an_error(rt: HostRuntime) {
    for run in &ERRORS {
        check_stops(&rt, run);
    }
}

//! A restart that closes more leases than one frame takes, stopped before, between and behind its frames.

use crate::driver::ask;
use crate::logs::LogFile;
use crate::octets::{list_of, octets};
use aftr_base::{Ip4, List, Prefix4, Status};
use aftr_engine::run_config;
use cfg_text::Config;
use plant_io::Plant;
use plant_mem::{MemPlant, MemSink, NoFaultSource, Pick, StopPlant};
use std::process::Abort;

/// How many subscribers have one mapping each, opened a millisecond behind one another from 1,000,000 on.
const SUBSCRIBERS: u64 = 1500;

/// What a restart adds: a frame of 1,024 closings, and one of the other 476, in bytes.
const ADDED: usize = 34_909 + 16_277;

/// A restart's last calls: two commits of four calls each.
const LAST_CALLS: u64 = 9;

// Sixteen public addresses, 192.0.2.0/28.
fn wide_pool<R: Abort + AllocGlobal>(rt: &R) -> Config {
    let mut config = Config::defaults(rt.alloc()).expect(rt, "memory for a configuration");
    let mut pool = List::new(rt.alloc());
    let prefix = Prefix4 {
        bits: Ip4(0xc000_0200),
        len: 28,
    };
    pool.push(prefix).expect(rt, "memory for a pool");
    config.pool = pool;
    config
}

// Runs over these records, and answers whether the run ended well.
fn run_records<R: Abort + AllocGlobal, P: Plant>(rt: &R, input: &[u8], plant: &mut P) -> bool {
    let config = wide_pool(rt);
    assert!(rt; config.accepted(), "an accepted configuration");
    assert_eq!(rt; config.ratio, 0);
    let mut inputs = [NoFaultSource::new(list_of(rt, input))];
    let mut report = MemSink::new(rt.alloc(), list_of(rt, &[]));
    let outcome = run_config(rt.alloc(), config, &mut inputs, plant, &mut report);
    matches!(outcome.status, Status::Ok)
}

// The record of each subscriber's packet, without UDP checksums.
fn packets<R: Abort + AllocGlobal>(rt: &R) -> Vec<u8> {
    let mut text = String::new(rt.alloc());
    for subscriber in 0..SUBSCRIBERS {
        let moment = 1_000_000 + subscriber;
        let record = format!(in rt.alloc();
            "00000051 01 {moment:016x} 60000000 0020 04 40
            20010db801{subscriber:04x}000000000000000002 20010db8000000000000000000000001
            4500 0020 0001 0000 40 11 7ec4 c0000002 cb007105 1388 0035 000c 0000 61626364\n"
        );
        let record = record.expect(rt, "memory for a packet");
        text.push_str(record.as_str())
            .expect(rt, "memory for a text");
    }
    octets(rt, &[text.as_str()])
}

// Stops a restart from this log after so many calls, and starts again from each file that the stop may leave: the log comes to be
// the one that no stop had left.
fn check_stopped<R: Abort + AllocGlobal>(rt: &R, log: &[u8], after: u64, recovered: &[u8]) {
    let mut stopped = StopPlant::new(rt.alloc(), list_of(rt, log), after);
    run_records(rt, &[], &mut stopped);
    for pick in [Pick::Kept, Pick::Dropped, Pick::Zeros, Pick::Ones] {
        let left = stopped.left(pick).expect(rt, "memory for a file");
        let mut plant = MemPlant::new(rt.alloc(), left, list_of(rt, &[]));
        assert!(rt;
            run_records(rt, &[], &mut plant),
            "stopped after {after} calls"
        );
        assert!(rt; plant.content() == recovered, "stopped after {after} calls");
    }
}

fn check_named<R: Abort + AllocGlobal>(rt: &R, log: &[u8], query: [&str; 3], named: &str) {
    let [addr, port, moment] = query;
    let report = ask(rt, &["trace", "log", addr, port, moment], log);
    assert_eq!(rt; str::from_utf8(report.written()), Ok(named));
}

#[test]
fn a_restart_that_is_stopped_between_its_frames(rt: HostRuntime) {
    let log = LogFile::Frames(&[]).bytes(&rt);
    let mut plant = MemPlant::new(rt.alloc(), list_of(&rt, &log), list_of(&rt, &[]));
    assert!(&rt; run_records(&rt, &packets(&rt), &mut plant));
    let open = plant.content();
    let mut restarted = MemPlant::new(rt.alloc(), list_of(&rt, open), list_of(&rt, &[]));
    assert!(&rt; run_records(&rt, &[], &mut restarted));
    let recovered = restarted.content();
    assert_eq!(&rt; recovered.len(), open.len() + ADDED);
    let calls = restarted.calls().len() as u64;
    assert!(&rt; LAST_CALLS < calls);
    for after in calls - LAST_CALLS..calls {
        check_stopped(&rt, open, after, recovered);
    }
    // The first subscriber, the last one of the first frame, and the last of all.
    check_named(
        &rt,
        recovered,
        ["192.0.2.0", "1024", "1000000"],
        "named 2001:0db8:0100:0000:0000:0000:0000:0000/56\n",
    );
    check_named(
        &rt,
        recovered,
        ["192.0.2.8", "8704", "1001023"],
        "named 2001:0db8:0103:ff00:0000:0000:0000:0000/56\n",
    );
    check_named(
        &rt,
        recovered,
        ["192.0.2.11", "58880", "1001499"],
        "named 2001:0db8:0105:db00:0000:0000:0000:0000/56\n",
    );
}

//! Runs with configurations that aren't the default one.

use crate::logs::{Frame, LogFile};
use crate::octets::{list_of, octets};
use crate::packets::{FIRST, FIRST_FRAME, FIRST_SENT};
use aftr_engine::run_config;
use cfg_text::Config;
use plant_mem::{MemPlant, MemSink, NoFaultSource};
use std::process::Abort;

const NOTHING_SENT: &[&str] = &[];

const ONE_SENT: &str = "records 1\nsent 1\nmarks 0\n";

/// What a run with a configuration leaves.
#[derive(Drop)]
pub struct Ending<'a> {
    pub report: &'a str,
    pub sent: &'a [&'a str],
    pub log: LogFile<'a>,
}

// Blocks of 16 ports, and peers that are kept for two minutes.
fn small_blocks<R: Abort + AllocGlobal>(rt: &R) -> Config {
    let mut config = defaults(rt);
    config.block_size = 16;
    config.udp_ms = 120_000;
    config
}

/// What a run left.
#[derive(Drop)]
pub struct Left {
    pub plant: MemPlant,
    pub report: MemSink,
}

/// Runs with an accepted configuration over an input, whose bytes are hexadecimal digits, onto a log that was just made.
pub fn run_with<R: Abort + AllocGlobal>(rt: &R, config: Config, input: &[&str]) -> Left {
    assert!(rt; config.accepted(), "an accepted configuration");
    assert_eq!(rt; config.ratio, 0);
    let input = octets(rt, input);
    let mut inputs = [NoFaultSource::new(list_of(rt, &input))];
    let log = LogFile::Frames(&[]).bytes(rt);
    let mut plant = MemPlant::new(rt.alloc(), list_of(rt, &log), list_of(rt, &[]));
    let mut report = MemSink::new(rt.alloc(), list_of(rt, &[]));
    let _outcome = run_config(rt.alloc(), config, &mut inputs, &mut plant, &mut report);
    Left { plant, report }
}

/// The configuration of no keys.
pub fn defaults<R: Abort + AllocGlobal>(rt: &R) -> Config {
    Config::defaults(rt.alloc()).expect(rt, "memory for a configuration")
}

/// Runs as above, and compares what is left.
pub fn check_run<R: Abort + AllocGlobal>(
    rt: &R,
    config: Config,
    input: &[&str],
    ending: &Ending<'_>,
) {
    let left = run_with(rt, config, input);
    compare(rt, &left, ending);
}

fn compare<R: Abort + AllocGlobal>(rt: &R, left: &Left, ending: &Ending<'_>) {
    assert_eq!(rt; str::from_utf8(left.report.written()), Ok(ending.report));
    assert_eq!(rt; left.plant.sent(), octets(rt, ending.sent).as_slice());
    assert_eq!(rt; left.plant.content(), ending.log.bytes(rt).as_slice());
}

#[test]
fn the_default_configuration(rt: HostRuntime) {
    let config = defaults(&rt);
    let ending = Ending {
        report: ONE_SENT,
        sent: &[FIRST_SENT],
        log: LogFile::Frames(&[FIRST_FRAME]),
    };
    check_run(&rt, config, &FIRST, &ending);
}

#[test]
fn blocks_of_sixteen_ports(rt: HostRuntime) {
    let ending = Ending {
        report: ONE_SENT,
        sent: &[FIRST_SENT],
        log: LogFile::Frames(&[Frame {
            horizon: Some("00000000000f4240 00000000000f4a10"),
            blocks: &["00000000000f4240 10 20010db8010000000000000000000000 38 c0000208 0400 040f"],
        }]),
    };
    check_run(&rt, small_blocks(&rt), &FIRST, &ending);
}

// The log has 17 bytes, and the first packet's frame needs 147 more.
fn limited_to<R: Abort + AllocGlobal>(rt: &R, log_limit: u64) -> Config {
    let mut config = defaults(rt);
    config.log_limit = log_limit;
    config
}

#[test]
fn a_log_without_room(rt: HostRuntime) {
    let ending = Ending {
        report: "fault LogFull 17 147 163\n",
        sent: NOTHING_SENT,
        log: LogFile::Frames(&[]),
    };
    check_run(&rt, limited_to(&rt, 163), &FIRST, &ending);
}

#[test]
fn a_log_with_just_enough_room(rt: HostRuntime) {
    let ending = Ending {
        report: ONE_SENT,
        sent: &[FIRST_SENT],
        log: LogFile::Frames(&[FIRST_FRAME]),
    };
    check_run(&rt, limited_to(&rt, 164), &FIRST, &ending);
}

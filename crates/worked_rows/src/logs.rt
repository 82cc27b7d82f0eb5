//! Log files, as bytes that are made apart from the program's own code: a header, and frames of one message each.

use crate::octets::octets;
use std::process::Abort;

/// The letters AFTRLOG, the format's number, and zeros.
const HEADER: &str = "41465452 4c4f4701 00000000 00000000";

/// The three templates (RFC 7011 3.4.1): of blocks, of the horizon and of plans.
const TEMPLATES: &str = "0002 0044
    0100 0007 0143 0008 00e6 0001 001b 0010 001d 0001 00e1 0004 0169 0002 016a 0002
    0101 0002 0143 0008 8001 0008 00007ed9
    0102 0002 0143 0008 8002 ffff 00007ed9";

/// One frame: the records of its message, each of which begins with the message's moment.
#[derive(Clone, Copy)]
pub struct Frame<'a> {
    /// The horizon's record, where there is one.
    pub horizon: Option<&'a str>,
    /// The records of blocks, in order.
    pub blocks: &'a [&'a str],
}

/// A log file.
#[derive(Clone, Copy)]
pub enum LogFile<'a> {
    /// Bytes as hexadecimal digits, whatever they are.
    Digits(&'a [&'a str]),
    /// Bytes, whatever they are.
    Bytes(&'a [u8]),
    /// A log of these frames.
    Frames(&'a [Frame<'a>]),
    /// The beginning of so many bytes of a log of one frame whose gate is closed.
    Unopened(Frame<'a>, usize),
}

impl LogFile<'_> {
    /// The bytes of the file.
    pub fn bytes<R: Abort + AllocGlobal>(&self, rt: &R) -> Vec<u8> {
        match self {
            LogFile::Digits(parts) => octets(rt, parts),
            LogFile::Bytes(bytes) => bytes.to_vec(rt.alloc()).expect(rt, "memory for a log"),
            LogFile::Frames(frames) => {
                let mut log = LogBytes::new(rt);
                for frame in *frames {
                    log.add(rt, frame);
                }
                log.finish(rt)
            }
            LogFile::Unopened(frame, len) => {
                let mut log = LogBytes::new(rt);
                log.add(rt, frame);
                let mut bytes = log.finish(rt);
                assert!(rt; *len <= bytes.len() && HEADER_LEN < bytes.len());
                bytes[HEADER_LEN] = 0;
                bytes.truncate(*len);
                bytes
            }
        }
    }
}

/// The bytes of the header; the first gate stands behind them.
const HEADER_LEN: usize = 16;

/// A log in the making.
#[derive(Drop)]
pub struct LogBytes {
    bytes: Vec<u8>,
    number: u32,
}

impl LogBytes {
    /// The header.
    pub fn new<R: Abort + AllocGlobal>(rt: &R) -> Self {
        LogBytes {
            bytes: octets(rt, &[HEADER]),
            number: 0,
        }
    }

    /// Adds a frame with an open gate.
    pub fn add<R: Abort + AllocGlobal>(&mut self, rt: &R, frame: &Frame<'_>) {
        let sets = sets_of(rt, frame);
        let length = u32::try_from(sets.len())
            .expect(rt, "a short message")
            .saturating_add(16);
        let head = format!(in rt.alloc();
            "01 {length:08x} 000a {length:04x} {:08x} {:08x} 00000001",
            seconds_of(rt, frame),
            self.number
        );
        let head = head.expect(rt, "memory for a head");
        self.push(rt, octets(rt, &[head.as_str()]).as_slice());
        self.push(rt, &sets);
        let blocks = u32::try_from(frame.blocks.len()).expect(rt, "few blocks");
        self.number = self
            .number
            .saturating_add(blocks)
            .saturating_add(u32::from(frame.horizon.is_some()));
    }

    /// The bytes, with the closed gate at their end.
    pub fn finish<R: Abort + AllocGlobal>(self, rt: &R) -> Vec<u8> {
        let LogBytes { mut bytes, .. } = self;
        bytes.push(0).expect(rt, "memory for a gate");
        bytes
    }

    fn push<R: Abort>(&mut self, rt: &R, more: &[u8]) {
        self.bytes
            .extend_from_slice(more)
            .expect(rt, "memory for a log");
    }
}

// The sets of a frame's message: the templates, the horizon and the blocks.
fn sets_of<R: Abort + AllocGlobal>(rt: &R, frame: &Frame<'_>) -> Vec<u8> {
    let mut sets = octets(rt, &[TEMPLATES]);
    if let Some(horizon) = frame.horizon {
        add(rt, &mut sets, &["0101 0014", horizon]);
    }
    if !frame.blocks.is_empty() {
        let records = octets(rt, frame.blocks);
        let length = records.len().saturating_add(4);
        let head = format!(in rt.alloc(); "0100 {length:04x}").expect(rt, "memory for a head");
        add(rt, &mut sets, &[head.as_str()]);
        add(rt, &mut sets, frame.blocks);
    }
    sets
}

fn add<R: Abort + AllocGlobal>(rt: &R, bytes: &mut Vec<u8>, parts: &[&str]) {
    bytes
        .extend_from_slice(octets(rt, parts).as_slice())
        .expect(rt, "memory for a set");
}

// The moment of a frame's first record, in seconds.
fn seconds_of<R: Abort + AllocGlobal>(rt: &R, frame: &Frame<'_>) -> u64 {
    let first = match frame.horizon {
        Some(horizon) => horizon,
        None => frame.blocks.first().copied().unwrap_or("0000000000000000"),
    };
    let bytes = octets(rt, &[first]);
    let mut at = 0u64;
    for byte in bytes.iter().take(8) {
        at = at.wrapping_mul(256).wrapping_add(u64::from(*byte));
    }
    at / 1000
}

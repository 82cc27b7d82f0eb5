//! Worked bytes, written and read.
use crate::{EventsBad, plan_text, put_event, read_event, read_events, template_set};
use aftr_base::{
    Ip4, Ip6, List, LogEvent, Moment, NoMemory, PlanSpec, Prefix4, Prefix6, Subscriber,
};
use std::alloc::Global;
use std::test::Fail;

// at 1,000,000 the block 1024 to 1535 of 192.0.2.8 opens for 2001:db8:100::/56
const BLOCK: [u8; 34] = [
    0, 0, 0, 0, 0, 0x0f, 0x42, 0x40, 0x10, 0x20, 0x01, 0x0d, 0xb8, 0x01, 0, 0, 0, 0, 0, 0, 0, 0, 0,
    0, 0, 0x38, 0xc0, 0x00, 0x02, 0x08, 0x04, 0x00, 0x05, 0xff,
];

// at 1,000,000 the log reaches to 1,002,000
const HORIZON: [u8; 16] = [
    0, 0, 0, 0, 0, 0x0f, 0x42, 0x40, 0, 0, 0, 0, 0, 0x0f, 0x4a, 0x10,
];

const TEMPLATES: [u8; 68] = [
    0x00, 0x02, 0x00, 0x44, 0x01, 0x00, 0x00, 0x07, 0x01, 0x43, 0x00, 0x08, 0x00, 0xe6, 0x00, 0x01,
    0x00, 0x1b, 0x00, 0x10, 0x00, 0x1d, 0x00, 0x01, 0x00, 0xe1, 0x00, 0x04, 0x01, 0x69, 0x00, 0x02,
    0x01, 0x6a, 0x00, 0x02, 0x01, 0x01, 0x00, 0x02, 0x01, 0x43, 0x00, 0x08, 0x80, 0x01, 0x00, 0x08,
    0x00, 0x00, 0x7e, 0xd9, 0x01, 0x02, 0x00, 0x02, 0x01, 0x43, 0x00, 0x08, 0x80, 0x02, 0xff, 0xff,
    0x00, 0x00, 0x7e, 0xd9,
];

// the header of a message of 142 bytes: version 10, export time 1,000, sequence number 0, domain 1
const HEADER: [u8; 16] = [0, 10, 0, 0x8e, 0, 0, 0x03, 0xe8, 0, 0, 0, 0, 0, 0, 0, 1];

const HORIZON_HEADER: [u8; 4] = [1, 1, 0, 20];

const BLOCK_HEADER: [u8; 4] = [1, 0, 0, 38];

const PLAN: &str = "56 2048 4 a 20010db8010000000000000000000000/54 p c0000208/32";

fn plan(alloc: Global) -> Result<PlanSpec, NoMemory> {
    let mut aggregates = List::new(alloc);
    aggregates.push(Prefix6 {
        bits: Ip6(0x2001_0db8_0100_0000_0000_0000_0000_0000),
        len: 54,
    })?;
    let mut pool = List::new(alloc);
    pool.push(Prefix4 {
        bits: Ip4(0xc000_0208),
        len: 32,
    })?;
    Ok(PlanSpec {
        subscriber_len: 56,
        block_size: 2048,
        ratio: 4,
        aggregates,
        pool,
    })
}

// The message of the horizon and the block.
fn message(alloc: Global) -> Result<List<u8>, NoMemory> {
    let mut message = List::new(alloc);
    message.extend_from_slice(&HEADER)?;
    message.extend_from_slice(&TEMPLATES)?;
    message.extend_from_slice(&HORIZON_HEADER)?;
    message.extend_from_slice(&HORIZON)?;
    message.extend_from_slice(&BLOCK_HEADER)?;
    message.extend_from_slice(&BLOCK)?;
    Ok(message)
}

#[test]
fn writes_the_records(rt: HostRuntime) -> Result<(), Fail> {
    let mut out = List::new(rt.alloc());
    let block = LogEvent::Block {
        opens: true,
        owner: Subscriber(Prefix6 {
            bits: Ip6(0x2001_0db8_0100_0000_0000_0000_0000_0000),
            len: 56,
        }),
        addr: Ip4(0xc000_0208),
        first: 1024,
        last: 1535,
        at: Moment(1_000_000),
    };
    put_event(&block, &mut out)?;
    assert_eq!(rt; out.as_slice(), BLOCK.as_slice());
    out.clear();
    let horizon = LogEvent::Horizon {
        at: Moment(1_000_000),
        reach: Moment(1_002_000),
    };
    put_event(&horizon, &mut out)?;
    assert_eq!(rt; out.as_slice(), HORIZON.as_slice());
    assert_eq!(rt; template_set().as_slice(), TEMPLATES.as_slice());
    Ok(())
}

#[test]
fn writes_a_plan(rt: HostRuntime) -> Result<(), Fail> {
    let mut text = List::new(rt.alloc());
    plan_text(&plan(rt.alloc())?, &mut text)?;
    assert_eq!(rt; text.as_slice(), PLAN.as_bytes());
    Ok(())
}

#[test]
fn reads_the_records(rt: HostRuntime) -> Result<(), Fail> {
    let (event, len) = read_event(rt.alloc(), 256, &BLOCK)?;
    assert_eq!(rt; len, 34);
    let mut again = List::new(rt.alloc());
    match event {
        LogEvent::Block { .. } => put_event(&event, &mut again)?,
        LogEvent::Horizon { .. } | LogEvent::Plan { .. } => {}
    }
    assert_eq!(rt; again.as_slice(), BLOCK.as_slice());
    let mut plan = List::new(rt.alloc());
    plan.extend_from_slice(&[0, 0, 0, 0, 0, 0, 0, 1, 61])?;
    plan.extend_from_slice(PLAN.as_bytes())?;
    let (_event, len) = read_event(rt.alloc(), 258, plan.as_slice())?;
    assert_eq!(rt; len, 70);
    Ok(())
}

#[test]
fn reads_a_message(rt: HostRuntime) -> Result<(), Fail> {
    let message = message(rt.alloc())?;
    let mut events = List::new(rt.alloc());
    read_events(rt.alloc(), 0, message.as_slice(), &mut events)?;
    assert_eq!(rt; events.len(), 2);
    assert_eq!(rt;
        read_events(rt.alloc(), 1, message.as_slice(), &mut events),
        Err(EventsBad::NotOurs)
    );
    Ok(())
}

//! Reading one record (RFC 7011 3.4.3; RFC 8158 4.3).
ghost use Rattle.std.specs.Prelude.{◌≡◌, ◌≢◌, ◌<◌, ◌≤◌, length, IfOk, MatchOption};
ghost use Rattle.nat_events.specs.Grammar.{AcceptsRecords, BeginsWithRecord};
ghost use Rattle.nat_events.specs.Reading.{block_in, block_at, horizon_in, plan_record_in, record_in, spec_of_text, text_end};
ghost use Rattle.nat_events.specs.Reading.{IsSpecAnswer, IsTextPlace, ReadsAs};

use crate::bad::EventBad;
use crate::plan_reader::read_plan_text;
use crate::{BLOCK_SET, CLOSES, HORIZON_SET, OPENS, PLAN_SET};
use aftr_base::{
    Ip4, Ip6, LogEvent, Moment, PlanSpec, Prefix6, Subscriber, u16_in, u32_in, u64_in, u128_in,
};
use std::alloc::Global;

/// The event that the record of this set at the front of the bytes says, and the record's length in bytes. It is
/// `NotOurs` where no such record stands there. Memory is taken for a plan alone. A block's prefix and ports are as
/// they are spelled: bits may stand past the prefix's length, and the first port may be above the last.
pub fn read_event(alloc: Global, set: u16, bytes: &[u8]) -> Result<(LogEvent, usize), EventBad>
    ensures spelled { IfOk result (λ r. BeginsWithRecord set bytes.now r.0 r.1) }
    ensures accepts { AcceptsRecords set bytes.now result }
    ensures value { ReadsAs result (record_in set bytes.now) }
    ensures memory { result ≡ Err EventBad.NoMemory → set ≡ 258 }
{
    read_record(alloc, set, bytes)
}

// The same, by the set's number.
fn read_record(alloc: Global, set: u16, bytes: &[u8]) -> Result<(LogEvent, usize), EventBad>
    ensures value { ReadsAs result (record_in set bytes.now) }
    ensures memory { result ≡ Err EventBad.NoMemory → set ≡ 258 }
{
    match set {
        BLOCK_SET => read_block(bytes),
        HORIZON_SET => read_horizon(bytes),
        PLAN_SET => read_plan(alloc, bytes),
        _ => Err(EventBad::NotOurs),
    }
}

fn read_block(bytes: &[u8]) -> Result<(LogEvent, usize), EventBad>
    ensures value { ReadsAs result (block_in bytes.now) }
    ensures memory { result ≢ Err EventBad.NoMemory }
{
    if bytes.len() < 34 {
        return Err(EventBad::NotOurs);
    }
    let opens = match bytes[8] {
        OPENS => true,
        CLOSES => false,
        _ => return Err(EventBad::NotOurs),
    };
    Ok((block_at(bytes, opens), 34))
}

fn block_at(bytes: &[u8], opens: bool) -> LogEvent
    requires { 34 ≤ length bytes.now }
    ensures { result ≡ block_at bytes.now opens }
{
    LogEvent::Block {
        opens,
        owner: Subscriber(Prefix6 {
            bits: Ip6(u128_in(bytes, 9)),
            len: bytes[25],
        }),
        addr: Ip4(u32_in(bytes, 26)),
        first: u16_in(bytes, 30),
        last: u16_in(bytes, 32),
        at: Moment(u64_in(bytes, 0)),
    }
}

fn read_horizon(bytes: &[u8]) -> Result<(LogEvent, usize), EventBad>
    ensures value { ReadsAs result (horizon_in bytes.now) }
    ensures memory { result ≢ Err EventBad.NoMemory }
{
    if bytes.len() < 16 {
        return Err(EventBad::NotOurs);
    }
    let horizon = LogEvent::Horizon {
        at: Moment(u64_in(bytes, 0)),
        reach: Moment(u64_in(bytes, 8)),
    };
    Ok((horizon, 16))
}

fn read_plan(alloc: Global, bytes: &[u8]) -> Result<(LogEvent, usize), EventBad>
    ensures { ReadsAs result (plan_record_in bytes.now) }
{
    let Some((start, end)) = text_place(bytes) else {
        return Err(EventBad::NotOurs);
    };
    let spec = read_spec(alloc, &bytes[start..end])?;
    let plan = LogEvent::Plan {
        at: Moment(u64_in(bytes, 0)),
        spec,
    };
    Ok((plan, end))
}

// Where the text of a plan's record begins and ends, if it ends within the bytes (RFC 7011 7).
fn text_place(bytes: &[u8]) -> Option<(usize, usize)>
    ensures { MatchOption result (length bytes.now < text_end bytes.now) (λ place. IsTextPlace bytes.now place.0 place.1) }
{
    if bytes.len() < 9 {
        return None;
    }
    let (start, len) = if bytes[8] < 255 {
        (9, usize::from(bytes[8]))
    } else if bytes.len() < 11 {
        return None;
    } else {
        (11, usize::from(u16_in(bytes, 9)))
    };
    if start + len <= bytes.len() {
        Some((start, start + len))
    } else {
        None
    }
}

// The plan of a text; the empty one closes.
fn read_spec(alloc: Global, text: &[u8]) -> Result<Option<PlanSpec>, EventBad>
    ensures { IsSpecAnswer result (spec_of_text text.now) }
{
    if text.is_empty() {
        return Ok(None);
    }
    Ok(Some(read_plan_text(alloc, text)?))
}

//! The events of a whole message (RFC 7011 3.1), and the laws of messages.
ghost use Rattle.std.specs.Prelude.{◌≡◌, ◌==◌, ◌+◌, ◌++◌, ◌≤◌, bytes_eq, drop, IsErr, IfOk, IsOkAnd, OnOk, IsErrOf};
ghost use Rattle.std.specs.List.{list_all};
ghost use Rattle.nat_events.specs.Spelling.{templates};
ghost use Rattle.nat_events.specs.Grammar.{AcceptsLogMessages, MessagesReadBack, ReadsLogMessages, WritesMessages};
ghost use Rattle.nat_events.specs.Reading.{begins_with_templates, events_in_body, events_in_sets, events_of, is_in_place, most_of, optional_set};
ghost use Rattle.nat_events.specs.Reading.{is_padding, records_in, shortest_of, ReadsOn};

use crate::bad::EventsBad;
use crate::read::read_event;
use crate::write::template_set;
use crate::{BLOCK_SET, HORIZON_SET, PLAN_SET};
use aftr_base::{List, LogEvent};
use ipfix_reader::{MessageView, read_message};
use std::alloc::Global;

/// The set of templates (RFC 7011 3.3.2), and where its records begin.
const TEMPLATE_SET: u16 = 2;

const SET_HEADER_LEN: usize = 4;
/// The observation domain of every message.
const DOMAIN: u32 = 1;

/// Adds the events of a log message behind so many records to those that are there, in the order of its sets. It is
/// `NotOurs` where the bytes are no such message: one of other sets, of another number of records before it or with
/// padding that isn't zero. After an error some of the events may be there.
pub fn read_events(
    alloc: Global,
    count: u64,
    message: &[u8],
    out: &mut List<LogEvent>,
) -> Result<(), EventsBad>
    ensures ok { OnOk result (IsOkAnd (events_of count message.now) (λ events. out.new ≡ out.old ++ events)) }
    ensures not_ours { IsErrOf result EventsBad.NotOurs → IsErr (events_of count message.now) }
{
    let Ok(view) = read_message(message) else {
        return Err(EventsBad::NotOurs);
    };
    if !is_in_place(&view, count) || !begins_with_templates(&view) {
        return Err(EventsBad::NotOurs);
    }
    read_sets(alloc, &view, out)
}

// Whether the sequence number and the domain are those of a message behind so many records.
fn is_in_place(view: &MessageView<'_>, count: u64) -> bool
    ensures { result ≡ is_in_place count view.now.head }
{
    u64::from(view.seq()) == count % 0x1_0000_0000 && view.domain() == DOMAIN
}

fn begins_with_templates(view: &MessageView<'_>) -> bool
    ensures { result ≡ begins_with_templates view.now.sets }
{
    match view.set_at(0) {
        Some((id, body)) => id == TEMPLATE_SET && are_templates(body),
        None => false,
    }
}

fn are_templates(body: &[u8]) -> bool
    ensures { result ≡ bytes_eq body.now templates.body }
{
    body == &template_set()[SET_HEADER_LEN..]
}

// The events of the sets behind the templates.
fn read_sets(
    alloc: Global,
    view: &MessageView<'_>,
    out: &mut List<LogEvent>,
) -> Result<(), EventsBad>
    ensures ok { OnOk result (IsOkAnd (events_in_sets (drop 1 view.now.sets)) (λ events. out.new ≡ out.old ++ events)) }
    ensures not_ours { IsErrOf result EventsBad.NotOurs → IsErr (events_in_sets (drop 1 view.now.sets)) }
{
    let at = read_set(alloc, view, 1, HORIZON_SET, out)?;
    let at = read_set(alloc, view, at, PLAN_SET, out)?;
    let at = read_set(alloc, view, at, BLOCK_SET, out)?;
    match view.set_at(at) {
        Some(_) => Err(EventsBad::NotOurs),
        None => Ok(()),
    }
}

// The events of the set at this index, if it has this number, and the index of what follows.
fn read_set(
    alloc: Global,
    view: &MessageView<'_>,
    at: usize,
    set: u16,
    out: &mut List<LogEvent>,
) -> Result<usize, EventsBad>
    requires { at ≤ 3 }
    ensures ok { IfOk result (λ next. ReadsOn view.now.sets at next set out.old out.new) }
    ensures near { IfOk result (λ next. next ≤ at + 1) }
    ensures not_ours { IsErrOf result EventsBad.NotOurs → IsErr (optional_set set (drop at view.now.sets)) }
{
    match view.set_at(at) {
        Some((id, body)) if id == set => {
            read_body(alloc, set, body, out)?;
            Ok(at + 1)
        }
        _ => Ok(at),
    }
}

// The events of a set: of records, one at least, and padding.
fn read_body(
    alloc: Global,
    set: u16,
    body: &[u8],
    out: &mut List<LogEvent>,
) -> Result<(), EventsBad>
    ensures ok { OnOk result (IsOkAnd (events_in_body set body.now) (λ events. out.new ≡ out.old ++ events)) }
    ensures not_ours { IsErrOf result EventsBad.NotOurs → IsErr (events_in_body set body.now) }
{
    if is_padding(shortest_of(set), body) {
        return Err(EventsBad::NotOurs);
    }
    read_records(alloc, set, most_of(set, body), body, out)
}

// At most so many records, and then padding.
fn read_records(
    alloc: Global,
    set: u16,
    most: usize,
    body: &[u8],
    out: &mut List<LogEvent>,
) -> Result<(), EventsBad>
    ensures ok { OnOk result (IsOkAnd (records_in set most body.now) (λ events. out.new ≡ out.old ++ events)) }
    ensures not_ours { IsErrOf result EventsBad.NotOurs → IsErr (records_in set most body.now) }
{
    let mut rest = body;
    let mut left = most;
    'records: while !is_padding(shortest_of(set), rest) {
        if left == 0 {
            return Err(EventsBad::NotOurs);
        }
        let (event, len) = read_event(alloc, set, rest)?;
        out.push(event)?;
        rest = &rest[len..];
        left -= 1;
    }
    Ok(())
}

// Zeros, fewer than the shortest record of a set has bytes (RFC 7011 3.3.1).
fn is_padding(shortest: usize, bytes: &[u8]) -> bool
    ensures { result ≡ is_padding shortest bytes.now }
{
    bytes.len() < shortest && are_zeros(bytes)
}

fn are_zeros(bytes: &[u8]) -> bool
    ensures { result ≡ list_all (λ b. b == 0) bytes.now }
{
    bytes.iter().all(|b| *b == 0)
}

fn shortest_of(set: u16) -> usize
    ensures { result ≡ shortest_of set }
{
    match set {
        BLOCK_SET => 34,
        HORIZON_SET => 16,
        _ => 9,
    }
}

// One but for blocks, of which there are no more than bytes.
fn most_of(set: u16, body: &[u8]) -> usize
    ensures { result ≡ most_of set body.now }
{
    if set == BLOCK_SET { body.len() } else { 1 }
}

/// A law of `message` and `events_of`, with nothing to run: what is written is a log message, and reads back.
pub fn messages_read_back()
    ensures spelled { WritesMessages }
    ensures read { MessagesReadBack }
{}

/// A law of `events_of`, with nothing to run: it answers exactly where the bytes are a log message, and with the events
/// that this message tells.
pub fn messages_are_spelled()
    ensures spelled { ReadsLogMessages }
    ensures accepted { AcceptsLogMessages }
{}

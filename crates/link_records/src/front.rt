//! The record at the front of some bytes.
ghost use Rattle.std.specs.Prelude.{◌≡◌, ◌+◌, ◌≤◌, length};
ghost use Rattle.aftr_base.specs.Bytes.{u32_at, u64_at};
ghost use Rattle.link_records.specs.Frames.{input_limit, kind_of, frame_len};
ghost use Rattle.link_records.specs.Front.{Scans, HeadOf};

use aftr_base::{EventKind, MOMENT_LIMIT, Moment, u32_in, u64_in};

/// The offset, in bytes, by which each record of an input ends.
const INPUT_LIMIT: u64 = 1 << 50;

/// The bytes of a record before its body: the length, the kind and the moment.
pub(crate) const HEAD: usize = 13;

/// What a record says before its body.
#[derive(Clone, Copy)]
pub(crate) struct Head {
    pub(crate) kind: EventKind,
    pub(crate) at: Moment,
    /// The bytes of the whole record, from 13 to 65,588.
    pub(crate) len: usize,
}

/// What stands at the front of the bytes that are at hand.
#[derive(Clone, Copy)]
pub(crate) enum Front {
    /// A record, all of it.
    Whole(Head),
    /// Too few bytes to tell.
    Short,
    /// No record, whatever bytes come behind.
    Bad,
}

/// What stands at the front of these bytes, which begin at this offset of their input.
pub(crate) fn front_of(bytes: &[u8], at: u64) -> Front
    requires { at ≤ input_limit }
    ensures { Scans at bytes.now result }
{
    if bytes.len() < 4 {
        return Front::Short;
    }
    let length = u32_in(bytes, 0);
    if length < 9 || 65_584 < length {
        return Front::Bad;
    }
    let len = 4 + length as usize;
    if INPUT_LIMIT < at + len as u64 {
        return Front::Bad;
    }
    if bytes.len() < len {
        return Front::Short;
    }
    match head_of(bytes, len) {
        Some(head) => Front::Whole(head),
        None => Front::Bad,
    }
}

/// The head of the frame of this length, where its kind, body and moment are those of a record.
fn head_of(bytes: &[u8], len: usize) -> Option<Head>
    requires long { 13 ≤ len }
    requires whole { len ≤ length bytes.now }
    requires len { len ≡ frame_len bytes.now }
    ensures { HeadOf bytes.now result }
{
    let at = u64_in(bytes, 5);
    let kind = kind_of(bytes[4])?;
    if kind == EventKind::Tick && len != HEAD || MOMENT_LIMIT < at {
        return None;
    }
    Some(Head {
        kind,
        at: Moment(at),
        len,
    })
}

/// The kind of a kind byte.
fn kind_of(number: u8) -> Option<EventKind>
    ensures { result ≡ kind_of number }
{
    match number {
        1 => Some(EventKind::Softwire),
        2 => Some(EventKind::Public),
        3 => Some(EventKind::Tick),
        4 => Some(EventKind::Change),
        _ => None,
    }
}

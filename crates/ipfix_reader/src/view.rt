//! A message, read in place (RFC 7011 3.1, 3.3).
ghost use Rattle.std.specs.Prelude.{◌≡◌, ◌≤◌, ◌↔◌, length, slice_get, IsTrue, Some, None};
ghost use Rattle.std.specs.Prelude.{IfOk, IfErr, IfSome, IfNone, MatchOption};
ghost use Rattle.aftr_base.specs.Bytes.{u16_at};
ghost use Rattle.ipfix_writer.specs.Grammar.{set_of, sets_bytes, FitsMessage, SpellsMessage};
ghost use Rattle.ipfix_reader.specs.Reading.{AcceptsMessages, BeginsWithSet, IsFirstBad, SpellsFirst};

use crate::fault::BadIpfix;
use aftr_base::{u16_in, u32_in};
use ipfix_writer::is_set_id;
use std::marker::Model;

/// How many bytes a message's header has.
const HEADER_LEN: usize = 16;
/// How many bytes a set's header has.
const SET_HEADER_LEN: usize = 4;
/// The version of IPFIX.
const VERSION: u16 = 10;

/// A message, read in place. Contracts see what its header says, and its sets in order.
#[derive(Debug, Drop)]
pub struct MessageView<'a> {
    bytes: &'a [u8],
}

impl<'a> Model for MessageView<'a> {
    ghost use Rattle.ipfix_writer.specs.Grammar.{IpfixMessage, message_of, SpellsMessage};

    ghost Value = { IpfixMessage };

    ghost view = { λ m. message_of m.bytes.now };

    ghost invariant = { λ m. SpellsMessage m.bytes.now (message_of m.bytes.now) };
}

/// The message that these bytes are, all of them: a header with version 10 and the length of the
/// bytes, and sets that fill the rest. `BadIpfix` has the offset of the header, or else of the first
/// set, that isn't so: a set has an identifier of 2, 3 or from 256 on, and a length of at least 4 that
/// ends within the bytes.
pub fn read_message(bytes: &[u8]) -> Result<MessageView<'_>, BadIpfix>
    ensures spelled { IfOk result (λ m. SpellsMessage bytes.now m) }
    ensures accepts { AcceptsMessages bytes.now result }
    ensures bad { IfErr result (λ e. IsFirstBad bytes.now e.offset) }
{
    if !has_header(bytes) {
        return Err(BadIpfix { offset: 0 });
    }
    let mut rest = &bytes[HEADER_LEN..];
    while !rest.is_empty() {
        match first_set(rest) {
            Some(first) => rest = first.behind,
            None => {
                return Err(BadIpfix {
                    offset: bytes.len() - rest.len(),
                });
            }
        }
    }
    Ok(MessageView { bytes })
}

impl<'a> MessageView<'a> {
    /// The export time in seconds since 1970.
    pub fn time(&self) -> u32
        ensures { result ≡ self.now.head.time }
    {
        u32_in(self.bytes, 4)
    }

    /// The sequence number.
    pub fn seq(&self) -> u32
        ensures { result ≡ self.now.head.seq }
    {
        u32_in(self.bytes, 8)
    }

    /// The observation domain.
    pub fn domain(&self) -> u32
        ensures { result ≡ self.now.head.domain }
    {
        u32_in(self.bytes, 12)
    }

    /// How many sets there are.
    pub fn set_count(&self) -> usize
        ensures { result ≡ length self.now.sets }
    {
        let mut count = 0;
        let mut rest = self.sets();
        while let Some(first) = first_set(rest) {
            count += 1;
            rest = first.behind;
        }
        count
    }

    /// The set at this index, from 0: its identifier, and what stands behind its header. None
    /// exactly where there are no more sets.
    pub fn set_at(&self, k: usize) -> Option<(u16, &'a [u8])>
        ensures { MatchOption result (slice_get self.now.sets k ≡ None)
            (λ s. slice_get self.now.sets k ≡ Some (set_of s.0 s.1.now)) }
    {
        let mut left = k;
        let mut rest = self.sets();
        while let Some(first) = first_set(rest) {
            if left == 0 {
                return Some((first.id, first.body));
            }
            left -= 1;
            rest = first.behind;
        }
        None
    }

    // The bytes of the sets, which stand behind the header.
    fn sets(&self) -> &'a [u8]
        ensures value { result.now ≡ sets_bytes self.now.sets }
        ensures fits { FitsMessage self.now }
    {
        &self.bytes[HEADER_LEN..]
    }
}

// Whether the bytes begin with a header that counts all of them.
fn has_header(bytes: &[u8]) -> bool
    ensures { IsTrue result ↔ ((16 ≤ length bytes.now) × (u16_at 0 bytes.now ≡ 10)
        × (u16_at 2 bytes.now ≡ length bytes.now)) }
{
    bytes.len() >= HEADER_LEN
        && u16_in(bytes, 0) == VERSION
        && usize::from(u16_in(bytes, 2)) == bytes.len()
}

// A set at the front of some bytes.
#[derive(Drop)]
struct FirstSet<'a> {
    // Its identifier.
    id: u16,
    // What stands behind its header.
    body: &'a [u8],
    // The bytes behind it.
    behind: &'a [u8],
}

// The set at the front of these bytes, where there is one.
fn first_set(bytes: &[u8]) -> Option<FirstSet<'_>>
    ensures found { IfSome result (λ f.
        SpellsFirst bytes.now (set_of f.id f.body.now) f.behind.now) }
    ensures none { IfNone result (¬ BeginsWithSet bytes.now) }
{
    if bytes.len() < SET_HEADER_LEN {
        return None;
    }
    let id = u16_in(bytes, 0);
    let len = usize::from(u16_in(bytes, 2));
    if len < SET_HEADER_LEN || len > bytes.len() || !is_set_id(id) {
        return None;
    }
    Some(FirstSet {
        id,
        body: &bytes[SET_HEADER_LEN..len],
        behind: &bytes[len..],
    })
}

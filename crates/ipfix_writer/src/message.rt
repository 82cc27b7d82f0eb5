//! A message that is put together set by set (RFC 7011 3.1, 3.3).
ghost use Rattle.std.specs.Prelude.{◌≡◌, ◌<◌, ◌≤◌, ◌+◌, ◌↔◌, [], ◌∷◌, ◌++◌, length, take, drop, vec_len, vec_capacity, IsTrue};
ghost use Rattle.std.specs.Prelude.{IfOk, IsErrOf, OnOk, OnErr};
ghost use Rattle.aftr_base.specs.Bytes.{be16};
ghost use Rattle.ipfix_writer.specs.Grammar.{is_set_id, head_bytes, message_bytes, message_len, set_bytes, set_of, FitsMessage};
ghost use Rattle.std.specs.Borrow.{sem};
ghost use Rattle.ipfix_writer.specs.Lending.{StaysAsItWas};
ghost use Rattle.ipfix_writer.specs.Draft.{empty_message, len_with, with_len_of, with_set};

use aftr_base::{NoMemory, u32_in};
use byteorder::{BigEndian, ByteOrder};
use std::alloc::Global;
use std::marker::Model;

/// How many bytes a set's header has.
const SET_HEADER_LEN: usize = 4;
/// How many bytes a message has at most: what its 16-bit length counts.
const MAX_LEN: usize = 65535;

/// Why a set wasn't put into a message.
#[derive(Clone, Copy, Debug, PartialEq, Eq)]
pub enum PutBad {
    /// The message would be longer than 65,535 bytes.
    Full,
    /// Memory ran out.
    NoMemory,
}

/// A message that is put together. Contracts see the message so far, and its room: how many bytes
/// it may come to before it needs further memory.
#[derive(Debug, Drop)]
pub struct Message {
    bytes: Vec<u8>,
}

impl Model for Message {
    ghost use Rattle.std.specs.Prelude.{vec_capacity};
    ghost use Rattle.ipfix_writer.specs.Grammar.{message_of, SpellsMessage};
    ghost use Rattle.ipfix_writer.specs.Draft.{IpfixDraft};

    ghost Value = { IpfixDraft };

    ghost view = { λ m. record { message = message_of m.bytes.items; room = vec_capacity m.bytes } };

    ghost invariant = { λ m. SpellsMessage m.bytes.items (message_of m.bytes.items) };
}

impl Message {
    /// A message without sets: its export time in seconds since 1970, its sequence number and its
    /// observation domain (RFC 7011 3.1).
    pub fn new(alloc: Global, time: u32, seq: u32, domain: u32) -> Result<Message, NoMemory>
        ensures ok { IfOk result (λ m. m.message ≡ empty_message time seq domain) }
    {
        let bytes = Vec::from_slice(alloc, &header_octets(time, seq, domain))?;
        Ok(Message { bytes })
    }

    /// How many bytes the message has so far, its header among them: at most 65,535.
    pub fn len(&self) -> usize
        ensures value { result ≡ message_len self.now.message }
        ensures within { result ≤ 65535 }
    {
        self.bytes.len()
    }

    /// Makes room for this many further bytes, sets' headers among them: there is always memory
    /// where the room suffices. `NoMemory` changes nothing.
    pub fn reserve(&mut self, more: usize) -> Result<(), NoMemory>
        ensures same { self.new.message ≡ self.old.message }
        ensures ok { OnOk result (message_len self.new.message + more ≤ self.new.room) }
        ensures no_memory { OnErr result (self.old.room < message_len self.old.message + more) }
        ensures err { OnErr result (self.new ≡ self.old) }
        ensures room { self.old.room ≤ self.new.room }
    {
        self.bytes.reserve(more)?;
        Ok(())
    }

    /// Adds a set behind the others: its identifier, and its records (RFC 7011 3.3.2). It is `Full`
    /// exactly where the message would be longer than 65,535 bytes, and there is always memory where
    /// the room suffices. An error changes nothing.
    pub fn put_set(&mut self, id: u16, body: &[u8]) -> Result<(), PutBad>
        requires { IsTrue (is_set_id id) }
        ensures ok { OnOk result (self.new.message ≡ with_set self.old.message id body.now) }
        ensures full { (result ≡ Err PutBad.Full) ↔ (65535 < len_with self.old.message body.now) }
        ensures no_memory { IsErrOf result PutBad.NoMemory
            → self.old.room < len_with self.old.message body.now }
        ensures err { OnErr result (self.new ≡ self.old) }
        ensures room { self.old.room ≤ self.new.room }
    {
        if !has_place(self.len(), body.len()) {
            return Err(PutBad::Full);
        }
        if append_set(&mut self.bytes, id, body).is_err() {
            return Err(PutBad::NoMemory);
        }
        Ok(())
    }

    /// The message's bytes. It takes no memory, and the message stays as it is.
    pub fn finish(&mut self) -> &[u8]
        ensures value { result.now ≡ message_bytes self.old.message }
        ensures fits { FitsMessage self.old.message }
        ensures* stays { sem 𝓛 (StaysAsItWas self.entry) }
    {
        self.bytes.as_slice()
    }

    /// Begins another message of the same domain in the room of this one. It takes no memory.
    pub fn clear(&mut self, time: u32, seq: u32)
        ensures value { self.new.message ≡ empty_message time seq self.old.message.head.domain }
        ensures room { self.old.room ≤ self.new.room }
    {
        let header = header_octets(time, seq, u32_in(self.bytes.as_slice(), 12));
        self.bytes.clear();
        append(&mut self.bytes, &header);
    }
}

// Whether a message of this length has a place for a set with so many bytes behind its header.
fn has_place(len: usize, body_len: usize) -> bool
    requires { len ≤ 65535 }
    ensures { IsTrue result ↔ (len + (4 + body_len) ≤ 65535) }
{
    body_len <= MAX_LEN && len + SET_HEADER_LEN + body_len <= MAX_LEN
}

// The header of a message without sets.
#[tactic(auto, unfolding(aftr_base::specs::Bytes::be16, aftr_base::specs::Bytes::be32))]
fn header_octets(time: u32, seq: u32, domain: u32) -> [u8; 16]
    ensures { result ≡ head_bytes 16 (empty_message time seq domain).head }
{
    let mut bytes = [0u8; 16];
    BigEndian::write_u16(&mut bytes, 10);
    BigEndian::write_u16(&mut bytes[2..], 16);
    BigEndian::write_u32(&mut bytes[4..], time);
    BigEndian::write_u32(&mut bytes[8..], seq);
    BigEndian::write_u32(&mut bytes[12..], domain);
    bytes
}

// The header of a set of this length.
#[tactic(auto, unfolding(aftr_base::specs::Bytes::be16))]
fn set_header_octets(id: u16, len: u16) -> [u8; 4]
    ensures { result ≡ be16 id ++ be16 len }
{
    let mut bytes = [0u8; 4];
    BigEndian::write_u16(&mut bytes, id);
    BigEndian::write_u16(&mut bytes[2..], len);
    bytes
}

// Appends a set to a message's bytes, and counts it in the message's length. `NoMemory` changes
// nothing.
fn append_set(bytes: &mut Vec<u8>, id: u16, body: &[u8]) -> Result<(), NoMemory>
    requires header { 16 ≤ vec_len bytes.old }
    requires within { vec_len bytes.old + (4 + length body.now) ≤ 65535 }
    ensures ok { OnOk result (bytes.new.items
        ≡ with_len_of (bytes.old.items ++ set_bytes (set_of id body.now))) }
    ensures err { OnErr result (bytes.new.items ≡ bytes.old.items) }
    ensures room { vec_capacity bytes.old ≤ vec_capacity bytes.new }
    ensures same_room { OnErr result (vec_capacity bytes.new ≡ vec_capacity bytes.old) }
    ensures no_memory { OnErr result (vec_capacity bytes.old
        < vec_len bytes.old + (4 + length body.now)) }
{
    let len = SET_HEADER_LEN + body.len();
    bytes.reserve(len)?;
    append(bytes, &set_header_octets(id, len as u16));
    append(bytes, body);
    write_len(bytes);
    Ok(())
}

// Appends these bytes, for which there is room.
fn append(bytes: &mut Vec<u8>, more: &[u8])
    requires { vec_len bytes.old + length more.now ≤ vec_capacity bytes.old }
    ensures items { bytes.new.items ≡ bytes.old.items ++ more.now }
    ensures room { vec_capacity bytes.old ≤ vec_capacity bytes.new }
{
    match bytes.extend_from_slice(more) {
        Ok(()) => {}
        Err(_) => unreachable!(),
    }
}

// Writes how many bytes there are into the header's length.
#[tactic(auto, unfolding(aftr_base::specs::Bytes::be16))]
fn write_len(bytes: &mut Vec<u8>)
    requires header { 16 ≤ vec_len bytes.old }
    requires within { vec_len bytes.old ≤ 65535 }
    ensures items { bytes.new.items ≡ with_len_of bytes.old.items }
    ensures room { vec_capacity bytes.new ≡ vec_capacity bytes.old }
{
    let len = (bytes.len() as u16).to_be_bytes();
    bytes[2] = len[0];
    bytes[3] = len[1];
}

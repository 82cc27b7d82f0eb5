//! ICMP errors that the translator makes.
ghost use Rattle.std.specs.Prelude.{◌≡◌, ◌+◌, ◌≤◌, ◌++◌, ◌∷◌, [], List, ℕ, Ok, OnErr, OnOk, length, take};
ghost use Rattle.aftr_base.specs.Bytes.{be16, be32};
ghost use Rattle.wire_ip4.specs.Grammar.{Header, header_bytes, header_with, packet_of};
ghost use Rattle.icmp_xlate.specs.Made.{ReadsBack, code_of, error_fields, error_message, is_error, made_error};
ghost use Rattle.icmp_xlate.specs.Made.{sound_message, type_of, word_of};

use aftr_base::{Ip4, List, NoMemory, sum16};
use arrayvec::ArrayVec;
use byteorder::{BigEndian, ByteOrder};
use wire_ip4::{Ip4Fields, Ip4View, write_header};

/// What a made error says.
#[derive(Clone, Copy, Debug, PartialEq, Eq)]
pub enum MadeError {
    /// Host unreachable: type 3, code 1, where a mapping is refused (RFC 6888 section 3, REQ-11).
    HostUnreachable,
    /// Fragmentation needed and DF set: type 3, code 4, with the MTU of the next hop in bytes
    /// (RFC 1191 section 4).
    TooBig(u16),
    /// Time to live exceeded in transit: type 11, code 0.
    TimeExceeded,
}

impl MadeError {
    // the type
    fn number(self) -> u8
        ensures { result ≡ type_of self }
    {
        match self {
            MadeError::HostUnreachable | MadeError::TooBig(_) => 3,
            MadeError::TimeExceeded => 11,
        }
    }

    // the code
    fn code(self) -> u8
        ensures { result ≡ code_of self }
    {
        match self {
            MadeError::HostUnreachable => 1,
            MadeError::TooBig(_) => 4,
            MadeError::TimeExceeded => 0,
        }
    }

    // the second word
    fn word(self) -> u32
        ensures { result ≡ word_of self }
    {
        match self {
            MadeError::TooBig(mtu) => u32::from(mtu),
            MadeError::HostUnreachable | MadeError::TimeExceeded => 0,
        }
    }
}

/// Adds an ICMP error about an IPv4 packet without options behind `out`: from 192.0.0.1, the translator's
/// address on the tunnel (RFC 6333 section 5.7), to the packet's source, with a TTL of 64, DF set, and
/// TOS and identification 0. It quotes the packet's header as it stands and the first 8 bytes behind it,
/// or all of them where there are fewer; they end at its total length. About an ICMP error or a redirect
/// none is made, as `is_error` says: the answer is then Ok, and `out` stays. `NoMemory` changes nothing.
pub fn make_error(error: MadeError, offending: &[u8], out: &mut List<u8>) -> Result<(), NoMemory>
    requires packet { (h : Header) × (payload : List ℕ)
        × (packet_of offending.now ≡ Ok (h, payload)) × (h.options ≡ []) }
    ensures ok { OnOk result ((h : Header) (payload : List ℕ)
        → packet_of offending.now ≡ Ok (h, payload) → h.options ≡ []
        → out.new ≡ out.old ++ made_error error h payload) }
    ensures err { OnErr result (out.new ≡ out.old) }
    ensures reads_back { (h : Header) (payload : List ℕ)
        → packet_of offending.now ≡ Ok (h, payload) → h.options ≡ []
        → ReadsBack error h payload }
{
    let Ok(packet) = Ip4View::read(offending) else {
        unreachable!()
    };
    let fields = packet.fields();
    let payload = packet.payload();
    if is_error(fields.proto, payload) {
        return Ok(());
    }
    let message = message_about(error, header_in(offending), payload);
    let packet = packet_to(fields.src, message.as_slice());
    out.extend_from_slice(packet.as_slice())
}

// the header of a packet without options
fn header_in(packet: &[u8]) -> &[u8]
    requires { 20 ≤ length packet.now }
    ensures { result.now ≡ take 20 packet.now }
{
    &packet[..20]
}

/// Whether a packet of this protocol with this payload is an ICMP error or a redirect (types 3, 4, 5, 11 and 12). About these no
/// error is made (RFC 1122 section 3.2.2), so that two hosts don't answer each other's errors for ever. An empty payload is none,
/// and a message's checksum isn't looked at.
pub fn is_error(proto: u8, payload: &[u8]) -> bool
    ensures { result ≡ is_error proto payload.now }
{
    match payload {
        [kind, ..] => proto == 1 && matches!(*kind, 3 | 4 | 5 | 11 | 12),
        [] => false,
    }
}

// the message that quotes this header and the bytes behind it, with its checksum
fn message_about(error: MadeError, header: &[u8], payload: &[u8]) -> ArrayVec<u8, 36>
    requires bare { length header.now ≡ 20 }
    ensures { (h : Header) → header.now ≡ header_bytes h
        → result.items ≡ sound_message error h payload.now }
{
    let few = if payload.len() < 8 {
        payload
    } else {
        &payload[..8]
    };
    let sum = sum16(message_with(error, 0, header, few).as_slice());
    message_with(error, 65535 - sum, header, few)
}

// the message with this checksum
#[tactic(auto, unfolding(aftr_base::specs::Bytes::be16, aftr_base::specs::Bytes::be32))]
fn message_with(error: MadeError, sum: u16, header: &[u8], few: &[u8]) -> ArrayVec<u8, 36>
    requires bare { length header.now ≡ 20 }
    requires few { length few.now ≤ 8 }
    ensures { result.items ≡ type_of error ∷ code_of error
        ∷ (be16 sum ++ be32 (word_of error) ++ (header.now ++ few.now)) }
{
    let mut front = [0u8; 8];
    front[0] = error.number();
    front[1] = error.code();
    BigEndian::write_u16(&mut front[2..], sum);
    BigEndian::write_u32(&mut front[4..], error.word());
    joined(&front, header, few)
}

// parts of at most 36 bytes in a row
fn joined(front: &[u8], header: &[u8], few: &[u8]) -> ArrayVec<u8, 36>
    requires { length front.now + length header.now + length few.now ≤ 36 }
    ensures { result.items ≡ front.now ++ (header.now ++ few.now) }
{
    let mut bytes = ArrayVec::new();
    match bytes.try_extend_from_slice(front) {
        Ok(()) => {}
        Err(_) => unreachable!(),
    }
    match bytes.try_extend_from_slice(header) {
        Ok(()) => {}
        Err(_) => unreachable!(),
    }
    match bytes.try_extend_from_slice(few) {
        Ok(()) => {}
        Err(_) => unreachable!(),
    }
    bytes
}

// the packet that brings a message to an address
fn packet_to(to: Ip4, message: &[u8]) -> ArrayVec<u8, 56>
    requires { length message.now ≤ 36 }
    ensures { result.items
        ≡ header_bytes (header_with (error_fields to (length message.now))) ++ message.now }
{
    let mut header = ArrayVec::new();
    let fields = Ip4Fields {
        tos: 0,
        total: 20 + message.len() as u16,
        id: 0,
        dont_cut: true,
        more: false,
        offset: 0,
        ttl: 64,
        proto: 1,
        src: Ip4(0xc000_0001),
        dst: to,
    };
    write_header(&fields, &mut header);
    let mut packet = ArrayVec::new();
    match packet.try_extend_from_slice(header.as_slice()) {
        Ok(()) => {}
        Err(_) => unreachable!(),
    }
    match packet.try_extend_from_slice(message) {
        Ok(()) => {}
        Err(_) => unreachable!(),
    }
    packet
}

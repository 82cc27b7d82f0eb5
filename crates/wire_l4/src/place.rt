//! The places of a packet's transport, written in place (RFC 3022 sections 4.1 and 4.2, RFC 5508
//! section 3.1).
ghost use Rattle.std.specs.Prelude.{◌≡◌, ◌+◌, ◌%◌, ◌≤◌, ℕ, List, ◌∷◌, [], ◌++◌, length, take, drop, Ok, Some, if◌then◌else◌};
ghost use Rattle.aftr_base.specs.Bytes.{be16};
ghost use Rattle.aftr_base.specs.Checksum.{adjusted};
ghost use Rattle.wire_l4.specs.Grammar.{Echo, Transport, echo_bytes, echo_of, header_len};
ghost use Rattle.wire_l4.specs.Grammar.{segment_at, segment_bytes, transport_bytes, transport_in, transport_of};
ghost use Rattle.wire_l4.specs.Places.{HasChecksum, covered, place_words, port_at, replaced, segment_sum};

use aftr_base::{Ext, Proto, adjust, u16_in};
use byteorder::{BigEndian, ByteOrder};

/// Puts the place `new` where `old` stands, on the source's side or the destination's, and mends
/// the checksum (RFC 1624 section 3). Of a place the bytes bear the port, or an echo message's
/// identifier, whichever side is meant; its address stands in the IP header, yet the checksums of
/// UDP and TCP cover it. A UDP checksum of 0 says that there is none and stays, and one that comes
/// out as 0 is written as 65535. All other bytes stay.
pub fn set_place(proto: Proto, bytes: &mut [u8], source: bool, old: Ext, new: Ext)
    requires whole { header_len proto ≤ length bytes.old }
    requires there { port_at source (transport_in proto bytes.old) ≡ old.port }
    ensures value { bytes.new ≡
        transport_bytes (replaced source old new (transport_in proto bytes.old)) }
    ensures reads_back { (t : Transport) → transport_of proto bytes.old ≡ Ok t →
        transport_of proto bytes.new ≡ Ok (replaced source old new t) }
    ensures sound { HasChecksum proto bytes.old →
        covered proto new bytes.new % 65535 ≡ covered proto old bytes.old % 65535 }
{
    match proto {
        Proto::Udp => {
            let sum = udp_sum(u16_in(bytes, 6), old, new);
            set_port(bytes, source, 6, new.port, sum);
        }
        Proto::Tcp => {
            let sum = tcp_sum(u16_in(bytes, 16), old, new);
            set_port(bytes, source, 16, new.port, sum);
        }
        Proto::Icmp => set_identifier(bytes, old.port, new.port),
    }
}

// the words that a place has in the checksum's sum
fn words_of(place: Ext) -> [u16; 3]
    ensures { result ≡ place_words place }
{
    let [high, low] = place.addr.words();
    [high, low, place.port]
}

// the checksum of a datagram after one of its places became another
fn udp_sum(sum: u16, old: Ext, new: Ext) -> u16
    ensures { result ≡ segment_sum Proto.Udp old new sum }
{
    if sum == 0 {
        return 0;
    }
    let mended = adjust(sum, &words_of(old), &words_of(new));
    if mended == 0 { 65535 } else { mended }
}

// the checksum of a segment after one of its places became another
fn tcp_sum(sum: u16, old: Ext, new: Ext) -> u16
    ensures { result ≡ segment_sum Proto.Tcp old new sum }
{
    adjust(sum, &words_of(old), &words_of(new))
}

// puts the port on one side, and the checksum at its offset
fn set_port(bytes: &mut [u8], source: bool, sum_at: usize, port: u16, sum: u16)
    requires behind { 4 ≤ sum_at }
    requires room { sum_at + 2 ≤ length bytes.old }
    ensures { let s = segment_at sum_at bytes.old in
        bytes.new ≡ segment_bytes (record s {
          src = if source then port else s.src;
          dst = if source then s.dst else port;
          sum = Some sum;
        }) }
{
    let port_at = if source { 0 } else { 2 };
    set_u16(bytes, port_at, port);
    set_u16(bytes, sum_at, sum);
}

// puts the identifier of an echo message, and mends its checksum
fn set_identifier(bytes: &mut [u8], old: u16, new: u16)
    requires { 8 ≤ length bytes.old }
    ensures { let e = echo_of bytes.old in
        bytes.new ≡ echo_bytes (record e { id = new; sum = adjusted e.sum (old ∷ []) (new ∷ []) }) }
{
    let sum = adjust(u16_in(bytes, 2), &[old], &[new]);
    set_u16(bytes, 2, sum);
    set_u16(bytes, 4, new);
}

// puts a number at an offset
#[tactic(auto, unfolding(aftr_base::specs::Bytes::be16))]
fn set_u16(bytes: &mut [u8], at: usize, value: u16)
    requires { at + 2 ≤ length bytes.old }
    ensures { bytes.new ≡ take at bytes.old ++ be16 value ++ drop (at + 2) bytes.old }
{
    BigEndian::write_u16(&mut bytes[at..at + 2], value);
}

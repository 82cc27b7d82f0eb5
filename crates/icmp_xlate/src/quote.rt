//! The packet that an error quotes: what of it a checksum covers, and its places written in place.
ghost use Rattle.std.specs.Prelude.{◌≡◌, ◌+◌, ◌≤◌, ◌∷◌, ◌++◌, [], List, ℕ, length, Ok, Some};
ghost use Rattle.aftr_base.specs.declared.value.Ext.{Ext};
ghost use Rattle.wire_ip4.specs.Grammar.{Header, IsHeader, header_bytes};
ghost use Rattle.wire_l4.specs.Grammar.{Transport, segment_bytes, transport_bytes};
ghost use Rattle.wire_l4.specs.Places.{place_words, port_at, replaced};
ghost use Rattle.wire_icmp.specs.Quoted.{Quoted, SpellsQuoted, quoted_bytes, quoted_place, quoted_segment, quoted_transport};
ghost use Rattle.icmp_xlate.specs.Translated.{quoted_with, readdressed, segment_with, sum_in, words_with};

use crate::octets::{set_u16, set_u32};
use aftr_base::{Ext, Ip4, Proto, adjust, u16_in, u32_in};
use arrayvec::ArrayVec;
use wire_l4::set_place;

// where the checksum of a quoted TCP segment ends
const TCP_SUM_END: usize = 18;

/// Replaces the source address of a header without options, or its destination, and mends the checksum
/// (RFC 1624 section 3). The TTL and all other bytes stay.
pub(crate) fn readdress(bytes: &mut [u8], source: bool, addr: Ip4)
    requires header { 20 ≤ length bytes.old }
    ensures value { (h : Header) (rest : List ℕ) → IsHeader h → h.options ≡ []
        → bytes.old ≡ header_bytes h ++ rest
        → bytes.new ≡ header_bytes (readdressed source addr h) ++ rest }
{
    let at = if source { 12 } else { 16 };
    let old = Ip4(u32_in(bytes, at)).words();
    let sum = adjust(u16_in(bytes, 10), &old, &addr.words());
    set_u16(bytes, 10, sum);
    set_u32(bytes, at, addr.0);
}

/// The words of a quoted packet that a new place may change, the checksums among them, where `place` is
/// the one that it has now.
pub(crate) fn changing_words(quoted: &[u8], place: Ext) -> ArrayVec<u16, 5>
    requires header { 28 ≤ length quoted.now }
    ensures value { (q : Quoted) → SpellsQuoted quoted.now q → result.items ≡ words_with place q }
{
    let [high, low, port] = words_of(place);
    let mut words = ArrayVec::new();
    words.push(u16_in(quoted, 10));
    words.push(high);
    words.push(low);
    words.push(port);
    if let Some(sum) = front_sum(quoted[9], &quoted[20..]) {
        words.push(sum);
    }
    words
}

// the checksum of a quoted transport, where it is there
fn front_sum(number: u8, front: &[u8]) -> Option<u16>
    requires some { 8 ≤ length front.now }
    ensures value { (t : Transport) → quoted_transport number front.now ≡ Some t
        → result ≡ sum_in t }
{
    match number {
        17 => Some(u16_in(front, 6)),
        6 => segment_sum(front),
        _ => Some(u16_in(front, 2)),
    }
}

// the checksum of a TCP segment that may be cut before it
fn segment_sum(front: &[u8]) -> Option<u16>
    ensures { result ≡ (quoted_segment front.now).sum }
{
    if front.len() < TCP_SUM_END {
        None
    } else {
        Some(u16_in(front, 16))
    }
}

/// Replaces the place on one side of a quoted packet, and mends its header's checksum and, where it is
/// there, its transport's.
pub(crate) fn set_places(quoted: &mut [u8], source: bool, old: Ext, new: Ext)
    requires header { 28 ≤ length quoted.old }
    requires quotes { (q : Quoted) × SpellsQuoted quoted.old q × (quoted_place source q ≡ old) }
    ensures value { (q : Quoted) → SpellsQuoted quoted.old q → quoted_place source q ≡ old
        → quoted.new ≡ quoted_bytes (quoted_with source new q) }
{
    let number = quoted[9];
    readdress(quoted, source, new.addr);
    set_front(number, &mut quoted[20..], source, old, new);
}

// replaces the port on one side of a quoted transport, and mends the checksum where it is there
fn set_front(number: u8, front: &mut [u8], source: bool, old: Ext, new: Ext)
    requires some { 8 ≤ length front.old }
    requires quotes { (t : Transport) × (quoted_transport number front.old ≡ Some t)
        × (port_at source t ≡ old.port) }
    ensures value { (t : Transport) → quoted_transport number front.old ≡ Some t
        → front.new ≡ transport_bytes (replaced source old new t) }
{
    match number {
        17 => set_place(Proto::Udp, front, source, old, new),
        6 => set_segment(front, source, old, new),
        _ => set_place(Proto::Icmp, front, source, old, new),
    }
}

// the same of a TCP segment that may be cut before its checksum
fn set_segment(front: &mut [u8], source: bool, old: Ext, new: Ext)
    requires some { 8 ≤ length front.old }
    ensures value { front.new
        ≡ segment_bytes (segment_with source old new (quoted_segment front.old)) }
{
    let at = if source { 0 } else { 2 };
    if front.len() < TCP_SUM_END {
        set_u16(front, at, new.port);
    } else {
        let sum = adjust(u16_in(front, 16), &words_of(old), &words_of(new));
        set_u16(front, at, new.port);
        set_u16(front, 16, sum);
    }
}

// the words that a place has in a checksum's sum
fn words_of(place: Ext) -> [u16; 3]
    ensures { result ≡ place_words place }
{
    let [high, low] = place.addr.words();
    [high, low, place.port]
}

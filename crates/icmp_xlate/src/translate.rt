//! ICMP errors whose quoted packet is translated with them (RFC 5508 section 4).
ghost use Rattle.std.specs.Prelude.{◌≡◌, ◌+◌, ◌≤◌, ◌++◌, List, ℕ, true, false, not, length, take, drop};
ghost use Rattle.aftr_base.specs.Checksum.{sum16};
ghost use Rattle.wire_ip4.specs.Grammar.{Header};
ghost use Rattle.wire_icmp.specs.Quoted.{Report, SpellsReport, quoted_place, report_bytes};
ghost use Rattle.icmp_xlate.specs.Translated.{SpellsError, error_with, readdressed, translated};

use crate::octets::set_u16;
use crate::quote::{changing_words, readdress, set_places};
use aftr_base::{Ext, adjust, u16_in};

/// Puts the place `new` where `old` stands in the packet that an ICMP error quotes, on its source's side
/// or its destination's, over the error's own bytes, which are those behind its IPv4 header. The quoted
/// header's checksum, the quoted transport's, where those bytes are there, and the error's are updated
/// (RFC 1624 section 3): a quoted UDP checksum of 0 stays, and one that comes out as 0 is written as
/// 65535. All other bytes stay.
pub fn set_quoted_place(message: &mut [u8], source: bool, old: Ext, new: Ext)
    requires quotes { (r : Report) × SpellsReport message.old r
        × (quoted_place source r.quoted ≡ old) }
    ensures value { (r : Report) → SpellsReport message.old r → quoted_place source r.quoted ≡ old
        → message.new ≡ report_bytes (translated source new r) }
    ensures reads_back { (r : Report) → SpellsReport message.old r
        → quoted_place source r.quoted ≡ old
        → SpellsReport message.new (translated source new r) }
    ensures sound { sum16 message.old ≡ 65535 → sum16 message.new ≡ 65535 }
{
    set_in_message(message, source, old, new);
}

// the same of a message that is long enough
fn set_in_message(message: &mut [u8], source: bool, old: Ext, new: Ext)
    requires header { 36 ≤ length message.old }
    requires quotes { (r : Report) × SpellsReport message.old r
        × (quoted_place source r.quoted ≡ old) }
    ensures value { (r : Report) → SpellsReport message.old r → quoted_place source r.quoted ≡ old
        → message.new ≡ report_bytes (translated source new r) }
{
    let before = changing_words(&message[8..], old);
    set_places(&mut message[8..], source, old, new);
    let after = changing_words(&message[8..], new);
    let sum = adjust(u16_in(message, 2), before.as_slice(), after.as_slice());
    set_u16(message, 2, sum);
}

/// Translates an ICMP error on its way in, over the whole packet: the source place of the packet that it
/// quotes, `old`, becomes the inner place `new`, and the error's destination the inner address. All
/// checksums are mended as `set_quoted_place` says, and the error's header's too. The TTL stays.
pub fn error_in(packet: &mut [u8], old: Ext, new: Ext)
    requires error { (h : Header) × (r : Report) × SpellsError packet.old h r
        × (quoted_place true r.quoted ≡ old) }
    ensures value { (h : Header) (r : Report) → SpellsError packet.old h r
        → quoted_place true r.quoted ≡ old → packet.new ≡ error_with false new h r }
    ensures reads_back { (h : Header) (r : Report) → SpellsError packet.old h r
        → quoted_place true r.quoted ≡ old
        → SpellsError packet.new (readdressed false new.addr h) (translated true new r) }
    ensures header_sound { sum16 (take 20 packet.old) ≡ 65535
        → sum16 (take 20 packet.new) ≡ 65535 }
    ensures message_sound { sum16 (drop 20 packet.old) ≡ 65535
        → sum16 (drop 20 packet.new) ≡ 65535 }
{
    translate(packet, false, old, new);
}

/// Translates an ICMP error on its way out, over the whole packet: the destination place of the packet
/// that it quotes, `old`, becomes the external place `new`, and the error's source the external address.
/// All checksums are mended as `set_quoted_place` says, and the error's header's too. The TTL stays.
pub fn error_out(packet: &mut [u8], old: Ext, new: Ext)
    requires error { (h : Header) × (r : Report) × SpellsError packet.old h r
        × (quoted_place false r.quoted ≡ old) }
    ensures value { (h : Header) (r : Report) → SpellsError packet.old h r
        → quoted_place false r.quoted ≡ old → packet.new ≡ error_with true new h r }
    ensures reads_back { (h : Header) (r : Report) → SpellsError packet.old h r
        → quoted_place false r.quoted ≡ old
        → SpellsError packet.new (readdressed true new.addr h) (translated false new r) }
    ensures header_sound { sum16 (take 20 packet.old) ≡ 65535
        → sum16 (take 20 packet.new) ≡ 65535 }
    ensures message_sound { sum16 (drop 20 packet.old) ≡ 65535
        → sum16 (drop 20 packet.new) ≡ 65535 }
{
    translate(packet, true, old, new);
}

// the address on one side of a packet, and the place on the other side of what its error quotes
fn translate(packet: &mut [u8], source: bool, old: Ext, new: Ext)
    requires header { 56 ≤ length packet.old }
    requires error { (h : Header) × (r : Report) × SpellsError packet.old h r
        × (quoted_place (not source) r.quoted ≡ old) }
    ensures value { (h : Header) (r : Report) → SpellsError packet.old h r
        → quoted_place (not source) r.quoted ≡ old → packet.new ≡ error_with source new h r }
{
    set_quoted_place(&mut packet[20..], !source, old, new);
    readdress(packet, source, new.addr);
}

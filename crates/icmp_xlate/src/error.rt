//! ICMP errors that are forwarded once more, in their packets (RFC 792, RFC 5508 section 4).
ghost use Rattle.std.specs.Prelude.{◌≡◌, ◌≤◌, ◌+◌, ◌++◌, ℕ, [], true, false, drop, length, take, IfOk, Ok};
ghost use Rattle.wire_ip4.specs.Grammar.{Header};
ghost use Rattle.wire_l4.specs.Grammar.{Echo};
ghost use Rattle.wire_icmp.specs.Grammar.{message_of};
ghost use Rattle.wire_icmp.specs.Quoted.{Report, SpellsReport, quoted_place, report_bytes};
ghost use Rattle.icmp_xlate.specs.Errors.{error_bytes, error_of, error_place, error_proto, forwarded_error, turned_error};
ghost use Rattle.icmp_xlate.specs.Translated.{translated};

use crate::translate::set_quoted_place;
use aftr_base::{Ext, NoMemory, Proto};
use arrayvec::ArrayVec;
use std::alloc::Global;
use std::marker::Model;
use wire_icmp::{Embedded, IcmpView};
use wire_ip4::{Ip4Fields, Ip4View};

/// An ICMP error (RFC 792, types 3, 11 and 12) that may be forwarded once more, read in place. It belongs to the mapping of the
/// packet that it quotes, and is translated with it. Contracts see its header and its report.
#[derive(Debug, Drop)]
pub struct IcmpError<'a> {
    packet: Ip4View<'a>,
    fields: Ip4Fields,
    quoted: Embedded<'a>,
}

impl<'a> Model for IcmpError<'a> {
    ghost use Rattle.wire_icmp.specs.Quoted.{shown_in};
    ghost use Rattle.icmp_xlate.specs.Errors.{ErrorPacket, IsReady, report_in};

    ghost Value = { ErrorPacket };

    ghost view = { λ e. record { header = e.packet.0; report = report_in e.packet.1 } };

    ghost invariant = { λ e. IsReady e.packet.0 e.packet.1 e.fields (shown_in e.quoted) };
}

impl<'a> IcmpError<'a> {
    /// The error in a packet, or none where what it quotes can't be translated. The packet has no options and may take a further
    /// hop, and its payload is an ICMP message with its checksum. That its kind is `Fault`, `IcmpView::kind` says: it isn't looked
    /// at here. It takes time linear in the payload's length.
    pub fn read(packet: Ip4View<'a>) -> Option<IcmpError<'a>>
        requires plain { packet.0.options ≡ [] }
        requires total { packet.0.fields.total ≡ 20 + length packet.1 }
        requires alive { 2 ≤ packet.0.fields.ttl }
        requires message { (m : Echo) × (message_of packet.1 ≡ Ok m) }
        ensures { result ≡ error_of packet.entry }
    {
        let Ok(message) = IcmpView::read(packet.payload()) else {
            unreachable!()
        };
        let quoted = message.embedded()?;
        let fields = packet.fields();
        Some(IcmpError {
            packet,
            fields,
            quoted,
        })
    }

    /// The fields of its header, which has no options, and whose TTL is at least 2.
    pub fn fields(&self) -> Ip4Fields
        ensures value { result ≡ self.now.header.fields }
        ensures bare { self.now.header.options ≡ [] }
        ensures alive { 2 ≤ self.now.header.fields.ttl }
        ensures whole { self.now.header.fields.total ≡ 20 + length (report_bytes self.now.report) }
    {
        self.fields
    }

    /// The protocol whose mapping it belongs to, which is that of the packet that it quotes.
    pub fn proto(&self) -> Proto
        ensures { result ≡ error_proto self.now }
    {
        self.quoted.proto
    }

    /// Its place on its source's side, or else on its destination's, as a mapping has it: the place on the other side of the
    /// packet that it quotes. The error's own source may be any router on the way.
    pub fn place(&self, source: bool) -> Ext
        ensures { result ≡ error_place source self.now }
    {
        if source {
            self.quoted.dst
        } else {
            self.quoted.src
        }
    }

    /// The place where it comes in after it went out from `src`. An error about an echo message has the identifier of `src` on
    /// both sides then (RFC 5508 section 3.1).
    pub fn place_from(&self, src: Ext) -> Ext
        ensures { result ≡ error_place false (forwarded_error true src self.now) }
    {
        let place = self.quoted.src;
        match self.quoted.proto {
            Proto::Icmp => Ext {
                port: src.port,
                ..place
            },
            Proto::Udp | Proto::Tcp => place,
        }
    }

    /// The error as it goes on, with the place on one side replaced: outbound its source, inbound its destination. Its TTL is
    /// lower by one, and its checksums and those of the packet that it quotes are updated and not computed anew.
    pub fn translated(&self, alloc: Global, source: bool, new: Ext) -> Result<Vec<u8>, NoMemory>
        ensures bytes { IfOk result
            (λ v. v.items ≡ error_bytes (forwarded_error source new self.now)) }
        ensures total { IfOk result (λ v. length v.items ≡ self.now.header.fields.total) }
        ensures short { IfOk result (λ v. length v.items ≤ 65535) }
    {
        let mut header = ArrayVec::new();
        self.packet.write_forwarded(source, new.addr, &mut header);
        let mut bytes = joined(alloc, header.as_slice(), self.packet.payload())?;
        set_behind(&mut bytes, !source, self.place(source), new);
        Ok(bytes)
    }

    /// The error as it turns back to a subscriber (hairpinning, RFC 4787 section 6): it goes out from `src` and then comes in to
    /// `dst`. Its TTL is lower by one in all, and its checksums and those of the packet that it quotes are updated and not
    /// computed anew.
    pub fn hairpinned(&self, alloc: Global, src: Ext, dst: Ext) -> Result<Vec<u8>, NoMemory>
        ensures bytes { IfOk result (λ v. v.items ≡ error_bytes (turned_error src dst self.now)) }
        ensures total { IfOk result (λ v. length v.items ≡ self.now.header.fields.total) }
        ensures short { IfOk result (λ v. length v.items ≤ 65535) }
    {
        let mut header = ArrayVec::new();
        self.packet
            .write_hairpinned(src.addr, dst.addr, &mut header);
        let mut bytes = joined(alloc, header.as_slice(), self.packet.payload())?;
        let there = self.place(true);
        let back = self.place_from(src);
        set_both_behind(&mut bytes, there, src, back, dst);
        Ok(bytes)
    }
}

// a packet of these parts
fn joined(alloc: Global, header: &[u8], payload: &[u8]) -> Result<Vec<u8>, NoMemory>
    ensures { IfOk result (λ v. v.items ≡ header.now ++ payload.now) }
{
    let mut bytes = Vec::with_capacity(alloc, header.len() + payload.len())?;
    bytes.extend_from_slice(header)?;
    bytes.extend_from_slice(payload)?;
    Ok(bytes)
}

// puts the place `new` where `old` stands on one side of what an error quotes, behind the 20 bytes of a header
fn set_behind(bytes: &mut [u8], source: bool, old: Ext, new: Ext)
    requires header { 20 ≤ length bytes.old }
    requires quotes { (r : Report) × SpellsReport (drop 20 bytes.old) r
        × (quoted_place source r.quoted ≡ old) }
    ensures value { (r : Report) → SpellsReport (drop 20 bytes.old) r
        → quoted_place source r.quoted ≡ old
        → bytes.new ≡ take 20 bytes.old ++ report_bytes (translated source new r) }
    ensures reads_back { (r : Report) → SpellsReport (drop 20 bytes.old) r
        → quoted_place source r.quoted ≡ old
        → SpellsReport (drop 20 bytes.new) (translated source new r) }
{
    set_quoted_place(&mut bytes[20..], source, old, new);
}

// Puts `src` where `there` stands on the destination's side of what an error quotes, behind the 20 bytes of a header, and then
// `dst` where `back` stands on its source's side.
fn set_both_behind(bytes: &mut [u8], there: Ext, src: Ext, back: Ext, dst: Ext)
    requires header { 20 ≤ length bytes.old }
    requires quotes { (r : Report) × SpellsReport (drop 20 bytes.old) r
        × (quoted_place false r.quoted ≡ there)
        × (quoted_place true (translated false src r).quoted ≡ back) }
    ensures value { (r : Report) → SpellsReport (drop 20 bytes.old) r
        → quoted_place false r.quoted ≡ there
        → quoted_place true (translated false src r).quoted ≡ back
        → bytes.new ≡ take 20 bytes.old ++ report_bytes (translated true dst (translated false src r)) }
{
    set_behind(bytes, false, there, src);
    set_behind(bytes, true, back, dst);
}

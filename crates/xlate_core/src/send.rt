//! Packets that leave, cut where they are longer than their link takes (RFC 791 3.2; RFC 8200 4.5, RFC 6333 5.3).
ghost use Rattle.std.specs.Prelude.{◌≡◌, ◌≤◌, ◌-◌, ◌++◌, [], List as Items, ℕ, true, length, map, IfOk, OnOk, if◌then◌else◌};
ghost use Rattle.cfg_text.specs.Accepted.{is_accepted};
ghost use Rattle.fragment_ids.specs.Ids.{counted, next_id};
ghost use Rattle.nat_mapping.specs.Rows.{Mapping};
ghost use Rattle.softwire.specs.Cut.{cut_packet, encapsulated, is_cut};
ghost use Rattle.softwire.specs.Reading.{AreWithin};
ghost use Rattle.wire_ip4.specs.Grammar.{Header, header_bytes};
ghost use Rattle.xlate_core.specs.Sending.{cuts_after, softwire_items};
ghost use Rattle.xlate_core.specs.State.{item};

use crate::step_out::Item;
use crate::translator::Core;
use aftr_base::{Ip4, Ip6, List, NoMemory, Packets, Side, Subscriber};
use nat_mapping::Row;
use softwire::{cut_with, encap_cut};
use std::alloc::Global;
use wire_ip4::Ip4Fields;

/// How an IPv4 packet goes into a softwire.
#[derive(Clone, Copy, Debug)]
pub(crate) struct Passage {
    /// The subscriber whose place the packet shows, where it comes from one.
    pub(crate) from: Option<Subscriber>,
    pub(crate) softwire: Ip6,
    /// Whose the softwire is.
    pub(crate) to: Subscriber,
    /// The traffic class (RFC 2473 section 6.4).
    pub(crate) class: u8,
}

/// The passage to the softwire of a mapping.
pub(crate) fn passage_to(row: &Row, from: Option<Subscriber>, class: u8) -> Passage
    ensures { result ≡ record { from = from; softwire = row.now.key.softwire; to = row.now.owner; class = class } }
{
    Passage {
        from,
        softwire: row.key.softwire,
        to: row.owner,
        class,
    }
}

/// The fields of a header as it leaves from an external address, one hop on.
pub(crate) fn fields_from(fields: Ip4Fields, src: Ip4) -> Ip4Fields
    requires { 1 ≤ fields.ttl }
    ensures { result ≡ record fields { ttl = fields.ttl - 1; src = src } }
{
    Ip4Fields {
        ttl: fields.ttl - 1,
        src,
        ..fields
    }
}

impl Core {
    /// The packets in which a packet without options leaves to the public side, which has just been written with these fields.
    /// `NoMemory` comes where there is none for them.
    pub(crate) fn cut_for_public(
        &self,
        alloc: Global,
        fields: &Ip4Fields,
        packet: &[u8],
    ) -> Result<Packets, NoMemory>
        requires packet { (h : Header) × (payload : Items ℕ) × (h.fields ≡ fields.now)
            × (h.options ≡ []) × (packet.now ≡ header_bytes h ++ payload) }
        requires short { length packet.now ≤ 65535 }
        ensures packets { IfOk result (λ packets. (h : Header) (payload : Items ℕ)
            → h.fields ≡ fields.now → h.options ≡ [] → packet.now ≡ header_bytes h ++ payload
            → packets ≡ cut_packet self.now.config.public_mtu h payload) }
        ensures short { IfOk result (λ packets. AreWithin 65535 packets) }
        ensures accepted { is_accepted self.now.config ≡ true }
    {
        let mut packets = Packets::new(alloc);
        cut_with(fields, packet, self.config.public_mtu, &mut packets)?;
        Ok(packets)
    }

    /// Adds packets to those that leave, at the clock's moment.
    pub(crate) fn emit(
        &self,
        side: Side,
        owner: Option<Subscriber>,
        packets: Packets,
        items: &mut List<Item>,
    ) -> Result<(), NoMemory>
        ensures { OnOk result (items.new ≡ items.old ++ map (item self.now side owner) packets) }
    {
        for bytes in packets.into_vec() {
            items.push(self.item(side, owner, bytes))?;
        }
        Ok(())
    }

    // the packets in which an IPv4 packet goes into a softwire; one that is cut for it is counted
    fn tunnel(&mut self, alloc: Global, passage: Passage, inner: &[u8]) -> Result<Packets, NoMemory>
        requires short { length inner.now ≤ 65535 }
        ensures packets { let s = self.old in IfOk result (λ packets. packets
            ≡ encapsulated s.config.aftr passage.softwire passage.class s.config.softwire_mtu (next_id passage.to s.cuts) inner.now) }
        ensures state { let s = self.old in OnOk result (self.new ≡ record s {
          cuts = if is_cut s.config.softwire_mtu inner.now then counted passage.to s.cuts else s.cuts;
        }) }
        ensures accepted { is_accepted self.old.config ≡ true }
    {
        self.cuts.reserve(passage.to)?;
        let id = self.cuts.next(passage.to);
        let mut packets = Packets::new(alloc);
        let is_cut = encap_cut(
            inner,
            passage.class,
            self.config.aftr,
            passage.softwire,
            self.config.softwire_mtu,
            id,
            &mut packets,
        )?;
        if is_cut {
            self.cuts.count(passage.to);
        }
        Ok(packets)
    }

    /// Sends an IPv4 packet into a softwire. `NoMemory` comes where there is none for the packets or to count one that is cut.
    pub(crate) fn pass_in(
        &mut self,
        alloc: Global,
        passage: Passage,
        inner: &[u8],
        items: &mut List<Item>,
    ) -> Result<(), NoMemory>
        requires short { length inner.now ≤ 65535 }
        ensures items { OnOk result ((row : Mapping) → row.key.softwire ≡ passage.softwire → row.owner ≡ passage.to
            → items.new ≡ items.old ++ softwire_items self.old passage.from row passage.class inner.now) }
        ensures state { let s = self.old in OnOk result ((row : Mapping) → row.owner ≡ passage.to
            → self.new ≡ record s { cuts = cuts_after s row inner.now }) }
        ensures accepted { OnOk result (is_accepted self.old.config ≡ true) }
    {
        let packets = self.tunnel(alloc, passage, inner)?;
        self.emit(Side::Softwire, passage.from, packets, items)
    }
}

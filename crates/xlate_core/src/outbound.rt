//! From a subscriber to the public side (RFC 6333 5, 6; RFC 2473 3.3).
ghost use Rattle.std.specs.Prelude.{◌≡◌, ◌+◌, [], true, length, Ok, Err, None, IfOk, IfErr, OnOk};
ghost use Rattle.cfg_text.specs.Accepted.{is_accepted};
ghost use Rattle.softwire.specs.Reading.{AreWithin};
ghost use Rattle.nat_mapping.specs.Rows.{row_of};
ghost use Rattle.xlate_core.specs.Datagram.{key_of};
ghost use Rattle.xlate_core.specs.Outbound.{outward};
ghost use Rattle.ingress.specs.PublicSide.{is_ours};
ghost use Rattle.xlate_core.specs.Step.{content_out, flow_of, forwarding_step, from_subscriber, mapped, outbound_step};
ghost use Rattle.softwire.specs.Cut.{cut_packet};
ghost use Rattle.wire_l4.specs.Grammar.{transport_bytes};
ghost use Rattle.xlate_core.specs.Step.{sent_by, sent_out, turned, with_horizon};
ghost use Rattle.xlate_core.specs.Stepped.{HasStepped};
ghost use Rattle.xlate_core.specs.declared.packet.Content.TheVariants.{Carries};

use crate::grant::{Flow, Grant};
use crate::packet::{Content, Datagram, content_of, has_route, require};
use crate::send::fields_from;
use crate::step_out::StepOut;
use crate::translator::Core;
use aftr_base::{DropCause, InnerKey, NoMemory, Packets, Side};
use cfg_text::Config;
use ingress::{Received, Refusal, Sender, from_softwire, is_ours};
use nat_mapping::RowId;
use std::alloc::Global;
use std::marker::Model;
use wire_ip4::Ip4View;

/// Who sent a datagram, and the datagram.
#[derive(Debug, Drop)]
pub(crate) struct Outbound<'a> {
    who: Sender,
    datagram: Datagram<'a>,
}

impl<'a> Model for Outbound<'a> {
    ghost use Rattle.xlate_core.specs.Outbound.{Outbound as SpecOutbound};

    ghost Value = { SpecOutbound };

    ghost view = { λ o. record { who = o.who; datagram = o.datagram } };
}

// what a packet brings, whether that goes to the public side or turns back to a subscriber
fn outward<'a>(config: &Config, packet: Ip4View<'a>) -> Result<Content<'a>, DropCause>
    requires plain { packet.0.options ≡ [] }
    requires total { packet.0.fields.total ≡ 20 + length packet.1 }
    ensures { result ≡ outward config.now packet.entry }
{
    require(has_route(&packet), DropCause::NoRoute)?;
    let fields = packet.fields();
    let content = content_of(packet)?;
    let may_go = is_ours(config, fields.dst)
        || fields.total <= config.public_mtu
        || !fields.dont_cut;
    require(may_go, DropCause::TooBig)?;
    Ok(content)
}

impl<'a> Outbound<'a> {
    pub(crate) fn datagram(&self) -> &Datagram<'a>
        ensures { result.now ≡ self.now.datagram }
    {
        &self.datagram
    }

    // whether it goes to an address of the pool, and so back to a subscriber
    fn turns_back(&self, config: &Config) -> bool
        ensures { result ≡ is_ours config.now self.now.datagram.header.fields.dst }
    {
        is_ours(config, self.datagram.fields().dst)
    }

    /// What a place is asked for.
    pub(crate) fn flow(&self) -> Flow
        ensures { result ≡ flow_of self.now }
    {
        let source = self.datagram.place(true);
        Flow {
            who: self.who,
            key: InnerKey {
                softwire: self.who.softwire,
                proto: self.datagram.proto(),
                addr: source.addr,
                port: source.port,
            },
            remote: self.datagram.place(false),
            flags: self.datagram.flags(),
            answers: self.datagram.answers(),
        }
    }
}

/// A datagram that goes out, where the row of its key stands, if it has one, and the place that it gets.
#[derive(Debug, Drop)]
pub(crate) struct Admitted<'a> {
    pub(crate) got: Outbound<'a>,
    pub(crate) row: Option<RowId>,
    pub(crate) grant: Grant,
}

impl Core {
    /// A record from the softwire side: its datagram goes out from the place of its mapping, which is made or refreshed, to
    /// the public side or back to a subscriber, and its error the same way, which uses no mapping. The answer is the first
    /// rule that refuses it; where an error tells of that, one goes to the sender.
    pub(crate) fn step_outbound(
        &mut self,
        alloc: Global,
        bytes: &[u8],
        out: &mut StepOut,
    ) -> Result<Option<DropCause>, NoMemory>
        ensures { IfOk result
            (λ cause. HasStepped
            (with_horizon (outbound_step self.old bytes.now)) out.old self.new out.new cause) }
    {
        if self.settles() {
            return Ok(Some(DropCause::Settling));
        }
        match from_softwire(alloc, &self.config, &mut self.kept, self.clock, bytes) {
            Ok(Some(got)) => self.from_subscriber(alloc, &got, out),
            Ok(None) => Ok(None),
            Err(Refusal::Dropped(cause)) => Ok(Some(cause)),
            Err(Refusal::NoMemory) => Err(NoMemory),
        }
    }

    // a whole packet of a subscriber
    fn from_subscriber(
        &mut self,
        alloc: Global,
        got: &Received<'_>,
        out: &mut StepOut,
    ) -> Result<Option<DropCause>, NoMemory>
        ensures { IfOk result
            (λ cause. HasStepped
            (with_horizon (from_subscriber self.old got.now)) out.old self.new out.new cause) }
    {
        match outward(&self.config, got.packet.view()) {
            Err(cause) => self.refuse(alloc, got, cause, out),
            Ok(Content::Carries(datagram)) => self.send_datagram(alloc, got, datagram, out),
            Ok(Content::Reports(error)) => self.relay_from_subscriber(alloc, got.who, &error, out),
        }
    }

    // its datagram, where that has a place or gets one
    fn send_datagram(
        &mut self,
        alloc: Global,
        got: &Received<'_>,
        datagram: Datagram<'_>,
        out: &mut StepOut,
    ) -> Result<Option<DropCause>, NoMemory>
        ensures { IfOk result
            (λ cause. HasStepped
            (with_horizon (content_out self.old got.now (Carries datagram.entry)))
            out.old self.new out.new cause) }
    {
        match self.admit(got.who, datagram) {
            Err(cause) => self.refuse(alloc, got, cause, out),
            Ok(admitted) => self.forward(alloc, &admitted, out),
        }
    }

    // the place that a datagram's mapping has or gets
    fn admit<'a>(&mut self, who: Sender, datagram: Datagram<'a>) -> Result<Admitted<'a>, DropCause>
        ensures same { self.new ≡ self.old }
        ensures got { IfOk result (λ a. a.got ≡ sent_by who datagram.entry) }
        ensures row { IfOk result
            (λ a. a.row ≡ row_of (key_of a.got.who.softwire a.got.datagram) self.old.rows) }
        ensures grant { IfOk result (λ a. mapped self.old a.got ≡ Ok a.grant) }
        ensures refusal { IfErr result
            (λ cause. mapped self.old (sent_by who datagram.entry) ≡ Err cause) }
    {
        let got = Outbound { who, datagram };
        let flow = got.flow();
        let (row, grant) = self.granted(&flow)?;
        Ok(Admitted { got, row, grant })
    }

    // sends an admitted datagram on, if a subscriber that it turns back to receives it
    fn forward(
        &mut self,
        alloc: Global,
        admitted: &Admitted<'_>,
        out: &mut StepOut,
    ) -> Result<Option<DropCause>, NoMemory>
        requires row { let got = admitted.now.got in
            admitted.now.row ≡ row_of (key_of got.who.softwire got.datagram) self.old.rows }
        requires grant { mapped self.old admitted.now.got ≡ Ok admitted.now.grant }
        ensures { IfOk result
            (λ cause. HasStepped
            (with_horizon (forwarding_step self.old admitted.now.got admitted.now.grant)) out.old self.new out.new cause) }
    {
        if admitted.got.turns_back(&self.config) {
            return self.turn_back(alloc, admitted, out);
        }
        self.send_out(alloc, admitted, out)?;
        Ok(None)
    }

    // what an admitted datagram does
    fn send_out(
        &mut self,
        alloc: Global,
        admitted: &Admitted<'_>,
        out: &mut StepOut,
    ) -> Result<(), NoMemory>
        requires row { let got = admitted.now.got in
            admitted.now.row ≡ row_of (key_of got.who.softwire got.datagram) self.old.rows }
        requires grant { mapped self.old admitted.now.got ≡ Ok admitted.now.grant }
        ensures { OnOk result (HasStepped
            (with_horizon (sent_out self.old admitted.now.got admitted.now.grant))
            out.old self.new out.new None) }
    {
        let flow = admitted.got.flow();
        let packets = self.cut_out(alloc, admitted)?;
        self.emit(Side::Public, Some(flow.who.owner), packets, &mut out.items)?;
        self.keep(&flow, admitted.row, &admitted.grant)?;
        self.raise_horizon(&mut out.log)?;
        self.log_opening(&admitted.grant, &mut out.log)
    }

    // the packets in which an admitted datagram leaves
    fn cut_out(&self, alloc: Global, admitted: &Admitted<'_>) -> Result<Packets, NoMemory>
        ensures packets { IfOk result (λ packets. let sent = turned admitted.now.got admitted.now.grant in
            packets ≡ cut_packet self.now.config.public_mtu sent.header (transport_bytes sent.body)) }
        ensures short { IfOk result (λ packets. AreWithin 65535 packets) }
        ensures accepted { OnOk result (is_accepted self.now.config ≡ true) }
    {
        let datagram = admitted.got.datagram();
        let src = admitted.grant.place;
        let bytes = datagram.translated(alloc, true, src)?;
        self.cut_for_public(alloc, &fields_from(datagram.fields(), src.addr), &bytes)
    }
}

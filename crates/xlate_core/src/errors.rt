//! ICMP errors (RFC 792): those that the translator makes, and those that it passes on with the packets that they quote
//! (RFC 5508 section 4).
ghost use Rattle.std.specs.Prelude.{◌≡◌, ◌≤◌, ◌+◌, length, false, None, IfOk, IfSome, OnOk};
ghost use Rattle.softwire.specs.Tunnel.{carrier};
ghost use Rattle.icmp_xlate.specs.Made.{error_packet, is_error};
ghost use Rattle.nat_mapping.specs.Rows.{Mapping};
ghost use Rattle.xlate_core.specs.Errors.{answer_bytes, error_about, error_back, error_for, error_from_public, error_from_subscriber};
ghost use Rattle.xlate_core.specs.Errors.{error_key, error_onward, error_out};
ghost use Rattle.xlate_core.specs.Step.{refused, relayed, relayed_if, with_horizon};
ghost use Rattle.xlate_core.specs.Stepped.{HasStepped};

use crate::inbound::inner_place;
use crate::send::{fields_from, passage_to};
use crate::step_out::StepOut;
use crate::translator::Core;
use aftr_base::{DropCause, Ext, InnerKey, Ip6, List, NoMemory, Packets, Side, Subscriber};
use cfg_text::Config;
use icmp_xlate::{IcmpError, MadeError, is_error, make_error};
use ingress::{Packet, Received, Sender, is_ours};
use softwire::encap;
use std::alloc::Global;
use wire_ip4::Ip4View;

// the error that tells the sender of a drop
fn error_for(config: &Config, cause: DropCause) -> Option<MadeError>
    ensures { result ≡ error_for config.now cause }
{
    match cause {
        DropCause::TtlSpent => Some(MadeError::TimeExceeded),
        DropCause::TooBig => Some(MadeError::TooBig(config.public_mtu)),
        DropCause::QuotaMappings
        | DropCause::QuotaPeers
        | DropCause::QuotaBlocks
        | DropCause::AddressFull
        | DropCause::PoolEmpty => Some(MadeError::HostUnreachable),
        _ => None,
    }
}

// but none about an error
fn error_about(config: &Config, packet: &Ip4View<'_>, cause: DropCause) -> Option<MadeError>
    ensures value { result ≡ error_about config.now packet.now cause }
    ensures about { IfSome result
        (λ e. is_error packet.now.0.fields.proto packet.now.1 ≡ false) }
{
    if is_error(packet.fields().proto, packet.payload()) {
        return None;
    }
    error_for(config, cause)
}

// an error about a packet
fn made_error(alloc: Global, error: MadeError, packet: &Packet<'_>) -> Result<List<u8>, NoMemory>
    requires { is_error packet.now.0.fields.proto packet.now.1 ≡ false }
    ensures bytes { IfOk result (λ v. v ≡ error_packet error packet.now.0 packet.now.1) }
    ensures short { IfOk result (λ v. length v ≤ 56) }
{
    let mut made = List::new(alloc);
    make_error(error, packet.bytes(), &mut made)?;
    Ok(made)
}

// what the mapping is found by of the packet that a subscriber's error quotes
fn error_key(who: Sender, error: &IcmpError<'_>) -> InnerKey
    ensures { result ≡ error_key who.softwire error.now }
{
    let source = error.place(true);
    InnerKey {
        softwire: who.softwire,
        proto: error.proto(),
        addr: source.addr,
        port: source.port,
    }
}

// whose error goes out, and the external place of the mapping that it goes out by
#[derive(Clone, Copy, Debug)]
struct Origin {
    owner: Subscriber,
    place: Ext,
}

impl Core {
    /// Drops a subscriber's packet, and tells its sender of it where an error tells of that. `NoMemory` comes where there is
    /// none for the error.
    pub(crate) fn refuse(
        &mut self,
        alloc: Global,
        got: &Received<'_>,
        cause: DropCause,
        out: &mut StepOut,
    ) -> Result<Option<DropCause>, NoMemory>
        ensures { IfOk result
            (λ dropped. HasStepped
            (with_horizon (refused self.old got.now cause)) out.old self.new out.new dropped) }
    {
        if let Some(error) = error_about(&self.config, &got.packet.view(), cause) {
            let bytes = self.answer(alloc, got, error)?;
            out.items.push(self.item(Side::Softwire, None, bytes))?;
        }
        Ok(Some(cause))
    }

    // the error in the packet that carries it to the softwire that the other came from
    fn answer(
        &self,
        alloc: Global,
        got: &Received<'_>,
        error: MadeError,
    ) -> Result<Vec<u8>, NoMemory>
        requires about { is_error got.now.packet.0.fields.proto got.now.packet.1 ≡ false }
        requires fits { 1280 ≤ self.now.config.softwire_mtu }
        ensures bytes { IfOk result (λ v. v.items ≡ answer_bytes self.now got.now error) }
        ensures short { IfOk result (λ v. length v.items ≤ 65535) }
    {
        let inner = made_error(alloc, error, &got.packet)?;
        self.carried(alloc, inner.as_slice(), got.who.softwire)
    }

    // the IPv6 packet that carries these bytes to a softwire
    fn carried(&self, alloc: Global, inner: &[u8], softwire: Ip6) -> Result<Vec<u8>, NoMemory>
        requires { 40 + length inner.now ≤ self.now.config.softwire_mtu }
        ensures bytes { IfOk result
            (λ v. v.items ≡ carrier self.now.config.aftr softwire 0 inner.now) }
        ensures short { IfOk result (λ v. length v.items ≤ 65535) }
    {
        let config = &self.config;
        let mut packets = Packets::new(alloc);
        encap(
            inner,
            0,
            config.aftr,
            softwire,
            config.softwire_mtu,
            0,
            &mut packets,
        )?;
        match packets.into_vec().pop() {
            Some(bytes) => Ok(bytes),
            None => unreachable!(),
        }
    }

    /// Passes a subscriber's error on, to the public side or back to a subscriber. The answer is `NoMapping` where what it
    /// quotes belongs to no mapping.
    pub(crate) fn relay_from_subscriber(
        &mut self,
        alloc: Global,
        who: Sender,
        error: &IcmpError<'_>,
        out: &mut StepOut,
    ) -> Result<Option<DropCause>, NoMemory>
        ensures { IfOk result
            (λ cause. HasStepped
            (with_horizon (relayed_if self.old (error_from_subscriber self.old who error.now)))
            out.old self.new out.new cause) }
    {
        let Some(id) = self.find_out(&error_key(who, error)) else {
            return Ok(Some(DropCause::NoMapping));
        };
        let origin = Origin {
            owner: who.owner,
            place: self.table.row(id).ext,
        };
        self.relay_onward(alloc, origin, error, out)
    }

    /// Passes an error of the public side on to the softwire of the mapping that sent what it quotes. The answer is `NoMapping`
    /// where there is none.
    pub(crate) fn relay_from_public(
        &mut self,
        alloc: Global,
        error: &IcmpError<'_>,
        out: &mut StepOut,
    ) -> Result<Option<DropCause>, NoMemory>
        ensures { IfOk result
            (λ cause. HasStepped
            (with_horizon (relayed_if self.old (error_from_public self.old error.now)))
            out.old self.new out.new cause) }
    {
        let Some(id) = self.find_in(error.proto(), error.place(false)) else {
            return Ok(Some(DropCause::NoMapping));
        };
        let row = self.table.row(id);
        let passage = passage_to(row, None, error.fields().tos);
        let inner = error.translated(alloc, false, inner_place(&row.key))?;
        self.pass_in(alloc, passage, &inner, &mut out.items)?;
        Ok(None)
    }

    // from an external place to the public side, or back to a subscriber
    fn relay_onward(
        &mut self,
        alloc: Global,
        origin: Origin,
        error: &IcmpError<'_>,
        out: &mut StepOut,
    ) -> Result<Option<DropCause>, NoMemory>
        ensures { IfOk result
            (λ cause. (who : Sender) (row : Mapping) → who.owner ≡ origin.owner → row.ext ≡ origin.place → HasStepped
            (with_horizon (relayed_if self.old (error_onward self.old who row error.now))) out.old self.new out.new cause) }
    {
        if is_ours(&self.config, error.fields().dst) {
            return self.relay_back(alloc, origin, error, out);
        }
        self.relay_out(alloc, origin, error, out)?;
        Ok(None)
    }

    fn relay_out(
        &mut self,
        alloc: Global,
        origin: Origin,
        error: &IcmpError<'_>,
        out: &mut StepOut,
    ) -> Result<(), NoMemory>
        ensures { OnOk result
            ((who : Sender) (row : Mapping) → who.owner ≡ origin.owner → row.ext ≡ origin.place → HasStepped
            (with_horizon (relayed self.old (error_out self.old who row error.now))) out.old self.new out.new None) }
    {
        let bytes = error.translated(alloc, true, origin.place)?;
        let fields = fields_from(error.fields(), origin.place.addr);
        let packets = self.cut_for_public(alloc, &fields, &bytes)?;
        self.emit(Side::Public, Some(origin.owner), packets, &mut out.items)?;
        self.raise_horizon(&mut out.log)?;
        Ok(())
    }

    // from the external place in by the mapping at the place that it then quotes
    fn relay_back(
        &mut self,
        alloc: Global,
        origin: Origin,
        error: &IcmpError<'_>,
        out: &mut StepOut,
    ) -> Result<Option<DropCause>, NoMemory>
        ensures { IfOk result
            (λ cause. (who : Sender) (row : Mapping) → who.owner ≡ origin.owner → row.ext ≡ origin.place → HasStepped
            (with_horizon (relayed_if self.old (error_back self.old who row error.now))) out.old self.new out.new cause) }
    {
        let Some(id) = self.find_in(error.proto(), error.place_from(origin.place)) else {
            return Ok(Some(DropCause::NoMapping));
        };
        let row = self.table.row(id);
        let passage = passage_to(row, Some(origin.owner), error.fields().tos);
        let inner = error.hairpinned(alloc, origin.place, inner_place(&row.key))?;
        self.pass_in(alloc, passage, &inner, &mut out.items)?;
        self.raise_horizon(&mut out.log)?; // it shows its sender as one that goes out does
        Ok(None)
    }
}

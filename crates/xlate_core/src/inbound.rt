//! From the public side to the softwire of a mapping (RFC 6333 6.2).
ghost use Rattle.std.specs.Prelude.{◌≡◌, ◌<◌, ◌+◌, [], length, slice_get, Err, None, Ok, Some, IfOk, OnOk};
ghost use Rattle.nat_mapping.specs.Rows.{Mapping, row_at};
ghost use Rattle.xlate_core.specs.Arrivals.{arrival_of};
ghost use Rattle.xlate_core.specs.Datagram.{inner_place};
ghost use Rattle.xlate_core.specs.Inbound.{inward};
ghost use Rattle.xlate_core.specs.Step.{content_in, from_public, inbound_step, sent_in, with_horizon};
ghost use Rattle.xlate_core.specs.Stepped.{HasStepped};
ghost use Rattle.xlate_core.specs.declared.packet.Content.TheVariants.{Carries};

use crate::packet::{Content, Datagram, content_of, is_routable, require};
use crate::send::passage_to;
use crate::step_out::StepOut;
use crate::translator::Core;
use aftr_base::{DropCause, Ext, InnerKey, NoMemory};
use cfg_text::Config;
use ingress::{Packet, Refusal, is_ours};
use nat_mapping::RowId;
use std::alloc::Global;
use wire_ip4::Ip4View;

// what a packet brings, from a routed address outside the pool
fn inward<'a>(config: &Config, packet: Ip4View<'a>) -> Result<Content<'a>, DropCause>
    requires plain { packet.0.options ≡ [] }
    requires total { packet.0.fields.total ≡ 20 + length packet.1 }
    ensures { result ≡ inward config.now packet.entry }
{
    let src = packet.fields().src;
    require(
        is_routable(src) && !is_ours(config, src),
        DropCause::NoRoute,
    )?;
    content_of(packet)
}

/// The place of a mapping behind its softwire.
pub(crate) fn inner_place(key: &InnerKey) -> Ext
    ensures { result ≡ inner_place key.now }
{
    Ext {
        addr: key.addr,
        port: key.port,
    }
}

// a datagram that goes in, and where the row of its mapping stands
#[derive(Debug, Drop)]
struct Admitted<'a> {
    datagram: Datagram<'a>,
    row: RowId,
}

impl Core {
    /// A record from the public side: its datagram goes to the softwire of the mapping at its destination, and moves the
    /// state of the TCP connection that it is of; its error goes to that of the mapping that sent what it quotes. The answer
    /// is the first rule that refuses it.
    pub(crate) fn step_inbound(
        &mut self,
        alloc: Global,
        bytes: &[u8],
        out: &mut StepOut,
    ) -> Result<Option<DropCause>, NoMemory>
        ensures { IfOk result
            (λ cause. HasStepped
            (with_horizon (inbound_step self.old bytes.now)) out.old self.new out.new cause) }
    {
        if self.settles() {
            return Ok(Some(DropCause::Settling));
        }
        match ingress::from_public(alloc, &self.config, &mut self.kept, self.clock, bytes) {
            Ok(Some(packet)) => self.from_public(alloc, &packet, out),
            Ok(None) => Ok(None),
            Err(Refusal::Dropped(cause)) => Ok(Some(cause)),
            Err(Refusal::NoMemory) => Err(NoMemory),
        }
    }

    // a whole packet of the public side
    fn from_public(
        &mut self,
        alloc: Global,
        packet: &Packet<'_>,
        out: &mut StepOut,
    ) -> Result<Option<DropCause>, NoMemory>
        ensures { IfOk result
            (λ cause. HasStepped
            (with_horizon (from_public self.old packet.now)) out.old self.new out.new cause) }
    {
        match inward(&self.config, packet.view()) {
            Err(cause) => Ok(Some(cause)),
            Ok(Content::Carries(datagram)) => self.deliver(alloc, datagram, out),
            Ok(Content::Reports(error)) => self.relay_from_public(alloc, &error, out),
        }
    }

    // its datagram, where a mapping receives it
    fn deliver(
        &mut self,
        alloc: Global,
        datagram: Datagram<'_>,
        out: &mut StepOut,
    ) -> Result<Option<DropCause>, NoMemory>
        ensures { IfOk result
            (λ cause. HasStepped
            (with_horizon (content_in self.old (Carries datagram.entry)))
            out.old self.new out.new cause) }
    {
        match self.receiver_of(&datagram.arrival()) {
            Err(cause) => Ok(Some(cause)),
            Ok(row) => {
                let admitted = Admitted { datagram, row };
                self.send_in(alloc, &admitted, out)?;
                Ok(None)
            }
        }
    }

    // what an admitted datagram does
    fn send_in(
        &mut self,
        alloc: Global,
        admitted: &Admitted<'_>,
        out: &mut StepOut,
    ) -> Result<(), NoMemory>
        requires place { let to = arrival_of admitted.now.datagram in
            Some admitted.now.row ≡ row_at to.proto to.to self.old.rows }
        requires live { admitted.now.row.0 < length self.old.rows }
        ensures { OnOk result ((row : Mapping) → slice_get self.old.rows admitted.now.row.0 ≡ Some row → HasStepped
            (with_horizon (sent_in self.old admitted.now.datagram row)) out.old self.new out.new None) }
    {
        let datagram = &admitted.datagram;
        let row = self.table.row(admitted.row);
        let passage = passage_to(row, None, datagram.fields().tos);
        let inner = datagram.translated(alloc, false, inner_place(&row.key))?;
        self.follow(admitted.row, &datagram.arrival());
        self.pass_in(alloc, passage, &inner, &mut out.items)?;
        Ok(())
    }
}

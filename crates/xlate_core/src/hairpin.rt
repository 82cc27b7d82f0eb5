//! Hairpins: from a subscriber to another one, or to itself, through the pool (RFC 4787 section 6).
ghost use Rattle.std.specs.Prelude.{◌≡◌, ◌<◌, ◌≤◌, ◌+◌, ◌++◌, ◌&&◌, length, slice_get, is_some, None, Some, Ok, IfOk, IfSome, OnOk};
ghost use Rattle.nat_mapping.specs.Rows.{Mapping, row_at, row_of};
ghost use Rattle.aftr_base.specs.declared.value.Ext.{Ext};
ghost use Rattle.aftr_base.specs.declared.value.Proto.{Proto};
ghost use Rattle.xlate_core.specs.Arrivals.{arrival_of, receiver_of};
ghost use Rattle.xlate_core.specs.Datagram.{key_of};
ghost use Rattle.xlate_core.specs.declared.grant.Grant.{Grant};
ghost use Rattle.xlate_core.specs.Grant.{after_grant, granted, granted_only, opening_events};
ghost use Rattle.xlate_core.specs.State.{State, is_past_horizon};
ghost use Rattle.xlate_core.specs.Step.{flow_of, hairpin_step, horizon_by, mapped, promise_by, sent_back, turned, with_horizon};
ghost use Rattle.xlate_core.specs.Stepped.{HasStepped};

use crate::arrival::Arrival;
use crate::grant::{Flow, Grant};
use crate::inbound::inner_place;
use crate::outbound::Admitted;
use crate::send::passage_to;
use crate::step_out::StepOut;
use crate::translator::Core;
use aftr_base::{DropCause, List, LogEvent, NoMemory};
use nat_mapping::RowId;
use std::alloc::Global;

impl Core {
    /// What an admitted datagram does whose destination is in the pool: from the sender's external place it comes in by the
    /// mapping at its destination. The answer is the rule that refuses it there; a mapping that was made for it stays, and one
    /// that was there isn't refreshed.
    pub(crate) fn turn_back(
        &mut self,
        alloc: Global,
        admitted: &Admitted<'_>,
        out: &mut StepOut,
    ) -> Result<Option<DropCause>, NoMemory>
        requires row { let got = admitted.now.got in
            admitted.now.row ≡ row_of (key_of got.who.softwire got.datagram) self.old.rows }
        requires grant { mapped self.old admitted.now.got ≡ Ok admitted.now.grant }
        ensures { IfOk result
            (λ cause. HasStepped
            (with_horizon (hairpin_step self.old admitted.now.got admitted.now.grant)) out.old self.new out.new cause) }
    {
        let flow = admitted.got.flow();
        self.keep_new(&flow, admitted.row, &admitted.grant)?;
        let arrival = admitted.got.datagram().arrival_from(admitted.grant.place);
        match self.receiver_of(&arrival) {
            Err(cause) => {
                self.promise_lease(&admitted.grant, &mut out.log)?;
                Ok(Some(cause))
            }
            Ok(id) => {
                self.send_back(alloc, admitted, id, out)?;
                Ok(None)
            }
        }
    }

    // keeps a row and a lease that are new, and no more
    fn keep_new(&mut self, flow: &Flow, row: Option<RowId>, grant: &Grant) -> Result<(), NoMemory>
        requires row { row ≡ row_of flow.now.key self.old.rows }
        requires grant { granted self.old flow.now ≡ Ok grant.now }
        ensures { OnOk result (self.new ≡ granted_only flow.now grant.now self.old) }
    {
        match row {
            Some(_) => Ok(()),
            None => self.add_row(flow, grant),
        }
    }

    // refreshes a row that was there before
    fn refresh_old(&mut self, flow: &Flow, row: Option<RowId>) -> Result<(), NoMemory>
        requires { IfSome row (λ id. Some id ≡ row_of flow.now.key self.old.rows) }
        ensures granted { (s : State) (g : Grant) → self.old ≡ granted_only flow.now g s → row ≡ row_of flow.now.key s.rows
            → granted s flow.now ≡ Ok g → OnOk result (self.new ≡ after_grant flow.now g s) }
        ensures places { (proto : Proto) (ext : Ext) → OnOk result
            (row_at proto ext self.new.rows ≡ row_at proto ext self.old.rows) }
    {
        match row {
            Some(id) => self.refresh(flow, id),
            None => Ok(()),
        }
    }

    // tells the log of the lease that opens for a grant, within the horizon
    fn promise_lease(&mut self, grant: &Grant, log: &mut List<LogEvent>) -> Result<(), NoMemory>
        ensures state { OnOk result (let raised = is_some grant.now.lease && is_past_horizon self.old in
            self.new ≡ horizon_by raised self.old) }
        ensures log { OnOk result (let raised = is_some grant.now.lease && is_past_horizon self.old in
            log.new ≡ log.old ++ promise_by raised self.old ++ opening_events self.old grant.now) }
    {
        if grant.lease.is_none() {
            return Ok(());
        }
        self.raise_horizon(log)?;
        self.log_opening(grant, log)
    }

    // what it does where a row receives it
    fn send_back(
        &mut self,
        alloc: Global,
        admitted: &Admitted<'_>,
        id: RowId,
        out: &mut StepOut,
    ) -> Result<(), NoMemory>
        requires place { let to = arrival_of (turned admitted.now.got admitted.now.grant) in
            Some id ≡ row_at to.proto to.to self.old.rows }
        requires live { id.0 < length self.old.rows }
        requires row { let got = admitted.now.got in
            IfSome admitted.now.row (λ own. Some own ≡ row_of (key_of got.who.softwire got.datagram) self.old.rows) }
        ensures { (s : State) (row : Mapping) → (let got = admitted.now.got in let g = admitted.now.grant in
            self.old ≡ granted_only (flow_of got) g s → slice_get self.old.rows id.0 ≡ Some row
            → receiver_of self.old (arrival_of (turned got g)) ≡ Ok row
            → admitted.now.row ≡ row_of (key_of got.who.softwire got.datagram) s.rows → mapped s got ≡ Ok g
            → OnOk result (HasStepped (with_horizon (sent_back s got g row)) out.old self.new out.new None)) }
    {
        let flow = admitted.got.flow();
        let datagram = admitted.got.datagram();
        let src = admitted.grant.place;
        let row = self.table.row(id);
        let passage = passage_to(row, Some(flow.who.owner), datagram.fields().tos);
        let inner = datagram.hairpinned(alloc, src, inner_place(&row.key))?;
        self.refresh_old(&flow, admitted.row)?;
        self.follow(id, &datagram.arrival_from(src));
        self.pass_in(alloc, passage, &inner, &mut out.items)?;
        self.raise_horizon(&mut out.log)?;
        self.log_opening(&admitted.grant, &mut out.log)
    }
}

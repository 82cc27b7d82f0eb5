//! Why an event isn't told, and the events of a horizon and of a plan.
ghost use Rattle.std.specs.Prelude.{◌≡◌, ◌&&◌, nat_le, map};
ghost use Rattle.std.specs.List.{list_any};
ghost use Rattle.aftr_base.specs.Row.{is_in_use, plan_ended};
ghost use Rattle.aftr_base.specs.Telling.{after_horizon, after_plan, moment_of};
ghost use Rattle.lease_log.specs.Applying.{Follows};

use aftr_base::{LOG_MOMENT_LIMIT, List, LogEvent, Moment, NoMemory, PlanRow, PlanSpec, Told};
use std::alloc::Global;
use std::mem;

/// Why an event isn't told.
#[derive(Clone, Copy, Debug, PartialEq, Eq)]
pub enum ApplyBad {
    /// It can't follow what was told.
    Refused,
    /// There is no memory for its row.
    NoMemory,
}

impl From<NoMemory> for ApplyBad {
    ghost use Rattle.std.specs.Prelude.{◌≡◌};
    ghost use Rattle.lease_log.specs.declared.applying.ApplyBad.TheVariants.{NoMemory as OutOfMemory};

    ghost from_gives = { λ _ bad. bad ≡ OutOfMemory };

    fn from(_refused: NoMemory) -> Self {
        ApplyBad::NoMemory
    }
}

/// The moment that an event bears.
pub fn moment_of(event: &LogEvent) -> Moment
    ensures { result.0 ≡ moment_of event.now }
{
    match event {
        LogEvent::Block { at, .. } => *at,
        LogEvent::Horizon { at, .. } => *at,
        LogEvent::Plan { at, .. } => *at,
    }
}

// ---- the horizon

/// The log has the names up to a moment, which is no less than before.
pub fn apply_horizon(told: &mut Told, reach: Moment) -> Result<(), ApplyBad>
    ensures told { Follows (after_horizon told.old reach) told.new result }
    ensures leases { told.new.leases ≡ told.old.leases }
{
    if reach.0 < told.horizon.0 || reach.0 > LOG_MOMENT_LIMIT {
        return Err(ApplyBad::Refused);
    }
    told.horizon = reach;
    Ok(())
}

// ---- plans

/// A plan opens, or the one in use closes.
pub fn apply_plan(
    alloc: Global,
    told: &mut Told,
    at: Moment,
    spec: Option<PlanSpec>,
) -> Result<(), ApplyBad>
    ensures told { Follows (after_plan told.old at spec) told.new result }
    ensures leases { told.new.leases ≡ told.old.leases }
{
    match spec {
        Some(spec) => {
            if at.0 > told.horizon.0 || has_plan(told.plans.as_slice()) {
                return Err(ApplyBad::Refused);
            }
            told.plans.push(PlanRow {
                spec,
                since: at,
                until: None,
            })?;
            Ok(())
        }
        None => {
            if !may_end_plan(told.plans.as_slice(), at) {
                return Err(ApplyBad::Refused);
            }
            end_plan(alloc, &mut told.plans, at);
            Ok(())
        }
    }
}

// Whether a plan is in use.
fn has_plan(plans: &[PlanRow]) -> bool
    ensures { result ≡ list_any is_in_use plans.now }
{
    plans.iter().any(|p| p.until.is_none())
}

// Whether a plan is in use, since no later moment.
fn may_end_plan(plans: &[PlanRow], at: Moment) -> bool
    ensures { result ≡ list_any (λ p. is_in_use p && nat_le p.since.0 at.0) plans.now }
{
    plans.iter().any(|p| p.until.is_none() && p.since.0 <= at.0)
}

// Ends the plan in use.
fn end_plan(alloc: Global, plans: &mut List<PlanRow>, at: Moment)
    ensures { plans.new ≡ map (plan_ended at.0) plans.old }
{
    let mut rows = mem::replace(plans, List::new(alloc)).into_vec();
    for plan in rows.iter_mut() {
        end(plan, at);
    }
    *plans = List::from_vec(rows);
}

// Ends a plan that is in use.
fn end(plan: &mut PlanRow, at: Moment)
    ensures { plan.new ≡ plan_ended at.0 plan.old }
{
    if plan.until.is_none() {
        plan.until = Some(at);
    }
}

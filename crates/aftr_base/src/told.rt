//! What a log tells.
ghost use Rattle.std.specs.Prelude.{◌≡◌, IfOk, map, max};
ghost use Rattle.aftr_base.specs.Told.{closed, end_of, end_or_none, last_lease_end, last_plan_end, lease_closed, nothing_told, plan_closed};

use crate::list::List;
use crate::memory::NoMemory;
use crate::row::{LeaseRow, PlanRow};
use crate::value::Moment;
use std::alloc::Global;

/// What a log tells: its rows in order of opening, and up to when it has the names.
#[derive(Debug, Drop)]
pub struct Told {
    pub leases: List<LeaseRow>,
    pub plans: List<PlanRow>,
    /// The greatest moment, included, that the log promises to name: 0 where it promises none.
    pub horizon: Moment,
    /// How many data records the log has.
    pub count: u64,
}

impl Told {
    /// What an empty log tells, which takes no memory.
    pub fn nothing(alloc: Global) -> Self
        ensures { result ≡ nothing_told }
    {
        Told {
            leases: List::new(alloc),
            plans: List::new(alloc),
            horizon: Moment(0),
            count: 0,
        }
    }

    /// The greatest moment that was told: that of the horizon and of each closing. Takes no memory.
    pub fn end(&self) -> Moment
        ensures { result.0 ≡ end_of self.now }
    {
        let leases = last_lease_end(self.leases.as_slice());
        let plans = last_plan_end(self.plans.as_slice());
        Moment(self.horizon.0.max(leases.max(plans)))
    }

    /// The same, with each open row ended at the horizon.
    pub fn closed(&self, alloc: Global) -> Result<Told, NoMemory>
        ensures { IfOk result (λ told. told ≡ closed self.now) }
    {
        let leases = closed_leases(alloc, self.leases.as_slice(), self.horizon)?;
        let plans = closed_plans(alloc, self.plans.as_slice(), self.horizon)?;
        Ok(Told {
            leases,
            plans,
            horizon: self.horizon,
            count: self.count,
        })
    }
}

// The moment of an end, and 0 of a row that is open.
fn end_or_none(until: Option<Moment>) -> u64
    ensures { result ≡ end_or_none until }
{
    match until {
        Some(end) => end.0,
        None => 0,
    }
}

// The greatest end of leases that ended, and 0 where none did.
fn last_lease_end(leases: &[LeaseRow]) -> u64
    ensures { result ≡ last_lease_end leases.now }
{
    let mut last = 0;
    for lease in leases {
        last = last.max(end_or_none(lease.until));
    }
    last
}

// The greatest end of plans that ended, and 0 where none did.
fn last_plan_end(plans: &[PlanRow]) -> u64
    ensures { result ≡ last_plan_end plans.now }
{
    let mut last = 0;
    for plan in plans {
        last = last.max(end_or_none(plan.until));
    }
    last
}

// Copies of the leases, the open ones ended at the horizon.
fn closed_leases(
    alloc: Global,
    leases: &[LeaseRow],
    horizon: Moment,
) -> Result<List<LeaseRow>, NoMemory>
    ensures { IfOk result (λ rows. rows ≡ map (lease_closed horizon.0) leases.now) }
{
    let mut rows = List::new(alloc);
    for lease in leases {
        let until = Some(lease.until.unwrap_or(horizon));
        rows.push(LeaseRow { until, ..*lease })?;
    }
    Ok(rows)
}

// Copies of the plans, the open one ended at the horizon.
fn closed_plans(
    alloc: Global,
    plans: &[PlanRow],
    horizon: Moment,
) -> Result<List<PlanRow>, NoMemory>
    ensures { IfOk result (λ rows. rows ≡ map (plan_closed horizon.0) plans.now) }
{
    let mut rows = List::new(alloc);
    for plan in plans {
        let row = PlanRow {
            spec: plan.spec.copied(alloc)?,
            since: plan.since,
            until: Some(plan.until.unwrap_or(horizon)),
        };
        rows.push(row)?;
    }
    Ok(rows)
}

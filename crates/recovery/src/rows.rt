//! Rows that a log left open, ended at its horizon.
ghost use Rattle.std.specs.Prelude.{◌≡◌, map};
ghost use Rattle.aftr_base.specs.Told.{closed, lease_closed, plan_closed};

use aftr_base::{LeaseRow, List, Moment, PlanRow, Told};
use std::alloc::Global;
use std::mem;

/// Ends each open row at the horizon, in its place.
pub fn end_rows(alloc: Global, told: &mut Told)
    ensures { told.new ≡ closed told.old }
{
    let horizon = told.horizon;
    end_leases(alloc, &mut told.leases, horizon);
    end_plans(alloc, &mut told.plans, horizon);
}

// Ends the open leases.
fn end_leases(alloc: Global, leases: &mut List<LeaseRow>, horizon: Moment)
    ensures { leases.new ≡ map (lease_closed horizon.0) leases.old }
{
    let mut rows = mem::replace(leases, List::new(alloc)).into_vec();
    for row in rows.iter_mut() {
        end_lease(row, horizon);
    }
    *leases = List::from_vec(rows);
}

// Ends a lease that is open.
fn end_lease(lease: &mut LeaseRow, horizon: Moment)
    ensures { lease.new ≡ lease_closed horizon.0 lease.old }
{
    lease.until = Some(lease.until.unwrap_or(horizon));
}

// Ends the plan in use.
fn end_plans(alloc: Global, plans: &mut List<PlanRow>, horizon: Moment)
    ensures { plans.new ≡ map (plan_closed horizon.0) plans.old }
{
    let mut rows = mem::replace(plans, List::new(alloc)).into_vec();
    for row in rows.iter_mut() {
        end_plan(row, horizon);
    }
    *plans = List::from_vec(rows);
}

// Ends a plan that is in use.
fn end_plan(plan: &mut PlanRow, horizon: Moment)
    ensures { plan.new ≡ plan_closed horizon.0 plan.old }
{
    plan.until = Some(plan.until.unwrap_or(horizon));
}

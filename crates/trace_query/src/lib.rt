//! Who held a place at a moment (RFC 6888 section 4).
#![tactic(auto)]

ghost use Rattle.std.specs.Prelude.{◌≡◌, find};
ghost use Rattle.std.specs.Option.{option_copied};
ghost use Rattle.trace_query.specs.Names.{first_name, holds, is_during, name_of, names_of};

use aftr_base::{Ip4, LeaseRow, Moment, Subscriber, Told};

/// Whom a log names.
#[derive(Clone, Copy, Debug, PartialEq, Eq)]
pub enum Named {
    /// Who held the place then.
    Subscriber(Subscriber),
    /// Nobody held it.
    Unheld,
    /// The moment is past this one, the greatest that the log promises to name.
    Beyond(Moment),
}

/// Who held a port of an address at a moment, in milliseconds, by the leases that a log tells: the owner of the first one, in
/// order of opening, that holds it then, with its begin and its end included. `Beyond` comes where the moment is past the
/// told horizon, and `Unheld` where no lease holds the place. An open lease holds up to the horizon. Takes no memory.
pub fn name(told: &Told, addr: Ip4, port: u16, at: Moment) -> Named
    ensures { result ≡ name_of told.now addr port at.0 }
{
    if told.horizon.0 < at.0 {
        return Named::Beyond(told.horizon);
    }
    match holder(told, addr, port, at) {
        Some(lease) => Named::Subscriber(lease.owner),
        None => Named::Unheld,
    }
}

/// The first lease that holds a port of an address at a moment.
fn holder(told: &Told, addr: Ip4, port: u16, at: Moment) -> Option<&LeaseRow>
    ensures { option_copied result
        ≡ find (holds told.now.horizon.0 addr port at.0) told.now.leases }
{
    let horizon = told.horizon;
    told.leases
        .as_slice()
        .iter()
        .find(|l| holds(horizon, addr, port, at, l))
}

/// Whether a lease holds a port of an address at a moment.
fn holds(horizon: Moment, addr: Ip4, port: u16, at: Moment, lease: &LeaseRow) -> bool
    ensures { result ≡ holds horizon.0 addr port at.0 lease.now }
{
    addr.0 == lease.addr.0
        && lease.first <= port
        && port <= lease.last
        && is_during(horizon, at, lease)
}

/// Whether a moment lies in a lease's time, both ends included. An open lease ends at the horizon.
fn is_during(horizon: Moment, at: Moment, lease: &LeaseRow) -> bool
    ensures { result ≡ is_during horizon.0 lease.now at.0 }
{
    lease.since.0 <= at.0 && at.0 <= lease.until.unwrap_or(horizon).0
}

//! Places where blocks begin, and the last of them up to one.
ghost use Rattle.std.specs.Prelude.{◌≡◌, None, IfSome, IfNone};
ghost use Rattle.std.specs.BTreeMap.{get};
ghost use Rattle.lease_log.specs.Index.{place_cmp, IsLastUpTo, IsUpTo};

use std::collections::BTreeMap;

/// Where a block of ports begins: its address and its first port. Places are in order by address, and at one address by port.
#[derive(Clone, Copy, Debug, PartialEq, Eq, PartialOrd, Ord)]
pub struct Place {
    pub addr: u32,
    pub port: u16,
}

/// The position that stands at the last place up to this one.
pub fn last_up_to(places: &BTreeMap<Place, usize>, place: Place) -> Option<usize>
    ensures some { IfSome result (IsLastUpTo (get place_cmp places.now) place) }
    ensures none { IfNone result ((q : Place) → IsUpTo q place → get place_cmp places.now q ≡ None) }
{
    match places.range(..=place).next_back() {
        Some((_, at)) => Some(*at),
        None => None,
    }
}

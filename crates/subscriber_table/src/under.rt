//! The subscriber that a softwire is of.
ghost use Rattle.std.specs.Prelude.{◌≡◌};
ghost use Rattle.std.specs.List.{list_any};
ghost use Rattle.aftr_base.specs.Value.{is_under6};
ghost use Rattle.subscriber_table.specs.Under.{subscriber_of};

use aftr_base::{Ip6, Prefix6, Subscriber};
use cfg_text::Config;

/// The subscriber whose softwires have this address: its prefix of the configured length, where the address lies under
/// one of the aggregates. It takes time linear in the number of aggregates.
pub fn of(config: &Config, softwire: Ip6) -> Option<Subscriber>
    ensures { result ≡ subscriber_of config.now softwire }
{
    if is_known(config.aggregates.as_slice(), softwire) {
        Some(Subscriber(softwire.prefix(config.subscriber_len)))
    } else {
        None
    }
}

// whether the address lies under one of the prefixes
fn is_known(aggregates: &[Prefix6], addr: Ip6) -> bool
    ensures { result ≡ list_any (λ p. is_under6 p addr) aggregates.now }
{
    aggregates.iter().any(|p| p.covers(addr))
}

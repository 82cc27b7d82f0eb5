//! Which values a configuration may have.
ghost use Rattle.std.specs.Prelude.{◌≡◌, ◌+◌, ◌-◌, ◌/◌, ◌^◌, ◌<◌, ◌≤◌, true, length, nat_le};
ghost use Rattle.std.specs.List.{list_all};
ghost use Rattle.aftr_base.specs.Value.{is_within};
ghost use Rattle.aftr_base.specs.Plan.{address_count, are_aggregates, block_count, is_aggregate, is_block_size};
ghost use Rattle.aftr_base.specs.Plan.{is_plan, is_pool, is_pool_prefix, is_prefix4, is_prefix6, is_ratio};
ghost use Rattle.aftr_base.specs.Plan.{is_routable_octet, rise4, rise6, size4, subscriber_count};
ghost use Rattle.cfg_text.specs.Accepted.{AcceptedFacts, are_quotas, are_sizes, are_spans, are_timers};
ghost use Rattle.cfg_text.specs.Accepted.{is_accepted, spec_of};

use crate::config::Config;
use aftr_base::{Ip4, PlanSpec, Prefix4, Prefix6};

// the softwire's own addresses, 192.0.0.0/29 (RFC 6333 section 5.7)
const TUNNEL: Prefix4 = Prefix4 {
    bits: Ip4(0xc000_0000),
    len: 29,
};

impl Config {
    /// Whether each value is in its range, the prefixes are in order, and a plan has a place for each subscriber.
    pub fn accepted(&self) -> bool
        ensures same { result ≡ is_accepted self.now }
        ensures facts { result ≡ true → AcceptedFacts self.now }
    {
        self.has_accepted_values()
    }

    fn has_accepted_values(&self) -> bool
        ensures { result ≡ is_accepted self.now }
    {
        // an `Ip6` has 128 bits, so each one may be the AFTR's
        let _aftr = self.aftr.0;
        self.has_plan_values()
            && self.has_quotas()
            && self.has_spans()
            && self.has_timers()
            && self.has_sizes()
    }

    fn has_plan_values(&self) -> bool
        ensures { result ≡ is_plan (spec_of self.now) }
    {
        are_of_plan(
            self.subscriber_len,
            self.block_size,
            self.ratio,
            self.aggregates.as_slice(),
            self.pool.as_slice(),
        )
    }

    fn has_quotas(&self) -> bool
        ensures { result ≡ are_quotas self.now }
    {
        (1..=64).contains(&self.max_blocks)
            && (1..=65_535).contains(&self.max_mappings)
            && (1..=65_535).contains(&self.max_peers)
    }

    fn has_spans(&self) -> bool
        ensures { result ≡ are_spans self.now }
    {
        (1..=3_600_000).contains(&self.hold_ms) && (1..=3_600_000).contains(&self.horizon_ms)
    }

    fn has_timers(&self) -> bool
        ensures { result ≡ are_timers self.now }
    {
        (120_000..=3_600_000).contains(&self.udp_ms)
            && (7_440_000..=86_400_000).contains(&self.tcp_ms)
            && (240_000..=3_600_000).contains(&self.tcp_short_ms)
            && (60_000..=3_600_000).contains(&self.icmp_ms)
    }

    fn has_sizes(&self) -> bool
        ensures { result ≡ are_sizes self.now }
    {
        (1280..=65_535).contains(&self.softwire_mtu)
            && (576..=65_535).contains(&self.public_mtu)
            && (17..=1_099_511_627_776).contains(&self.log_limit)
    }
}

// ---- the plan

/// Whether a plan may have these values: each is in its range, the prefixes are in order, and there is a place for each
/// subscriber (RFC 7422 section 2). A ratio of 0 stands for no plan.
pub fn accepts_plan(spec: &PlanSpec) -> bool
    ensures { result ≡ is_plan spec.now }
{
    are_of_plan(
        spec.subscriber_len,
        spec.block_size,
        spec.ratio,
        spec.aggregates.as_slice(),
        spec.pool.as_slice(),
    )
}

fn are_of_plan(
    len: u8,
    block_size: u16,
    ratio: u16,
    aggregates: &[Prefix6],
    pool: &[Prefix4],
) -> bool
    ensures { result ≡ is_plan record {
      subscriber_len = len;
      block_size = block_size;
      ratio = ratio;
      aggregates = aggregates.now;
      pool = pool.now;
    } }
{
    (16..=128).contains(&len)
        && are_rising_aggregates(len, aggregates)
        && is_rising_pool(pool)
        && is_size_of_blocks(block_size)
        && has_places(len, block_size, ratio, aggregates, pool)
}

// the plan, if there is one, has a place for each subscriber
fn has_places(
    len: u8,
    block_size: u16,
    ratio: u16,
    aggregates: &[Prefix6],
    pool: &[Prefix4],
) -> bool
    requires len { len ≤ 128 }
    requires aggregates { are_aggregates len aggregates.now ≡ true }
    requires pool { is_pool pool.now ≡ true }
    requires size { is_block_size block_size ≡ true }
    ensures { result ≡ is_ratio ratio block_size (address_count pool.now) (subscriber_count len aggregates.now) }
{
    let addresses = count_addresses(pool);
    let subscribers = count_subscribers(len, aggregates);
    ratio <= 64_512 / block_size && (ratio == 0 || subscribers <= addresses * u64::from(ratio))
}

// a power of two, 16 to 16384: what divides the greatest
fn is_size_of_blocks(size: u16) -> bool
    ensures { result ≡ is_block_size size }
{
    (16..=16_384).contains(&size) && 16_384 % size == 0
}

// ---- the pool

fn is_rising_pool(pool: &[Prefix4]) -> bool
    ensures { result ≡ is_pool pool.now }
{
    (1..=64).contains(&pool.len())
        && are_of_pool(pool)
        && is_rising4(pool)
        && has_few_addresses(pool)
}

fn are_of_pool(pool: &[Prefix4]) -> bool
    ensures { result ≡ list_all is_pool_prefix pool.now }
{
    pool.iter().all(|p| is_of_pool(*p))
}

fn is_of_pool(p: Prefix4) -> bool
    ensures { result ≡ is_pool_prefix p }
{
    (16..=32).contains(&p.len)
        && is_front4(p)
        && is_octet_of_pool(p.bits)
        && !(TUNNEL.covers(p.bits) || p.covers(TUNNEL.bits))
}

// bits past the length are zero
fn is_front4(p: Prefix4) -> bool
    ensures { result ≡ is_prefix4 p }
{
    p.len <= 32 && u64::from(p.bits.0) % size_of4(p) == 0
}

// no network 0, loopback, multicast or reserved address
fn is_octet_of_pool(a: Ip4) -> bool
    ensures { result ≡ is_routable_octet (a.0 / 2 ^ 24) }
{
    let first = a.0 / 16_777_216;
    (1..=223).contains(&first) && first != 127
}

// how many addresses a prefix has
fn size_of4(p: Prefix4) -> u64
    ensures same { result ≡ size4 p }
    ensures above { 0 < result }
    ensures most { result ≤ 2 ^ 32 }
{
    1u64 << 32u32.saturating_sub(u32::from(p.len))
}

fn count_addresses(pool: &[Prefix4]) -> u64
    requires { length pool.now ≤ 64 }
    ensures { result ≡ address_count pool.now }
{
    let mut count = 0;
    for p in pool {
        count += size_of4(*p);
    }
    count
}

fn has_few_addresses(pool: &[Prefix4]) -> bool
    requires { length pool.now ≤ 64 }
    ensures { result ≡ nat_le (address_count pool.now) 65536 }
{
    count_addresses(pool) <= 65_536
}

fn is_rising4(pool: &[Prefix4]) -> bool
    ensures { result ≡ rise4 0 pool.now }
{
    let mut before: Option<Prefix4> = None;
    for p in pool {
        if let Some(q) = before {
            if !is_past4(q, *p) {
                return false;
            }
        }
        before = Some(*p);
    }
    true
}

// the next one begins past the end of this one
fn is_past4(p: Prefix4, next: Prefix4) -> bool
    ensures { result ≡ nat_le (p.bits.0 + size4 p) next.bits.0 }
{
    u64::from(p.bits.0) + size_of4(p) <= u64::from(next.bits.0)
}

// ---- the aggregates

fn are_rising_aggregates(len: u8, aggregates: &[Prefix6]) -> bool
    ensures { result ≡ are_aggregates len aggregates.now }
{
    (1..=64).contains(&aggregates.len())
        && are_of_aggregates(len, aggregates)
        && is_rising6(aggregates)
}

fn are_of_aggregates(len: u8, aggregates: &[Prefix6]) -> bool
    ensures { result ≡ list_all (is_aggregate len) aggregates.now }
{
    aggregates.iter().all(|p| is_of_aggregates(len, *p))
}

fn is_of_aggregates(len: u8, p: Prefix6) -> bool
    ensures { result ≡ is_aggregate len p }
{
    is_front6(p) && p.len <= len && u16::from(len) <= u16::from(p.len) + 24
}

// bits past the length are zero: the prefix is the one that its own bits lie under
fn is_front6(p: Prefix6) -> bool
    ensures { result ≡ is_prefix6 p }
{
    p.len <= 128 && p.bits.prefix(p.len).bits.0 == p.bits.0
}

// how many subscribers an aggregate has
fn subscribers_of(len: u8, p: Prefix6) -> u64
    requires { is_aggregate len p ≡ true }
    ensures same { result ≡ 2 ^ (len - p.len) }
    ensures most { result ≤ 2 ^ 24 }
{
    1u64 << len.saturating_sub(p.len)
}

fn count_subscribers(len: u8, aggregates: &[Prefix6]) -> u64
    requires few { length aggregates.now ≤ 64 }
    requires each { list_all (is_aggregate len) aggregates.now ≡ true }
    ensures same { result ≡ subscriber_count len aggregates.now }
{
    let mut count = 0;
    for p in aggregates {
        count += subscribers_of(len, *p);
    }
    count
}

fn is_rising6(aggregates: &[Prefix6]) -> bool
    ensures { result ≡ rise6 0 aggregates.now }
{
    let mut before: Option<Prefix6> = None;
    for p in aggregates {
        if let Some(q) = before {
            if !is_past6(q, *p) {
                return false;
            }
        }
        before = Some(*p);
    }
    true
}

// the next one begins past the end of this one
#[tactic(auto, using(crate::proofs::Numbers::room_test))]
fn is_past6(p: Prefix6, next: Prefix6) -> bool
    ensures { result ≡ nat_le (p.bits.0 + 2 ^ (128 - p.len)) next.bits.0 }
{
    let past = 128u32.saturating_sub(u32::from(p.len));
    match next.bits.0.checked_sub(p.bits.0) {
        Some(gap) => quotient(gap, past) > 0,
        None => false,
    }
}

// how many times a gap has room for all numbers of this many bits
fn quotient(gap: u128, bits: u32) -> u128
    requires { bits ≤ 128 }
    ensures { result ≡ gap / 2 ^ bits }
{
    gap.checked_shr(bits).unwrap_or(0)
}

use super::*;
use aftr_base::{Ip4, Ip6, Moment, NoMemory, Prefix6, Subscriber};
use cfg_text::Config;
use std::alloc::Global;
use std::process::Abort;
use std::test::Fail;

const NINTH: Ip4 = Ip4(0xc000_0209);

const EIGHTH: Ip4 = Ip4(0xc000_0208);

fn subscriber(number: u8) -> Subscriber {
    Subscriber(Prefix6 {
        bits: Ip6(u128::from(number) << 72),
        len: 56,
    })
}

// three blocks on each of two addresses, 192.0.2.8 and 192.0.2.9
fn six_blocks(alloc: Global) -> Result<Config, NoMemory> {
    let mut config = Config::defaults(alloc)?;
    config.block_size = 16384;
    config.pool.clear();
    config.pool.push(aftr_base::Prefix4 {
        bits: EIGHTH,
        len: 31,
    })?;
    Ok(config)
}

// the block that a subscriber gets, which it leases
fn grant<R: Abort>(
    rt: &R,
    blocks: &mut Blocks,
    config: &Config,
    owner: Subscriber,
    now: u64,
) -> Choice {
    assert!(rt; config.accepted(), "an accepted configuration");
    let choice = blocks.choose(config, owner, None, Moment(now));
    if let Choice::New(block) = choice {
        blocks.reserve(1).expect(rt, "memory for a lease");
        blocks.take(opened(owner, &block, Moment(now)));
    }
    choice
}

fn block(addr: Ip4, first: u16) -> Choice {
    Choice::New(Block {
        addr,
        first,
        last: first.saturating_add(16383),
    })
}

#[test]
fn blocks_in_the_order_of_the_pool(rt: HostRuntime) -> Result<(), Fail> {
    let config = six_blocks(rt.alloc())?;
    let mut blocks = Blocks::from_rows(rt.alloc(), &[])?;
    assert_eq!(rt;
        grant(&rt, &mut blocks, &config, subscriber(1), 5),
        block(EIGHTH, 1024)
    );
    assert_eq!(rt;
        grant(&rt, &mut blocks, &config, subscriber(2), 5),
        block(EIGHTH, 17408)
    );
    assert_eq!(rt;
        grant(&rt, &mut blocks, &config, subscriber(1), 5),
        block(EIGHTH, 33792)
    );
    // the first has an address, and all three blocks there are leased
    assert_eq!(rt;
        grant(&rt, &mut blocks, &config, subscriber(1), 5),
        Choice::AddressFull
    );
    assert_eq!(rt;
        grant(&rt, &mut blocks, &config, subscriber(3), 5),
        block(NINTH, 1024)
    );
    assert_eq!(rt; blocks.count_of(subscriber(1)), 2);
    assert_eq!(rt;
        blocks.lease_of(subscriber(1), 1).map(|l| l.first),
        Some(33792)
    );
    assert_eq!(rt; blocks.open_at(3).map(|l| l.addr), Some(NINTH));
    assert_eq!(rt; blocks.open_at(4), None);
    Ok(())
}

#[test]
fn a_closed_block_is_held(rt: HostRuntime) -> Result<(), Fail> {
    let mut config = six_blocks(rt.alloc())?;
    config.pool.clear();
    config.pool.push(aftr_base::Prefix4 {
        bits: EIGHTH,
        len: 32,
    })?;
    let mut blocks = Blocks::from_rows(rt.alloc(), &[])?;
    for number in [1, 2, 3] {
        let _choice = grant(&rt, &mut blocks, &config, subscriber(number), 1_000_000);
    }
    assert!(rt; blocks.rows().len() == 3);
    blocks.give(0, Moment(1_300_000));
    assert_eq!(rt;
        grant(&rt, &mut blocks, &config, subscriber(4), 1_419_999),
        Choice::PoolEmpty
    );
    assert_eq!(rt;
        grant(&rt, &mut blocks, &config, subscriber(4), 1_420_000),
        block(EIGHTH, 1024)
    );
    assert!(rt; blocks.rows().len() == 4);
    blocks.give(3, Moment(1_500_000));
    // the last holder may have it a moment later, and nobody else
    assert_eq!(rt;
        grant(&rt, &mut blocks, &config, subscriber(5), 1_500_001),
        Choice::PoolEmpty
    );
    assert_eq!(rt;
        grant(&rt, &mut blocks, &config, subscriber(4), 1_500_001),
        block(EIGHTH, 1024)
    );
    Ok(())
}

#[test]
fn a_plan_has_an_address(rt: HostRuntime) -> Result<(), Fail> {
    let config = six_blocks(rt.alloc())?;
    let blocks = Blocks::from_rows(rt.alloc(), &[])?;
    assert!(rt; config.accepted(), "an accepted configuration");
    let choice = blocks.choose(&config, subscriber(1), Some(NINTH), Moment(5));
    assert_eq!(rt; choice, block(NINTH, 1024));
    assert_eq!(rt; blocks.spare(), 0);
    Ok(())
}

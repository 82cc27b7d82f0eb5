use super::*;
use aftr_base::{Ip6, Prefix6};
use std::test::Fail;

fn subscriber(number: u8) -> Subscriber {
    Subscriber(Prefix6 {
        bits: Ip6(u128::from(number)),
        len: 56,
    })
}

#[test]
fn counts(rt: HostRuntime) -> Result<(), Fail> {
    let mut counts = Counts::new(rt.alloc());
    let (first, second) = (subscriber(1), subscriber(2));
    let usage = Usage {
        mappings: 2,
        peers: 3,
        blocks: 1,
    };
    assert_eq!(rt; counts.spare(), 0);
    counts.reserve()?;
    counts.set(first, usage);
    assert_eq!(rt; counts.of(first), usage);
    assert_eq!(rt; counts.of(second), NOTHING);
    counts.set(first, NOTHING);
    assert_eq!(rt; counts.of(first), NOTHING);
    Ok(())
}

#[test]
fn limits(rt: HostRuntime) -> Result<(), Fail> {
    let config = Config::defaults(rt.alloc())?;
    let below = Usage {
        mappings: 4095,
        peers: 16383,
        blocks: 7,
    };
    let at = Usage {
        mappings: 4096,
        peers: 16384,
        blocks: 8,
    };
    assert!(rt;
        may_map(&below, &config) && may_peer(&below, &config) && may_block(&below, &config)
    );
    assert!(rt; !may_map(&at, &config) && !may_peer(&at, &config) && !may_block(&at, &config));
    Ok(())
}

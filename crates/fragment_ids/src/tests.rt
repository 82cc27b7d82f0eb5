use super::*;
use aftr_base::{Ip6, Prefix6};
use std::test::Fail;

fn subscriber(number: u8) -> Subscriber {
    Subscriber(Prefix6 {
        bits: Ip6(u128::from(number)),
        len: 56,
    })
}

#[test]
fn each_subscriber_from_zero(rt: HostRuntime) -> Result<(), Fail> {
    let mut ids = FragmentIds::new(rt.alloc());
    let (first, second) = (subscriber(1), subscriber(2));
    assert_eq!(rt; ids.next(first), 0);
    for _ in 0..3 {
        ids.reserve(first)?;
        ids.count(first);
    }
    ids.reserve(second)?;
    ids.count(second);
    assert_eq!(rt; ids.next(first), 3);
    assert_eq!(rt; ids.next(second), 1);
    assert_eq!(rt; ids.next(subscriber(3)), 0);
    Ok(())
}

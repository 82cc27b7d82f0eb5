use super::*;
use aftr_base::{Ext, InnerKey, Ip6, Moment, Prefix6, Proto, Subscriber};
use std::test::Fail;
use tcp_track::TcpState;

#[test]
fn by_address_and_for_all(rt: HostRuntime) -> Result<(), Fail> {
    let (known, other) = (Ip4(0xcb00_7105), Ip4(0xcb00_7106));
    let key = InnerKey {
        softwire: Ip6(0x2001_0db8_0100_0000_0000_0000_0000_0002),
        proto: Proto::Tcp,
        addr: Ip4(0xc000_0002),
        port: 5000,
    };
    let owner = Subscriber(Prefix6 {
        bits: Ip6(0x2001_0db8_0100_0000_0000_0000_0000_0000),
        len: 56,
    });
    let ext = Ext {
        addr: Ip4(0xc000_0208),
        port: 1024,
    };
    let peer = Peer {
        addr: known,
        port: 80,
        state: TcpState::Open,
        deadline: Moment(1000),
    };
    let row = Row {
        key,
        owner,
        ext,
        peers: Vec::from_slice(rt.alloc(), &[peer])?,
    };
    assert!(rt; admits(&row, known, true) && !admits(&row, other, true));
    assert!(rt; admits(&row, known, false) && admits(&row, other, false));
    Ok(())
}

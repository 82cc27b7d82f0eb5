use super::*;
use aftr_base::{Ext, InnerKey, Ip4, Ip6, Moment, NoMemory, Prefix6, Proto, Subscriber};
use std::test::Fail;
use tcp_track::TcpState;

const POOL: Ip4 = Ip4(0xc000_0208);

const OWNER: Subscriber = Subscriber(Prefix6 {
    bits: Ip6(0x2001_0db8_0100_0000_0000_0000_0000_0000),
    len: 56,
});

fn key(proto: Proto, port: u16) -> InnerKey {
    InnerKey {
        softwire: Ip6(0x2001_0db8_0100_0000_0000_0000_0000_0002),
        proto,
        addr: Ip4(0xc000_0002),
        port,
    }
}

fn place(port: u16) -> Ext {
    Ext { addr: POOL, port }
}

fn peer(port: u16, deadline: u64) -> Peer {
    Peer {
        addr: Ip4(0xcb00_7105),
        port,
        state: TcpState::Open,
        deadline: Moment(deadline),
    }
}

// a row of one peer, where its key and its place are unused
fn add(table: &mut Table, key: InnerKey, port: u16, peer: Peer) -> Result<bool, NoMemory> {
    let ext = place(port);
    if table.find_out(&key).is_some() {
        return Ok(false);
    }
    if table.find_in(key.proto, ext).is_some() {
        return Ok(false);
    }
    let _id = table.insert(key, OWNER, ext, peer)?;
    Ok(true)
}

// one peer more, or a later deadline
fn refresh(table: &mut Table, key: InnerKey, peer: Peer) -> Result<bool, NoMemory> {
    let Some(id) = table.find_out(&key) else {
        return Ok(false);
    };
    table.reserve(id)?;
    table.touch(id, peer);
    Ok(true)
}

#[test]
fn rows_come_and_go(rt: HostRuntime) -> Result<(), Fail> {
    let mut table = Table::new(rt.alloc());
    let (udp, tcp) = (key(Proto::Udp, 5000), key(Proto::Tcp, 5000));
    assert!(rt; add(&mut table, udp, 1024, peer(0, 1000))?);
    assert!(rt; !add(&mut table, udp, 1025, peer(0, 1000))?);
    assert!(rt; !add(&mut table, key(Proto::Udp, 5001), 1024, peer(0, 1000))?);
    assert!(rt; add(&mut table, tcp, 1024, peer(80, 2000))?);
    assert_eq!(rt; table.usage(OWNER), (2, 2));
    assert!(rt; !table.expire(Moment(999)) && table.expire(Moment(1000)));
    assert_eq!(rt; table.find_out(&udp), None);
    assert_eq!(rt; table.find_out(&tcp), Some(RowId(0)));
    assert!(rt; table.in_use(POOL, 1024, 1039) && !table.in_use(POOL, 1040, 1055));
    table.clear();
    assert_eq!(rt; table.usage(OWNER), (0, 0));
    Ok(())
}

#[test]
fn peers_come_and_go(rt: HostRuntime) -> Result<(), Fail> {
    let mut table = Table::new(rt.alloc());
    let tcp = key(Proto::Tcp, 5000);
    assert!(rt; add(&mut table, tcp, 1024, peer(80, 1000))?);
    assert!(rt; refresh(&mut table, tcp, peer(80, 3000))?);
    assert!(rt; refresh(&mut table, tcp, peer(443, 2000))?);
    assert_eq!(rt; table.usage(OWNER), (1, 2));
    assert!(rt; !table.expire(Moment(2000)));
    assert_eq!(rt; table.usage(OWNER), (1, 1));
    assert!(rt; table.expire(Moment(3000)));
    Ok(())
}

#[test]
fn the_least_port_that_is_free(rt: HostRuntime) -> Result<(), Fail> {
    let mut table = Table::new(rt.alloc());
    for port in [1024, 1025, 1027] {
        assert!(rt; add(&mut table, key(Proto::Udp, port), port, peer(0, 1000))?);
    }
    assert_eq!(rt; table.least_free(Proto::Udp, POOL, 1024, 1535), Some(1026));
    assert_eq!(rt; table.least_free(Proto::Udp, POOL, 1024, 1025), None);
    assert_eq!(rt; table.least_free(Proto::Tcp, POOL, 1024, 1025), Some(1024));
    assert_eq!(rt; table.least_free(Proto::Udp, POOL, 1027, 65535), Some(1028));
    assert_eq!(rt;
        table.least_free(Proto::Udp, POOL, 65535, 65535),
        Some(65535)
    );
    Ok(())
}

#[test]
fn a_search_marks_the_taken_ports(rt: HostRuntime) -> Result<(), Fail> {
    let mut table = Table::new(rt.alloc());
    let mut taken = TakenPorts::new(rt.alloc())?;
    for port in [1024, 1025, 1027] {
        assert!(rt; add(&mut table, key(Proto::Udp, port), port, peer(0, 1000))?);
    }
    let found = table.search(&key(Proto::Udp, 5000), OWNER, Some(POOL), &mut taken);
    assert_eq!(rt; (found.row, found.before.rows), (None, 3));
    assert_eq!(rt; taken.least_free(1024, 1535), Some(1026));
    assert_eq!(rt; taken.least_free(1024, 1025), None);
    let _found = table.search(&key(Proto::Tcp, 5000), OWNER, Some(POOL), &mut taken);
    assert_eq!(rt; taken.least_free(1024, 1025), Some(1024));
    Ok(())
}

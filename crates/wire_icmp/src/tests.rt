//! Worked messages, read.
ghost use Rattle.std.specs.Prelude.{◌<◌};

use crate::quoted::quoted_in;
use crate::{Embedded, IcmpBad, IcmpKind, IcmpView};
use aftr_base::{Ext, Ip4, Proto};
use std::test::Fail;

// a router's Time Exceeded about a TCP segment from 192.0.2.8 port 1024 to 203.0.113.5 port 80
const TIME_EXCEEDED: [u8; 36] = [
    0x0b, 0, 0xf0, 0xae, 0, 0, 0, 0, 0x45, 0, 0, 0x28, 0, 2, 0x40, 0, 1, 6, 0x7b, 0xc0, 0xc0, 0, 2,
    8, 0xcb, 0, 0x71, 5, 4, 0, 0, 0x50, 0, 0, 0, 1,
];

// a Destination Unreachable about a UDP datagram from 192.0.0.2 port 5016 to 203.0.113.5 port 53
const UNREACHABLE: [u8; 36] = [
    3, 1, 0xbd, 0xeb, 0, 0, 0, 0, 0x45, 0, 0, 0x20, 0, 1, 0, 0, 0x40, 0x11, 0x7e, 0xc4, 0xc0, 0, 0,
    2, 0xcb, 0, 0x71, 5, 0x13, 0x98, 0, 0x35, 0, 0x0c, 0x2b, 0x3a,
];

// an echo request with the identifier 7 and nothing to echo
const ECHO: [u8; 8] = [8, 0, 0xf7, 0xf8, 0, 7, 0, 0];

// what is shown of a quoted packet, and how many bytes follow its header
fn ends(quoted: Option<Embedded<'_>>) -> Option<(Proto, Ext, Ext, usize)> {
    let quoted = quoted?;
    Some((quoted.proto, quoted.src, quoted.dst, quoted.rest.len()))
}

fn place(addr: u32, port: u16) -> Ext {
    Ext {
        addr: Ip4(addr),
        port,
    }
}

#[test]
fn reads_errors(rt: HostRuntime) -> Result<(), Fail> {
    let message = IcmpView::read(&TIME_EXCEEDED)?;
    assert_eq!(rt; message.kind(), IcmpKind::Fault);
    let server = place(0xcb00_7105, 80);
    let client = place(0xc000_0208, 1024);
    assert_eq!(rt;
        ends(message.embedded()),
        Some((Proto::Tcp, client, server, 8))
    );
    let message = IcmpView::read(&UNREACHABLE)?;
    assert_eq!(rt; message.kind(), IcmpKind::Fault);
    let server = place(0xcb00_7105, 53);
    let client = place(0xc000_0002, 5016);
    assert_eq!(rt;
        ends(message.embedded()),
        Some((Proto::Udp, client, server, 8))
    );
    Ok(())
}

#[test]
fn reads_queries(rt: HostRuntime) -> Result<(), Fail> {
    let message = IcmpView::read(&ECHO)?;
    assert_eq!(rt; message.kind(), IcmpKind::EchoRequest);
    assert_eq!(rt; message.id(), 7);
    assert_eq!(rt; ends(message.embedded()), None);
    let message = IcmpView::read(&[0, 0, 0xff, 0xf8, 0, 7, 0, 0])?;
    assert_eq!(rt; message.kind(), IcmpKind::EchoReply);
    let message = IcmpView::read(&[13, 0, 0xf2, 0xf8, 0, 7, 0, 0])?;
    assert_eq!(rt; message.kind(), IcmpKind::Other);
    Ok(())
}

#[test]
fn refuses(rt: HostRuntime) {
    let short = IcmpView::read(&ECHO[..7]).map(|message| message.id());
    assert_eq!(rt; short, Err(IcmpBad::Short));
    let unsound = IcmpView::read(&[8, 0, 0xf7, 0xf8, 0, 8, 0, 0]).map(|message| message.id());
    assert_eq!(rt; unsound, Err(IcmpBad::Sum));
}

// whether the quoted packet of the first error can be translated, with one of its bytes changed
fn is_usable(at: usize, value: u8) -> bool
    requires { at < 28 }
{
    let mut bytes = TIME_EXCEEDED;
    bytes[8 + at] = value;
    quoted_in(&bytes[8..]).is_some()
}

#[test]
fn usable_quotes(rt: HostRuntime) {
    // the header's length, and a version 6
    assert!(rt; !is_usable(0, 0x46));
    assert!(rt; !is_usable(0, 0x65));
    // its total length and its checksum don't count, nor that more pieces follow
    assert!(rt; is_usable(3, 0));
    assert!(rt; is_usable(11, 0));
    assert!(rt; is_usable(6, 0x20));
    assert!(rt; !is_usable(7, 1));
    // UDP, then another protocol, then ICMP that is no echo message
    assert!(rt; is_usable(9, 17));
    assert!(rt; !is_usable(9, 47));
    assert!(rt; !is_usable(9, 1));
    // too little of it
    assert!(rt; quoted_in(&TIME_EXCEEDED[8..35]).is_none());
}

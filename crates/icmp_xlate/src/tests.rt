//! Worked errors, translated and made. What comes out was computed from scratch, checksums too.
ghost use Rattle.std.specs.Prelude.{◌≡◌, IfSome, true, false};
ghost use Rattle.wire_ip4.specs.Grammar.{Header};
ghost use Rattle.wire_icmp.specs.Quoted.{Report, quoted_place};
ghost use Rattle.icmp_xlate.specs.Translated.{SpellsError};

use crate::{IcmpError, MadeError, error_in, error_out, make_error};
use aftr_base::{Ext, Ip4, List, NoMemory};
use std::alloc::Global;
use std::test::Fail;
use wire_icmp::{IcmpKind, IcmpView};
use wire_ip4::Ip4View;

// a router's Time Exceeded about a TCP segment from 192.0.2.8 port 1024 to 203.0.113.5 port 80
const ERROR_IN: [u8; 56] = [
    0x45, 0, 0, 0x38, 0, 3, 0, 0, 0x3a, 1, 0x94, 0x85, 0xc6, 0x33, 0x64, 1, 0xc0, 0, 2, 8, 0x0b, 0,
    0xf0, 0xae, 0, 0, 0, 0, 0x45, 0, 0, 0x28, 0, 2, 0x40, 0, 1, 6, 0x7b, 0xc0, 0xc0, 0, 2, 8, 0xcb,
    0, 0x71, 5, 4, 0, 0, 0x50, 0, 0, 0, 1,
];

// the same for 192.0.0.2 port 5000, with the TTL that it came with
const ERROR_INSIDE: [u8; 56] = [
    0x45, 0, 0, 0x38, 0, 3, 0, 0, 0x3a, 1, 0x96, 0x8b, 0xc6, 0x33, 0x64, 1, 0xc0, 0, 0, 2, 0x0b, 0,
    0xe1, 0x26, 0, 0, 0, 0, 0x45, 0, 0, 0x28, 0, 2, 0x40, 0, 1, 6, 0x7d, 0xc6, 0xc0, 0, 0, 2, 0xcb,
    0, 0x71, 5, 0x13, 0x88, 0, 0x50, 0, 0, 0, 1,
];

// the same one hop on
const ERROR_ARRIVED: [u8; 56] = [
    0x45, 0, 0, 0x38, 0, 3, 0, 0, 0x39, 1, 0x97, 0x8b, 0xc6, 0x33, 0x64, 1, 0xc0, 0, 0, 2, 0x0b, 0,
    0xe1, 0x26, 0, 0, 0, 0, 0x45, 0, 0, 0x28, 0, 2, 0x40, 0, 1, 6, 0x7d, 0xc6, 0xc0, 0, 0, 2, 0xcb,
    0, 0x71, 5, 0x13, 0x88, 0, 0x50, 0, 0, 0, 1,
];

// 192.0.0.2 reports on a UDP datagram from 203.0.113.5 port 53 to its port 5000, and what 192.0.2.8 reports of port 1024
const UDP_INSIDE: [u8; 60] = [
    0x45, 0, 0, 0x3c, 0, 9, 0, 0, 0x40, 1, 0x7e, 0xb0, 0xc0, 0, 0, 2, 0xcb, 0, 0x71, 5, 3, 3, 0xf9,
    0x22, 0, 0, 0, 0, 0x45, 0, 0, 0x20, 0, 7, 0, 0, 0x3c, 0x11, 0x82, 0xbe, 0xcb, 0, 0x71, 5, 0xc0,
    0, 0, 2, 0, 0x35, 0x13, 0x88, 0, 0x0c, 0x2b, 0x4a, 0x61, 0x62, 0x63, 0x64,
];

const UDP_OUT: [u8; 60] = [
    0x45, 0, 0, 0x3c, 0, 9, 0, 0, 0x40, 1, 0x7c, 0xaa, 0xc0, 0, 2, 8, 0xcb, 0, 0x71, 5, 3, 3, 0xfb,
    0x28, 0, 0, 0, 0, 0x45, 0, 0, 0x20, 0, 7, 0, 0, 0x3c, 0x11, 0x80, 0xb8, 0xcb, 0, 0x71, 5, 0xc0,
    0, 2, 8, 0, 0x35, 4, 0, 0, 0x0c, 0x38, 0xcc, 0x61, 0x62, 0x63, 0x64,
];

// the same one hop on
const UDP_LEFT: [u8; 60] = [
    0x45, 0, 0, 0x3c, 0, 9, 0, 0, 0x3f, 1, 0x7d, 0xaa, 0xc0, 0, 2, 8, 0xcb, 0, 0x71, 5, 3, 3, 0xfb,
    0x28, 0, 0, 0, 0, 0x45, 0, 0, 0x20, 0, 7, 0, 0, 0x3c, 0x11, 0x80, 0xb8, 0xcb, 0, 0x71, 5, 0xc0,
    0, 2, 8, 0, 0x35, 4, 0, 0, 0x0c, 0x38, 0xcc, 0x61, 0x62, 0x63, 0x64,
];

// and where the datagram came from 192.0.0.3 port 5353, behind 203.0.113.5 port 53
const UDP_TURNED: [u8; 60] = [
    0x45, 0, 0, 0x3c, 0, 9, 0, 0, 0x3f, 1, 0xf9, 0xac, 0xc0, 0, 2, 8, 0xc0, 0, 0, 3, 3, 3, 0x7f,
    0x26, 0, 0, 0, 0, 0x45, 0, 0, 0x20, 0, 7, 0, 0, 0x3c, 0x11, 0xfc, 0xba, 0xc0, 0, 0, 3, 0xc0, 0,
    2, 8, 0x14, 0xe9, 4, 0, 0, 0x0c, 0xa0, 0x1a, 0x61, 0x62, 0x63, 0x64,
];

// the same of a datagram without a checksum
const UDP_UNCHECKED_INSIDE: [u8; 60] = [
    0x45, 0, 0, 0x3c, 0, 9, 0, 0, 0x40, 1, 0x7e, 0xb0, 0xc0, 0, 0, 2, 0xcb, 0, 0x71, 5, 3, 3, 0x24,
    0x6d, 0, 0, 0, 0, 0x45, 0, 0, 0x20, 0, 7, 0, 0, 0x3c, 0x11, 0x82, 0xbe, 0xcb, 0, 0x71, 5, 0xc0,
    0, 0, 2, 0, 0x35, 0x13, 0x88, 0, 0x0c, 0, 0, 0x61, 0x62, 0x63, 0x64,
];

const UDP_UNCHECKED_OUT: [u8; 60] = [
    0x45, 0, 0, 0x3c, 0, 9, 0, 0, 0x40, 1, 0x7c, 0xaa, 0xc0, 0, 2, 8, 0xcb, 0, 0x71, 5, 3, 3, 0x33,
    0xf5, 0, 0, 0, 0, 0x45, 0, 0, 0x20, 0, 7, 0, 0, 0x3c, 0x11, 0x80, 0xb8, 0xcb, 0, 0x71, 5, 0xc0,
    0, 2, 8, 0, 0x35, 4, 0, 0, 0x0c, 0, 0, 0x61, 0x62, 0x63, 0x64,
];

// the same of a TCP segment from port 80, of which 18 bytes are there
const TCP_INSIDE: [u8; 66] = [
    0x45, 0, 0, 0x42, 0, 9, 0, 0, 0x40, 1, 0x7e, 0xaa, 0xc0, 0, 0, 2, 0xcb, 0, 0x71, 5, 3, 3, 0xf9,
    0x1f, 0, 0, 0, 0, 0x45, 0, 0, 0x28, 0, 7, 0, 0, 0x3c, 6, 0x82, 0xc1, 0xcb, 0, 0x71, 5, 0xc0, 0,
    0, 2, 0, 0x50, 0x13, 0x88, 0, 0, 0, 5, 0, 0, 0, 0, 0x50, 2, 0xff, 0xff, 0x9f, 0xfd,
];

const TCP_OUT: [u8; 66] = [
    0x45, 0, 0, 0x42, 0, 9, 0, 0, 0x40, 1, 0x7c, 0xa4, 0xc0, 0, 2, 8, 0xcb, 0, 0x71, 5, 3, 3, 0xfb,
    0x25, 0, 0, 0, 0, 0x45, 0, 0, 0x28, 0, 7, 0, 0, 0x3c, 6, 0x80, 0xbb, 0xcb, 0, 0x71, 5, 0xc0, 0,
    2, 8, 0, 0x50, 4, 0, 0, 0, 0, 5, 0, 0, 0, 0, 0x50, 2, 0xff, 0xff, 0xad, 0x7f,
];

// the same of one of which 17 bytes are there
const TCP_CUT_INSIDE: [u8; 65] = [
    0x45, 0, 0, 0x41, 0, 9, 0, 0, 0x40, 1, 0x7e, 0xab, 0xc0, 0, 0, 2, 0xcb, 0, 0x71, 5, 3, 3, 0xfa,
    0x1c, 0, 0, 0, 0, 0x45, 0, 0, 0x28, 0, 7, 0, 0, 0x3c, 6, 0x82, 0xc1, 0xcb, 0, 0x71, 5, 0xc0, 0,
    0, 2, 0, 0x50, 0x13, 0x88, 0, 0, 0, 5, 0, 0, 0, 0, 0x50, 2, 0xff, 0xff, 0x9f,
];

const TCP_CUT_OUT: [u8; 65] = [
    0x45, 0, 0, 0x41, 0, 9, 0, 0, 0x40, 1, 0x7c, 0xa5, 0xc0, 0, 2, 8, 0xcb, 0, 0x71, 5, 3, 3, 9,
    0xa5, 0, 0, 0, 0, 0x45, 0, 0, 0x28, 0, 7, 0, 0, 0x3c, 6, 0x80, 0xbb, 0xcb, 0, 0x71, 5, 0xc0, 0,
    2, 8, 0, 0x50, 4, 0, 0, 0, 0, 5, 0, 0, 0, 0, 0x50, 2, 0xff, 0xff, 0x9f,
];

// the same of an echo reply, whose identifier is 7 inside
const ECHO_INSIDE: [u8; 58] = [
    0x45, 0, 0, 0x3a, 0, 9, 0, 0, 0x40, 1, 0x7e, 0xb2, 0xc0, 0, 0, 2, 0xcb, 0, 0x71, 5, 3, 3, 0xfc,
    0xfc, 0, 0, 0, 0, 0x45, 0, 0, 0x1e, 0, 7, 0, 0, 0x3c, 1, 0x82, 0xd0, 0xcb, 0, 0x71, 5, 0xc0, 0,
    0, 2, 0, 0, 0x9e, 0x96, 0, 7, 0, 0, 0x61, 0x62,
];

const ECHO_OUT: [u8; 58] = [
    0x45, 0, 0, 0x3a, 0, 9, 0, 0, 0x40, 1, 0x7c, 0xac, 0xc0, 0, 2, 8, 0xcb, 0, 0x71, 5, 3, 3, 0xfc,
    0xfc, 0, 0, 0, 0, 0x45, 0, 0, 0x1e, 0, 7, 0, 0, 0x3c, 1, 0x80, 0xca, 0xcb, 0, 0x71, 5, 0xc0, 0,
    2, 8, 0, 0, 0x9a, 0x9d, 4, 0, 0, 0, 0x61, 0x62,
];

// a UDP datagram from 192.0.0.2 port 5016
const DATAGRAM: [u8; 32] = [
    0x45, 0, 0, 0x20, 0, 1, 0, 0, 0x40, 0x11, 0x7e, 0xc4, 0xc0, 0, 0, 2, 0xcb, 0, 0x71, 5, 0x13,
    0x98, 0, 0x35, 0, 0x0c, 0x2b, 0x3a, 0x61, 0x62, 0x63, 0x64,
];

// and that its host is unreachable
const UNREACHABLE: [u8; 56] = [
    0x45, 0, 0, 0x38, 0, 0, 0x40, 0, 0x40, 1, 0xba, 0xc1, 0xc0, 0, 0, 1, 0xc0, 0, 0, 2, 3, 1, 0xbd,
    0xeb, 0, 0, 0, 0, 0x45, 0, 0, 0x20, 0, 1, 0, 0, 0x40, 0x11, 0x7e, 0xc4, 0xc0, 0, 0, 2, 0xcb, 0,
    0x71, 5, 0x13, 0x98, 0, 0x35, 0, 0x0c, 0x2b, 0x3a,
];

// that it is longer than 1,500 bytes
const TOO_BIG: [u8; 56] = [
    0x45, 0, 0, 0x38, 0, 0, 0x40, 0, 0x40, 1, 0xba, 0xc1, 0xc0, 0, 0, 1, 0xc0, 0, 0, 2, 3, 4, 0xb8,
    0x0c, 0, 0, 5, 0xdc, 0x45, 0, 0, 0x20, 0, 1, 0, 0, 0x40, 0x11, 0x7e, 0xc4, 0xc0, 0, 0, 2, 0xcb,
    0, 0x71, 5, 0x13, 0x98, 0, 0x35, 0, 0x0c, 0x2b, 0x3a,
];

// that its time is exceeded
const TIME_EXCEEDED: [u8; 56] = [
    0x45, 0, 0, 0x38, 0, 0, 0x40, 0, 0x40, 1, 0xba, 0xc1, 0xc0, 0, 0, 1, 0xc0, 0, 0, 2, 0x0b, 0,
    0xb5, 0xec, 0, 0, 0, 0, 0x45, 0, 0, 0x20, 0, 1, 0, 0, 0x40, 0x11, 0x7e, 0xc4, 0xc0, 0, 0, 2,
    0xcb, 0, 0x71, 5, 0x13, 0x98, 0, 0x35, 0, 0x0c, 0x2b, 0x3a,
];

// a packet of another protocol with three bytes, before two more that don't count
const SHORT: [u8; 25] = [
    0x45, 0, 0, 0x17, 0, 5, 0, 0, 1, 0x2f, 0xbd, 0xab, 0xc0, 0, 0, 2, 0xcb, 0, 0x71, 5, 0x61, 0x62,
    0x63, 0x7a, 0x7a,
];

// that its time is exceeded
const ABOUT_SHORT: [u8; 51] = [
    0x45, 0, 0, 0x33, 0, 0, 0x40, 0, 0x40, 1, 0xba, 0xc6, 0xc0, 0, 0, 1, 0xc0, 0, 0, 2, 0x0b, 0,
    0x30, 0x9d, 0, 0, 0, 0, 0x45, 0, 0, 0x17, 0, 5, 0, 0, 1, 0x2f, 0xbd, 0xab, 0xc0, 0, 0, 2, 0xcb,
    0, 0x71, 5, 0x61, 0x62, 0x63,
];

fn place(addr: u32, port: u16) -> Ext {
    Ext {
        addr: Ip4(addr),
        port,
    }
}

// the source place and the destination place of what the error in these bytes quotes
fn places(packet: &[u8]) -> Option<(Ext, Ext)>
    ensures { IfSome result (λ places. (h : Header) × (r : Report) × SpellsError packet.now h r
        × (quoted_place true r.quoted ≡ places.0) × (quoted_place false r.quoted ≡ places.1)) }
{
    let Ok(view) = Ip4View::read(packet) else {
        return None;
    };
    let payload = view.payload();
    if view.has_options() || packet.len() != 20 + payload.len() {
        return None;
    }
    let Ok(message) = IcmpView::read(payload) else {
        return None;
    };
    let quoted = message.embedded()?;
    Some((quoted.src, quoted.dst))
}

// translates the error in these bytes on its way in or out, where it is one
fn translate(packet: &mut [u8], inbound: bool, new: Ext) -> bool {
    let Some((src, dst)) = places(packet) else {
        return false;
    };
    if inbound {
        error_in(packet, src, new);
    } else {
        error_out(packet, dst, new);
    }
    true
}

#[test]
fn errors_on_their_way_in(rt: HostRuntime) {
    let mut packet = ERROR_IN;
    assert!(rt; translate(&mut packet, true, place(0xc000_0002, 5000)));
    assert_eq!(rt; packet, ERROR_INSIDE);
}

#[test]
fn errors_on_their_way_out(rt: HostRuntime) {
    let external = place(0xc000_0208, 1024);
    let mut packet = UDP_INSIDE;
    assert!(rt; translate(&mut packet, false, external));
    assert_eq!(rt; packet, UDP_OUT);
    let mut packet = UDP_UNCHECKED_INSIDE;
    assert!(rt; translate(&mut packet, false, external));
    assert_eq!(rt; packet, UDP_UNCHECKED_OUT);
    let mut packet = TCP_INSIDE;
    assert!(rt; translate(&mut packet, false, external));
    assert_eq!(rt; packet, TCP_OUT);
    let mut packet = TCP_CUT_INSIDE;
    assert!(rt; translate(&mut packet, false, external));
    assert_eq!(rt; packet, TCP_CUT_OUT);
    let mut packet = ECHO_INSIDE;
    assert!(rt; translate(&mut packet, false, external));
    assert_eq!(rt; packet, ECHO_OUT);
}

// the error about the packet at the front of these bytes, or none where it isn't one without options
fn about(error: MadeError, bytes: &[u8], alloc: Global) -> Result<Option<List<u8>>, NoMemory> {
    let Ok(view) = Ip4View::read(bytes) else {
        return Ok(None);
    };
    if view.has_options() {
        return Ok(None);
    }
    let mut out = List::new(alloc);
    make_error(error, bytes, &mut out)?;
    Ok(Some(out))
}

fn is_made(made: Option<List<u8>>, bytes: &[u8]) -> bool {
    match made {
        Some(list) => list.as_slice() == bytes,
        None => false,
    }
}

#[test]
fn made_errors(rt: HostRuntime) -> Result<(), Fail> {
    let unreachable = about(MadeError::HostUnreachable, &DATAGRAM, rt.alloc())?;
    assert!(rt; is_made(unreachable, &UNREACHABLE));
    let too_big = about(MadeError::TooBig(1500), &DATAGRAM, rt.alloc())?;
    assert!(rt; is_made(too_big, &TOO_BIG));
    let exceeded = about(MadeError::TimeExceeded, &DATAGRAM, rt.alloc())?;
    assert!(rt; is_made(exceeded, &TIME_EXCEEDED));
    let exceeded = about(MadeError::TimeExceeded, &SHORT, rt.alloc())?;
    assert!(rt; is_made(exceeded, &ABOUT_SHORT));
    // about an error none is made, about an echo reply one is
    let none = about(MadeError::TimeExceeded, &ERROR_IN, rt.alloc())?;
    assert!(rt; is_made(none, &[]));
    Ok(())
}

// the error in these bytes
fn whole(bytes: &[u8]) -> Option<IcmpError<'_>> {
    let Ok(packet) = Ip4View::read(bytes) else {
        return None;
    };
    let fields = packet.fields();
    if packet.has_options() || fields.ttl < 2 || fields.proto != 1 {
        return None;
    }
    let Ok(message) = IcmpView::read(packet.payload()) else {
        return None;
    };
    match message.kind() {
        IcmpKind::Fault => IcmpError::read(packet),
        IcmpKind::EchoRequest | IcmpKind::EchoReply | IcmpKind::Other => None,
    }
}

// the error in these bytes as it goes on, or nothing where there is none
fn sent_on(bytes: &[u8], source: bool, new: Ext, alloc: Global) -> Result<Vec<u8>, NoMemory> {
    match whole(bytes) {
        Some(error) => error.translated(alloc, source, new),
        None => Ok(Vec::new(alloc)),
    }
}

// the same as it turns back
fn turned(bytes: &[u8], src: Ext, dst: Ext, alloc: Global) -> Result<Vec<u8>, NoMemory> {
    match whole(bytes) {
        Some(error) => error.hairpinned(alloc, src, dst),
        None => Ok(Vec::new(alloc)),
    }
}

#[test]
fn errors_one_hop_on(rt: HostRuntime) -> Result<(), Fail> {
    let external = place(0xc000_0208, 1024);
    let arrived = sent_on(&ERROR_IN, false, place(0xc000_0002, 5000), rt.alloc())?;
    assert!(rt; arrived.as_slice() == ERROR_ARRIVED.as_slice());
    let left = sent_on(&UDP_INSIDE, true, external, rt.alloc())?;
    assert!(rt; left.as_slice() == UDP_LEFT.as_slice());
    let back = turned(&UDP_INSIDE, external, place(0xc000_0003, 5353), rt.alloc())?;
    assert!(rt; back.as_slice() == UDP_TURNED.as_slice());
    Ok(())
}

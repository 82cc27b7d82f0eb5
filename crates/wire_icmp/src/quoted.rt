//! The packet that an ICMP error quotes.
ghost use Rattle.std.specs.Prelude.{◌≡◌, ◌≤◌, length, option_map};
ghost use Rattle.aftr_base.specs.Bytes.{u16_at};
ghost use Rattle.wire_icmp.specs.Quoted.{ends_of, quoted_of, quoted_transport, shown_quoted, shown_in};

use aftr_base::{Ext, Proto, u16_in};
use wire_ip4::{Ip4Fields, Ip4View};

/// The packet that an error quotes, of which at least 8 bytes behind the header are there.
#[derive(Clone, Copy, Debug)]
pub struct Embedded<'a> {
    /// The fields of its header, which has no options.
    pub fields: Ip4Fields,
    /// The protocol of what follows the header.
    pub proto: Proto,
    /// Where it came from: the source address and port, or an echo message's identifier.
    pub src: Ext,
    /// Where it went: the destination address and port, or an echo message's identifier.
    pub dst: Ext,
    /// The bytes behind its header, 8 at least.
    pub rest: &'a [u8],
}

/// The packet at the front of these bytes, which are those behind the 8 that every error begins with.
pub(crate) fn quoted_in(bytes: &[u8]) -> Option<Embedded<'_>>
    ensures { option_map shown_in result ≡ option_map shown_quoted (quoted_of bytes.now) }
{
    let Ok(packet) = Ip4View::front(bytes) else {
        return None;
    };
    let fields = packet.fields();
    if packet.has_options() || fields.offset != 0 {
        return None;
    }
    let rest = packet.payload();
    let (proto, src, dst) = ends(fields.proto, rest)?;
    Some(Embedded {
        fields,
        proto,
        src: Ext {
            addr: fields.src,
            port: src,
        },
        dst: Ext {
            addr: fields.dst,
            port: dst,
        },
        rest,
    })
}

// the protocol with the source's port and the destination's, or with an identifier twice
fn ends(number: u8, bytes: &[u8]) -> Option<(Proto, u16, u16)>
    ensures { result ≡ option_map ends_of (quoted_transport number bytes.now) }
{
    if bytes.len() < 8 {
        return None;
    }
    match number {
        17 => Some(ports(Proto::Udp, bytes)),
        6 => Some(ports(Proto::Tcp, bytes)),
        1 => identifier(bytes),
        _ => None,
    }
}

// the ports at the front of a UDP or TCP header
fn ports(proto: Proto, bytes: &[u8]) -> (Proto, u16, u16)
    requires { 8 ≤ length bytes.now }
    ensures { result ≡ (proto, u16_at 0 bytes.now, u16_at 2 bytes.now) }
{
    (proto, u16_in(bytes, 0), u16_in(bytes, 2))
}

// the identifier of an echo message, for both ends
fn identifier(bytes: &[u8]) -> Option<(Proto, u16, u16)>
    requires { 8 ≤ length bytes.now }
    ensures { result ≡ option_map ends_of (quoted_transport 1 bytes.now) }
{
    if bytes[0] != 8 && bytes[0] != 0 {
        return None;
    }
    let id = u16_in(bytes, 4);
    Some((Proto::Icmp, id, id))
}

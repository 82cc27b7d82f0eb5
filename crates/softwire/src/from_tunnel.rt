//! Taking the IPv4 packet out of an IPv6 packet (RFC 2473 3.3, RFC 6333 5.1).
ghost use Rattle.std.specs.Prelude.{◌≡◌};
ghost use Rattle.wire_ip6.specs.Chain.{chain_in};
ghost use Rattle.softwire.specs.Tunnel.{decapsulated, tunnel_in, tunnel_of};

use aftr_base::Ip6;
use wire_ip6::{Chain, Ip6View, walk};

/// What came through a softwire.
#[derive(Clone, Copy, Debug)]
pub struct Tunnel<'a> {
    /// The other end of the softwire: the packet's source.
    pub softwire: Ip6,
    /// The IPv4 packet, or a piece of one: `Inner` or `Piece`.
    pub chain: Chain<'a>,
}

/// Why bytes carry no packet for this end of a softwire: the first that applies.
#[derive(Clone, Copy, Debug, PartialEq, Eq)]
pub enum DecapBad {
    /// They are no IPv6 packet, or an extension header is longer than its payload.
    Packet,
    /// The packet's destination is another.
    NotUs,
    /// Behind its extension headers stands neither an IPv4 packet nor a piece of one.
    NotTunnel,
}

/// What the packet in these bytes carries to `aftr`, this end of the softwire.
pub fn decap(bytes: &[u8], aftr: Ip6) -> Result<Tunnel<'_>, DecapBad>
    ensures { tunnel_in result ≡ decapsulated aftr bytes.now }
{
    let Ok(packet) = Ip6View::read(bytes) else {
        return Err(DecapBad::Packet);
    };
    let fields = packet.fields();
    if fields.dst != aftr {
        return Err(DecapBad::NotUs);
    }
    carried(fields.src, walk(fields.next, packet.payload(), false))
}

// What a packet from this softwire carries, whose chain of extension headers ends so.
fn carried(softwire: Ip6, chain: Chain<'_>) -> Result<Tunnel<'_>, DecapBad>
    ensures { tunnel_in result ≡ tunnel_of softwire (chain_in chain.entry) }
{
    match chain {
        Chain::Inner(_) | Chain::Piece(_, _) => Ok(Tunnel { softwire, chain }),
        Chain::NotTunnel => Err(DecapBad::NotTunnel),
        Chain::Broken => Err(DecapBad::Packet),
    }
}

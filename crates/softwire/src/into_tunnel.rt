//! Putting an IPv4 packet into an IPv6 packet (RFC 2473 3.1, RFC 6333 5.1).
ghost use Rattle.std.specs.Prelude.{◌≡◌, ◌≤◌, ◌+◌, [], ◌∷◌, ◌++◌, false, length, IfOk, OnErr, OnOk};
ghost use Rattle.softwire.specs.Tunnel.{carrier, Arrives, IsReadAs};

use aftr_base::{Ip6, NoMemory, Packets};
use arrayvec::ArrayVec;
use wire_ip6::{Ip6Fields, write_header};

/// The number of an IPv4 packet behind an IPv6 header.
const IPV4: u8 = 4;
/// The hop limit of the packets that are sent (RFC 2473 6.3).
const HOPS: u8 = 64;

/// Adds the IPv6 packet that carries an IPv4 packet from `aftr` to the other end of the softwire, with
/// this traffic class. `mtu` bounds the packet's bytes, its 40 bytes of header among them. Only a packet
/// that fits is taken, so it answers that none was cut: `encap_cut` takes the others too. `id` isn't
/// used, as it is the identification of a packet that is cut. `NoMemory` changes nothing.
pub fn encap(
    inner: &[u8],
    class: u8,
    aftr: Ip6,
    softwire: Ip6,
    mtu: u16,
    id: u32,
    out: &mut Packets,
) -> Result<bool, NoMemory>
    requires fits { 40 + length inner.now ≤ mtu }
    ensures whole { IfOk result (λ cut. cut ≡ false) }
    ensures ok { OnOk result (out.new ≡ out.old ++ carrier aftr softwire class inner.now ∷ []) }
    ensures err { OnErr result (out.new ≡ out.old) }
    ensures reads_back { OnOk result (IsReadAs aftr softwire class inner.now) }
    ensures arrives { OnOk result (Arrives aftr softwire class inner.now) }
{
    let header = Ip6Fields {
        class,
        payload: inner.len() as u16,
        next: IPV4,
        hops: HOPS,
        src: aftr,
        dst: softwire,
    };
    let mut front = ArrayVec::new();
    write_header(&header, &mut front);
    let mut packet = Vec::from_slice(out.allocator(), front.as_slice())?;
    packet.extend_from_slice(inner)?;
    out.push(packet)?;
    Ok(false)
}

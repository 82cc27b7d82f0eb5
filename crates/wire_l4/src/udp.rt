//! UDP datagrams (RFC 768).
ghost use Rattle.std.specs.Prelude.{◌≡◌, IfOk, Ok};
ghost use Rattle.wire_l4.specs.Grammar.{Segment, SpellsUdp, udp_of};

use crate::L4Bad;
use aftr_base::u16_in;
use std::marker::Model;

/// A UDP datagram, read in place. Contracts see its fields.
#[derive(Debug, Drop)]
pub struct UdpView<'a> {
    bytes: &'a [u8],
}

impl<'a> Model for UdpView<'a> {
    ghost use Rattle.std.specs.Prelude.{◌≤◌, length};
    ghost use Rattle.wire_l4.specs.Grammar.{Segment, segment_at};

    ghost Value = { Segment };

    ghost view = { λ v. segment_at 6 v.bytes.now };

    ghost invariant = { λ v. 8 ≤ length v.bytes.now };
}

impl<'a> UdpView<'a> {
    /// The datagram of these bytes, which are those behind an IPv4 header. Bytes past the length
    /// field are kept.
    /// `Short` under 8 bytes; `Len` where the length field is under 8 or past the bytes.
    pub fn read(bytes: &'a [u8]) -> Result<UdpView<'a>, L4Bad>
        ensures value { result ≡ udp_of bytes.now }
        ensures spelled { IfOk result (λ s. SpellsUdp bytes.now s) }
        ensures accepts { (s : Segment) → SpellsUdp bytes.now s → udp_of bytes.now ≡ Ok s }
    {
        if bytes.len() < 8 {
            return Err(L4Bad::Short);
        }
        let len = usize::from(u16_in(bytes, 4));
        if len < 8 || bytes.len() < len {
            return Err(L4Bad::Len);
        }
        Ok(UdpView { bytes })
    }

    /// The source port and the destination port.
    pub fn ports(&self) -> (u16, u16)
        ensures { result ≡ (self.now.src, self.now.dst) }
    {
        (u16_in(self.bytes, 0), u16_in(self.bytes, 2))
    }
}

//! TCP segments (RFC 9293 section 3.1).
ghost use Rattle.std.specs.Prelude.{◌≡◌, IfOk, Ok};
ghost use Rattle.wire_l4.specs.Grammar.{Segment, SpellsTcp, tcp_flags, tcp_of};

use crate::L4Bad;
use aftr_base::u16_in;
use std::marker::Model;

/// A TCP segment, read in place. Contracts see its fields.
#[derive(Debug, Drop)]
pub struct TcpView<'a> {
    bytes: &'a [u8],
}

impl<'a> Model for TcpView<'a> {
    ghost use Rattle.std.specs.Prelude.{◌≤◌, length};
    ghost use Rattle.wire_l4.specs.Grammar.{Segment, segment_at};

    ghost Value = { Segment };

    ghost view = { λ v. segment_at 16 v.bytes.now };

    ghost invariant = { λ v. 20 ≤ length v.bytes.now };
}

impl<'a> TcpView<'a> {
    /// The segment of these bytes, which are those behind an IPv4 header. `Short` under 20 bytes;
    /// `Offset` where the data offset is under 5 words of four bytes or past the bytes.
    pub fn read(bytes: &'a [u8]) -> Result<TcpView<'a>, L4Bad>
        ensures value { result ≡ tcp_of bytes.now }
        ensures spelled { IfOk result (λ s. SpellsTcp bytes.now s) }
        ensures accepts { (s : Segment) → SpellsTcp bytes.now s → tcp_of bytes.now ≡ Ok s }
    {
        if bytes.len() < 20 {
            return Err(L4Bad::Short);
        }
        let offset = usize::from(bytes[12] / 16);
        if offset < 5 || bytes.len() < 4 * offset {
            return Err(L4Bad::Offset);
        }
        Ok(TcpView { bytes })
    }

    /// The source port and the destination port.
    pub fn ports(&self) -> (u16, u16)
        ensures { result ≡ (self.now.src, self.now.dst) }
    {
        (u16_in(self.bytes, 0), u16_in(self.bytes, 2))
    }

    /// The eight control bits: CWR, ECE, URG, ACK, PSH, RST, SYN and FIN, which is the lowest.
    pub fn flags(&self) -> u8
        ensures { result ≡ tcp_flags self.now }
    {
        self.bytes[13]
    }
}

//! ICMP messages, read in place.
ghost use Rattle.std.specs.Prelude.{◌≡◌, IfOk, Ok, Some, option_map};
ghost use Rattle.wire_l4.specs.Grammar.{Echo, echo_bytes};
ghost use Rattle.wire_icmp.specs.Grammar.{SpellsMessage, kind_of, message_of};
ghost use Rattle.wire_icmp.specs.Quoted.{Report, SpellsReport, report_of, shown, shown_in};

use crate::quoted::{Embedded, quoted_in};
use aftr_base::{sum16, u16_in};
use std::marker::Model;

/// Why bytes are no ICMP message: the first that applies.
#[derive(Clone, Copy, Debug, PartialEq, Eq)]
pub enum IcmpBad {
    /// There are fewer than 8 bytes.
    Short,
    /// The checksum is wrong.
    Sum,
}

/// What a message is for, by its type.
#[derive(Clone, Copy, Debug, PartialEq, Eq)]
pub enum IcmpKind {
    /// An echo request, type 8.
    EchoRequest,
    /// An echo reply, type 0.
    EchoReply,
    /// An error: Destination Unreachable, Time Exceeded or Parameter Problem, types 3, 11 and 12.
    Fault,
    /// Any other message.
    Other,
}

/// A message, read in place. Contracts see its fields as those of an echo message.
#[derive(Debug, Drop)]
pub struct IcmpView<'a> {
    bytes: &'a [u8],
}

impl<'a> Model for IcmpView<'a> {
    ghost use Rattle.std.specs.Prelude.{◌≤◌, length};
    ghost use Rattle.aftr_base.specs.Bytes.{IsBytes};
    ghost use Rattle.wire_l4.specs.Grammar.{Echo, echo_of};

    ghost Value = { Echo };

    ghost view = { λ v. echo_of v.bytes.now };

    ghost invariant = { λ v. (8 ≤ length v.bytes.now) × IsBytes v.bytes.now };
}

impl<'a> IcmpView<'a> {
    /// The message of these bytes, which are all those behind an IPv4 header. `Short` under 8 bytes;
    /// `Sum` where the bytes don't bear their checksum. It takes time linear in their number.
    pub fn read(bytes: &'a [u8]) -> Result<IcmpView<'a>, IcmpBad>
        ensures value { result ≡ message_of bytes.now }
        ensures spelled { IfOk result (λ m. SpellsMessage bytes.now m) }
        ensures accepts { (m : Echo) → SpellsMessage bytes.now m → message_of bytes.now ≡ Ok m }
    {
        if bytes.len() < 8 {
            return Err(IcmpBad::Short);
        }
        if sum16(bytes) != 65535 {
            return Err(IcmpBad::Sum);
        }
        Ok(IcmpView { bytes })
    }

    /// What the message is for.
    pub fn kind(&self) -> IcmpKind
        ensures { result ≡ kind_of self.now.kind }
    {
        match self.bytes[0] {
            8 => IcmpKind::EchoRequest,
            0 => IcmpKind::EchoReply,
            3 | 11 | 12 => IcmpKind::Fault,
            _ => IcmpKind::Other,
        }
    }

    /// The identifier of an echo message: the two bytes behind the checksum, whatever the message is.
    pub fn id(&self) -> u16
        ensures { result ≡ self.now.id }
    {
        u16_in(self.bytes, 4)
    }

    /// The packet that an error quotes, where it can be translated: its header has 20 bytes, its
    /// fragment offset is 0, at least 8 bytes follow the header, and these are TCP's, UDP's or an echo
    /// message's. Neither the quoted packet's length nor its header's checksum is looked at, since it
    /// may be cut off. Whether the message is an error, `kind` says.
    pub fn embedded(&self) -> Option<Embedded<'a>>
        ensures value { option_map shown_in result
            ≡ option_map shown (report_of (echo_bytes self.now)) }
        ensures spelled { (r : Report) → report_of (echo_bytes self.now) ≡ Some r
            → SpellsReport (echo_bytes self.now) r }
        ensures accepts { (r : Report) → SpellsReport (echo_bytes self.now) r
            → report_of (echo_bytes self.now) ≡ Some r }
    {
        quoted_in(&self.bytes[8..])
    }
}
